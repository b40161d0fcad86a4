//! The laws of bounds and of proof texts, over all tables, subproblems, prices and trees. Each function is a law: its
//! contract is the statement, and it does nothing.
ghost use Rattle.std.specs.Prelude.{◌≡◌, ◌^◌, ◌-◌, ℕ, Bool, List, All, Ok, pos};
ghost use Rattle.fleet_model.specs.declared.tables.Tables.{Tables};
ghost use Rattle.dual_bound.specs.Duality.{CeilingIsLowerBound, WeakDuality, WorthIsLowerBound, WorthRefutes, ZeroIsProper};
ghost use Rattle.bound_cert.specs.FirstFault.{FirstFaultIsFixed, LinesBeforeBeginProof};
ghost use Rattle.bound_cert.specs.Lines.{left_of};
ghost use Rattle.bound_cert.specs.Nodes.{proof_at};
ghost use Rattle.dual_bound.specs.Nodes.{nodes_of};
ghost use Rattle.dual_bound.specs.OfTables.{IsOfTables};
ghost use Rattle.bound_cert.specs.ProofText.{proof_lines, proof_text};
ghost use Rattle.bound_cert.specs.ReadProof.{IsTextOf};
ghost use Rattle.bound_cert.specs.Words.{IsOfWords, IsPlainLine};
ghost use Rattle.dual_bound.specs.WrittenOrder.{InWrittenOrder, IsShallow};
ghost use Rattle.bound_cert.specs.declared.faults.TheConstants.{BAD_LINE, TEXT_ENDS, TOO_DEEP, UNKNOWN_NAME, WRONG_HEAD, WRONG_NUMBER, WRONG_ORDER, WRONG_WIDTH, WRONG_WORD};
ghost use Rattle.dual_bound.specs.declared.trees.TheConstants.{MAX_DEPTH};
ghost use Rattle.dual_bound.specs.declared.prices.TheConstants.{MAX_PRICE, MAX_SCALE, MAX_SIZE};
ghost use Rattle.dual_bound.specs.declared.trees.Tree.{Tree};

/// Each line of a proof is of one or more words, each of one or more bytes from 33 to 126.
pub fn lines_are_of_words()
    ensures { (t : Tables) (planned : Bool) (tree : Tree) → IsOfTables t tree → All IsOfWords (proof_lines t planned tree) }
{}

/// Each line of a proof has bytes from 32 to 126 alone before its line feed.
pub fn lines_are_plain()
    ensures { (t : Tables) (planned : Bool) (tree : Tree) → IsOfTables t tree → All IsPlainLine (proof_lines t planned tree) }
{}

/// Proofs of one text have the same lines, word for word.
pub fn text_tells_lines()
    ensures { (t u : Tables) (a b : Bool) (x y : Tree) → IsOfTables t x → IsOfTables u y → proof_text t a x ≡ proof_text u b y
        → proof_lines t a x ≡ proof_lines u b y }
{}

/// The text of a proof whose tree is in written order, and no deeper than a reader takes, reads as that proof.
pub fn reads_what_was_written()
    ensures { (t : Tables) (planned : Bool) (tree : Tree) → InWrittenOrder t tree → IsShallow tree
        → proof_at t (left_of (proof_text t planned tree)) ≡ Ok (planned, nodes_of tree) }
{}

/// Proofs of one text are one, where their trees are in written order and no deeper than a reader takes.
pub fn one_text()
    ensures { (t : Tables) (a b : Bool) (x y : Tree) → InWrittenOrder t x → IsShallow x → InWrittenOrder t y → IsShallow y → proof_text t a x ≡ proof_text t b y
        → (a ≡ b) × (nodes_of x ≡ nodes_of y) }
{}

/// A text that reads as a proof is the text of that proof in some version, and its tree is in written order and no
/// deeper than a reader takes.
pub fn text_of_reading()
    ensures { (t : Tables) (bytes : List ℕ) (planned : Bool) (tree : Tree) → proof_at t (left_of bytes) ≡ Ok (planned, nodes_of tree)
        → IsTextOf t bytes planned tree }
{}

/// Such a text reads as that proof, in whichever version of the tables it is.
pub fn reads_each_version()
    ensures { (t : Tables) (bytes : List ℕ) (planned : Bool) (tree : Tree) → IsTextOf t bytes planned tree
        → proof_at t (left_of bytes) ≡ Ok (planned, nodes_of tree) }
{}

/// The first fault of a text rests on the lines up to and with its own, and behind a step of value 0 at minute 0 on the
/// next one too: texts that have these in common have their first fault in common.
pub fn first_fault_is_fixed()
    ensures { FirstFaultIsFixed }
{}

/// The lines before a first fault begin a proof, where no more of them are trims and splits than may stand above a node.
pub fn lines_before_begin_proof()
    ensures { LinesBeforeBeginProof }
{}

/// The kinds of faults of a proof's text in numbers.
pub fn kinds_in_numbers()
    ensures wrong_head { WRONG_HEAD ≡ 1 }
    ensures bad_line { BAD_LINE ≡ 2 }
    ensures text_ends { TEXT_ENDS ≡ 3 }
    ensures wrong_word { WRONG_WORD ≡ 4 }
    ensures wrong_width { WRONG_WIDTH ≡ 5 }
    ensures wrong_number { WRONG_NUMBER ≡ 6 }
    ensures unknown_name { UNKNOWN_NAME ≡ 7 }
    ensures wrong_order { WRONG_ORDER ≡ 8 }
    ensures too_deep { TOO_DEEP ≡ 9 }
{}
