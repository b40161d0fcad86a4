//! The laws of lines, over all tables and lines. Each function is a law: its contract is the statement, and it does
//! nothing.
ghost use Rattle.std.specs.Prelude.{◌≡◌, codes, false, neg_ℤ, pos, true};
ghost use Rattle.fleet_model.specs.declared.tables.Tables.{Tables};
ghost use Rattle.proof_lines.specs.Flaws.{kind_of};
ghost use Rattle.proof_lines.specs.Laws.{LinesAreOfWords, OneText, ReadsAsWritten, WrittenAsRead};
ghost use Rattle.proof_lines.specs.LineText.{line_bytes};
ghost use Rattle.proof_lines.specs.declared.flaws.Flaw.TheVariants as flaw;
ghost use Rattle.proof_lines.specs.declared.line.Line.TheVariants as line;
ghost use Rattle.proof_lines.specs.declared.line.Version.TheVariants as version;

/// What is written reads as itself.
pub fn reads_as_written()
    ensures { ReadsAsWritten }
{}

/// What reads as a line is what that line is written as.
pub fn written_as_read()
    ensures { WrittenAsRead }
{}

/// No two lines have one text.
pub fn one_text()
    ensures { OneText }
{}

/// A line is of words, none of which a space breaks.
pub fn lines_are_of_words()
    ensures { LinesAreOfWords }
{}

/// The kinds of flaws in numbers.
pub fn kinds_in_numbers()
    ensures byte { kind_of flaw.Byte ≡ 2 }
    ensures word { kind_of flaw.Word ≡ 4 }
    ensures width { kind_of flaw.Width ≡ 5 }
    ensures number { kind_of flaw.Number ≡ 6 }
    ensures name { kind_of flaw.Name ≡ 7 }
{}

/// The lines that name nothing, in letters.
pub fn lines_in_letters()
    ensures head { (t : Tables) → line_bytes t (line.Head version.One) ≡ codes "fleet proof 1" }
    ensures head_of_charges { (t : Tables) → line_bytes t (line.Head version.Two) ≡ codes "fleet proof 2" }
    ensures head_of_shifts { (t : Tables) → line_bytes t (line.Head version.Three) ≡ codes "fleet proof 3" }
    ensures plan { (t : Tables) → line_bytes t (line.Plan true) ≡ codes "plan yes" }
    ensures no_plan { (t : Tables) → line_bytes t (line.Plan false) ≡ codes "plan no" }
    ensures sole { (t : Tables) → line_bytes t line.Sole ≡ codes "sole" }
    ensures refuted { (t : Tables) → line_bytes t line.Refuted ≡ codes "refuted" }
    ensures priced { (t : Tables) → line_bytes t line.Priced ≡ codes "priced" }
    ensures nodes { (t : Tables) → line_bytes t line.OpenNodes ≡ codes "open nodes" }
    ensures pivots { (t : Tables) → line_bytes t (line.OpenPivots 7) ≡ codes "open pivots 7" }
    ensures grew { (t : Tables) → line_bytes t (line.OpenGrew 1 2 3) ≡ codes "open grew 1 2 3" }
    ensures lift { (t : Tables) → line_bytes t (line.OpenLift 4 5) ≡ codes "open lift 4 5" }
    ensures scale { (t : Tables) → line_bytes t (line.Scale (pos 10)) ≡ codes "scale 10" }
    ensures mixed { (t : Tables) → line_bytes t (line.Mixed (pos 2)) ≡ codes "mixed 2" }
    ensures end { (t : Tables) → line_bytes t line.End ≡ codes "end" }
{}
