//! The laws of answers: each contract is the statement, and the functions do nothing.
ghost use Rattle.std.specs.Prelude.{◌≡◌};
ghost use Rattle.folder_answers.specs.declared.status.TheConstants.{BAD_INPUT, DONE, FALLEN, FAULT, GAP, INFEASIBLE, NO_MEMORY, REFUSED, UNPLACED, UNSETTLED, USAGE};

/// The statuses in numbers.
pub fn statuses_in_numbers()
    ensures done { DONE ≡ 0 }
    ensures usage { USAGE ≡ 2 }
    ensures gap { GAP ≡ 3 }
    ensures infeasible { INFEASIBLE ≡ 4 }
    ensures unsettled { UNSETTLED ≡ 5 }
    ensures bad_input { BAD_INPUT ≡ 6 }
    ensures fault { FAULT ≡ 7 }
    ensures no_memory { NO_MEMORY ≡ 8 }
    ensures refused { REFUSED ≡ 9 }
    ensures unplaced { UNPLACED ≡ 10 }
    ensures fallen { FALLEN ≡ 11 }
{}
