//! The laws of answers: each contract is the statement, and the functions do nothing.
ghost use Rattle.fleet_cli.specs.Laws.{OneAnswer};
ghost use Rattle.fleet_cli.specs.MadeSolved.{MadeIsSolved};
ghost use Rattle.fleet_cli.specs.SolvedChecked.{SolvedIsChecked};

pub use folder_answers::laws::statuses_in_numbers;

/// What is held and what is asked fix the status and the text, so that each status comes exactly by its cause.
pub fn one_answer()
    ensures { OneAnswer }
{}

/// A run of making is one of solving by the defaults over a desk on which the made tables stand, so all that holds of
/// solving holds of it.
pub fn made_is_solved()
    ensures { MadeIsSolved }
{}

/// Where a run gave a solution, checking the same folder by the same day start and days of the period answers that the
/// proof holds, whatever the longest wait of a through pair was or is. The premise is what `run` ensures of solving
/// (`answer`); nothing is asked of the lengths of the files.
pub fn solved_is_checked()
    ensures { SolvedIsChecked }
{}
