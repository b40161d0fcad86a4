/// How a run ended: the exit status of the program.
#[derive(Clone, Copy)]
pub struct Status {
    /// One of the numbers below.
    pub code: u8,
}

/// Judged legal, or solved: the plan that is written is optimal.
pub const DONE: u8 = 0;

/// The words match no command, or a value is out of its range.
pub const USAGE: u8 = 2;

/// Solved with a gap: a plan is written, and an open subproblem has a bound below its cost.
pub const GAP: u8 = 3;

/// Infeasible: no assignment is legal.
pub const INFEASIBLE: u8 = 4;

/// Unsettled: no plan is written, and a subproblem is open.
pub const UNSETTLED: u8 = 5;

/// A table or a file is refused.
pub const BAD_INPUT: u8 = 6;

/// A fault of the desk or of the sink was counted.
pub const FAULT: u8 = 7;

/// Want of memory.
pub const NO_MEMORY: u8 = 8;

/// A plan or a proof is refused, or a fleet is unknown.
pub const REFUSED: u8 = 9;

/// A fleet's tails are not as many as its aircraft, or can't all come to maintenance in time.
pub const UNPLACED: u8 = 10;

/// A proof says nothing of another number of aircraft: a leaf that it refutes isn't refuted there.
pub const FALLEN: u8 = 11;
