//! Laws of the run, and of the tables that any steps reach, each a function whose contract is the law.

ghost use Rattle.simplex_frac.specs.Bases.{NoBasisTwice, PivotsAreFew};
ghost use Rattle.simplex_frac.specs.Duality.{RunHasTables, RunHasUnitColumns, RunIsReached, RunKeepsRightSides, RunReadsOff};
ghost use Rattle.simplex_frac.specs.Finished.{HasOneEnd};
ghost use Rattle.simplex_frac.specs.LastTables.{BasicPointMeets, BestTells, NoPointTells, RayIsDirection};
ghost use Rattle.simplex_frac.specs.Laws.{HasOneOutcome, RunKeepsPoints, RunKeepsShape, RunKeepsSurplus};
ghost use Rattle.simplex_frac.specs.BasicPoints.{StepsMeetAtCost};
ghost use Rattle.simplex_frac.specs.ReachedTables.{StepsHaveTables, StepsHaveUnitColumns, StepsReadOff};
ghost use Rattle.simplex_frac.specs.StepLaws.{StepsKeepPoints, StepsKeepShape, StepsKeepSurplus};

/// Steps reach each table of the run of a problem, so that it tells what all tables tell that steps reach.
pub fn run_is_reached()
    ensures { RunIsReached }
{}

/// A point meets the lines of the run's table after so many pivots exactly where it meets those of the
/// first table.
pub fn run_keeps_points()
    ensures { RunKeepsPoints }
{}

/// For a point that meets the lines the surplus of each row over its denominator stays, so that the cost
/// row of every table tells what the point costs.
pub fn run_keeps_surplus()
    ensures { RunKeepsSurplus }
{}

/// Each table of the run has the first one's shape, and its basis a column for each line.
pub fn run_keeps_shape()
    ensures { RunKeepsShape }
{}

/// A run within a budget has one outcome, so that `solve` answers each one exactly where its cause holds.
pub fn has_one_outcome()
    ensures { HasOneOutcome }
{}

/// A run without a budget has one end, so that `finish` answers each one exactly where its cause holds.
pub fn has_one_end()
    ensures { HasOneEnd }
{}

/// Each table of the run of a problem has a row for each line and two more, a column for each real one and
/// each line and one more, positive denominators, and a basic column for each line.
pub fn run_has_tables()
    ensures { RunHasTables }
{}

/// Each row of each table of the run is the lines, as many times each as its numbers in the identity block
/// say, so that prices can be read off there.
pub fn run_reads_off()
    ensures { RunReadsOff }
{}

/// Each basic column is a unit column: it has its own row's denominator there, and 0 in all other rows, the
/// phase row and the cost row among them.
pub fn run_has_unit_columns()
    ensures { RunHasUnitColumns }
{}

/// Where no right side of the lines is below 0, none of any table of the run is.
pub fn run_keeps_right_sides()
    ensures { RunKeepsRightSides }
{}

/// Where no right side of the lines is below 0, no two tables of the run have the same columns in their bases
/// (Bland 1977), so the run ends.
pub fn no_basis_twice()
    ensures { NoBasisTwice }
{}

/// There the run has fewer pivots than there are ways to choose a column for each line.
pub fn pivots_are_few()
    ensures { PivotsAreFew }
{}

/// At the best the phase row and, where that is 0, the cost row are below 0 in no real column, and the right
/// side of the phase row is 0.
pub fn best_tells()
    ensures { BestTells }
{}

/// Where the run ends at no point, the phase row is below 0 in no real column, but at its right side.
pub fn no_point_tells()
    ensures { NoPointTells }
{}

/// The basic point of the best table meets the lines, at the cost that the cost row tells.
pub fn basic_point_meets()
    ensures { BasicPointMeets }
{}

/// At a ray there is a direction in which its column rises, the lines stay met, and the cost falls.
pub fn ray_is_direction()
    ensures { RayIsDirection }
{}

/// A point meets the lines of a reached table exactly where it meets those of the first table.
pub fn steps_keep_points()
    ensures { StepsKeepPoints }
{}

/// For a point that meets the lines the surplus of each row over its denominator stays, so that the cost
/// row of every reached table tells what the point costs.
pub fn steps_keep_surplus()
    ensures { StepsKeepSurplus }
{}

/// Each reached table has the first one's shape, and its basis a column for each line.
pub fn steps_keep_shape()
    ensures { StepsKeepShape }
{}

/// Each table that is reached from a problem's first one has a row for each line and two more, a column for each
/// real one and each line and one more, positive denominators, and a basic column for each line.
pub fn steps_have_tables()
    ensures { StepsHaveTables }
{}

/// Each row of a reached table is the lines, as many times each as its numbers in the identity block say, so
/// that prices can be read off there.
pub fn steps_read_off()
    ensures { StepsReadOff }
{}

/// Each basic column is a unit column: it has its own row's denominator there, and 0 in all other rows, the
/// phase row and the cost row among them.
pub fn steps_have_unit_columns()
    ensures { StepsHaveUnitColumns }
{}

/// Where the basic columns of the identity block have right side 0, the basic point meets the lines, at the cost
/// that the cost row tells.
pub fn steps_meet_at_cost()
    ensures { StepsMeetAtCost }
{}
