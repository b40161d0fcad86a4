//! The law of runs over the lines of a subproblem: its contract is the statement, and it does nothing.
ghost use Rattle.price_lift.specs.Laws.{NoRays};

/// No table of the run over the lines of a subproblem is a ray.
pub fn no_rays()
    ensures { NoRays }
{}
