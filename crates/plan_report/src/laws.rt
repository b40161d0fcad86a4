//! The law of summaries. The function is a law: its contract is the statement, and it does nothing.
ghost use Rattle.std.specs.Prelude.{◌≡◌, List, ℕ};
ghost use Rattle.dual_bound.specs.declared.solved.Solved.{Solved};
ghost use Rattle.euler_rotation.specs.FleetRotations.{AllTellUse, all_told_by_plan};
ghost use Rattle.euler_rotation.specs.declared.fleet_rotation.FleetRotation.{FleetRotation};
ghost use Rattle.fleet_model.specs.declared.tables.Tables.{Tables};
ghost use Rattle.plan_report.specs.Json.{json_text};
ghost use Rattle.plan_report.specs.Summary.{summary_text};

/// Where rotations say what a plan uses of each fleet, a summary in lines and as JSON is the one by the plan.
pub fn summary_by_the_plan()
    ensures lines { (t : Tables) (a : List ℕ) (solved : Solved) (rotations : List FleetRotation) → AllTellUse t a rotations
        → summary_text t solved rotations ≡ summary_text t solved (all_told_by_plan t a rotations) }
    ensures json { (t : Tables) (a : List ℕ) (solved : Solved) (rotations : List FleetRotation) → AllTellUse t a rotations
        → json_text t solved rotations ≡ json_text t solved (all_told_by_plan t a rotations) }
{}
