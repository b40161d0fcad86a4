//! The law of what is told of named tails. The function is a law: its contract is the statement, and it does nothing.
ghost use Rattle.std.specs.Prelude.{◌≡◌, ℕ, List, Option};
ghost use Rattle.calendar_dates.specs.Days.{Day};
ghost use Rattle.due_report.specs.Lines.{due_text};
ghost use Rattle.euler_rotation.specs.FleetRotations.{AllTellUse, all_told_by_plan};
ghost use Rattle.euler_rotation.specs.declared.fleet_rotation.FleetRotation.{FleetRotation};
ghost use Rattle.fleet_model.specs.declared.tables.Tables.{Tables};
ghost use Rattle.tail_dates.specs.declared.placing.Placed.{Placed};
ghost use Rattle.tail_dates.specs.declared.tails.TailState.{TailState};

/// Where rotations say what their plan uses of each fleet, the lines of named tails are those by the plan.
pub fn due_by_the_plan()
    ensures { (t : Tables) (a : List ℕ) (rotations : List FleetRotation) (tails : List TailState) (placings : List (Option Placed)) (first : Day) (count : ℕ)
        → AllTellUse t a rotations → due_text t rotations tails placings first count ≡ due_text t (all_told_by_plan t a rotations) tails placings first count }
{}
