//! The laws of what is told of rotations. Each function is a law: its contract is the statement, and it does nothing.
ghost use Rattle.std.specs.Prelude.{◌≡◌, ℕ, List};
ghost use Rattle.std.specs.List.{flat_map};
ghost use Rattle.calendar_dates.specs.Days.{Day};
ghost use Rattle.csv.specs.Writing.{default_writer, row_text};
ghost use Rattle.fleet_model.specs.declared.tables.Tables.{Tables};
ghost use Rattle.lines_of_flying.specs.ground_turns.Maps.{IsTour};
ghost use Rattle.lines_of_flying.specs.Lines.{days_of_tour};
ghost use Rattle.euler_rotation.specs.FleetRotations.{AllTellUse, AreRotations, TellsUse, all_told_by_plan, told_by_plan};
ghost use Rattle.euler_rotation.specs.declared.fleet_rotation.FleetRotation.{FleetRotation};
ghost use Rattle.rotation_report.specs.RotationRecords.{rotation_records, rotation_text};
ghost use Rattle.rotation_report.specs.RotationWords.{days_used, rotation_words};
ghost use Rattle.rotation_report.specs.TailLaws.{ComesToNextLine, EachAircraftFliesAll, EachDateIsItsOwn, EachLegOnItsDay, FollowsNextAircraft};
ghost use Rattle.rotation_report.specs.Tails.{tails_text};

/// The days that records say of a tour are those that words say of it.
pub fn tour_days_are_use()
    ensures { (t : Tables) (a : List ℕ) (f : ℕ) (tour : List ℕ) → IsTour t a f tour → days_of_tour t f tour ≡ days_used t a f }
{}

/// Where rotations say what their plan uses of each fleet, words and lines of tails are those by the plan.
pub fn told_by_the_plan()
    ensures words { (t : Tables) (a : List ℕ) (f : ℕ) (made : FleetRotation) → TellsUse t a f made → rotation_words t made ≡ rotation_words t (told_by_plan t a f made) }
    ensures tails { (t : Tables) (a : List ℕ) (rotations : List FleetRotation) (past : ℕ) (first : Day) (count : ℕ) → AllTellUse t a rotations
        → tails_text t rotations past first count ≡ tails_text t (all_told_by_plan t a rotations) past first count }
{}

/// The text of rotations is what the default writer of `csv` writes of its records: no field calls for quotes.
pub fn rotations_are_written_as_csv()
    ensures { (t : Tables) (rotations : List FleetRotation) (visits : ℕ) → AreRotations t rotations
        → rotation_text t rotations visits ≡ flat_map (row_text default_writer) (rotation_records t rotations visits) }
{}

/// The lines of tails, over the tour. On each date its legs of that day of the period are flown once each, each aircraft
/// comes to the next line each day and so flies the whole tour, and a period later it flies what the next aircraft flew. What
/// is told of a date is the same whichever date is the first.
pub fn tails_fly_the_tour()
    ensures each_date { EachLegOnItsDay }
    ensures each_aircraft { EachAircraftFliesAll }
    ensures next_line { ComesToNextLine }
    ensures next_aircraft { FollowsNextAircraft }
    ensures own_date { EachDateIsItsOwn }
{}
