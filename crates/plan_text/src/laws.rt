//! The laws of plan texts, over all tables. Each function is a law: its contract is the statement, and it does
//! nothing.
ghost use Rattle.std.specs.Prelude.{◌≡◌, ℕ, List};
ghost use Rattle.std.specs.List.{flat_map};
ghost use Rattle.csv.specs.Writing.{default_writer, row_text};
ghost use Rattle.csv_fields.specs.Record.{records_of};
ghost use Rattle.fleet_model.specs.Legal.{IsAssignment};
ghost use Rattle.fleet_model.specs.declared.tables.Tables.{Tables};
ghost use Rattle.plan_text.specs.Reading.{PlanReads, ReadsOrNot};
ghost use Rattle.plan_text.specs.Text.{plan_records, plan_text};
ghost use Rattle.plan_text.specs.declared.faults.TheConstants.{UNKNOWN_CHOICE, WRONG_COUNT, WRONG_FIELDS, WRONG_FLIGHT, WRONG_HEADER};

/// Any records are those of one plan, or they have one first fault, and not both.
pub fn reads_or_not()
    ensures { (t : Tables) (records : List (List (List ℕ))) → ReadsOrNot t records }
{}

/// The text of a plan reads as that plan.
pub fn reads_what_was_written()
    ensures { (t : Tables) (a : List ℕ) → IsAssignment t a → PlanReads t (records_of (plan_text t a)) a }
{}

/// The text of a plan is what the default writer of `csv` writes of its records: no name calls for quotes.
pub fn is_written_as_csv()
    ensures { (t : Tables) (a : List ℕ) → IsAssignment t a → plan_text t a ≡ flat_map (row_text default_writer) (plan_records t a) }
{}

/// The kinds of faults of a plan's text in numbers.
pub fn kinds_in_numbers()
    ensures wrong_header { WRONG_HEADER ≡ 1 }
    ensures wrong_fields { WRONG_FIELDS ≡ 2 }
    ensures wrong_flight { WRONG_FLIGHT ≡ 3 }
    ensures unknown_choice { UNKNOWN_CHOICE ≡ 4 }
    ensures wrong_count { WRONG_COUNT ≡ 5 }
{}
