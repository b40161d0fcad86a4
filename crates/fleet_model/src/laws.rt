//! The laws of need and use, over all tables and weights, of kept pairs and of mixed plans. Each function is a law:
//! its contract is the statement, and it does nothing.
ghost use Rattle.std.specs.Prelude.{◌≡◌, ◌<◌, ℕ, List, pos};
ghost use Rattle.fleet_model.specs.declared.limits.TheConstants.{MAX_AIRCRAFT, MAX_CHOICES, MAX_COST, MAX_DEPARTURES, MAX_FLEETS, MAX_GROUND_MINUTES, MAX_LEAST_NIGHT, MAX_LEGS, MAX_PARKING, MAX_PERIOD, MAX_SHIFT, MAX_SHIFTS, MAX_STATIONS, MAX_THROUGHS, MAX_TRIPLES, MINUTES_PER_DAY};
ghost use Rattle.fleet_model.specs.declared.refusals.TheConstants.{BAD_FIELD, DUPLICATE, NOT_TEXT, TOO_LONG, TOO_MANY, TOO_MANY_CHOICES, TOO_MANY_OF_FLIGHT, TO_ITSELF, UNKNOWN_FLEET, UNKNOWN_FLIGHT, UNKNOWN_STATION, WRONG_HEADER, WRONG_WIDTH, ZERO_BLOCK};
ghost use Rattle.fleet_model.specs.declared.tables.Tables.{Tables};
ghost use Rattle.fleet_model.specs.Legal.{IsAssignment};
ghost use Rattle.fleet_model.specs.Schedule.{fleets_in};
ghost use Rattle.fleet_model.specs.Laws.{AllowedIsKept, BareHasNone, CountsAreLegs, KeptIsAllowed, NeedIsAtDepartures, NeedIsLeast, NeedSuffices, LapsAreNights, SoleIsOne, UseIsConstant, UseIsNeedAndNights};
ghost use Rattle.fleet_model.specs.LeftOut.{StepsAreFew};
ghost use Rattle.fleet_model.specs.Mixed.{LegalIsMixed};
ghost use Rattle.fleet_model.specs.OtherSizes.{OtherSizeStands};
ghost use Rattle.fleet_model.specs.Whole.{WholeIsLegal};

/// With `need` aircraft at the day start a fleet never lacks one at the station.
pub fn need_suffices()
    ensures { NeedSuffices }
{}

/// A stock with which a fleet never lacks an aircraft at the station is at least `need`.
pub fn need_is_least()
    ensures { NeedIsLeast }
{}

/// Need is the greatest excess of departures over arrivals at those minutes in which the fleet departs.
pub fn need_is_at_departures()
    ensures { NeedIsAtDepartures }
{}

/// At each minute the flights of a fleet under way and its aircraft on the ground sum to those that it uses,
/// balanced or not.
pub fn use_is_constant()
    ensures { UseIsConstant }
{}

/// Where the period is one day, laps are nights.
pub fn laps_are_nights()
    ensures { LapsAreNights }
{}

/// Where the period is one day, a fleet uses by an assignment the aircraft that it needs at all stations at the day start,
/// and one for each night of its legs.
pub fn use_is_need_and_nights()
    ensures { UseIsNeedAndNights }
{}

/// By the weights of an assignment, departures and arrivals are numbers of its legs.
pub fn counts_are_legs()
    ensures { (t : Tables) (a : List ℕ) (f s m : ℕ) → IsAssignment t a → f < fleets_in t → CountsAreLegs t a f s m }
{}

/// An assignment that is allowed, as each legal one is, is of kept pairs where all pairs are kept.
pub fn allowed_is_kept()
    ensures { AllowedIsKept }
{}

/// An assignment of kept pairs is allowed where all pairs are kept.
pub fn kept_is_allowed()
    ensures { KeptIsAllowed }
{}

/// Where a leg keeps no choice, no assignment is of kept pairs.
pub fn bare_has_none()
    ensures { BareHasNone }
{}

/// Where each leg keeps one choice, any two assignments of kept pairs are equal.
pub fn sole_is_one()
    ensures { SoleIsOne }
{}

/// Where all pairs are kept, no more is left to step than legs may have pairs by which they are flown.
pub fn steps_are_few()
    ensures { StepsAreFew }
{}

/// A legal assignment of kept pairs is a mixed plan of scale 1, of the same cost.
pub fn legal_is_mixed()
    ensures { LegalIsMixed }
{}

/// A mixed plan in which each pair has all of its leg or nothing is a legal assignment of kept pairs.
pub fn whole_is_legal()
    ensures { WholeIsLegal }
{}

/// There are tables with another number of aircraft of one fleet, for each number that a fleet may have.
pub fn other_size_stands()
    ensures { OtherSizeStands }
{}

/// The limits of tables in numbers, how long the day is, and how many days a period has at most.
pub fn limits_in_numbers()
    ensures stations { MAX_STATIONS ≡ 200 }
    ensures fleets { MAX_FLEETS ≡ 20 }
    ensures legs { MAX_LEGS ≡ 1000 }
    ensures shifts { MAX_SHIFTS ≡ 9 }
    ensures shift { MAX_SHIFT ≡ pos 720 }
    ensures choices { MAX_CHOICES ≡ 181 }
    ensures departures { MAX_DEPARTURES ≡ 9000 }
    ensures triples { MAX_TRIPLES ≡ 20000 }
    ensures throughs { MAX_THROUGHS ≡ 2000 }
    ensures aircraft { MAX_AIRCRAFT ≡ 500 }
    ensures ground_minutes { MAX_GROUND_MINUTES ≡ 600 }
    ensures least_night { MAX_LEAST_NIGHT ≡ 1440 }
    ensures parking { MAX_PARKING ≡ 10000 }
    ensures cost { MAX_COST ≡ pos 1000000000000 }
    ensures day { MINUTES_PER_DAY ≡ 1440 }
    ensures period { MAX_PERIOD ≡ 7 }
{}

/// The kinds of faults of tables in numbers.
pub fn kinds_in_numbers()
    ensures wrong_header { WRONG_HEADER ≡ 1 }
    ensures wrong_width { WRONG_WIDTH ≡ 2 }
    ensures not_text { NOT_TEXT ≡ 3 }
    ensures bad_field { BAD_FIELD ≡ 4 }
    ensures duplicate { DUPLICATE ≡ 5 }
    ensures unknown_station { UNKNOWN_STATION ≡ 6 }
    ensures unknown_flight { UNKNOWN_FLIGHT ≡ 7 }
    ensures unknown_fleet { UNKNOWN_FLEET ≡ 8 }
    ensures zero_block { ZERO_BLOCK ≡ 9 }
    ensures to_itself { TO_ITSELF ≡ 10 }
    ensures too_many { TOO_MANY ≡ 11 }
    ensures too_long { TOO_LONG ≡ 12 }
    ensures too_many_of_flight { TOO_MANY_OF_FLIGHT ≡ 13 }
    ensures too_many_choices { TOO_MANY_CHOICES ≡ 14 }
{}
