//! The laws of islands, over all tables. Each function is a law: its contract is the statement, and it does nothing.
ghost use Rattle.std.specs.Prelude.{◌≡◌, ◌<◌, ◌↔◌, ℕ, Contains, true};
ghost use Rattle.fleet_model.specs.Schedule.{period_of, stations_in};
ghost use Rattle.fleet_model.specs.declared.tables.Tables.{Tables};
ghost use Rattle.node_aggregate.specs.island_cut.IslandLaws.{IdleIsEmpty, IdleIsEmptyInPlans, PaybackLaw, SomeIdle};
ghost use Rattle.node_aggregate.specs.island_cut.Islands.{idle_at, idles_of, is_idle};
ghost use Rattle.node_aggregate.specs.island_cut.Lookup.{IdlesRise};

/// In each legal assignment no aircraft stands at a station at its idle minutes.
pub fn idle_is_empty_in_plans()
    ensures { IdleIsEmptyInPlans }
{}

/// In each mixed plan of pairs that may be flown no aircraft stands at a station at its idle minutes.
pub fn idle_is_empty()
    ensures { IdleIsEmpty }
{}

/// Where there are islands, each station has an idle minute.
pub fn some_idle()
    ensures { SomeIdle }
{}

/// Whichever fleets fly the legs, a price for the aircraft of all fleets is paid back at the idle minutes of the stations.
pub fn payback()
    ensures { PaybackLaw }
{}

/// The list of idle minutes rises, by station, then minute.
pub fn idles_rise()
    ensures { (t : Tables) → IdlesRise (idles_of t) }
{}

/// The list of idle minutes has each of them, and no others.
pub fn idles_are_listed()
    ensures { (t : Tables) (s m : ℕ) → s < stations_in t → m < period_of t → is_idle t s m ≡ true ↔ Contains (idles_of t) (idle_at s m) }
{}
