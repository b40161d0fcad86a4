//! The laws of turns and successor maps. Each function is a law: its contract is the statement, and it does nothing.
ghost use Rattle.lines_of_flying.specs.ground_turns.Laws.{AllAreMaintained, ApartForAll, ExchangedFits, ExchangedHolds, FirstOutFits, FitsWhereClean, KeptHasNights, MaintainedAreStands, MaintainedAreThere, NextIsMap, NightsAreNeed, NightsAreStands, NightsAreUse, NightsByDays, NoneIsShort, PeriodsBeyondUse, ReadyFirstDepartsFirst, SegmentsTellClean, SomeFits, TourIsWhole, TwoAreLong, WaitingIsStand, WaitingLaw};

/// In a successor map the aircraft that wait at a station are, at each moment, those that stand there and one number
/// more: by which the turns that cross the period's start pass the need.
pub fn waiting_law()
    ensures { WaitingLaw }
{}

/// A successor map takes as many periods as the fleet uses aircraft, and what the waiting law has more at each station.
pub fn periods_beyond_use()
    ensures { PeriodsBeyondUse }
{}

/// A successor map fits exactly where all its turns are clean.
pub fn fits_where_clean()
    ensures { FitsWhereClean }
{}

/// In a fitting map the aircraft that wait at a station at a moment number those that stand there.
pub fn waiting_is_stand()
    ensures { WaitingIsStand }
{}

/// In a fitting map the nights of the turns at a station number the aircraft that stand there at the ends of the
/// period's days, added up.
pub fn nights_are_stands()
    ensures { NightsAreStands }
{}

/// Where the period is a day, the nights of the turns at a station number its need in a fitting map.
pub fn nights_are_need()
    ensures { NightsAreNeed }
{}

/// The nights of a turn lead from the day of the flight that arrives to that of the one that departs, in a later period by
/// as many as start in the turn.
pub fn nights_by_days()
    ensures { NightsByDays }
{}

/// The nights of a fitting map, so of a tour, number the aircraft that the fleet uses times the days of the period.
pub fn nights_are_use()
    ensures { NightsAreUse }
{}

/// The nights of a fitting map at maintenance stations number the aircraft that stand there at the ends of the period's
/// days, added up.
pub fn maintained_are_stands()
    ensures { MaintainedAreStands }
{}

/// Nights for maintenance are no more than those at maintenance stations.
pub fn maintained_are_there()
    ensures { MaintainedAreThere }
{}

/// Where no least minutes of a stay are asked for, no night is short, and all nights at maintenance stations are for
/// maintenance.
pub fn none_is_short()
    ensures short { NoneIsShort }
    ensures all { AllAreMaintained }
{}

/// Two nights of one wait are never short, whatever minutes are asked for.
pub fn two_are_long()
    ensures { TwoAreLong }
{}

/// Nights that are kept for so many days are no more than so many times those for maintenance. So with too few nights at
/// maintenance stations no tour is kept.
pub fn kept_has_nights()
    ensures { KeptHasNights }
{}

/// Where two turns at a station touch one minute, a fitting map with their departures exchanged fits too.
pub fn exchanged_fits()
    ensures { ExchangedFits }
{}

/// Two turns of a map that are none of given pairs, with their departures exchanged, leave the pairs held.
pub fn exchanged_holds()
    ensures { ExchangedHolds }
{}

/// Where some fitting map holds given pairs, a successor map that holds them fits if beside them aircraft depart from
/// each station in the order in which they became ready there.
pub fn first_out_fits()
    ensures { FirstOutFits }
{}

/// Where aircraft depart first in, first out beside given pairs, one that becomes ready after another one departs no
/// sooner. Of two that become ready in one minute the lower leg's goes first.
pub fn ready_first_departs_first()
    ensures { ReadyFirstDepartsFirst }
{}

/// Where beside given pairs no turn of a part of a fitting map touches one outside, each fitting map that holds the pairs
/// keeps the part.
pub fn apart_for_all()
    ensures { ApartForAll }
{}

/// A tour that keeps a part has all its legs in the part, or none. So no tour holds pairs beside which two parts never
/// touch.
pub fn tour_is_whole()
    ensures { TourIsWhole }
{}

/// On plain tables some map fits for each fleet of a balanced assignment, as each legal one is: the one that goes first in, first out.
pub fn some_fits()
    ensures { SomeFits }
{}

/// Segments that end with the minutes at whose end no aircraft of a fleet stands at a station tell whether a turn there
/// is clean.
pub fn segments_tell_clean()
    ensures { SegmentsTellClean }
{}

/// On plain tables, where the next of each of the fleet's legs makes a turn with it and no two have the same, these turns
/// are a successor map.
pub fn next_is_map()
    ensures { NextIsMap }
{}
