//! Sets of tables, as the bytes of their files.
ghost use Rattle.std.specs.Prelude.{◌<◌, ◌≤◌};
ghost use Rattle.fleet_model.specs.Limits.{AreSettings};
ghost use Rattle.fleet_model.specs.Period.{minutes_of};
ghost use Rattle.fleet_model.specs.declared.limits.TheConstants.{MAX_PERIOD};

use fleet_model::{LoadError, PLAIN_SETTINGS, Settings, Tables};
use sched_read::load;
use std::alloc::Global;

/// The bytes of five files.
#[derive(Clone, Copy)]
pub struct Files {
    pub stations: &'static [u8],
    pub fleets: &'static [u8],
    pub legs: &'static [u8],
    pub costs: &'static [u8],
    pub throughs: &'static [u8],
}

/// No through pair.
const NO_THROUGHS: &[u8] = b"in,out,value\n";

/// One round trip that either of two fleets may fly.
pub const ROUND_TRIP: Files = Files {
    stations: b"code,extra,maintenance\nAAA,0,yes\nBBB,0,no\n",
    fleets: b"fleet,aircraft,turn\nF1,1,30\nF2,1,30\n",
    legs: b"flight,from,dep,to,arr\nX1,AAA,08:00,BBB,09:00\nX2,BBB,10:00,AAA,11:00\n",
    costs: b"flight,fleet,cost\nX1,F1,100\nX1,F2,80\nX2,F1,100\nX2,F2,130\n",
    throughs: NO_THROUGHS,
};

/// Three round trips from a hub, of which each two overlap, and a third fleet that costs more.
pub const OVERLAPPING_TRIPS: Files = Files {
    stations: b"code,extra,maintenance\nHUB,0,yes\nSAA,0,yes\nSBB,0,yes\nSCC,0,yes\n",
    fleets: b"fleet,aircraft,turn\nF1,1,0\nF2,1,0\nF3,1,0\n",
    legs: b"flight,from,dep,to,arr\nA1,HUB,00:00,SAA,07:00\nA2,SAA,07:00,HUB,16:00\nB1,HUB,08:00,SBB,15:00\nB2,SBB,16:00,HUB,00:00\nC1,HUB,16:00,SCC,22:00\nC2,SCC,23:00,HUB,08:00\n",
    costs: b"flight,fleet,cost\nA1,F1,10\nA1,F2,10\nA1,F3,50\nA2,F1,10\nA2,F2,10\nA2,F3,50\nB1,F1,10\nB1,F2,10\nB1,F3,50\nB2,F1,10\nB2,F2,10\nB2,F3,50\nC1,F1,10\nC1,F2,10\nC1,F3,50\nC2,F1,10\nC2,F2,10\nC2,F3,50\n",
    throughs: NO_THROUGHS,
};

/// Three round trips from a hub, of which each two overlap, and two fleets with one aircraft each.
pub const TWO_FLEETS: Files = Files {
    fleets: b"fleet,aircraft,turn\nF1,1,0\nF2,1,0\n",
    costs: b"flight,fleet,cost\nA1,F1,10\nA1,F2,10\nA2,F1,10\nA2,F2,10\nB1,F1,10\nB1,F2,10\nB2,F1,10\nB2,F2,10\nC1,F1,10\nC1,F2,10\nC2,F1,10\nC2,F2,10\n",
    ..OVERLAPPING_TRIPS
};

/// Six legs of one fleet that uses four aircraft, two at AAA and two at BBB at the day start.
pub const FOUR_AIRCRAFT: Files = Files {
    stations: b"code,extra,maintenance\nAAA,0,yes\nBBB,0,no\nCCC,0,no\nDDD,0,no\n",
    fleets: b"fleet,aircraft,turn\nF1,4,30\n",
    legs: b"flight,from,dep,to,arr\nG1,AAA,08:00,CCC,09:00\nG2,CCC,10:00,AAA,11:00\nG3,AAA,08:30,BBB,11:00\nG4,BBB,08:00,DDD,09:00\nG5,DDD,10:00,BBB,11:00\nG6,BBB,08:30,AAA,11:00\n",
    costs: b"flight,fleet,cost\nG1,F1,10\nG2,F1,10\nG3,F1,10\nG4,F1,10\nG5,F1,10\nG6,F1,10\n",
    throughs: NO_THROUGHS,
};

/// Two legs into a hub and two out of it, with through pairs.
pub const THROUGH_THE_HUB: Files = Files {
    stations: b"code,extra,maintenance\nHUB,0,no\nAAA,0,yes\nBBB,0,no\n",
    fleets: b"fleet,aircraft,turn\nF1,2,30\n",
    legs: b"flight,from,dep,to,arr\nT1,AAA,08:00,HUB,08:30\nT2,BBB,08:00,HUB,08:40\nT3,HUB,09:30,AAA,10:30\nT4,HUB,09:40,BBB,10:40\n",
    costs: b"flight,fleet,cost\nT1,F1,10\nT2,F1,10\nT3,F1,10\nT4,F1,10\n",
    throughs: b"in,out,value\nT1,T3,5\nT1,T4,8\nT2,T3,4\nT2,T4,6\n",
};

/// One round trip over the day start of 03:00.
pub const OVER_THE_DAY_START: Files = Files {
    stations: b"code,extra,maintenance\nHUB,0,yes\nSAA,0,yes\n",
    fleets: b"fleet,aircraft,turn\nF1,1,30\nF2,0,45\n",
    legs: b"flight,from,dep,to,arr\nO0,HUB,23:50,SAA,01:55\nR0,SAA,03:15,HUB,05:20\n",
    costs: b"flight,fleet,cost\nO0,F1,1051\nO0,F2,1127\nR0,F1,1010\nR0,F2,1419\n",
    throughs: NO_THROUGHS,
};

/// The round trip, with the way back in the minute in which the aircraft is ready.
pub const BACK_AT_ONCE: Files = Files {
    legs: b"flight,from,dep,to,arr\nX1,AAA,08:00,BBB,09:00\nX2,BBB,09:30,AAA,10:30\n",
    ..ROUND_TRIP
};

/// The round trip, with the aircraft ready after the way back in the first minute of the next day.
pub const BACK_BY_NIGHT: Files = Files {
    legs: b"flight,from,dep,to,arr\nX1,AAA,08:00,BBB,09:00\nX2,BBB,22:30,AAA,23:30\n",
    ..ROUND_TRIP
};

/// The round trip, with a turn that differs between the fleets and the way back in the minute of landing.
pub const BACK_IN_NO_TIME: Files = Files {
    fleets: b"fleet,aircraft,turn\nF1,1,0\nF2,1,60\n",
    legs: b"flight,from,dep,to,arr\nX1,AAA,08:00,BBB,09:00\nX2,BBB,09:00,AAA,10:00\n",
    ..ROUND_TRIP
};

/// Two legs, of which the first keeps its aircraft busy over two nights.
pub const TWO_NIGHTS_ALOFT: Files = Files {
    fleets: b"fleet,aircraft,turn\nF1,2,600\nF2,0,0\n",
    legs: b"flight,from,dep,to,arr\nX1,AAA,23:00,BBB,22:00\nX2,BBB,12:00,AAA,13:00\n",
    ..ROUND_TRIP
};

/// Three round trips from a hub that meet there: landings at 00:01, 00:02 and 00:04, departures at 00:03, 00:05 and
/// 00:06.
pub const MEETING_TRIPS: Files = Files {
    stations: b"code,extra,maintenance\nHUB,0,yes\nSAA,0,no\nSBB,0,no\nSCC,0,no\n",
    fleets: b"fleet,aircraft,turn\nF1,3,0\n",
    legs: b"flight,from,dep,to,arr\nA1,SAA,23:00,HUB,00:01\nB1,SBB,23:00,HUB,00:02\nC1,SCC,23:00,HUB,00:04\nA2,HUB,00:03,SAA,01:00\nB2,HUB,00:05,SBB,01:00\nC2,HUB,00:06,SCC,01:00\n",
    costs: b"flight,fleet,cost\nA1,F1,10\nB1,F1,10\nC1,F1,10\nA2,F1,10\nB2,F1,10\nC2,F1,10\n",
    throughs: NO_THROUGHS,
};

/// The round trip of one fleet, there on the first day of two and back on the second.
pub const OVER_TWO_DAYS: Files = Files {
    fleets: b"fleet,aircraft,turn\nF1,1,30\n",
    legs: b"flight,day,from,dep,to,arr\nX1,1,AAA,08:00,BBB,09:00\nX2,2,BBB,10:00,AAA,11:00\n",
    costs: b"flight,fleet,cost\nX1,F1,100\nX2,F1,100\n",
    ..ROUND_TRIP
};

/// A station and fleets, and no leg.
pub const NO_LEGS: Files = Files {
    stations: b"code,extra,maintenance\nAAA,0,yes\n",
    fleets: b"fleet,aircraft,turn\nF1,3,30\nF2,4,30\n",
    legs: b"flight,from,dep,to,arr\n",
    costs: b"flight,fleet,cost\n",
    throughs: NO_THROUGHS,
};

/// Settings with this day start and a period of one day.
pub fn starting(day_start: u16) -> Settings
    requires { day_start < minutes_of 1 }
    ensures { AreSettings result }
{
    repeating(day_start, 1)
}

/// Settings with this day start and a period of so many days.
pub fn repeating(day_start: u16, period: u16) -> Settings
    requires day_start { day_start < minutes_of 1 }
    requires some_days { 1 ≤ period }
    requires few_days { period ≤ MAX_PERIOD }
    ensures { AreSettings result }
{
    Settings {
        day_start,
        through_max: 60,
        period,
        ..PLAIN_SETTINGS
    }
}

/// The tables of five files, with the day start at midnight and a period of one day.
pub fn read(alloc: Global, files: &Files) -> Result<Tables, LoadError> {
    read_from(alloc, files, 0)
}

/// The tables of five files, with this day start and a period of one day.
pub fn read_from(alloc: Global, files: &Files, day_start: u16) -> Result<Tables, LoadError>
    requires { day_start < minutes_of 1 }
{
    read_by(alloc, files, starting(day_start))
}

/// The tables of five files, by these settings.
pub fn read_by(alloc: Global, files: &Files, settings: Settings) -> Result<Tables, LoadError>
    requires { AreSettings settings }
{
    load(
        alloc,
        files.stations,
        files.fleets,
        files.legs,
        files.costs,
        files.throughs,
        settings,
    )
}
