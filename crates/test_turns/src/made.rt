//! Tables made from a number.
ghost use Rattle.table_maker.specs.Made.{CanBeMade};

use entries::NoMemory;
use fleet_model::{LoadError, Tables};
use sched_read::load;
use std::alloc::Global;
use std::test::Fail;
use table_maker::make_tables;
use test_tables::schedules::{Files, OVER_THE_DAY_START, starting};

/// The files of number 1 without a leg: a hub with its one spoke, and two fleets without an aircraft.
const WITHOUT_LEGS: Files = Files {
    stations: b"code,extra,maintenance\nHUB,0,yes\nSAA,0,yes\n",
    fleets: b"fleet,aircraft,turn\nF1,0,30\nF2,0,45\n",
    legs: b"flight,from,dep,to,arr\n",
    costs: b"flight,fleet,cost\n",
    throughs: b"in,out,value\n",
};

/// Six legs of number 7, with two through pairs.
const THREE_ROUND_TRIPS: Files = Files {
    stations: b"code,extra,maintenance\nHUB,0,yes\nSAA,0,yes\n",
    fleets: b"fleet,aircraft,turn\nF1,3,30\nF2,1,45\n",
    legs: b"flight,from,dep,to,arr\nO0,HUB,01:10,SAA,03:40\nR0,SAA,04:50,HUB,07:20\nO1,HUB,22:25,SAA,00:30\nR1,SAA,01:45,HUB,03:50\nO2,HUB,21:40,SAA,22:50\nR2,SAA,00:25,HUB,01:35\n",
    costs: b"flight,fleet,cost\nO0,F1,1031\nO0,F2,1365\nR0,F1,1034\nR0,F2,1290\nO1,F1,1374\nO1,F2,1249\nR1,F1,1322\nR1,F2,1185\nO2,F1,1079\nO2,F2,1158\nR2,F1,1061\nR2,F2,1124\n",
    throughs: b"in,out,value\nR0,O1,85\nR1,O2,54\n",
};

/// Whether the tables of so many legs by a number are these files.
fn makes(alloc: Global, number: u32, legs: u32, files: &Files) -> Result<bool, NoMemory>
    requires { CanBeMade number legs }
{
    let made = make_tables(alloc, number, legs)?;
    Ok(
        made.stations.as_slice() == files.stations
            && made.fleets.as_slice() == files.fleets
            && made.legs.as_slice() == files.legs
            && made.costs.as_slice() == files.costs
            && made.throughs.as_slice() == files.throughs,
    )
}

#[test]
fn the_draws_of_a_number_make_files(rt: HostRuntime) -> Result<(), Fail> {
    assert!(rt; makes(rt.alloc(), 1, 0, &WITHOUT_LEGS)?);
    assert!(rt; makes(rt.alloc(), 1, 2, &OVER_THE_DAY_START)?);
    assert!(rt; makes(rt.alloc(), 7, 6, &THREE_ROUND_TRIPS)?);
    Ok(())
}

/// The tables that are read from 40 legs of number 7, by a day start of 03:00.
fn forty_legs(alloc: Global) -> Result<Tables, LoadError> {
    let made = make_tables(alloc, 7, 40)?;
    load(
        alloc,
        made.stations.as_slice(),
        made.fleets.as_slice(),
        made.legs.as_slice(),
        made.costs.as_slice(),
        made.throughs.as_slice(),
        starting(180),
    )
}

#[test]
fn made_files_are_read(rt: HostRuntime) -> Result<(), Fail> {
    let tables = forty_legs(rt.alloc())?;
    assert_eq!(rt; tables.stations.len(), 4);
    assert_eq!(rt; tables.leg_count(), 40);
    assert_eq!(rt; tables.throughs.len(), 19);
    assert_eq!(rt; tables.fleet_count(), 2);
    Ok(())
}
