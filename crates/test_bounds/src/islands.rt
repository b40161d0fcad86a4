//! Trips that need every aircraft, so that stations are empty at known minutes and prices that rise over ground arcs there
//! are paid back.
use crate::lifts::{Way, assert_worth, lifted_by};
use dual_bound::Prices;
use fleet_model::{Kept, Tables};
use std::alloc::Global;
use std::process::Abort;
use std::test::Fail;
use test_tables::schedules::{Files, ROUND_TRIP, read};

/// Six legs that three aircraft can fly, and two can't. Each station is empty at some minutes, as BBB from 08:00, when L1
/// has left, to 09:29. The cheapest legal one of all 64 assignments costs 425 (found by trying each).
const NONE_TO_SPARE: Files = Files {
    fleets: b"fleet,aircraft,turn\nF1,2,30\nF2,1,30\n",
    legs: b"flight,from,dep,to,arr\nL1,BBB,08:00,AAA,09:30\nL2,AAA,07:30,BBB,09:00\nL3,BBB,05:45,AAA,07:15\nL4,AAA,22:15,BBB,23:00\nL5,AAA,19:15,BBB,20:00\nL6,BBB,00:45,AAA,04:45\n",
    costs: b"flight,fleet,cost\nL1,F1,45\nL1,F2,98\nL2,F1,157\nL2,F2,96\nL3,F1,155\nL3,F2,93\nL4,F1,78\nL4,F2,68\nL5,F1,38\nL5,F2,108\nL6,F1,24\nL6,F2,122\n",
    ..ROUND_TRIP
};

const LEAST_COST: i128 = 425;

/// The minute after 08:00, in which no node of the network starts: a price changes there only where it is paid back.
const AFTER_THE_IDLE_MINUTE: u16 = 481;

/// Whether a price changes behind the idle minute.
fn is_paid_back(prices: &Prices) -> bool {
    for step in prices.steps.as_slice() {
        if step.minute == AFTER_THE_IDLE_MINUTE {
            return true;
        }
    }
    false
}

/// Whether prices are paid back, which are worth what the cheapest assignment costs.
fn is_least_cost_paid_back<R: Abort + Alloc<A = Global>>(
    rt: &R,
    tables: &Tables,
    way: Way,
) -> Result<bool, Fail> {
    let kept = Kept::all(tables);
    let Some(prices) = lifted_by(rt.alloc(), tables, &kept, way)? else {
        panic!(rt; "given up");
    };
    assert_worth(rt, tables, &kept, &prices, LEAST_COST);
    Ok(is_paid_back(&prices))
}

#[test]
fn prices_that_are_paid_back_are_worth_as_much(rt: HostRuntime) -> Result<(), Fail> {
    let tables = read(rt.alloc(), &NONE_TO_SPARE)?;
    is_least_cost_paid_back(&rt, &tables, Way::ByRun)?;
    assert!(rt; is_least_cost_paid_back(&rt, &tables, Way::ByHint)?);
    Ok(())
}
