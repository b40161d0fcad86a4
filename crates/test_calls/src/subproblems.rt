//! The pairs that a subproblem keeps, and where it ends.
ghost use Rattle.std.specs.Prelude.{◌≡◌};

use crate::assertions::assert_same;
use fleet_model::limits::{MAX_CHOICES, MAX_LEGS};
use fleet_model::{Assignment, Kept, LoadError, Step, Tables};
use std::alloc::Global;
use std::test::Fail;
use test_tables::schedules::{Files, ROUND_TRIP, read};

/// Which pairs of two legs with two choices are kept, by leg, then choice.
type Pairs = [[bool; 2]; 2];

/// The ends that a subproblem of two legs may have.
#[derive(Clone, Copy, Debug, PartialEq, Eq)]
struct Ends {
    bare_leg: Option<u32>,
    sole: Option<[u32; 2]>,
}

/// The round trip, on which the second fleet may not fly the way back.
fn round_trip(alloc: Global) -> Result<Tables, LoadError> {
    let files = Files {
        costs: b"flight,fleet,cost\nX1,F1,100\nX1,F2,80\nX2,F1,100\n",
        ..ROUND_TRIP
    };
    read(alloc, &files)
}

fn pairs_of(kept: &Kept) -> Pairs {
    [
        [kept.kept(0, 0), kept.kept(0, 1)],
        [kept.kept(1, 0), kept.kept(1, 1)],
    ]
}

fn choices_of(plan: &Assignment) -> Option<[u32; 2]> {
    if plan.len() == 2 {
        Some([plan.choice(0), plan.choice(1)])
    } else {
        None
    }
}

fn ends_of(tables: &Tables, kept: &Kept) -> Ends {
    let sole = match kept.sole(tables) {
        Some(plan) => choices_of(&plan),
        None => None,
    };
    Ends {
        bare_leg: kept.bare_leg(tables),
        sole,
    }
}

/// What is kept after a step, and the ends then; nothing for a step beyond the most legs and choices. The step is
/// taken back.
fn seen_after(tables: &Tables, kept: &mut Kept, step: Step) -> Option<(Pairs, Ends)>
    ensures taken_back { kept.new ≡ kept.old }
{
    if step.leg as usize >= MAX_LEGS || step.choice as usize >= MAX_CHOICES {
        return None;
    }
    let undo = kept.narrow(step);
    let seen = (pairs_of(kept), ends_of(tables, kept));
    kept.undo(undo);
    Some(seen)
}

#[test]
fn all_pairs_that_have_a_cost_are_kept(rt: HostRuntime) -> Result<(), Fail> {
    let tables = round_trip(rt.alloc())?;
    let kept = Kept::all(&tables);
    assert_same(&rt, pairs_of(&kept), [[true, true], [true, false]]);
    assert!(rt; !kept.kept(2, 0));
    assert!(rt; !kept.kept(MAX_LEGS as u32 - 1, MAX_CHOICES as u32 - 1));
    let no_end = Ends {
        bare_leg: None,
        sole: None,
    };
    assert_same(&rt, ends_of(&tables, &kept), no_end);
    Ok(())
}

#[test]
fn steps_are_taken_and_taken_back(rt: HostRuntime) -> Result<(), Fail> {
    let tables = round_trip(rt.alloc())?;
    let mut kept = Kept::all(&tables);
    let cases: [(u32, u32, bool, Pairs, Option<u32>, Option<[u32; 2]>); 6] = [
        (
            0,
            0,
            true,
            [[true, false], [true, false]],
            None,
            Some([0, 0]),
        ),
        (
            0,
            1,
            true,
            [[false, true], [true, false]],
            None,
            Some([1, 0]),
        ),
        (
            0,
            1,
            false,
            [[true, false], [true, false]],
            None,
            Some([0, 0]),
        ),
        (1, 0, true, [[true, true], [true, false]], None, None),
        (1, 0, false, [[true, true], [false, false]], Some(1), None),
        (1, 1, true, [[true, true], [false, false]], Some(1), None),
    ];
    for (leg, choice, yes, left, bare_leg, sole) in cases {
        let seen = seen_after(&tables, &mut kept, Step { leg, choice, yes });
        assert_same(&rt, seen, Some((left, Ends { bare_leg, sole })));
        assert_same(&rt, pairs_of(&kept), [[true, true], [true, false]]);
    }
    Ok(())
}

#[test]
fn steps_below_steps_are_taken_back_in_turn(rt: HostRuntime) -> Result<(), Fail> {
    let tables = round_trip(rt.alloc())?;
    let mut kept = Kept::all(&tables);
    let first = kept.narrow(Step {
        leg: 1,
        choice: 0,
        yes: false,
    });
    let second = kept.narrow(Step {
        leg: 0,
        choice: 0,
        yes: false,
    });
    let third = kept.narrow(Step {
        leg: 0,
        choice: 1,
        yes: false,
    });
    assert_same(&rt, pairs_of(&kept), [[false, false], [false, false]]);
    assert_same(&rt, kept.bare_leg(&tables), Some(0));
    kept.undo(third);
    assert_same(&rt, pairs_of(&kept), [[false, true], [false, false]]);
    assert_same(&rt, kept.bare_leg(&tables), Some(1));
    kept.undo(second);
    kept.undo(first);
    assert_same(&rt, pairs_of(&kept), [[true, true], [true, false]]);
    Ok(())
}
