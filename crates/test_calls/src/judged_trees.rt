//! Solutions by the texts of a proof and a plan: of each way in which these can be none a text by hand, and of each solution.
ghost use Rattle.std.specs.Prelude.{◌<◌, ◌-◌, ◌^◌};

use crate::assertions::assert_same_at;
use branch_bound::hinted_trees::solved_by_texts;
use dual_bound::Solved;
use entries::NoMemory;
use fleet_model::{LoadError, Tables};
use std::alloc::Global;
use std::test::Fail;
use test_tables::schedules::{Files, OVERLAPPING_TRIPS, ROUND_TRIP, read};

/// The round trip of which either leg has one fleet.
const ONE_CHOICE: Files = Files {
    costs: b"flight,fleet,cost\nX1,F1,100\nX2,F1,100\n",
    ..ROUND_TRIP
};

/// The round trip, with a way back that neither fleet may fly.
const NO_WAY_BACK: Files = Files {
    costs: b"flight,fleet,cost\nX1,F1,100\nX1,F2,80\n",
    ..ROUND_TRIP
};

/// The overlapping trips, of which each fleet flies one as well.
const EVEN_TRIPS: Files = Files {
    costs: b"flight,fleet,cost\nA1,F1,10\nA1,F2,10\nA1,F3,10\nA2,F1,10\nA2,F2,10\nA2,F3,10\nB1,F1,10\nB1,F2,10\nB1,F3,10\nB2,F1,10\nB2,F2,10\nB2,F3,10\nC1,F1,10\nC1,F2,10\nC1,F3,10\nC2,F1,10\nC2,F2,10\nC2,F3,10\n",
    ..OVERLAPPING_TRIPS
};

/// Plans of the round trip at 200, at 210, and one that isn't balanced.
const FIRST: &str = "flight,fleet\nX1,F1\nX2,F1\n";

const SECOND: &str = "flight,fleet\nX1,F2\nX2,F2\n";

const APART: &str = "flight,fleet\nX1,F1\nX2,F2\n";

/// A trip for each fleet.
const ONE_EACH: &str = "flight,fleet\nA1,F1\nA2,F1\nB1,F2\nB2,F2\nC1,F3\nC2,F3\n";

/// Proofs of the round trip: by its least costs, by a price, and with the first plan at a sole leaf.
const TOO_LOW: &str = "fleet proof 2\nplan yes\npriced\nscale 1\nend\n";

const PRICED: &str = "fleet proof 2\nplan yes\npriced\nscale 1\nat F2 AAA 0 20\nend\n";

const WITH_SOLE: &str =
    "fleet proof 2\nplan yes\ntrim X1 F1\ntrim X2 F1\nsole\nsole\npriced\nscale 1\nat F2 AAA 0 30\nend\n";

/// Proofs of the trips: open for splits, beside a plan and without one, and split once.
const OPEN: &str =
    "fleet proof 2\nplan yes\nopen nodes\nscale 1\nmixed 2\nweight A1 F1 1\nweight A1 F2 1\nweight A2 F1 1\nweight A2 F2 1\nweight B1 F1 1\nweight B1 F2 1\nweight B2 F1 1\nweight B2 F2 1\nweight C1 F1 1\nweight C1 F2 1\nweight C2 F1 1\nweight C2 F2 1\nend\n";

const OPEN_ALONE: &str =
    "fleet proof 2\nplan no\nopen nodes\nscale 1\nmixed 2\nweight A1 F1 1\nweight A1 F2 1\nweight A2 F1 1\nweight A2 F2 1\nweight B1 F1 1\nweight B1 F2 1\nweight B2 F1 1\nweight B2 F2 1\nweight C1 F1 1\nweight C1 F2 1\nweight C2 F1 1\nweight C2 F2 1\nend\n";

const SPLIT: &str =
    "fleet proof 2\nplan yes\nsplit A1 F1\nscale 1\nmixed 2\nweight A1 F1 1\nweight A1 F2 1\nweight A2 F1 1\nweight A2 F2 1\nweight B1 F1 1\nweight B1 F2 1\nweight B2 F1 1\nweight B2 F2 1\nweight C1 F1 1\nweight C1 F2 1\nweight C2 F1 1\nweight C2 F2 1\npriced\nscale 1\npriced\nscale 1\nend\n";

/// Tables, the most splits, the texts of a plan and of a proof, and what they are.
const ROWS: &[(Files, u32, &str, &str, &str)] = &[
    (ROUND_TRIP, 0, FIRST, PRICED, "planned 200"),
    (ROUND_TRIP, 0, FIRST, WITH_SOLE, "planned 200"),
    (
        ONE_CHOICE,
        9,
        FIRST,
        "fleet proof 2\nplan yes\nsole\nend\n",
        "planned 200",
    ),
    (
        NO_WAY_BACK,
        0,
        "",
        "fleet proof 2\nplan no\nbare X2\nend\n",
        "infeasible",
    ),
    (OVERLAPPING_TRIPS, 0, ONE_EACH, OPEN, "planned 140"),
    (OVERLAPPING_TRIPS, 0, "", OPEN_ALONE, "unsettled"),
    (EVEN_TRIPS, 1, ONE_EACH, SPLIT, "planned 60"),
    // The text of the proof, that of the plan, the plan, and the tree.
    (ROUND_TRIP, 0, FIRST, "", "none"),
    (ROUND_TRIP, 0, "flight,fleet\nX1,F1\n", PRICED, "none"),
    (ROUND_TRIP, 0, APART, PRICED, "none"),
    (ROUND_TRIP, 0, FIRST, TOO_LOW, "none"),
    // More splits than are allowed, fewer beside an open leaf, and leaves that are open for anything else.
    (EVEN_TRIPS, 0, ONE_EACH, SPLIT, "none"),
    (OVERLAPPING_TRIPS, 1, ONE_EACH, OPEN, "none"),
    (OVERLAPPING_TRIPS, 1, "", OPEN_ALONE, "none"),
    (
        ROUND_TRIP,
        0,
        "",
        "fleet proof 2\nplan no\nopen pivots 0\nscale 1\nend\n",
        "none",
    ),
    (
        ROUND_TRIP,
        0,
        "",
        "fleet proof 2\nplan no\nopen grew 1 1 1\nscale 1\nend\n",
        "none",
    ),
    (
        ROUND_TRIP,
        0,
        "",
        "fleet proof 2\nplan no\nopen lift 1 1\nscale 1\nend\n",
        "none",
    ),
    // A sole leaf that is cheaper than the plan, one that is legal without a plan, and an open leaf that reaches the cost.
    (ROUND_TRIP, 0, SECOND, WITH_SOLE, "none"),
    (
        ONE_CHOICE,
        9,
        "",
        "fleet proof 2\nplan no\nsole\nend\n",
        "none",
    ),
    (EVEN_TRIPS, 0, ONE_EACH, OPEN, "none"),
];

/// What the texts are on tables.
fn told_of(
    alloc: Global,
    files: &Files,
    nodes: u32,
    plan: &str,
    proof: &str,
) -> Result<&'static str, LoadError> {
    let tables = read(alloc, files)?;
    Ok(told_on(alloc, &tables, u64::from(nodes), plan, proof)?)
}

fn told_on(
    alloc: Global,
    tables: &Tables,
    nodes: u64,
    plan: &str,
    proof: &str,
) -> Result<&'static str, NoMemory>
    requires { nodes < 2 ^ 64 - 1 }
{
    let found = solved_by_texts(alloc, tables, nodes, plan.as_bytes(), proof.as_bytes())?;
    Ok(match found {
        Some(solved) => words_of(&solved),
        None => "none",
    })
}

/// What a solution is. Where it has a plan and the bound is the cost, or a leaf is open, the cost is told.
fn words_of(solved: &Solved) -> &'static str {
    match solved {
        Solved::Planned { cost: 200, .. } => "planned 200",
        Solved::Planned { cost: 140, .. } => "planned 140",
        Solved::Planned { cost: 60, .. } => "planned 60",
        Solved::Planned { .. } => "planned",
        Solved::Infeasible { .. } => "infeasible",
        Solved::Unsettled { .. } => "unsettled",
    }
}

#[test]
fn texts_are_solutions_or_none(rt: HostRuntime) -> Result<(), Fail> {
    for (files, nodes, plan, proof, wanted) in ROWS {
        let told = told_of(rt.alloc(), files, *nodes, plan, proof)?;
        assert_same_at(&rt, proof, told, *wanted);
    }
    Ok(())
}
