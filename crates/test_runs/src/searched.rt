//! A solve that searches, where calls fail; and a run without any words.
use crate::assertions::{assert_same, assert_same_at};
use crate::folders::folder;
use crate::rows::{Runs, assert_faults, assert_files, make_run, status_of};
use fleet_cli::run;
use plan_desk::Sink;
use std::alloc::Global;
use std::process::Abort;
use std::test::Fail;
use test_desks::{MemoryDesk, MemorySink};

const SEARCHED: Runs = Runs {
    line: "fleetplan solve d --day-start 00:00",
    given: "plan.csv=flight,fleet~X1,F9~",
    rows: "",
};

const PLAN: &str = "plan.csv=flight,fleet~X1,F1~X2,F1~; proof.txt=";

const CUT: &str = "; rotation.csv=";

const ROTATION: &str =
    "; rotation.csv=fleet,round,kind,a,b~F1,1,tour,1,2~F1,1,leg,X1,0~F1,1,leg,X2,1~\
    F1,1,night,AAA,yes~F2,1,unused,0,0~";

// What a search proves is open, but what stands of it beside a call that fails is what stands without.
#[test]
fn calls_after_a_search(rt: HostRuntime) -> Result<(), Fail> {
    let proof = proof_without_faults(&rt)?;
    let cut = left(rt.alloc(), proof.as_str(), CUT)?;
    let fields = ["8 0", "", "1 0", "7", "fault: rotation.csv~", cut.as_str()];
    make_run(&rt, 0, &SEARCHED, &fields)?;
    let whole = left(rt.alloc(), proof.as_str(), ROTATION)?;
    let fields = ["", "1 4", "0 1", "7", "outc", whole.as_str()];
    make_run(&rt, 1, &SEARCHED, &fields)
}

/// The proof of the solve where no call fails, with a `~` for each line feed.
fn proof_without_faults<R: Abort + Alloc<A = Global>>(rt: &R) -> Result<String, Fail> {
    let alloc = rt.alloc();
    let mut desk = MemoryDesk::new(alloc, folder(alloc, SEARCHED.given)?, Vec::new(alloc))?;
    let mut sink = MemorySink::new(Vec::new(alloc));
    let status = status_of(alloc, SEARCHED.line, &mut desk, &mut sink)?;
    assert_same(rt, status, 0);
    let proof = desk.file("d/proof.txt").expect(rt, "a proof was written");
    let mut text = String::new(alloc);
    for byte in proof {
        text.push(if *byte == b'\n' {
            '~'
        } else {
            char::from(*byte)
        })?;
    }
    Ok(text)
}

/// The plan, the proof and these rotations, as a row names what stands.
fn left(alloc: Global, proof: &str, rotation: &str) -> Result<String, Fail> {
    let mut left = String::from_str(alloc, PLAN)?;
    left.push_str(proof)?;
    left.push_str(rotation)?;
    Ok(left)
}

// The built program always has the word that names it.
#[test]
fn no_words(rt: HostRuntime) -> Result<(), Fail> {
    let alloc = rt.alloc();
    let mut desk = MemoryDesk::new(alloc, folder(alloc, "")?, Vec::new(alloc))?;
    let mut sink = MemorySink::new(Vec::new(alloc));
    let status = run(alloc, &[], &mut desk, &mut sink).code;
    let usage = b"usage: fleetplan judge|solve|check|make|tails|due|whatif DIR [options]\n";
    assert_same(&rt, sink.put_bytes(), usage.as_slice());
    assert_same_at(&rt, 0, status, 2);
    assert_faults(&rt, 0, &desk, &sink, "0 0");
    assert_files(&rt, 0, &desk, "", "")
}
