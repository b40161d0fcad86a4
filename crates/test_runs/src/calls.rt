//! Calls of the desk and of the sink that fail, command by command.
use crate::rows::{Runs, make_runs};
use std::test::Fail;

const JUDGE: &str = "fleetplan judge d --day-start 00:00";

const CHECK: &str = "fleetplan check d --day-start 00:00";

const SOLVE: &str = "fleetplan solve d --day-start 00:00";

const TAILS: &str = "fleetplan tails d 2025-02-28 1 --day-start 00:00";

const WHATIF: &str = "fleetplan whatif d F1 1 --day-start 00:00";

// A proof that comes with the plan of the first run: its prices bound each assignment by the plan's cost.
const PRICED: &str = "proof.txt=fleet proof 2~plan yes~priced~scale 1~at F2 AAA 0 20~end~";

// Each read fails; there is no call after the last read, and no put after the first; the put fails, or leaves some bytes. For an
// unknown fleet `whatif` reads no plan.
const READING: &[Runs] = &[
    Runs {
        line: JUDGE,
        given: "",
        rows: "1 0 | | 1 0 | 7 | fault: stations.csv~ |\n\
            2 0 | | 1 0 | 7 | fault: fleets.csv~ |\n\
            3 0 | | 1 0 | 7 | fault: legs.csv~ |\n\
            4 0 | | 1 0 | 7 | fault: costs.csv~ |\n\
            5 0 | | 1 0 | 7 | fault: throughs.csv~ |\n\
            6 0 | | 1 0 | 7 | fault: plan.csv~ |\n\
            7 0, 8 0 | 2 0 | 0 0 | 0 | legal: cost 200~fleet F1: used 1 of 1~fleet F2: used 0 of 1~ |\n\
            | 1 0 | 0 1 | 7 | |\n\
            3 0 | 1 0 | 1 1 | 7 | |\n\
            | 1 13 | 0 1 | 7 | legal: cost 2 |",
    },
    Runs {
        line: JUDGE,
        given: "stations.csv=",
        rows: "| 1 0 | 0 1 | 7 | |",
    },
    Runs {
        line: JUDGE,
        given: "plan.csv=",
        rows: "| 1 0 | 0 1 | 7 | |",
    },
    Runs {
        line: JUDGE,
        given: "legs.csv=nonsense",
        rows: "6 0 | | 1 0 | 7 | fault: plan.csv~ |",
    },
    Runs {
        line: TAILS,
        given: "",
        rows: "6 0 | | 1 0 | 7 | fault: plan.csv~ |\n\
            7 0, 8 0 | 2 0 | 0 0 | 0 | 2025-02-28 F1/1: X1 X2~F2: unused~ |\n\
            | 1 0 | 0 1 | 7 | |\n\
            | 1 13 | 0 1 | 7 | 2025-02-28 F1 |",
    },
    Runs {
        line: "fleetplan due d 2025-02-28 1 --day-start 00:00",
        given: "tails.csv=tail,fleet,left~T1,F1,1~",
        rows: "6 0 | | 1 0 | 7 | fault: tails.csv~ |\n\
            7 0 | | 1 0 | 7 | fault: plan.csv~ |\n\
            8 0 | 2 0 | 0 0 | 0 | 2025-02-28 T1: X1 X2~F2: unused~ |\n\
            | 1 0 | 0 1 | 7 | |",
    },
    Runs {
        line: WHATIF,
        given: PRICED,
        rows: "6 0 | | 1 0 | 7 | fault: proof.txt~ |\n\
            7 0 | | 1 0 | 7 | fault: plan.csv~ |\n\
            | 1 0 | 0 1 | 7 | |",
    },
    Runs {
        line: "fleetplan whatif d F9 1 --day-start 00:00",
        given: PRICED,
        rows: "7 0, 8 0 | 2 0 | 0 0 | 9 | unknown fleet: F9~ |",
    },
];

// No plan is read where no plan comes with the proof, nor where the tables or the proof's text are refused.
const CHECKING: &[Runs] = &[
    Runs {
        line: CHECK,
        given: PRICED,
        rows: "1 0 | | 1 0 | 7 | fault: stations.csv~ |\n\
            2 0 | | 1 0 | 7 | fault: fleets.csv~ |\n\
            3 0 | | 1 0 | 7 | fault: legs.csv~ |\n\
            4 0 | | 1 0 | 7 | fault: costs.csv~ |\n\
            5 0 | | 1 0 | 7 | fault: throughs.csv~ |\n\
            6 0 | | 1 0 | 7 | fault: proof.txt~ |\n\
            7 0 | | 1 0 | 7 | fault: plan.csv~ |\n\
            8 0, 9 0 | 2 0 | 0 0 | 0 | holds: cost 200 bound 200~ |\n\
            | 1 0 | 0 1 | 7 | |\n\
            7 0 | 1 0 | 1 1 | 7 | |\n\
            | 1 5 | 0 1 | 7 | holds |",
    },
    Runs {
        line: CHECK,
        given: "proof.txt=fleet proof 2~plan no~open pivots 0~scale 1~end~",
        rows: "7 0, 8 0 | 2 0 | 0 0 | 0 | holds: bound 180~ |",
    },
    Runs {
        line: CHECK,
        given: "proof.txt=nonsense",
        rows: "7 0, 8 0 | 2 0 | 0 0 | 9 | proof refused: line 1 kind 1~ |",
    },
    Runs {
        line: CHECK,
        given: "legs.csv=nonsense; proof.txt=fleet proof 2~plan yes~priced~scale 1~at F2 AAA 0 20~end~",
        rows: "7 0, 8 0 | 2 0 | 0 0 | 6 | bad input: legs.csv record 1 kind 1~ |",
    },
];

#[test]
fn calls_of_commands_that_read(rt: HostRuntime) -> Result<(), Fail> {
    make_runs(&rt, READING)?;
    make_runs(&rt, CHECKING)
}

// The plan of an earlier run isn't read: there are five reads, and then the plan, the proof and the rotations are written. What
// was written before a call that fails stands, and so do the first bytes of what it was to write; all of a file may stand, and
// its write have failed all the same.
const SOLVING: &[Runs] = &[
    Runs {
        line: SOLVE,
        given: "plan.csv=flight,fleet~X1,F9~",
        rows: "1 3 | | 1 0 | 7 | fault: stations.csv~ |\n\
            2 3 | | 1 0 | 7 | fault: fleets.csv~ |\n\
            3 3 | | 1 0 | 7 | fault: legs.csv~ |\n\
            4 0 | | 1 0 | 7 | fault: costs.csv~ |\n\
            5 0 | | 1 0 | 7 | fault: throughs.csv~ |\n\
            6 3 | | 1 0 | 7 | fault: plan.csv~ | plan.csv=fli\n\
            1 0 | 1 0 | 1 1 | 7 | |\n\
            5 0 | 1 4 | 1 1 | 7 | faul |\n\
            7 23 | | 1 0 | 7 | fault: proof.txt~ | plan.csv=flight,fleet~X1,F1~X2,F1~; proof.txt=fleet proof 2~plan yes~",
    },
    Runs {
        line: SOLVE,
        given: "plan.csv=flight,fleet~X1,F9~; costs.csv=flight,fleet,cost~X1,F1,100~X2,F1,100~",
        rows: "6 0 | | 1 0 | 7 | fault: plan.csv~ | plan.csv=\n\
            | 1 17 | 0 1 | 7 | outcome: optimal~ | plan.csv=flight,fleet~X1,F1~X2,F1~; \
            proof.txt=fleet proof 2~plan yes~sole~end~; rotation.csv=fleet,round,kind,a,b~F1,1,tour,1,2~\
            F1,1,leg,X1,0~F1,1,leg,X2,1~F1,1,night,AAA,yes~F2,1,unused,0,0~\n\
            7 0 | 1 5 | 1 1 | 7 | fault | plan.csv=flight,fleet~X1,F1~X2,F1~; proof.txt=",
    },
    Runs {
        line: SOLVE,
        given: "plan.csv=flight,fleet~X1,F9~; rotation.csv=fleet,round,kind,a,b~F9,1,unused,0,0~; \
            costs.csv=flight,fleet,cost~X1,F1,100~X2,F1,100~",
        rows: "8 0 | | 1 0 | 7 | fault: rotation.csv~ | plan.csv=flight,fleet~X1,F1~X2,F1~; \
            proof.txt=fleet proof 2~plan yes~sole~end~; rotation.csv=\n\
            8 18446744073709551615 | | 1 0 | 7 | fault: rotation.csv~ | plan.csv=flight,fleet~X1,F1~X2,F1~; \
            proof.txt=fleet proof 2~plan yes~sole~end~; rotation.csv=fleet,round,kind,a,b~F1,1,tour,1,2~\
            F1,1,leg,X1,0~F1,1,leg,X2,1~F1,1,night,AAA,yes~F2,1,unused,0,0~\n\
            9 0, 10 0 | 2 0 | 0 0 | 0 | outcome: optimal~cost: 200~bound: 200~splits: 0~\
            open: 0 nodes, 0 pivots, 0 grew~fleet F1: used 1 of 1~fleet F2: used 0 of 1~\
            rotation F1: tour of 2 legs in 1 days~rotation F2: unused~ | plan.csv=flight,fleet~X1,F1~X2,F1~; \
            proof.txt=fleet proof 2~plan yes~sole~end~; rotation.csv=fleet,round,kind,a,b~F1,1,tour,1,2~\
            F1,1,leg,X1,0~F1,1,leg,X2,1~F1,1,night,AAA,yes~F2,1,unused,0,0~",
    },
    // Without pivots no plan is written.
    Runs {
        line: "fleetplan solve d --day-start 00:00 --pivots 0",
        given: "plan.csv=flight,fleet~X1,F9~",
        rows: "6 0 | | 1 0 | 7 | fault: proof.txt~ | proof.txt=\n\
            7 0 | | 1 0 | 7 | fault: rotation.csv~ | proof.txt=fleet proof 2~plan no~open pivots 0~scale 1~end~; \
            rotation.csv=\n\
            8 0, 9 0 | 2 0 | 0 0 | 5 | outcome: unsettled~cost: none~bound: 180~splits: 0~\
            open: 0 nodes, 1 pivots, 0 grew~ | proof.txt=fleet proof 2~plan no~open pivots 0~scale 1~end~; \
            rotation.csv=fleet,round,kind,a,b~\n\
            | 1 0 | 0 1 | 7 | | proof.txt=fleet proof 2~plan no~open pivots 0~scale 1~end~; \
            rotation.csv=fleet,round,kind,a,b~",
    },
    // Windows are the sixth read, and optional legs the seventh.
    Runs {
        line: "fleetplan solve d --windows --optional --day-start 00:00",
        given: "optional.csv=flight,skip~X1,30~X2,40~; windows.csv=flight,shift,extra~X2,10,5~",
        rows: "6 0 | | 1 0 | 7 | fault: windows.csv~ |\n\
            8 23 | | 1 0 | 7 | fault: plan.csv~ | plan.csv=flight,fleet,shift~X1,-",
    },
];

// `make` reads nothing: the first call writes the stations, and the eighth is the last.
const MAKING: &[Runs] = &[Runs {
    line: "fleetplan make d 1 2",
    given: "",
    rows: "1 4 | | 1 0 | 7 | fault: stations.csv~ | stations.csv=code\n\
        3 0 | | 1 0 | 7 | fault: legs.csv~ | stations.csv=code,extra,maintenance~HUB,0,yes~SAA,0,yes~; \
        fleets.csv=fleet,aircraft,turn~F1,1,30~F2,0,45~; legs.csv=\n\
        6 6 | | 1 0 | 7 | fault: plan.csv~ | stations.csv=code,extra,maintenance~HUB,0,yes~SAA,0,yes~; \
        fleets.csv=fleet,aircraft,turn~F1,1,30~F2,0,45~; \
        legs.csv=flight,from,dep,to,arr~O0,HUB,23:50,SAA,01:55~R0,SAA,03:15,HUB,05:20~; \
        costs.csv=flight,fleet,cost~O0,F1,1051~O0,F2,1127~R0,F1,1010~R0,F2,1419~; \
        throughs.csv=in,out,value~; plan.csv=flight\n\
        9 0 | 2 0 | 0 0 | 0 | outcome: optimal~cost: 2061~bound: 2061~splits: 0~\
        open: 0 nodes, 0 pivots, 0 grew~fleet F1: used 1 of 1~fleet F2: used 0 of 0~\
        rotation F1: tour of 2 legs in 1 days~rotation F2: unused~ | \
        stations.csv=code,extra,maintenance~HUB,0,yes~SAA,0,yes~; fleets.csv=fleet,aircraft,turn~F1,1,30~F2,0,45~; \
        legs.csv=flight,from,dep,to,arr~O0,HUB,23:50,SAA,01:55~R0,SAA,03:15,HUB,05:20~; \
        costs.csv=flight,fleet,cost~O0,F1,1051~O0,F2,1127~R0,F1,1010~R0,F2,1419~; throughs.csv=in,out,value~; \
        plan.csv=flight,fleet~O0,F1~R0,F1~; proof.txt=fleet proof 2~plan yes~trim O0 F2~refuted~scale 1~\
        rent F2 1~at F2 HUB 0 1~at F2 HUB 1251 0~at F2 SAA 0 1~at F2 SAA 1251 0~trim R0 F2~refuted~scale 1~\
        at F2 SAA 0 1~sole~end~; rotation.csv=fleet,round,kind,a,b~F1,1,tour,1,2~F1,1,leg,R0,0~F1,1,leg,O0,1~\
        F1,1,night,SAA,yes~F2,1,unused,0,0~\n\
        | 1 0 | 0 1 | 7 | | stations.csv=code,extra,maintenance~HUB,0,yes~SAA,0,yes~; \
        fleets.csv=fleet,aircraft,turn~F1,1,30~F2,0,45~; \
        legs.csv=flight,from,dep,to,arr~O0,HUB,23:50,SAA,01:55~R0,SAA,03:15,HUB,05:20~; \
        costs.csv=flight,fleet,cost~O0,F1,1051~O0,F2,1127~R0,F1,1010~R0,F2,1419~; throughs.csv=in,out,value~; \
        plan.csv=flight,fleet~O0,F1~R0,F1~; proof.txt=fleet proof 2~plan yes~trim O0 F2~refuted~scale 1~\
        rent F2 1~at F2 HUB 0 1~at F2 HUB 1251 0~at F2 SAA 0 1~at F2 SAA 1251 0~trim R0 F2~refuted~scale 1~\
        at F2 SAA 0 1~sole~end~; rotation.csv=fleet,round,kind,a,b~F1,1,tour,1,2~F1,1,leg,R0,0~F1,1,leg,O0,1~\
        F1,1,night,SAA,yes~F2,1,unused,0,0~",
}];

#[test]
fn calls_of_commands_that_write(rt: HostRuntime) -> Result<(), Fail> {
    make_runs(&rt, SOLVING)?;
    make_runs(&rt, MAKING)
}
