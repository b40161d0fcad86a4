//! The desks and the sinks, call by call: those in memory, and those over real files and the real output.
use crate::assertions::{assert_holds, assert_same, assert_same_at};
use plan_desk::{Desk, DeskError, DeskFile, FileDesk, Sink, SinkError, StdSink};
use std::alloc::Global;
use std::fs::{self, File};
use std::io::Write;
use std::process::Abort;
use std::test::Fail;
use test_desks::{FailingCall, MemoryDesk, MemorySink};

/// A call of a desk.
#[derive(Clone, Copy)]
enum Call {
    /// A read with a limit.
    Read(DeskFile, u64),
    /// A write of these bytes.
    Write(DeskFile, &'static [u8]),
}

use Call::{Read, Write as Put};

/// The bytes that are read, and none by a write, or the error.
type Answer = Result<&'static [u8], DeskError>;

/// A call, the answer, and the counts behind it: of bytes taken and of faults, and the file to blame.
type Step = (Call, Answer, (u64, u64, Option<DeskFile>));

/// Makes each call, and compares the answers and the counts.
fn run_steps<R: Abort + Alloc<A = Global>, D: Desk>(
    rt: &R,
    desk: &mut D,
    dir: &str,
    steps: &[Step],
) -> Result<(), Fail> {
    for (number, (call, wanted, counts)) in steps.iter().enumerate() {
        let answer = match *call {
            Call::Read(file, limit) => desk.read(rt.alloc(), dir, file, limit),
            Call::Write(file, bytes) => desk
                .write(rt.alloc(), dir, file, bytes)
                .map(|()| Vec::new(rt.alloc())),
        };
        let seen = match &answer {
            Ok(bytes) => Ok(bytes.as_slice()),
            Err(error) => Err(*error),
        };
        assert_same_at(rt, number, seen, *wanted);
        let counted = (desk.taken(), desk.faults(), desk.blamed());
        assert_same_at(rt, number, counted, *counts);
    }
    Ok(())
}

const NOTHING: &[u8] = b"";

// `legs.csv` is there twice and `costs.csv` isn't. The calls 3 and 9 are to fail, after 1 and 2 bytes.
const IN_MEMORY: &[Step] = &[
    (Read(DeskFile::Legs, 3), Ok(b"abc"), (3, 0, None)),
    (
        Read(DeskFile::Legs, 2),
        Err(DeskError::TooLong),
        (6, 0, None),
    ),
    (
        Read(DeskFile::Legs, 3),
        Err(DeskError::Failed),
        (6, 1, Some(DeskFile::Legs)),
    ),
    (
        Read(DeskFile::Costs, 3),
        Err(DeskError::Failed),
        (6, 2, Some(DeskFile::Costs)),
    ),
    (
        Put(DeskFile::Proof, b"proof"),
        Ok(NOTHING),
        (6, 2, Some(DeskFile::Costs)),
    ),
    (
        Put(DeskFile::Proof, b"end"),
        Ok(NOTHING),
        (6, 2, Some(DeskFile::Costs)),
    ),
    (
        Read(DeskFile::Proof, 536_870_912),
        Ok(b"end"),
        (9, 2, Some(DeskFile::Costs)),
    ),
    (
        Put(DeskFile::Plan, b"plan"),
        Ok(NOTHING),
        (9, 2, Some(DeskFile::Costs)),
    ),
    (
        Put(DeskFile::Plan, b"other"),
        Err(DeskError::Failed),
        (9, 3, Some(DeskFile::Plan)),
    ),
    (
        Read(DeskFile::Plan, 4_194_304),
        Ok(b"ot"),
        (11, 3, Some(DeskFile::Plan)),
    ),
];

#[test]
fn a_desk_in_memory(rt: HostRuntime) -> Result<(), Fail> {
    let alloc = rt.alloc();
    let name = || String::from_str(alloc, "d/legs.csv");
    let files = vec![in alloc;
        (name()?, b"old".to_vec(alloc)?),
        (name()?, b"abc".to_vec(alloc)?),
    ]?;
    let failing = vec![in alloc; FailingCall::after(3, 1), FailingCall::after(9, 2)]?;
    let mut desk = MemoryDesk::new(alloc, files, failing)?;
    run_steps(&rt, &mut desk, "d", IN_MEMORY)?;
    assert_same(&rt, desk.file("d/plan.csv"), Some(b"ot".as_slice()));
    assert_same(&rt, desk.file("d/costs.csv"), None);
    Ok(())
}

#[test]
fn a_sink_in_memory(rt: HostRuntime) -> Result<(), Fail> {
    let failing = vec![in rt.alloc(); FailingCall::at(2), FailingCall::after(4, 9)]?;
    let mut sink = MemorySink::new(failing);
    sink.put(b"ab")?;
    assert_same(&rt, sink.put(b"cd"), Err(SinkError::Failed));
    assert_same(&rt, sink.faults(), 1);
    sink.put(b"e")?;
    assert_same(&rt, sink.put(b"fg"), Err(SinkError::Failed));
    assert_same(&rt, sink.had_no_memory(), false);
    assert_same(&rt, sink.put_bytes(), b"abefg".as_slice());
    Ok(())
}

/// Each file of a folder, its path, and a byte of what is written and of what is read.
const PATHS: &[(DeskFile, &str, u8, u8)] = &[
    (DeskFile::Stations, "edge/stations.csv", b'a', b'A'),
    (DeskFile::Fleets, "edge/fleets.csv", b'b', b'B'),
    (DeskFile::Legs, "edge/legs.csv", b'c', b'C'),
    (DeskFile::Costs, "edge/costs.csv", b'd', b'D'),
    (DeskFile::Throughs, "edge/throughs.csv", b'e', b'E'),
    (DeskFile::Windows, "edge/windows.csv", b'j', b'J'),
    (DeskFile::Optional, "edge/optional.csv", b'k', b'K'),
    (DeskFile::Tails, "edge/tails.csv", b'f', b'F'),
    (DeskFile::Plan, "edge/plan.csv", b'g', b'G'),
    (DeskFile::Proof, "edge/proof.txt", b'h', b'H'),
    (DeskFile::Rotation, "edge/rotation.csv", b'i', b'I'),
];

/// More than a megabyte, and no whole number of pieces.
const LENGTH: usize = 1_200_001;

// What the desk writes stands under the path, and what stands there the desk reads.
#[test]
fn real_files(rt: HostRuntime) -> Result<(), Fail> {
    let alloc = rt.alloc();
    let mut desk = FileDesk::new(rt);
    fs::create_dir(&rt, "edge")?;
    for (file, path, written, laid) in PATHS {
        let written = vec![in alloc; *written; LENGTH]?;
        desk.write(alloc, "edge", *file, &written)?;
        let found = fs::read(&rt, *path)?;
        assert_holds(&rt, 0, path, found.as_slice() == written.as_slice());
        let laid = vec![in alloc; *laid; LENGTH]?;
        File::create(&rt, *path)?.write_all(&laid)?;
        let read = desk.read(alloc, "edge", *file, LENGTH as u64)?;
        assert_holds(&rt, 1, path, read.as_slice() == laid.as_slice());
        fs::remove_file(&rt, *path)?;
    }
    fs::remove_dir(&rt, "edge")?;
    assert_same(&rt, (desk.faults(), desk.blamed()), (0, None));
    Ok(())
}

// A file that is too long or isn't there, a folder that isn't there, and a folder in the place of a file.
const REFUSED: &[Step] = &[
    (Put(DeskFile::Plan, b"a plan"), Ok(NOTHING), (0, 0, None)),
    (
        Read(DeskFile::Plan, 5),
        Err(DeskError::TooLong),
        (6, 0, None),
    ),
    (Put(DeskFile::Plan, b"short"), Ok(NOTHING), (6, 0, None)),
    (Read(DeskFile::Plan, 5), Ok(b"short"), (11, 0, None)),
    (
        Read(DeskFile::Legs, 5),
        Err(DeskError::Failed),
        (11, 1, Some(DeskFile::Legs)),
    ),
    (
        Read(DeskFile::Fleets, 5),
        Err(DeskError::Failed),
        (11, 2, Some(DeskFile::Fleets)),
    ),
    (
        Put(DeskFile::Fleets, b"f"),
        Err(DeskError::Failed),
        (11, 3, Some(DeskFile::Fleets)),
    ),
];

const NOWHERE: &[Step] = &[
    (
        Read(DeskFile::Legs, 5),
        Err(DeskError::Failed),
        (0, 1, Some(DeskFile::Legs)),
    ),
    (
        Put(DeskFile::Proof, b"p"),
        Err(DeskError::Failed),
        (0, 2, Some(DeskFile::Proof)),
    ),
];

#[test]
fn files_that_are_refused(rt: HostRuntime) -> Result<(), Fail> {
    fs::create_dir(&rt, "refused")?;
    fs::create_dir(&rt, "refused/fleets.csv")?;
    let mut desk = FileDesk::new(rt);
    run_steps(&rt, &mut desk, "refused", REFUSED)?;
    let mut desk = FileDesk::new(rt);
    run_steps(&rt, &mut desk, "nowhere", NOWHERE)?;
    fs::remove_dir(&rt, "refused/fleets.csv")?;
    fs::remove_file(&rt, "refused/plan.csv")?;
    fs::remove_dir(&rt, "refused")?;
    Ok(())
}

#[test]
fn the_real_output(rt: HostRuntime) -> Result<(), Fail> {
    let mut sink = StdSink::new(&rt);
    sink.put(b"the output takes pieces\n")?;
    sink.put(b"")?;
    assert_same(&rt, sink.faults(), 0);
    Ok(())
}
