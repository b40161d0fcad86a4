//! Rows of runs in which calls fail, and what runs them.
use crate::assertions::{assert_holds, assert_same_at};
use crate::folders::{FILES, bytes, folder, lay, path, standing};
use fleet_cli::run;
use plan_desk::{Desk, Sink};
use std::alloc::Global;
use std::process::Abort;
use std::test::Fail;
use test_desks::{FailingCall, MemoryDesk, MemorySink};

/// Runs of one line of words over the same files.
#[derive(Clone, Copy)]
pub struct Runs {
    /// The words, apart by single spaces.
    pub line: &'static str,
    /// What is laid over the files of the first run.
    pub given: &'static str,
    /// A line for each run, of six fields apart by `|`: the calls of the desk that fail, and those of the sink, each a number and
    /// how many first bytes it leaves; how many faults the desk counts, and the sink; the status; what is put; and what stands
    /// then in place of what lay before.
    pub rows: &'static str,
}

/// Makes all runs.
pub fn make_runs<R: Abort + Alloc<A = Global>>(rt: &R, all: &[Runs]) -> Result<(), Fail> {
    for (number, runs) in all.iter().enumerate() {
        make_each(rt, number, runs)?;
    }
    Ok(())
}

fn make_each<R: Abort + Alloc<A = Global>>(rt: &R, number: usize, runs: &Runs) -> Result<(), Fail> {
    for row in runs.rows.split('\n') {
        let fields = parted(rt.alloc(), row, '|')?;
        make_run(rt, number, runs, fields.as_slice())?;
    }
    Ok(())
}

/// Makes a run, and compares what is put, the status, the faults and all files.
pub fn make_run<R: Abort + Alloc<A = Global>>(
    rt: &R,
    number: usize,
    runs: &Runs,
    fields: &[&str],
) -> Result<(), Fail> {
    let alloc = rt.alloc();
    let mut desk = MemoryDesk::new(
        alloc,
        folder(alloc, runs.given)?,
        cuts(alloc, at(fields, 0))?,
    )?;
    let mut sink = MemorySink::new(cuts(alloc, at(fields, 1))?);
    let status = status_of(alloc, runs.line, &mut desk, &mut sink)?;
    let wanted = bytes(alloc, at(fields, 4))?;
    assert_same_at(rt, number, sink.put_bytes(), wanted.as_slice());
    assert_same_at(rt, number, u64::from(status), number_at(fields, 3));
    assert_faults(rt, number, &desk, &sink, at(fields, 2));
    assert_files(rt, number, &desk, runs.given, at(fields, 5))
}

/// The status with which a run of the words of a line ends.
pub fn status_of(
    alloc: Global,
    line: &str,
    desk: &mut MemoryDesk,
    sink: &mut MemorySink,
) -> Result<u8, Fail> {
    let mut words = Vec::new(alloc);
    for word in line.split(' ') {
        words.push(String::from_str(alloc, word)?)?;
    }
    Ok(run(alloc, words.as_slice(), desk, sink).code)
}

/// Asserts how many faults were counted, and that memory was there.
pub fn assert_faults<R: Abort + Alloc<A = Global>>(
    rt: &R,
    number: usize,
    desk: &MemoryDesk,
    sink: &MemorySink,
    wanted: &str,
) {
    let (of_desk, of_sink) = wanted.split_once(' ').unwrap_or(("", ""));
    assert_same_at(rt, number, desk.faults(), counted(of_desk));
    assert_same_at(rt, number, sink.faults(), counted(of_sink));
    let had_no_memory = desk.had_no_memory() || sink.had_no_memory();
    assert_same_at(rt, number, had_no_memory, false);
}

/// Asserts what stands in the folder.
pub fn assert_files<R: Abort + Alloc<A = Global>>(
    rt: &R,
    number: usize,
    desk: &MemoryDesk,
    given: &str,
    left: &str,
) -> Result<(), Fail> {
    let alloc = rt.alloc();
    let mut wanted = folder(alloc, given)?;
    lay(alloc, &mut wanted, left)?;
    for file in FILES {
        let path = path(alloc, file.name())?;
        let stands = desk.file(path.as_str()) == standing(wanted.as_slice(), path.as_str());
        assert_holds(rt, number, path.as_str(), stands);
    }
    Ok(())
}

/// The calls that a field says are to fail: `7 23, 8 0` are the seventh, which leaves 23 bytes, and the eighth.
fn cuts(alloc: Global, field: &str) -> Result<Vec<FailingCall>, Fail> {
    let mut cuts = Vec::new(alloc);
    for cut in field.split(", ") {
        if let Some((call, bytes)) = cut.split_once(' ') {
            cuts.push(FailingCall::after(counted(call), counted(bytes)))?;
        }
    }
    Ok(cuts)
}

/// The parts of a text, without the spaces around them.
fn parted<'a>(alloc: Global, text: &'a str, mark: char) -> Result<Vec<&'a str>, Fail> {
    let mut parts = Vec::new(alloc);
    for part in text.split(mark) {
        parts.push(part.trim())?;
    }
    Ok(parts)
}

fn at<'a>(fields: &[&'a str], place: usize) -> &'a str {
    match fields.get(place) {
        Some(field) => *field,
        None => "",
    }
}

fn number_at(fields: &[&str], place: usize) -> u64 {
    counted(at(fields, place))
}

/// A number in digits; the greatest one where it is none.
fn counted(digits: &str) -> u64 {
    digits.parse::<u64>().unwrap_or(u64::MAX)
}
