ghost use Rattle.std.specs.Prelude.{◌≡◌, ◌≤◌, None, OnErr, OnOk};
ghost use Rattle.std.specs.Io.KnownBytes.{Appends};
ghost use Rattle.plan_desk.specs.Counts.{counted};
ghost use Rattle.plan_desk.specs.Sink.{MatchPutFailed, OnPutNoMemory, TakesFront};
ghost use Rattle.plan_desk.specs.Writer.{faults_counted, writer_of};

use crate::counts::count_up;
use crate::transfer::write_whole;
use crate::{Sink, SinkError};
use std::io::{self, Print, Printer, Write};

/// A sink that writes to a writer of std. What was put is what the writer takes: `put` says so, where it is known what
/// the writer holds.
#[derive(Drop)]
pub struct WriterSink<W: Write> {
    writer: W,
    faults: u64,
}

/// A sink that writes to standard output. It tells nothing of what was put.
pub type StdSink<'a, P> = WriterSink<Printer<'a, P>>;

impl<W: Write> WriterSink<W> {
    /// A sink over a writer.
    pub fn over(writer: W) -> WriterSink<W>
        ensures writer { writer_of result ≡ writer }
        ensures faults { ⟦<WriterSink<W> as Sink>⟧.faults result ≡ 0 }
    {
        WriterSink { writer, faults: 0 }
    }
}

impl<'a, P: Print> StdSink<'a, P> {
    /// A sink over the standard output of the runtime.
    pub fn new(rt: &'a P) -> StdSink<'a, P>
        ensures { ⟦<WriterSink<Printer<'a, P>> as Sink>⟧.faults result ≡ 0 }
    {
        WriterSink::over(io::writer(rt))
    }
}

impl<W: Write> Sink for WriterSink<W> {
    ghost output = { λ sink. None };

    ghost puts = { λ sink. None };

    ghost handed = { λ sink. None };

    ghost faults = { faults_counted };

    ghost fails_next = { λ sink. ⊥ };

    ghost is_steady = { λ sink. ⊥ };

    /// Also says that the writer took the whole piece, or some first bytes of it where the put failed. It takes no memory, so
    /// whatever the writer refuses is a counted fault.
    fn put(&mut self, bytes: &[u8]) -> Result<(), SinkError>
        ensures whole { OnOk result (Appends (W.contents (writer_of self.old)) (W.contents (writer_of self.new)) bytes.now) }
        ensures part { OnErr result (TakesFront (W.contents (writer_of self.old)) (W.contents (writer_of self.new)) bytes.now) }
        ensures faults { MatchPutFailed result (faults_counted self.new ≡ counted (faults_counted self.old) 1) (faults_counted self.new ≡ faults_counted self.old) }
        ensures faults_never_fall { faults_counted self.old ≤ faults_counted self.new }
        ensures wants_none { OnPutNoMemory result ⊥ }
    {
        if write_whole(&mut self.writer, bytes).is_err() {
            count_up(&mut self.faults, 1);
            return Err(SinkError::Failed);
        }
        Ok(())
    }

    fn faults(&self) -> u64 {
        self.faults
    }
}
