ghost use Rattle.folder_answers.specs.Opened.{IsAnsweredBy, IsOrRefused};

use crate::answer::Answer;
use crate::halting::Halt;
use bound_cert::Proof;
use entries::NoMemory;
use fleet_model::Tables;

/// What the first files of a command come to.
#[derive(Drop)]
pub enum Opened {
    /// The answer.
    Answered(Answer),
    /// A proof that comes with a plan, whose file is still to be read.
    WantsPlan(Checking),
}

/// What is asked of the tree of a proof.
#[derive(Clone, Copy)]
pub enum Question {
    /// Whether it holds.
    Holds,
    /// What it says of the tables in which this fleet has so many aircraft.
    OtherSize { fleet: u32, count: u32 },
}

/// A proof, the tables that it is of, and what is asked of it.
#[derive(Drop)]
pub struct Checking {
    pub tables: Tables,
    pub proof: Proof,
    pub asks: Question,
}

/// What first files come to, where a refusal of theirs is the answer.
pub fn or_refused(opened: Result<Opened, Halt>) -> Result<Opened, NoMemory>
    ensures { IsOrRefused opened result }
{
    match opened {
        Ok(opened) => Ok(opened),
        Err(Halt::Refused(answer)) => Ok(Opened::Answered(answer)),
        Err(Halt::NoMemory) => Err(NoMemory),
    }
}

/// An answer as what first files come to. A refusal stays one.
pub fn answered(answer: Result<Answer, Halt>) -> Result<Opened, Halt>
    ensures { IsAnsweredBy answer result }
{
    Ok(Opened::Answered(answer?))
}
