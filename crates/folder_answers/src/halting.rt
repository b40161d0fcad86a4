//! Calls that a refusal ends. Whoever calls them goes on with what was read, by `?`, and a refusal comes out as the answer.
ghost use Rattle.std.specs.Prelude.{◌≡◌};
ghost use Rattle.folder_answers.specs.declared.halting.Halt.TheVariants as halt;

use crate::answer::Answer;
use entries::NoMemory;

/// Why what was asked comes to its end before it is answered in full.
#[derive(Drop)]
pub enum Halt {
    /// Something that was read is refused, which is the answer.
    Refused(Answer),
    NoMemory,
}

impl From<NoMemory> for Halt {
    ghost from_gives = { λ _ e. e ≡ halt.NoMemory };

    fn from(_: NoMemory) -> Halt {
        Halt::NoMemory
    }
}
