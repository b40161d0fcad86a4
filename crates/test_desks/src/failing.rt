ghost use Rattle.std.specs.Prelude.{◌≡◌, take};
ghost use Rattle.plan_desk.specs.Counts.{counted};
ghost use Rattle.test_desks.specs.Failing.{bytes_left};

/// A call of a desk or a sink in memory that is to fail.
#[derive(Clone, Copy)]
pub struct FailingCall {
    /// The number of the call. The first has the number 1, and from 2^64 - 1 on all have that number.
    pub call: u64,
    /// How many first bytes of its piece a write or a put leaves: all, where there are fewer. A read leaves none.
    pub bytes: u64,
}

impl FailingCall {
    /// The call of this number, which leaves nothing of its piece.
    pub fn at(call: u64) -> FailingCall
        ensures call { result.call ≡ call }
        ensures bytes { result.bytes ≡ 0 }
    {
        FailingCall::after(call, 0)
    }

    /// The call of this number, which leaves so many first bytes.
    pub fn after(call: u64, bytes: u64) -> FailingCall
        ensures call { result.call ≡ call }
        ensures bytes { result.bytes ≡ bytes }
    {
        FailingCall { call, bytes }
    }
}

/// How many calls were made, and which are to fail.
#[derive(Drop)]
pub(crate) struct CallPlan {
    made: u64,
    failing: Vec<FailingCall>,
}

impl CallPlan {
    /// The plan before the first call.
    pub(crate) fn new(failing: Vec<FailingCall>) -> CallPlan
        ensures made { result.made ≡ 0 }
        ensures failing { result.failing.items ≡ failing.items }
    {
        CallPlan { made: 0, failing }
    }

    /// Counts a call, and says how many first bytes it leaves where it is to fail.
    pub(crate) fn next_failing(&mut self) -> Option<u64>
        ensures left { result ≡ bytes_left self.new.made self.old.failing.items }
        ensures made { self.new.made ≡ counted self.old.made 1 }
        ensures failing { self.new.failing.items ≡ self.old.failing.items }
    {
        self.made = self.made.saturating_add(1);
        let number = self.made;
        let entry = self.failing.iter().find(|entry| entry.call == number)?;
        Some(entry.bytes)
    }
}

/// So many first bytes of a piece, and all of them where there are fewer.
#[tactic(auto, using(std::proofs::lemmas::List::take_all))]
pub(crate) fn first_bytes(piece: &[u8], count: u64) -> &[u8]
    ensures { result.now ≡ take count piece.now }
{
    if count < piece.len() as u64 {
        &piece[..count as usize]
    } else {
        piece
    }
}
