ghost use Rattle.std.specs.Prelude.{◌≡◌, ◌<◌, ◌≤◌, ◌+◌, ◌↔◌, ◌^◌, IfOk, IsTrue, false, length, slice_index_or, suc};
ghost use Rattle.sums.specs.Below.{count_below};
ghost use Rattle.sums.specs.Places.{list_below};
ghost use Rattle.lines_of_flying.specs.ground_turns.Segments.{EndAt, NoneBetween, NoneEnds, is_minute_among, marked_before, span_of};

use entries::NoMemory;
use std::alloc::Global;
use std::marker::Model;

/// The segments of a period at a station, each of which reaches to a minute at whose end no aircraft stands there.
/// They tell in constant time whether a turn is clean. Contracts see the number of each minute's segment.
#[derive(Drop)]
pub struct Segments {
    // for each minute how many segments have ended before it, and last how many end in the period
    numbers: Vec<u16>,
}

impl Model for Segments {
    ghost use Rattle.std.specs.Prelude.{List, ℕ};
    ghost use Rattle.lines_of_flying.specs.ground_turns.Segments.{AreNumbers};

    ghost Value = { List ℕ };

    ghost view = { λ segments. segments.numbers.items };

    ghost invariant = { λ segments. AreNumbers segments.numbers.items };
}

impl Segments {
    /// The segments that end with some minutes of a period of so many.
    pub fn new(alloc: Global, minutes: u16, ends: &[u16]) -> Result<Segments, NoMemory>
        requires some { 0 < minutes }
        requires few { minutes ≤ 20160 }
        ensures minutes { IfOk result (λ segments. span_of segments ≡ minutes) }
        ensures ends { IfOk result (λ segments. EndAt ends.now segments) }
    {
        let marks = marks(alloc, minutes, ends)?;
        let numbers = numbers(alloc, &marks)?;
        Ok(Segments { numbers })
    }

    /// Whether no segment ends while an aircraft waits that is ready in one minute and departs in another, going
    /// round. Takes no memory.
    pub fn is_clean(&self, ready: u16, departure: u16) -> bool
        requires ready { ready < span_of self.now }
        requires departure { departure < span_of self.now }
        ensures { IsTrue result ↔ NoneEnds self.now ready departure }
    {
        let minutes = (self.numbers.len() - 1) as u16;
        if ready <= departure {
            self.is_one(ready, departure)
        } else {
            self.is_one(ready, minutes) && self.is_one(0, departure)
        }
    }

    // Whether no segment ends from one minute on and before another, in which the period may end.
    fn is_one(&self, from: u16, to: u16) -> bool
        requires order { from ≤ to }
        requires within { to ≤ span_of self.now }
        ensures { IsTrue result ↔ NoneBetween self.now from to }
    {
        self.numbers[usize::from(from)] == self.numbers[usize::from(to)]
    }
}

// Of each of so many minutes, whether it is one of the list.
fn marks(alloc: Global, minutes: u16, list: &[u16]) -> Result<Vec<bool>, NoMemory>
    ensures { IfOk result (λ marks. marks.items ≡ list_below (is_minute_among list.now) minutes) }
{
    let mut marks = vec![in alloc; false; usize::from(minutes)]?;
    for minute in list {
        if *minute < minutes {
            marks[usize::from(*minute)] = true;
        }
    }
    Ok(marks)
}

// For each minute how many marks stand before it, and last how many there are.
fn numbers(alloc: Global, marks: &[bool]) -> Result<Vec<u16>, NoMemory>
    requires { length marks.now < 2 ^ 16 }
    ensures { IfOk result (λ numbers. numbers.items ≡ list_below (marked_before marks.now) (length marks.now + 1)) }
{
    let mut numbers = Vec::new(alloc);
    let mut number = 0;
    numbers.push(number)?;
    for mark in marks {
        if *mark {
            number += 1;
        }
        numbers.push(number)?;
    }
    Ok(numbers)
}
