use crate::fixed_numbers::{Item, NONE, Scalar, at, place_of, put, reset};
use crate::open::Open;
use entries::NoMemory;
use std::alloc::Global;

// How many items there may be.
const MOST_ITEMS: usize = 1 << 24;

/// Where a row lies.
#[derive(Clone, Copy)]
struct Row {
    start: u32,
    len: u32,
    room: u32,
}

/// A line that may have a number in a column, and the next one of that column.
#[derive(Clone, Copy)]
struct Node {
    line: u32,
    next: u32,
}

/// The open lines' numbers in open columns, by lines, and of each column the lines that may have one.
#[derive(Drop)]
pub struct Rows<S> {
    rows: Vec<Row>,
    items: Vec<Item<S>>,
    firsts: Vec<u32>,
    nodes: Vec<Node>,
    /// Of each column its place among the items that are taken from rows, and 1; or 0.
    marks: Vec<u32>,
    /// Of each column the turn at which it was last met, and of each line.
    turns: Vec<u64>,
    line_turns: Vec<u64>,
    turn: u64,
}

impl<S: Scalar> Rows<S> {
    pub fn new(alloc: Global) -> Rows<S> {
        Rows {
            rows: Vec::new(alloc),
            items: Vec::new(alloc),
            firsts: Vec::new(alloc),
            nodes: Vec::new(alloc),
            marks: Vec::new(alloc),
            turns: Vec::new(alloc),
            line_turns: Vec::new(alloc),
            turn: 0,
        }
    }

    /// Begins with empty rows that have room for so many items each, and as much again.
    pub fn begin(&mut self, counts: &[u32]) -> Result<(), NoMemory> {
        self.rows.clear();
        self.nodes.clear();
        let count = counts.len();
        reset(&mut self.firsts, count, NONE)?;
        reset(&mut self.marks, count, 0)?;
        reset(&mut self.turns, count, 0)?;
        reset(&mut self.line_turns, count, 0)?;
        self.turn = 0;
        let mut start = 0u32;
        for count in counts {
            let room = count.wrapping_mul(2) & 0xff_ffff;
            self.rows.push(Row {
                start,
                len: 0,
                room,
            })?;
            start = start.wrapping_add(room);
        }
        let none = Item {
            place: 0,
            number: S::of(0),
        };
        reset(&mut self.items, (start as usize).min(MOST_ITEMS), none)
    }

    /// How many items a row has.
    #[inline(always)]
    pub fn len(&self, line: u32) -> u32 {
        self.row(line).len
    }

    #[inline(always)]
    fn row(&self, line: u32) -> Row {
        let none = Row {
            start: 0,
            len: 0,
            room: 0,
        };
        at(&self.rows, line as usize, none)
    }

    /// The items of a row.
    #[inline(always)]
    pub fn of(&self, line: u32) -> &[Item<S>] {
        let row = self.row(line);
        let start = row.start as usize;
        let end = start.wrapping_add(row.len as usize);
        if start <= end && end <= self.items.len() {
            &self.items[start..end]
        } else {
            &[]
        }
    }

    /// The number of a line in a column.
    #[inline(always)]
    pub fn number(&self, line: u32, column: u32) -> S {
        for item in self.of(line) {
            if item.place == column {
                return item.number;
            }
        }
        S::of(0)
    }

    /// Finds the lines that have a number in a column, but those that are closed. A line may have two nodes, where its number went
    /// and came again.
    pub fn find(
        &mut self,
        column: u32,
        open: &Open,
        found: &mut Vec<Item<S>>,
    ) -> Result<(), NoMemory> {
        found.clear();
        self.turn = self.turn.wrapping_add(1);
        let mut last = NONE;
        let mut node = at(&self.firsts, column as usize, NONE);
        for _turn in 0..u64::MAX {
            let place = node as usize;
            if place >= self.nodes.len() {
                break;
            }
            let Node { line, next } = self.nodes[place];
            let number = self.seen(line, column, open);
            if number.is_zero() {
                self.bridge(column, last, next);
            } else {
                found.push(Item {
                    place: line,
                    number,
                })?;
                last = node;
            }
            node = next;
        }
        Ok(())
    }

    // The number of an open line in a column where it is seen first in this turn, and 0 else.
    fn seen(&mut self, line: u32, column: u32, open: &Open) -> S {
        let place = line as usize;
        if !open.is_line_open(line) || at(&self.line_turns, place, 0) == self.turn {
            return S::of(0);
        }
        put(self.line_turns.as_mut_slice(), place, self.turn);
        self.number(line, column)
    }

    // Makes a node the one behind another, or the first of a column.
    fn bridge(&mut self, column: u32, last: u32, next: u32) {
        let place = last as usize;
        if place < self.nodes.len() {
            let line = self.nodes[place].line;
            self.nodes[place] = Node { line, next };
        } else {
            put(self.firsts.as_mut_slice(), column as usize, next);
        }
    }

    /// Gives a row one more number, where there is room for it.
    pub fn push(&mut self, line: u32, column: u32, number: S) -> Result<(), NoMemory> {
        let row = self.row(line);
        if row.len == row.room {
            self.move_behind(line)?;
        }
        let row = self.row(line);
        let place = (row.start as usize).wrapping_add(row.len as usize);
        let item = Item {
            place: column,
            number,
        };
        if place >= self.items.len() || row.len >= row.room {
            return Ok(());
        }
        put(self.items.as_mut_slice(), place, item);
        self.set_len(line, row.len.wrapping_add(1));
        let next = at(&self.firsts, column as usize, NONE);
        let node = place_of(self.nodes.len());
        self.nodes.push(Node { line, next })?;
        put(self.firsts.as_mut_slice(), column as usize, node);
        Ok(())
    }

    fn set_len(&mut self, line: u32, len: u32) {
        let row = self.row(line);
        let new = Row {
            start: row.start,
            len,
            room: row.room,
        };
        put(self.rows.as_mut_slice(), line as usize, new);
    }

    // Copies a row behind all others, where it has twice as much room.
    fn move_behind(&mut self, line: u32) -> Result<(), NoMemory> {
        let row = self.row(line);
        let start = self.items.len();
        let room = row.len.wrapping_mul(2).wrapping_add(4);
        let end = start.wrapping_add(room as usize);
        if end > MOST_ITEMS {
            return Ok(());
        }
        let none = Item {
            place: 0,
            number: S::of(0),
        };
        self.items.resize(end, none)?;
        for place in 0..row.len as usize {
            let item = at(&self.items, (row.start as usize).wrapping_add(place), none);
            put(self.items.as_mut_slice(), start.wrapping_add(place), item);
        }
        let new = Row {
            start: place_of(start),
            len: row.len,
            room,
        };
        put(self.rows.as_mut_slice(), line as usize, new);
        Ok(())
    }

    /// Marks the columns of items that are to be taken from rows.
    pub fn mark(&mut self, items: &[Item<S>]) {
        for place in 0..items.len() {
            let column = items[place].place as usize;
            let mark = place_of(place).wrapping_add(1);
            put(self.marks.as_mut_slice(), column, mark);
        }
    }

    /// Takes the marks of items away.
    pub fn unmark(&mut self, items: &[Item<S>]) {
        for item in items {
            put(self.marks.as_mut_slice(), item.place as usize, 0);
        }
    }

    /// Takes marked items so many times from a row, lets a column of it go, and counts the columns' lines anew.
    pub fn take(
        &mut self,
        line: u32,
        gone: u32,
        items: &[Item<S>],
        times: S,
        counts: &mut [u32],
    ) -> Result<(), NoMemory> {
        self.turn = self.turn.wrapping_add(1);
        self.take_met(line, gone, items, times, counts);
        for item in items {
            let column = item.place as usize;
            if at(&self.turns, column, 0) != self.turn {
                let number = S::of(0).minus(item.number.times(times));
                self.push(line, item.place, number)?;
                put(counts, column, at(counts, column, 0).wrapping_add(1));
            }
        }
        Ok(())
    }

    // The same in the columns in which the row has a number. What is left of it closes up.
    fn take_met(&mut self, line: u32, gone: u32, items: &[Item<S>], times: S, counts: &mut [u32]) {
        let row = self.row(line);
        let mut end = row.start as usize;
        for place in end..end.wrapping_add(row.len as usize) {
            if place >= self.items.len() {
                break;
            }
            let name = self.items[place].place;
            let column = name as usize;
            let mark = at(&self.marks, column, 0) as usize;
            let mut number = self.items[place].number;
            if mark != 0 && mark <= items.len() {
                put(self.turns.as_mut_slice(), column, self.turn);
                number = number.minus(items[mark.wrapping_sub(1)].number.times(times));
            }
            if name != gone && !number.is_tiny() {
                let kept = Item {
                    place: name,
                    number,
                };
                put(self.items.as_mut_slice(), end, kept);
                end = end.wrapping_add(1);
            } else if name != gone {
                put(counts, column, at(counts, column, 1).wrapping_sub(1));
            }
        }
        self.set_len(line, place_of(end.wrapping_sub(row.start as usize)));
    }
}
