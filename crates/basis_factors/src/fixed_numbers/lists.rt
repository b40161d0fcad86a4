//! Reads and writes by number that ask for no proof where a list ends.
use entries::NoMemory;
use std::alloc::Global;

/// No place in a list: no line, no column.
pub const NONE: u32 = u32::MAX;

/// The entry at a place, or the one that is given where there is none.
#[inline(always)]
pub fn at<T: Copy>(list: &[T], place: usize, other: T) -> T {
    if place < list.len() {
        list[place]
    } else {
        other
    }
}

/// Writes an entry where the list has the place.
#[inline(always)]
pub fn put<T: Copy + Drop>(list: &mut [T], place: usize, entry: T) {
    if place < list.len() {
        list[place] = entry;
    }
}

/// A list of so many equal entries.
pub fn filled<T: Copy + Drop>(alloc: Global, entry: T, count: usize) -> Result<Vec<T>, NoMemory> {
    let mut list = Vec::new(alloc);
    list.resize(count, entry)?;
    Ok(list)
}

/// Makes a list one of so many equal entries.
pub fn reset<T: Copy + Drop>(list: &mut Vec<T>, count: usize, entry: T) -> Result<(), NoMemory> {
    list.clear();
    list.resize(count, entry)?;
    Ok(())
}

/// Makes all entries equal to one.
pub fn fill<T: Copy + Drop>(list: &mut [T], entry: T) {
    for place in 0..list.len() {
        list[place] = entry;
    }
}

/// A place as it is held in lists.
#[inline(always)]
pub fn place_of(place: usize) -> u32 {
    (place & 0xffff_ffff) as u32
}
