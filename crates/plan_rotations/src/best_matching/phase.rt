//! One phase of the method: a row more is matched.
ghost use Rattle.std.specs.Prelude.{◌≡◌, ◌<◌, ◌≤◌, ◌+◌, ℕ, length, slice_index, IfOk};
ghost use Rattle.sums.specs.Places.{list_below};
ghost use Rattle.plan_rotations.specs.best_matching.Worths.{AreWorths, worth_at};
ghost use Rattle.plan_rotations.specs.best_matching.Drafts.{HasDuals, IsMatched, IsPairing, column_dual, row_dual};
ghost use Rattle.plan_rotations.specs.best_matching.Trees.{IsRowSearch, IsTreeGrown};

use crate::best_matching::draft::Draft;
use crate::best_matching::tree::{Tree, gap_of, relax, widen};
use crate::best_matching::walk::walk_back;
use entries::{Entries, NoMemory};
use std::alloc::Global;

/// Matches a row more, where all rows before it are matched.
pub fn add_row(
    alloc: Global,
    worths: &[Entries<u64>],
    draft: &mut Draft,
    row: usize,
) -> Result<(), NoMemory>
    requires worths { AreWorths worths.now }
    requires pairing { IsPairing (length worths.now) draft.old }
    requires duals { HasDuals worths.now draft.old }
    requires matched { IsMatched worths.now draft.old row (length worths.now) }
    requires row { row < length worths.now }
    ensures pairing { IfOk result (λ _. IsPairing (length worths.now) draft.new) }
    ensures duals { IfOk result (λ _. HasDuals worths.now draft.new) }
    ensures matched { IfOk result (λ _. IsMatched worths.now draft.new (row + 1) (length worths.now)) }
{
    let mut tree = plant(alloc, worths, draft, row)?;
    let free = grow(worths, draft, &mut tree, row);
    walk_back(draft, &tree, row, free);
    Ok(())
}

/// The tree that has nothing but its root.
fn plant(
    alloc: Global,
    worths: &[Entries<u64>],
    draft: &Draft,
    root: usize,
) -> Result<Tree, NoMemory>
    requires worths { AreWorths worths.now }
    requires pairing { IsPairing (length worths.now) draft.now }
    requires duals { HasDuals worths.now draft.now }
    requires matched { IsMatched worths.now draft.now root (length worths.now) }
    requires root { root < length worths.now }
    ensures { IfOk result (λ tree. IsRowSearch worths.now draft.now tree root 0) }
{
    Ok(Tree {
        gaps: first_gaps(alloc, worths, draft, root)?,
        from: repeated(alloc, root, worths.len())?,
        turns: repeated(alloc, worths.len(), worths.len())?,
    })
}

/// The gaps of the columns from the root.
fn first_gaps(
    alloc: Global,
    worths: &[Entries<u64>],
    draft: &Draft,
    root: usize,
) -> Result<Entries<u64>, NoMemory>
    requires worths { AreWorths worths.now }
    requires pairing { IsPairing (length worths.now) draft.now }
    requires duals { HasDuals worths.now draft.now }
    requires root { root < length worths.now }
    ensures size { IfOk result (λ gaps. length gaps ≡ length worths.now) }
    ensures each { IfOk result (λ gaps. (column : ℕ) → column < length worths.now
        → slice_index gaps column + worth_at worths.now root column ≡ row_dual draft.now root + column_dual draft.now column) }
{
    let mut gaps = Vec::new(alloc);
    for column in 0..worths.len() {
        gaps.push(gap_of(worths, draft, root, column))?;
    }
    Ok(Entries::from_vec(gaps))
}

/// One number so many times.
fn repeated(alloc: Global, number: usize, times: usize) -> Result<Entries<usize>, NoMemory>
    ensures { IfOk result (λ numbers. numbers ≡ list_below (λ _. number) times) }
{
    let mut numbers = Vec::new(alloc);
    for _ in 0..times {
        numbers.push(number)?;
    }
    Ok(Entries::from_vec(numbers))
}

/// Grows the tree until it has the column of a row that isn't matched, and answers that row.
fn grow(worths: &[Entries<u64>], draft: &mut Draft, tree: &mut Tree, root: usize) -> usize
    requires worths { AreWorths worths.now }
    requires search { IsRowSearch worths.now draft.old tree.old root 0 }
    requires root { root < length worths.now }
    ensures { IsTreeGrown worths.now draft.new tree.new root result }
{
    for turn in 0..worths.len() {
        let next = widen(draft, tree, root, turn);
        let tip = draft.rows.as_slice()[next];
        if tip >= root {
            return tip;
        }
        relax(worths, draft, tree, tip);
    }
    unreachable!()
}
