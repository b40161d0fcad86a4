//! The tree that is grown from a row in search of a free column.
ghost use Rattle.std.specs.Prelude.{◌≡◌, ◌<◌, ◌≤◌, ◌+◌, ◌-◌, ℕ, true, false, length, slice_index, if◌then◌else◌, IfOk, MatchBool};
ghost use Rattle.sums.specs.Places.{list_below};
ghost use Rattle.plan_rotations.specs.best_matching.Worths.{AreWorths, worth_at};
ghost use Rattle.plan_rotations.specs.best_matching.Drafts.{HasDuals, IsPairing, column_dual, column_of, row_dual};
ghost use Rattle.plan_rotations.specs.best_matching.Trees.{HasSize, IsTreeRelaxed, IsWidened, gap_at, is_in_tree, is_reached, turn_of_column};
ghost use Rattle.plan_rotations.specs.declared.best_matching.matching.TheConstants.{MAX_WORTH};

use crate::best_matching::draft::{Draft, worth_at};
use entries::Entries;

/// For each column the least gap between the duals and the worth from a reached row, the row that it is from, and the
/// turn at which the column joined the tree; before that the number of all columns stands for the turn.
#[derive(Drop)]
pub struct Tree {
    pub gaps: Entries<u64>,
    pub from: Entries<usize>,
    pub turns: Entries<usize>,
}

/// Whether a column is in the tree.
#[inline]
pub fn is_in(turns: &Entries<usize>, column: usize) -> bool
    requires { column < length turns.now }
    ensures { result ≡ is_in_tree turns.now column }
{
    turns.as_slice()[column] < turns.len()
}

/// Whether a row is reached.
#[inline]
pub fn is_reached(columns: &Entries<usize>, turns: &Entries<usize>, root: usize, row: usize) -> bool
    requires row { row < length columns.now }
    requires column { slice_index columns.now row < length turns.now }
    ensures { result ≡ is_reached columns.now turns.now root row }
{
    row == root || is_in(turns, columns.as_slice()[row])
}

/// The column outside with the least gap, beginning with one that is outside. Among equal gaps one of a row that isn't
/// matched goes first, since it ends the search.
pub fn nearest(tree: &Tree, rows: &Entries<usize>, root: usize, start: usize) -> usize
    requires size { HasSize (length tree.now.turns) tree.now }
    requires rows { length rows.now ≡ length tree.now.turns }
    requires start { start < length tree.now.turns }
    requires outside { length tree.now.turns ≤ turn_of_column tree.now start }
    ensures within { result < length tree.now.turns }
    ensures outside { length tree.now.turns ≤ turn_of_column tree.now result }
    ensures least { (column : ℕ) → column < length tree.now.turns → length tree.now.turns ≤ turn_of_column tree.now column → gap_at tree.now result ≤ gap_at tree.now column }
{
    let mut nearest = start;
    for column in 0..tree.turns.len() {
        if !is_in(&tree.turns, column) && is_nearer(tree, rows, root, column, nearest) {
            nearest = column;
        }
    }
    nearest
}

/// Whether a column goes before another: it has a smaller gap, or the same and a row that isn't matched.
#[inline]
fn is_nearer(tree: &Tree, rows: &Entries<usize>, root: usize, column: usize, other: usize) -> bool
    requires size { HasSize (length tree.now.turns) tree.now }
    requires rows { length rows.now ≡ length tree.now.turns }
    requires column { column < length tree.now.turns }
    requires other { other < length tree.now.turns }
    ensures { MatchBool result (gap_at tree.now column ≤ gap_at tree.now other) (gap_at tree.now other ≤ gap_at tree.now column) }
{
    let gap = tree.gaps.as_slice()[column];
    let other_gap = tree.gaps.as_slice()[other];
    if gap == other_gap {
        rows.as_slice()[column] >= root && rows.as_slice()[other] < root
    } else {
        gap < other_gap
    }
}

/// Lowers the duals of the reached rows.
pub fn lower_rows(
    row_duals: &mut Entries<u64>,
    columns: &Entries<usize>,
    turns: &Entries<usize>,
    root: usize,
    by: u64,
)
    requires columns { length columns.now ≡ length row_duals.old }
    requires within { (row : ℕ) → row < length row_duals.old → slice_index columns.now row < length turns.now }
    requires enough { (row : ℕ) → row < length row_duals.old → is_reached columns.now turns.now root row ≡ true → by ≤ slice_index row_duals.old row }
    ensures { row_duals.new ≡ list_below (λ row. if is_reached columns.now turns.now root row then slice_index row_duals.old row - by else slice_index row_duals.old row) (length row_duals.old) }
{
    for row in 0..row_duals.len() {
        if is_reached(columns, turns, root, row) {
            let lowered = row_duals.as_slice()[row] - by;
            row_duals.set(row, lowered);
        }
    }
}

/// Raises the duals of the columns in the tree.
pub fn raise_columns(column_duals: &mut Entries<u64>, turns: &Entries<usize>, by: u64)
    requires size { length turns.now ≡ length column_duals.old }
    requires room { (column : ℕ) → column < length column_duals.old → is_in_tree turns.now column ≡ true → slice_index column_duals.old column + by ≤ MAX_WORTH }
    ensures { column_duals.new ≡ list_below (λ column. if is_in_tree turns.now column then slice_index column_duals.old column + by else slice_index column_duals.old column) (length column_duals.old) }
{
    for column in 0..column_duals.len() {
        if is_in(turns, column) {
            let raised = column_duals.as_slice()[column] + by;
            column_duals.set(column, raised);
        }
    }
}

/// Lowers the gaps of the columns outside.
pub fn lower_gaps(gaps: &mut Entries<u64>, turns: &Entries<usize>, by: u64)
    requires size { length turns.now ≡ length gaps.old }
    requires enough { (column : ℕ) → column < length gaps.old → is_in_tree turns.now column ≡ false → by ≤ slice_index gaps.old column }
    ensures { gaps.new ≡ list_below (λ column. if is_in_tree turns.now column then slice_index gaps.old column else slice_index gaps.old column - by) (length gaps.old) }
{
    for column in 0..gaps.len() {
        if !is_in(turns, column) {
            let lowered = gaps.as_slice()[column] - by;
            gaps.set(column, lowered);
        }
    }
}

/// Moves the duals by the least gap of a column outside, and takes that column into the tree.
pub fn widen(draft: &mut Draft, tree: &mut Tree, root: usize, turn: usize) -> usize
    requires pairing { IsPairing (length draft.old.columns) draft.old }
    requires size { HasSize (length draft.old.columns) tree.old }
    requires root { root < length draft.old.columns }
    requires outside { length draft.old.columns ≤ turn_of_column tree.old (column_of draft.old root) }
    requires enough { (row : ℕ) → row < length draft.old.columns → is_reached draft.old.columns tree.old.turns root row ≡ true → gap_at tree.old (column_of draft.old root) ≤ row_dual draft.old row }
    requires room { (column : ℕ) → column < length draft.old.columns → is_in_tree tree.old.turns column ≡ true → column_dual draft.old column + gap_at tree.old (column_of draft.old root) ≤ MAX_WORTH }
    ensures within { result < length draft.old.columns }
    ensures outside { length draft.old.columns ≤ turn_of_column tree.old result }
    ensures least { (column : ℕ) → column < length draft.old.columns → length draft.old.columns ≤ turn_of_column tree.old column → gap_at tree.old result ≤ gap_at tree.old column }
    ensures widened { IsWidened (length draft.old.columns) draft.old draft.new tree.old tree.new root turn result }
{
    let next = nearest(tree, &draft.rows, root, draft.columns.as_slice()[root]);
    let by = tree.gaps.as_slice()[next];
    lower_rows(&mut draft.row_duals, &draft.columns, &tree.turns, root, by);
    raise_columns(&mut draft.column_duals, &tree.turns, by);
    lower_gaps(&mut tree.gaps, &tree.turns, by);
    tree.turns.set(next, turn);
    next
}

/// Takes a newly reached row into the gaps of the columns outside.
pub fn relax(worths: &[Entries<u64>], draft: &Draft, tree: &mut Tree, tip: usize)
    requires worths { AreWorths worths.now }
    requires pairing { IsPairing (length worths.now) draft.now }
    requires duals { HasDuals worths.now draft.now }
    requires size { HasSize (length worths.now) tree.old }
    requires tip { tip < length worths.now }
    ensures { IsTreeRelaxed worths.now draft.now tree.old tree.new tip }
{
    for column in 0..worths.len() {
        let gap = gap_of(worths, draft, tip, column);
        if !is_in(&tree.turns, column) && gap < tree.gaps.as_slice()[column] {
            tree.gaps.set(column, gap);
            tree.from.set(column, tip);
        }
    }
}

/// By how much the duals of a row and a column pass what the row is worth there.
#[inline]
pub fn gap_of(worths: &[Entries<u64>], draft: &Draft, row: usize, column: usize) -> u64
    requires worths { AreWorths worths.now }
    requires pairing { IsPairing (length worths.now) draft.now }
    requires duals { HasDuals worths.now draft.now }
    requires row { row < length worths.now }
    requires column { column < length worths.now }
    ensures { result + worth_at worths.now row column ≡ row_dual draft.now row + column_dual draft.now column }
{
    draft.row_duals.as_slice()[row] + draft.column_duals.as_slice()[column]
        - worth_at(worths, row, column)
}
