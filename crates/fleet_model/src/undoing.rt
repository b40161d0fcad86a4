ghost use Rattle.std.specs.Prelude.{◌<◌};
ghost use Rattle.fleet_model.specs.declared.limits.TheConstants.{MAX_LEGS};

use crate::saved::SavedRow;

/// How to take a step back: the pairs of its leg as `Kept::narrow` found them.
#[derive(Drop)]
pub struct Undo {
    pub(crate) leg: u32,
    pub(crate) row: SavedRow,
    pub(crate) ghost within: { leg < MAX_LEGS },
}
