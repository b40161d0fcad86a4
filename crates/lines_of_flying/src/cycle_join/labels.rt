//! Labels of legs: those of one cycle have the same.
ghost use Rattle.std.specs.Prelude.{◌≡◌, IfOk};
ghost use Rattle.sums.specs.Places.{list_below};
ghost use Rattle.lines_of_flying.specs.cycle_join.Labels.{AreRelabelled};

use entries::NoMemory;
use std::alloc::Global;

/// Each leg's own number as its label.
pub(crate) fn own_labels(alloc: Global, legs: u32) -> Result<Vec<u32>, NoMemory>
    ensures { IfOk result (λ labels. labels.items ≡ list_below (λ l. l) legs) }
{
    let mut labels = Vec::new(alloc);
    for leg in 0..legs {
        labels.push(leg)?;
    }
    Ok(labels)
}

/// Gives all legs of one label another. Takes no memory.
pub(crate) fn relabel(labels: &mut Vec<u32>, from: u32, to: u32)
    ensures { AreRelabelled labels.old.items labels.new.items from to }
{
    for label in labels.iter_mut() {
        if *label == from {
            *label = to;
        }
    }
}
