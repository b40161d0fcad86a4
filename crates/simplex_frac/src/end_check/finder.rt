use crate::end_check::hint::Hint;
use entries::NoMemory;
use std::alloc::Global;

/// Somebody who looks for an end of a problem.
pub trait EndFinder<P> {
    /// An end of the problem, where one is found in at most so many steps. It is a hint, and trusted in nothing.
    fn find(alloc: Global, problem: &P, steps: u64) -> Result<Option<Hint>, NoMemory>;
}
