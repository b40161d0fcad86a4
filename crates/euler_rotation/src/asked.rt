//! What is asked of a rotation.
use fleet_model::{Assignment, Connection, Tables};

/// A fleet by an assignment, the pairs that its tour is to hold, and the days within which an aircraft is to come to
/// maintenance.
#[derive(Clone, Copy)]
pub(crate) struct Asked<'a> {
    pub tables: &'a Tables,
    pub plan: &'a Assignment,
    pub fleet: u32,
    pub pairs: &'a [Connection],
    pub days: u32,
}
