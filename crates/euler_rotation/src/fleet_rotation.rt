ghost use Rattle.std.specs.Prelude.{◌≡◌};
ghost use Rattle.euler_rotation.specs.FleetRotations.{last_made};

use crate::rotation::Rotation;
use entries::Entries;
use fleet_model::Connection;

/// What was made of a fleet's rotation. A list of these has one for each fleet, in table order, and is empty where there
/// is no plan.
#[derive(Drop)]
pub struct FleetRotation {
    /// The through pairs that were chosen, by the leg that arrives.
    pub pairs: Entries<Connection>,
    /// The rotation that holds them.
    pub first: Rotation,
    /// The rotation without them, where they were given up for it.
    pub second: Option<Rotation>,
    /// How many aircraft of the fleet the plan uses.
    pub used: u32,
}

impl FleetRotation {
    /// The rotation that was made last: without through pairs, where these were given up.
    pub fn last(&self) -> &Rotation
        ensures { result.now ≡ last_made self.now }
    {
        match &self.second {
            Some(second) => second,
            None => &self.first,
        }
    }
}
