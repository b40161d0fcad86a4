ghost use Rattle.std.specs.Prelude.{◌≡◌, ◌<◌, ◌^◌, length};
ghost use Rattle.fleet_model.specs.Schedule.{fleets_in, legs_in};

use crate::line::Version;
use fleet_model::Tables;
use table_rows::Names;

/// What lines are read by: the version of the text, the tables, and their names.
#[derive(Drop)]
pub struct Grammar<'a> {
    /// The version of the text.
    pub version: Version,
    /// The tables, of which the text is.
    pub tables: &'a Tables,
    /// The flights of the legs.
    pub legs: Names,
    /// The names of the fleets.
    pub fleets: Names,
    /// The codes of the stations.
    pub stations: Names,
    pub ghost legs_fit: { length legs < 2 ^ 32 },
    pub ghost fleets_fit: { length fleets < 2 ^ 32 },
    pub ghost stations_fit: { length stations < 2 ^ 32 },
    pub ghost legs_are: { length legs ≡ legs_in tables.now },
    pub ghost fleets_are: { length fleets ≡ fleets_in tables.now },
}
