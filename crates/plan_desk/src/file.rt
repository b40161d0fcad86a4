ghost use Rattle.std.specs.Prelude.{◌≡◌, IfOk, string_bytes};
ghost use Rattle.plan_desk.specs.DeskFile.{file_name, path_of};

use std::alloc::{AllocError, Global};

/// The files that a desk holds in a folder.
#[derive(Clone, Copy, Debug, PartialEq, Eq)]
pub enum DeskFile {
    Stations,
    Fleets,
    Legs,
    Costs,
    Throughs,
    Windows,
    Optional,
    Tails,
    Plan,
    Proof,
    Rotation,
}

/// The most bytes of a table or of a plan that are read: 4 MiB.
pub const TABLE_LIMIT: u64 = 4_194_304;

/// The limit under which a proof is read. No list of bytes passes it.
pub const PROOF_LIMIT: u64 = 9_223_372_036_854_775_807;

impl DeskFile {
    /// The file's name in its folder, as `legs.csv`.
    pub fn name(self) -> &'static str
        ensures { result.now ≡ file_name self }
    {
        match self {
            DeskFile::Stations => "stations.csv",
            DeskFile::Fleets => "fleets.csv",
            DeskFile::Legs => "legs.csv",
            DeskFile::Costs => "costs.csv",
            DeskFile::Throughs => "throughs.csv",
            DeskFile::Windows => "windows.csv",
            DeskFile::Optional => "optional.csv",
            DeskFile::Tails => "tails.csv",
            DeskFile::Plan => "plan.csv",
            DeskFile::Proof => "proof.txt",
            DeskFile::Rotation => "rotation.csv",
        }
    }
}

/// The name under which a desk holds a file of the folder: the folder, a slash and the file's name.
pub fn path(alloc: Global, dir: &str, file: DeskFile) -> Result<String, AllocError>
    ensures { IfOk result (λ path. string_bytes path ≡ path_of dir.now file) }
{
    let mut path = String::from_str(alloc, dir)?;
    path.push('/')?;
    path.push_str(file.name())?;
    Ok(path)
}
