//! Folders as a line of text: `NAME=TEXT` for each file, apart by `; `. In a text each `~` stands for a line feed.
use plan_desk::DeskFile;
use std::alloc::Global;
use std::test::Fail;

/// All files of a folder.
pub const FILES: [DeskFile; 11] = [
    DeskFile::Stations,
    DeskFile::Fleets,
    DeskFile::Legs,
    DeskFile::Costs,
    DeskFile::Throughs,
    DeskFile::Windows,
    DeskFile::Optional,
    DeskFile::Tails,
    DeskFile::Plan,
    DeskFile::Proof,
    DeskFile::Rotation,
];

/// Two stations, two fleets of one aircraft each, a leg there and a leg back, and both with the first fleet.
const FIRST_RUN: &str = "stations.csv=code,extra,maintenance~AAA,0,yes~BBB,0,no~; \
    fleets.csv=fleet,aircraft,turn~F1,1,30~F2,1,30~; \
    legs.csv=flight,from,dep,to,arr~X1,AAA,08:00,BBB,09:00~X2,BBB,10:00,AAA,11:00~; \
    costs.csv=flight,fleet,cost~X1,F1,100~X1,F2,80~X2,F1,100~X2,F2,130~; \
    throughs.csv=in,out,value~; plan.csv=flight,fleet~X1,F1~X2,F1~";

/// Paths and their files. Where a path comes twice the last one counts, as on a desk.
pub type Folder = Vec<(String, Vec<u8>)>;

/// The folder `d` with the files of the first run, and these laid over them.
pub fn folder(alloc: Global, files: &str) -> Result<Folder, Fail> {
    let mut folder = Vec::new(alloc);
    lay(alloc, &mut folder, FIRST_RUN)?;
    lay(alloc, &mut folder, files)?;
    Ok(folder)
}

/// Lays files over those of a folder.
pub fn lay(alloc: Global, folder: &mut Folder, files: &str) -> Result<(), Fail> {
    for file in files.split("; ") {
        if let Some((name, text)) = file.split_once('=') {
            folder.push((path(alloc, name)?, bytes(alloc, text)?))?;
        }
    }
    Ok(())
}

/// The path of a file.
pub fn path(alloc: Global, name: &str) -> Result<String, Fail> {
    let mut path = String::from_str(alloc, "d/")?;
    path.push_str(name)?;
    Ok(path)
}

/// The bytes of a text.
pub fn bytes(alloc: Global, text: &str) -> Result<Vec<u8>, Fail> {
    let mut bytes = Vec::new(alloc);
    for byte in text.as_bytes() {
        bytes.push(if *byte == b'~' { b'\n' } else { *byte })?;
    }
    Ok(bytes)
}

/// The file that stands under a path.
pub fn standing<'a>(folder: &'a [(String, Vec<u8>)], path: &str) -> Option<&'a [u8]> {
    let mut standing = None;
    for (name, bytes) in folder {
        if name.as_str() == path {
            standing = Some(bytes.as_slice());
        }
    }
    standing
}
