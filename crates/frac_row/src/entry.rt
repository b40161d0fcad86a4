/// A number of a row and the column that it stands in.
#[derive(Clone, Copy)]
pub struct Entry {
    pub column: u32,
    pub number: i128,
}
