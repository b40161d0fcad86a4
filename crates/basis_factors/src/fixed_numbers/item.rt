/// A number, and the place that it stands in.
#[derive(Clone, Copy)]
pub struct Item<S> {
    pub place: u32,
    pub number: S,
}
