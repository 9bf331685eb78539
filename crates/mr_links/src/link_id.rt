/// The name of a link: its place among the open links, and how many links were opened before it. Ids are in the
/// order of their places.
#[derive(Clone, Copy, Debug, PartialEq, Eq, PartialOrd, Ord)]
pub struct LinkId {
    pub index: usize,
    pub generation: u64,
}
