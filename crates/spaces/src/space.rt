/// A point of the space of a node, in fine units (1/4096 px).
#[derive(Clone, Copy, Debug, PartialEq, Eq)]
pub struct FinePoint {
    pub x: i128,
    pub y: i128,
}
