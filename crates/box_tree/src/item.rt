/// What of a node is hit: one of its boxes, by its place among them, the content of an image, or the outline of a shape.
#[derive(Clone, Copy, Debug, PartialEq, Eq)]
pub enum Part {
    Box { place: u32 },
    Content,
    Outline,
}

/// One thing that is painted and may be hit: a part of a node.
#[derive(Clone, Copy, Debug, PartialEq, Eq)]
pub struct Item {
    pub node: u32,
    pub part: Part,
}
