/// A point, in fine units (1/4096 px) or in units of the caller's own.
#[derive(Clone, Copy, Debug, PartialEq, Eq, Hash)]
pub struct Point {
    pub x: i64,
    pub y: i64,
}

/// A subpath: the points from `first` on, `count` of them, and whether it is closed.
#[derive(Clone, Copy, Debug, PartialEq, Eq, Hash)]
pub struct Sub {
    pub first: u32,
    pub count: u32,
    pub closed: bool,
}

/// A closed rectangle: it holds all its edges.
#[derive(Clone, Copy, Debug, PartialEq, Eq, Hash)]
pub struct Bounds {
    pub l: i64,
    pub t: i64,
    pub r: i64,
    pub b: i64,
}

/// What is inside a fill. SVG 2, "The 'fill-rule' property".
#[derive(Clone, Copy, Debug, PartialEq, Eq, Hash)]
pub enum FillRule {
    /// Where the winding isn't 0.
    NonZero,
    /// Where the crossings are odd.
    EvenOdd,
}

/// What a stroke has at the ends of an open subpath. SVG 2, "The 'stroke-linecap' property".
#[derive(Clone, Copy, Debug, PartialEq, Eq, Hash)]
pub enum Cap {
    Butt,
    Round,
    Square,
}
