use fractions::Spot;

/// The window through which the page is seen, in units (1/64 px).
#[derive(Clone, Copy, Debug, PartialEq, Eq)]
pub struct Viewport {
    /// The width, 1 to 2^20 units.
    pub w: i64,
    /// The height, 1 to 2^20 units.
    pub h: i64,
    /// How far it is scrolled, each coordinate from 0 to that of `max`.
    pub scroll: Spot,
    /// The greatest scroll, 0 to 2^26 units.
    pub max: Spot,
}
