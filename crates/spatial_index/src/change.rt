use fractions::Rect;

/// An item goes from its old bounds to its new ones, in whole units. Empty bounds mean that it stands in no cell.
#[derive(Clone, Copy, Debug, PartialEq, Eq)]
pub struct Change {
    pub item: u32,
    pub old: Rect,
    pub new: Rect,
}
