/// A place in a forest: the number of a list, and the number of an entry in it.
#[derive(Clone, Copy, Debug, Default, PartialEq, Eq)]
pub struct Place {
    pub list: u32,
    pub at: usize,
}
