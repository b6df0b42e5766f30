/// What stands in a list: an item, or another list, in whose place its own entries are painted.
#[derive(Clone, Copy, Debug, PartialEq, Eq, Hash)]
pub enum Entry {
    Item { item: u32 },
    Sub { list: u32 },
}
