// What the table keeps of a node.
ghost use Rattle.std.specs.Prelude.{◌≡◌, IfOk};

use affine::Map;
use computed_style::Inherited;
use std::alloc::{AllocFailed, Global};
use std::marker::Model;

/// The space of a node, None where it has none, and the values that it inherits.
#[derive(Drop)]
pub(crate) struct Entry {
    pub(crate) space: Option<Map>,
    pub(crate) values: Inherited,
}

/// An entry on the heap, so that an id without one costs a few bytes alone. Contracts see the entry.
#[derive(Drop)]
pub(crate) struct Kept(Box<Entry>);

impl Model for Kept {
    ghost use Rattle.spaces.specs.declared.table.entry.Entry.{Entry};

    ghost Value = { Entry };

    ghost view = { λ kept. kept.0.value };
}

impl Kept {
    pub(crate) fn new(alloc: Global, entry: Entry) -> Result<Kept, AllocFailed<Entry>>
        ensures { IfOk result (λ kept. kept ≡ entry) }
    {
        Ok(Kept(Box::new(alloc, entry)?))
    }

    pub(crate) fn entry(&self) -> &Entry
        ensures { result.now ≡ self.now }
    {
        self.0.as_ref()
    }
}
