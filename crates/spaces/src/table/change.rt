// New entries of a table.
ghost use Rattle.std.specs.Prelude.{◌≡◌, ◌+◌, ◌≤◌, ◌==◌, ◌&&◌, if◌then◌else◌, ℕ, [], length, Some, IsSome, OnOk, IfErr};
ghost use Rattle.std.specs.Option.{option_map, option_and_then, option_copied};
ghost use Rattle.spaces.specs.Spaces.{is_laid_out};
ghost use Rattle.spaces.specs.Table.{new_entry};

use crate::table::entry::{Entry, Kept};
use crate::table::fault::BoundOrMemory;
use crate::views::is_laid_out;
use affine::Map;
use box_tree::Kind;
use computed_style::Inherited;
use std::alloc::Global;
use std::collections::BTreeMap;
use std::marker::Model;

/// The new entries of the nodes of a subtree, which `SpaceTable::apply` puts into the table. Contracts see the ids with
/// their entries.
#[derive(Drop)]
pub struct SpaceChange {
    pub(crate) kept: BTreeMap<u32, Kept>,
    alloc: Global,
}

impl Model for SpaceChange {
    ghost use Rattle.std.specs.Prelude.{List, ℕ};
    ghost use Rattle.spaces.specs.declared.table.entry.Entry.{Entry};

    ghost Value = { List (ℕ × Entry) };

    ghost view = { λ change. change.kept.entries };

    ghost use Rattle.std.specs.Ordering.{nat_cmp};
    ghost use Rattle.std.specs.BTreeMap.{IsOrdered};

    ghost invariant = { λ change. IsOrdered nat_cmp change.kept };
}

impl SpaceChange {
    // No entries.
    pub(crate) fn new(alloc: Global) -> SpaceChange
        ensures { result ≡ [] }
    {
        SpaceChange {
            kept: BTreeMap::new(alloc),
            alloc,
        }
    }

    // Puts the entry of a node of this kind, where that is laid out.
    pub(crate) fn put(&mut self, id: u32, kind: Kind, entry: Entry) -> Result<(), BoundOrMemory>
        ensures entries { OnOk result ((x : ℕ) → new_entry self.new x ≡ (if is_laid_out kind && id == x then Some entry else new_entry self.old x)) }
        ensures count { OnOk result (length self.new ≤ length self.old + 1) }
        ensures memory { IfErr result (λ why. why ≡ BoundOrMemory.OutOfMemory) }
    {
        if !is_laid_out(kind) {
            return Ok(());
        }
        let kept = Kept::new(self.alloc, entry)?;
        self.kept.insert(id, kept)?;
        Ok(())
    }

    /// The new space of a node of the renewed subtree that is no map and no area: the map from its coordinates to those
    /// of the viewport, in units. None exactly where the node has no space.
    pub fn space_of(&self, id: u32) -> Option<&Map>
        requires { IsSome (new_entry self.now id) }
        ensures { option_copied result ≡ option_and_then (λ entry. entry.space) (new_entry self.now id) }
    {
        let kept = self.kept.get(&id).unwrap();
        kept.entry().space.as_ref()
    }

    /// The new values of a node of the renewed subtree that is no map and no area.
    pub fn values_of(&self, id: u32) -> &Inherited
        requires { IsSome (new_entry self.now id) }
        ensures { option_map (λ entry. entry.values) (new_entry self.now id) ≡ Some result.now }
    {
        let kept = self.kept.get(&id).unwrap();
        &kept.entry().values
    }
}
