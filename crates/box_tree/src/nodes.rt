ghost use Rattle.std.specs.Prelude.{◌≡◌, ◌+◌, ◌<◌, ◌≤◌, ◌==◌, if◌then◌else◌, ℕ, [], length, None, Some, IsSome, OnOk, vec_len};
ghost use Rattle.std.specs.Option.{option_copied};
ghost use Rattle.box_tree.specs.Kept.{node_with};
ghost use Rattle.box_tree.specs.Slots.{slot_of};

use crate::node::Node;
use slab::Slab;
use std::alloc::{AllocError, Global};
use std::marker::Model;

/// The nodes of a page in slots. A node is found by its id in one step, and the slot of a node that went is used again.
#[derive(Drop)]
pub(crate) struct Nodes {
    slots: Slab<Node>,
    // the slot of the node of each id, from 0 on
    places: Vec<Option<usize>>,
}

impl Model for Nodes {
    ghost use Rattle.std.specs.Prelude.{vec_len};
    ghost use Rattle.slab.specs.Slab.{values};
    ghost use Rattle.box_tree.specs.Nodes.{NodesState};

    ghost Value = { NodesState };

    ghost use Rattle.box_tree.specs.Slots.{AreLedTo};

    ghost view = { λ n. record { nodes = values n.slots; room = n.slots.capacity; ids = vec_len n.places } };

    ghost invariant = { λ n. AreLedTo n.places.items n.slots.slots };
}

impl Nodes {
    /// No nodes.
    pub(crate) fn new(alloc: Global) -> Nodes
        ensures { result.nodes ≡ [] }
    {
        Nodes {
            slots: Slab::new(alloc),
            places: Vec::new(alloc),
        }
    }

    /// What the memory of the nodes comes from.
    pub(crate) fn allocator(&self) -> &Global {
        self.places.allocator()
    }

    /// How many nodes there are.
    pub(crate) fn len(&self) -> usize
        ensures { result ≡ length self.now.nodes }
    {
        self.slots.len()
    }

    /// The node of an id, where it is there, in one step.
    pub(crate) fn find(&self, id: u32) -> Option<&Node>
        ensures { option_copied result ≡ node_with self.now.nodes id }
    {
        match slot_at(&self.places, id) {
            Some(slot) => self.slots.get(slot),
            None => None,
        }
    }

    /// Makes room for one more node and a place for its id. The room never falls.
    pub(crate) fn reserve(&mut self, id: u32) -> Result<(), AllocError>
        ensures nodes { self.new.nodes ≡ self.old.nodes }
        ensures room { self.old.room ≤ self.new.room }
        ensures ids { self.old.ids ≤ self.new.ids }
        ensures fits { OnOk result (length self.new.nodes < self.new.room) }
        ensures placed { OnOk result (id < self.new.ids) }
    {
        self.slots.reserve(1)?;
        give_place(&mut self.places, id)
    }

    /// Puts a node where there is none of its id. It takes no memory.
    pub(crate) fn put(&mut self, node: Node)
        requires absent { node_with self.old.nodes node.id ≡ None }
        requires fits { length self.old.nodes < self.old.room }
        requires placed { node.id < self.old.ids }
        ensures looked_up { (x : ℕ) → node_with self.new.nodes x ≡ (if node.id == x then Some node else node_with self.old.nodes x) }
        ensures count { length self.new.nodes ≡ length self.old.nodes + 1 }
        ensures room { self.new.room ≡ self.old.room }
        ensures ids { self.new.ids ≡ self.old.ids }
    {
        let id = node.id as usize;
        let slot = self.slots.insert_reserved(node);
        self.places[id] = Some(slot);
    }

    /// Takes the node of an id out. It can be put back without memory.
    pub(crate) fn take(&mut self, id: u32) -> Node
        requires { IsSome (node_with self.old.nodes id) }
        ensures taken { Some result ≡ node_with self.old.nodes id }
        ensures looked_up { (x : ℕ) → node_with self.new.nodes x ≡ (if id == x then None else node_with self.old.nodes x) }
        ensures count { length self.new.nodes + 1 ≡ length self.old.nodes }
        ensures room { self.new.room ≡ self.old.room }
        ensures ids { self.new.ids ≡ self.old.ids }
        ensures fits { length self.new.nodes < self.new.room }
        ensures placed { id < self.new.ids }
    {
        let slot = slot_at(&self.places, id).unwrap();
        self.places[id as usize] = None;
        self.slots.remove(slot)
    }
}

// The slot of the node of an id, where it is there.
fn slot_at(places: &[Option<usize>], id: u32) -> Option<usize>
    ensures { result ≡ slot_of places.now id }
{
    match places.get(id as usize) {
        Some(slot) => *slot,
        None => None,
    }
}

// Makes the table reach an id. The slots of all ids stay.
fn give_place(places: &mut Vec<Option<usize>>, id: u32) -> Result<(), AllocError>
    ensures slots { (x : ℕ) → slot_of places.new.items x ≡ slot_of places.old.items x }
    ensures ids { vec_len places.old ≤ vec_len places.new }
    ensures placed { OnOk result (id < vec_len places.new) }
{
    let count = id as usize + 1;
    if places.len() < count {
        places.resize(count, None)?;
    }
    Ok(())
}

#[cfg(test)]
mod tests;
