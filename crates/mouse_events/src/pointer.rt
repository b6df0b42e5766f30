ghost use Rattle.std.specs.Prelude.{◌≡◌, ◌≤◌, [], length, vec_capacity, IfOk};
ghost use Rattle.std.specs.Borrow.{sem};
ghost use Rattle.mouse_events.specs.Events.{events_between};
ghost use Rattle.mouse_events.specs.Lending.{RestsOn};

use crate::chain::{LONGEST_CHAIN, keep_chain};
use crate::changes::{MOST_EVENTS, write_events};
use crate::event::Event;
use std::alloc::{AllocError, Global};
use std::error::Error;
use std::fmt;
use std::marker::Model;

/// Memory for a new pointer was refused.
#[derive(Clone, Copy, Debug, PartialEq, Eq)]
pub struct OutOfMemory;

impl fmt::Display for OutOfMemory {
    fn fmt<W: fmt::Write>(&self, f: &mut fmt::Formatter<W>) -> fmt::Result {
        f.write_str("out of memory")
    }
}

impl Error for OutOfMemory {}

impl From<AllocError> for OutOfMemory {
    fn from(_: AllocError) -> Self {
        OutOfMemory
    }
}

/// The mouse pointer: the spot that it was last moved to, and the chain of the element under it.
#[derive(Debug, Drop)]
pub struct Pointer {
    spot: Option<(i64, i64)>,
    chain: Vec<u32>,
    events: Vec<Event>,
}

impl Model for Pointer {
    ghost use Rattle.std.specs.Prelude.{◌≤◌, vec_len, vec_capacity};
    ghost use Rattle.mouse_events.specs.State.{State, HasRoom};

    ghost Value = { State };

    ghost view = { λ p. record { spot = p.spot; chain = p.chain.items } };

    ghost invariant = { λ p. HasRoom (vec_len p.chain) (vec_capacity p.chain) (vec_capacity p.events) };
}

impl Pointer {
    /// A pointer that was nowhere yet, over no element, with room for every turn.
    pub fn new(alloc: Global) -> Result<Pointer, OutOfMemory>
        ensures { IfOk result (λ pointer. pointer ≡ record { spot = None; chain = [] }) }
    {
        Ok(Pointer {
            spot: None,
            chain: Vec::with_capacity(alloc, LONGEST_CHAIN)?,
            events: Vec::with_capacity(alloc, MOST_EVENTS)?,
        })
    }

    /// The spot that was last set, in units; none before.
    pub fn spot(&self) -> Option<(i64, i64)>
        ensures { result ≡ self.now.spot }
    {
        self.spot
    }

    /// Sets the spot, and nothing else.
    pub fn set_spot(&mut self, x: i64, y: i64)
        ensures spot { self.new.spot ≡ Some (x, y) }
        ensures chain { self.new.chain ≡ self.old.chain }
    {
        self.spot = Some((x, y));
    }

    /// The chain that the pointer was last turned to, root first and target last; empty before.
    pub fn chain(&self) -> &[u32]
        ensures chain { result.now ≡ self.now.chain }
        ensures short { length self.now.chain ≤ 256 }
    {
        &self.chain
    }

    /// Turns to a new chain of at most 256 members, given for each member of the kept chain whether it is
    /// still in the page, and answers the events. The new chain is kept, whatever was made, and the spot
    /// stays. UI Events, "Mouse Event Order".
    pub fn turn(&mut self, new_chain: &[u32], alive: &[bool], moved: bool) -> &[Event]
        requires short { length new_chain.now ≤ 256 }
        requires flags { length alive.now ≡ length self.old.chain }
        ensures events { result.now ≡ events_between self.old.chain alive.now new_chain.now moved }
        ensures* keeps { sem 𝓛 (RestsOn self.entry (record { spot = self.old.spot; chain = new_chain.now })) }
    {
        write_events(&mut self.events, &self.chain, alive, new_chain, moved);
        keep_chain(&mut self.chain, new_chain);
        &self.events
    }
}
