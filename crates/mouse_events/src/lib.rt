// The mouse events of a pointer that goes from one element to another, each given as a chain: an element
// with its ancestors, root first.
//
// A pointer keeps the chain that it was last turned to. A turn to a new chain answers just the events of
// UI Events, in their order, and keeps the new chain; it takes no memory. A crate above that keeps the
// chain and the room itself calls the two halves of a turn, `write_events` and `keep_chain`. The crate
// stands on std alone.
#![tactic(auto)]

mod chain;
mod changes;
mod event;
pub mod laws;
mod pointer;

pub use chain::{LONGEST_CHAIN, keep_chain};
pub use changes::{MOST_EVENTS, write_events};
pub use event::{Event, EventKind};
pub use pointer::{OutOfMemory, Pointer};

#[cfg(test)]
mod tests;
