// The script program: lines of JSON in, and one reply line out for each that isn't blank.
//
// It promises that `run` answers every script with the replies of `specs/Script.antt`, in whatever pieces it comes, over
// any source, any sink and any desk that keep their traits; that each answer is the one that the desk gave to that line, by
// `specs/Log.antt`; that however a run ends the sink has taken a front of these replies; and that each status comes from
// its cause alone. With the words of a load it reads nothing, does the load of `specs/Load.antt` on the desk and writes its
// summary alone. It stands on `script_lines` for lines and replies, on `box_tree` for edits and their faults, on
// `tree_edits` and `point_query` for the engine that is the usual desk, on `mouse_events` for the pointer, on
// `fractions` for the counter of steps, and on the kit's `clap` for the number of a load.
#![tactic(auto)]

mod answers;
mod canned;
mod counts;
mod cutter;
mod desks;
mod load;
mod memory;
mod outcome;
mod pointing;
mod room;
mod script;
mod sinks;
mod sources;
mod transfer;
mod turns;
mod words;

pub use canned::{Asked, Canned};
pub use cutter::{Cut, LineCutter};
pub use desks::Desk;
pub use memory::OutOfMemory;
pub use outcome::Status;
pub use script::run;
pub use sinks::{Sink, SinkFault, StdSink, Taken};
pub use sources::{Bytes, Calm, Failed, Source, StdSource};

#[cfg(test)]
mod tests;
