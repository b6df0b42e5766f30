//! The lines of a script: what a line asks for, and how a reply is written.
//!
//! It promises that `command_of` answers what a line means by `specs/Command.antt`, or its first fault, and that `print`
//! writes the reply line of `specs/Reply.antt` and nothing else. It stands on `serde_json` for the reading of a line, on
//! `itoa` for numbers, on `box_tree` for edits and their faults, on `svg_shapes`, `image_maps` and `view_boxes` for the forms of
//! nodes, on `mouse_events` for events, and on `fractions` for points.
#![tactic(auto)]

mod areas;
mod command;
mod forms;
mod inherited;
mod paths;
mod reply;
mod rows;
mod shapes;
mod style;
mod transform;
mod values;
mod views;

pub use command::{Command, LONGEST_LINE, LineFault, command_of, is_blank};
pub use reply::{OutOfMemory, Reply, print};

#[cfg(test)]
mod tests;
