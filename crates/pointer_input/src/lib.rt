// The buttons of a pointer: presses, releases and clicks over the chains of elements that the pointer is
// turned to, and an element that holds the pointer while a button is down.
//
// Each input (a turn of the pointer, a button that goes down or up, an element that takes hold) is one step
// of the definition and answers just what that step tells; `play` does a whole list of them. All room is
// taken when the value is made; no input takes memory. The crate stands on `mouse_events` for the events
// of a turn.
#![tactic(auto)]

mod buttons;
mod capture;
mod input;
pub mod laws;
mod playing;
mod press;
mod press_chain;
mod presses;

pub use buttons::Buttons;
pub use input::{Ids, Input, Output};
pub use mouse_events::OutOfMemory;
pub use playing::{are_allowed, play};
pub use press::{Press, PressKind};

#[cfg(test)]
mod tests;
