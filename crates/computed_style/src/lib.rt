// Declared styles, the inheritance of their values, and the property 'pointer-events'.
//
// It promises that one step of inheritance gives each property its declared value, or else the parent's; and that a
// box and a shape are let through by a pointer exactly by their rows of the table of 'pointer-events'. The names are
// those of CSS and SVG. It stands on std alone.
#![tactic(auto)]

mod function;
mod inherited;
pub mod laws;
mod memory;
mod pointer_events;
mod ranges;
mod style;

pub use function::{Function, Functions};
pub use inherited::{Inherited, compute};
pub use memory::OutOfMemory;
pub use pointer_events::{PointerEvents, admits_box, admits_shape};
pub use style::{Ends, Overflow, Position, Rule, Style};

#[cfg(test)]
mod tests;
