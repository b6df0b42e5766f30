ghost use Rattle.std.specs.Prelude.{◌≡◌, ◌↔◌, IsTrue};
ghost use Rattle.pointer_input.specs.Inputs.{IsAllowed};

use crate::press::Press;
use crate::presses::BUTTONS;
use mouse_events::{Event, LONGEST_CHAIN};
use std::marker::Model;

/// The ids of a chain, root first, or of any elements; clauses see them as a list.
#[derive(Debug, Drop)]
pub struct Ids(pub Vec<u32>);

impl Model for Ids {
    ghost use Rattle.std.specs.Prelude.{List, ℕ};

    ghost Value = { List ℕ };

    ghost view = { λ ids. ids.0.items };
}

impl Ids {
    /// The ids in order.
    pub fn as_slice(&self) -> &[u32]
        ensures { result.now ≡ self.now }
    {
        self.0.as_slice()
    }
}

/// One call of `Buttons`, as a value.
#[derive(Debug, Drop)]
pub enum Input {
    Turn {
        under: Ids,
        holding: Ids,
        gone: Ids,
        moved: bool,
    },
    Down {
        button: u8,
    },
    Up {
        button: u8,
    },
    Capture {
        id: u32,
    },
}

impl Input {
    /// Whether its chains have at most 256 members, or its button is from 0 to 4: then it may be asked.
    pub fn is_allowed(&self) -> bool
        ensures { IsTrue result ↔ IsAllowed self.now }
    {
        match self {
            Input::Turn { under, holding, .. } => {
                under.as_slice().len() <= LONGEST_CHAIN && holding.as_slice().len() <= LONGEST_CHAIN
            }
            Input::Down { button } | Input::Up { button } => usize::from(*button) < BUTTONS,
            Input::Capture { .. } => true,
        }
    }
}

/// What an input is answered with, piece by piece.
#[derive(Clone, Copy, Debug, PartialEq, Eq, Hash)]
pub enum Output {
    Event { event: Event },
    Press { press: Press },
    Captured { held: bool },
}
