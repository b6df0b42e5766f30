ghost use Rattle.std.specs.Prelude.{◌≡◌, ◌<◌, ◌≤◌, ◌||◌, not, length, is_none, IfOk};
ghost use Rattle.std.specs.Bool.{OnFalse};
ghost use Rattle.std.specs.Borrow.{sem};
ghost use Rattle.pointer_input.specs.State.{start};
ghost use Rattle.pointer_input.specs.Presses.{is_down, any_down, is_empty};
ghost use Rattle.pointer_input.specs.Buttons.{events_of_turn, turned, press_of_down, pressed, presses_of_up, released, captured_by};
ghost use Rattle.pointer_input.specs.Lending.{RestsOn};

use crate::capture::{chain_of_turn, holder_after};
use crate::press::{Press, PressKind};
use crate::press_chain::PressChain;
use crate::presses::{
    any_down, forget, press_down, release, up_buttons, write_alive, write_release,
};
use mouse_events::{Event, LONGEST_CHAIN, MOST_EVENTS, OutOfMemory, keep_chain, write_events};
use std::alloc::Global;
use std::marker::Model;

/// How many presses one input makes at most: an up and a click.
const MOST_PRESSES: usize = 2;

/// A pointer with five buttons: the chain of the element that it was last turned to, what each button that
/// is down was pressed on, and the element that holds the pointer.
#[derive(Debug, Drop)]
pub struct Buttons {
    chain: Vec<u32>,
    presses: Vec<PressChain>,
    holder: Option<u32>,
    alive: Vec<bool>,
    events: Vec<Event>,
    told: Vec<Press>,
}

impl Model for Buttons {
    ghost use Rattle.std.specs.Prelude.{vec_len, vec_capacity};
    ghost use Rattle.pointer_input.specs.State.{State, IsKept};

    ghost Value = { State };

    ghost view = { λ b. record { chain = b.chain.items; presses = b.presses.items; holder = b.holder } };

    ghost invariant = { λ b. IsKept (vec_len b.chain) (vec_len b.presses) (vec_capacity b.chain) (vec_capacity b.alive) (vec_capacity b.events) (vec_capacity b.told) };
}

impl Buttons {
    /// A pointer over no element, with every button up and no holder, and with room for every input.
    pub fn new(alloc: Global) -> Result<Buttons, OutOfMemory>
        ensures { IfOk result (λ buttons. buttons ≡ start) }
    {
        Ok(Buttons {
            chain: Vec::with_capacity(alloc, LONGEST_CHAIN)?,
            presses: up_buttons(alloc)?,
            holder: None,
            alive: Vec::with_capacity(alloc, LONGEST_CHAIN)?,
            events: Vec::with_capacity(alloc, MOST_EVENTS)?,
            told: Vec::with_capacity(alloc, MOST_PRESSES)?,
        })
    }

    /// Turns to the chain of the holder, where it leads to the holder, and else to the chain of the element
    /// under the pointer; then nothing holds any more. `gone` names elements that left the page: they get
    /// no event, and are clicked no more. Answers the events between the kept chain and the new one, which
    /// is kept. Each chain has at most 256 members. UI Events, "Mouse Event Order"; Pointer Events,
    /// "Pointer capture".
    pub fn turn(&mut self, under: &[u32], holding: &[u32], gone: &[u32], moved: bool) -> &[Event]
        requires under { length under.now ≤ 256 }
        requires holding { length holding.now ≤ 256 }
        ensures events { result.now ≡ events_of_turn self.old under.now holding.now gone.now moved }
        ensures* keeps { sem 𝓛 (RestsOn self.entry (turned self.old under.now holding.now gone.now)) }
    {
        write_alive(&mut self.alive, &self.chain, gone);
        forget(&mut self.presses, gone);
        let new_chain = chain_of_turn(self.holder, under, holding);
        self.holder = holder_after(self.holder, holding);
        write_events(&mut self.events, &self.chain, &self.alive, new_chain, moved);
        keep_chain(&mut self.chain, new_chain);
        &self.events
    }

    /// A button from 0 to 4 goes down on the kept chain's target, where there is one. None exactly where
    /// the button is down already, and then nothing changes, or where the kept chain is empty. UI Events,
    /// "mousedown".
    pub fn down(&mut self, button: u8) -> Option<Press>
        requires { button < 5 }
        ensures press { result ≡ press_of_down self.old button }
        ensures none { is_none result ≡ (is_down button self.old.presses || is_empty self.old.chain) }
        ensures state { self.new ≡ pressed self.old button }
    {
        if !press_down(&mut self.presses, button, &self.chain) {
            return None;
        }
        let target = self.chain.last().copied()?;
        Some(Press {
            kind: PressKind::Down,
            target,
            button,
        })
    }

    /// A button from 0 to 4 goes up on the kept chain's target, where there is one; button 0 then clicks
    /// the nearest inclusive ancestor of it that is in the press chain, where there is one. With the last
    /// button the holder ends. Empty exactly where the button isn't down, and then nothing changes, or
    /// where the kept chain is empty. UI Events, "mouseup" and "click"; Pointer Events, "Implicit release
    /// of pointer capture".
    pub fn up(&mut self, button: u8) -> &[Press]
        requires { button < 5 }
        ensures presses { result.now ≡ presses_of_up self.old button }
        ensures none { is_empty result.now ≡ (not (is_down button self.old.presses) || is_empty self.old.chain) }
        ensures* keeps { sem 𝓛 (RestsOn self.entry (released self.old button)) }
    {
        write_release(
            &mut self.told,
            &self.presses[usize::from(button)],
            &self.chain,
            button,
        );
        self.holder = release(&mut self.presses, button, self.holder);
        &self.told
    }

    /// An element takes hold of the pointer, while a button is down. False exactly where no button is, and
    /// then nothing changes. Pointer Events, "Setting pointer capture".
    pub fn capture(&mut self, id: u32) -> bool
        ensures held { result ≡ any_down self.old.presses }
        ensures state { self.new ≡ captured_by self.old id }
        ensures refused { OnFalse result (self.new ≡ self.old) }
    {
        let held = any_down(&self.presses);
        if held {
            self.holder = Some(id);
        }
        held
    }

    /// The element that holds the pointer, where there is one.
    pub fn captured(&self) -> Option<u32>
        ensures { result ≡ self.now.holder }
    {
        self.holder
    }

    /// The chain that the pointer was last turned to, root first and target last; empty before.
    pub fn chain(&self) -> &[u32]
        ensures chain { result.now ≡ self.now.chain }
        ensures short { length self.now.chain ≤ 256 }
    {
        &self.chain
    }
}
