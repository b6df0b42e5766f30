ghost use Rattle.std.specs.Prelude.{◌≡◌, ◌≤◌, Some, None, length, is_some, IfOk, IfSome, vec_capacity};
ghost use Rattle.mouse_events.specs.Chain.{without};
ghost use Rattle.pointer_input.specs.Presses.{without_gone};

use mouse_events::{LONGEST_CHAIN, OutOfMemory, keep_chain};
use std::alloc::Global;
use std::marker::Model;

/// A button: whether it is down, and then the chain that was kept when it went down.
#[derive(Debug, Drop)]
pub struct PressChain {
    is_down: bool,
    members: Vec<u32>,
}

impl Model for PressChain {
    ghost use Rattle.std.specs.Prelude.{ℕ, Option, Some, None, List, ◌≤◌, vec_capacity, if◌then◌else◌};

    ghost Value = { Option (List ℕ) };

    ghost view = { λ press. if press.is_down then Some press.members.items else None };

    ghost invariant = { λ press. 256 ≤ vec_capacity press.members };
}

impl PressChain {
    /// A button that is up, with room for every chain.
    pub fn new(alloc: Global) -> Result<PressChain, OutOfMemory>
        ensures { IfOk result (λ press. press ≡ None) }
    {
        Ok(PressChain {
            is_down: false,
            members: Vec::with_capacity(alloc, LONGEST_CHAIN)?,
        })
    }

    /// Whether the button is down.
    pub fn is_down(&self) -> bool
        ensures { result ≡ is_some self.now }
    {
        self.is_down
    }

    /// The members of the press chain, of a button that is down.
    pub fn members(&self) -> &[u32]
        ensures { IfSome self.now (λ members. members ≡ result.now) }
    {
        &self.members
    }

    /// The button goes down over a chain.
    pub fn press(&mut self, chain: &[u32])
        requires { length chain.now ≤ 256 }
        ensures { self.new ≡ Some chain.now }
    {
        keep_chain(&mut self.members, chain);
        self.is_down = true;
    }

    /// The button goes up.
    pub fn release(&mut self)
        ensures { self.new ≡ None }
    {
        self.is_down = false;
    }

    /// Takes the elements that are gone from the page out of the chain.
    pub fn forget(&mut self, gone: &[u32])
        ensures { self.new ≡ without_gone gone.now self.old }
    {
        remove_gone(&mut self.members, gone);
    }
}

/// Takes the elements that are gone from the page out of a list.
fn remove_gone(members: &mut Vec<u32>, gone: &[u32])
    ensures items { members.new.items ≡ without gone.now members.old.items }
    ensures capacity { vec_capacity members.new ≡ vec_capacity members.old }
{
    members.retain(|member| !gone.contains(member));
}
