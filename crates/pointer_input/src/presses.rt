ghost use Rattle.std.specs.Prelude.{◌≡◌, ◌+◌, ◌<◌, ◌≤◌, ◌++◌, Some, None, not, length, map, slice_set, vec_len, vec_capacity, if◌then◌else◌, IfOk};
ghost use Rattle.pointer_input.specs.State.{start};
ghost use Rattle.pointer_input.specs.Presses.{is_down, any_down, without_gone, common_ancestor, press_on};
ghost use Rattle.pointer_input.specs.Buttons.{still_there, holder_while, told_where_down};

use crate::press::{Press, PressKind};
use crate::press_chain::PressChain;
use mouse_events::OutOfMemory;
use std::alloc::Global;

/// How many buttons a pointer has.
pub const BUTTONS: usize = 5;

/// The button that clicks.
const PRIMARY: u8 = 0;

/// Five buttons that are up.
pub fn up_buttons(alloc: Global) -> Result<Vec<PressChain>, OutOfMemory>
    ensures { IfOk result (λ presses. presses.items ≡ start.presses) }
{
    let mut presses = Vec::with_capacity(alloc, BUTTONS)?;
    for _ in 0..BUTTONS {
        presses.push_reserved(PressChain::new(alloc)?);
    }
    Ok(presses)
}

/// Whether any button is down.
pub fn any_down(presses: &[PressChain]) -> bool
    ensures { result ≡ any_down presses.now }
{
    presses.iter().any(|press| press.is_down())
}

/// Takes the elements that are gone from the page out of each press chain.
pub fn forget(presses: &mut Vec<PressChain>, gone: &[u32])
    ensures items { presses.new.items ≡ map (without_gone gone.now) presses.old.items }
    ensures len { vec_len presses.new ≡ vec_len presses.old }
{
    for press in presses.iter_mut() {
        press.forget(gone);
    }
}

/// Puts a button that is up down over a chain, and says whether it was up.
pub fn press_down(presses: &mut Vec<PressChain>, button: u8, chain: &[u32]) -> bool
    requires button { button < vec_len presses.old }
    requires short { length chain.now ≤ 256 }
    ensures was_up { result ≡ not (is_down button presses.old.items) }
    ensures items { presses.new.items ≡ (if result then slice_set presses.old.items button (Some chain.now) else presses.old.items) }
    ensures len { vec_len presses.new ≡ vec_len presses.old }
{
    let press = &mut presses[usize::from(button)];
    if press.is_down() {
        return false;
    }
    press.press(chain);
    true
}

/// Puts a button that is down up, and answers the holder, which ends with the last button that is down.
pub fn release(presses: &mut Vec<PressChain>, button: u8, holder: Option<u32>) -> Option<u32>
    requires { button < vec_len presses.old }
    ensures items { presses.new.items ≡ (if is_down button presses.old.items then slice_set presses.old.items button None else presses.old.items) }
    ensures holder { result ≡ (if is_down button presses.old.items then holder_while presses.new.items holder else holder) }
    ensures len { vec_len presses.new ≡ vec_len presses.old }
{
    let press = &mut presses[usize::from(button)];
    if !press.is_down() {
        return holder;
    }
    press.release();
    if any_down(presses) { holder } else { None }
}

/// Writes for each member of the kept chain whether it is still in the page, in place of what was there.
pub fn write_alive(alive: &mut Vec<bool>, chain: &[u32], gone: &[u32])
    requires { length chain.now ≤ vec_capacity alive.old }
    ensures items { alive.new.items ≡ still_there gone.now chain.now }
    ensures capacity { vec_capacity alive.new ≡ vec_capacity alive.old }
{
    alive.clear();
    for member in chain {
        alive.push_reserved(!gone.contains(member));
    }
}

/// Writes what is told where a button goes up, in place of what was there: nothing where it isn't down.
pub fn write_release(told: &mut Vec<Press>, press: &PressChain, chain: &[u32], button: u8)
    requires { 2 ≤ vec_capacity told.old }
    ensures items { told.new.items ≡ told_where_down button press.now chain.now }
    ensures capacity { vec_capacity told.new ≡ vec_capacity told.old }
{
    told.clear();
    if !press.is_down() {
        return;
    }
    push_on(told, PressKind::Up, button, chain.last().copied());
    if button == PRIMARY {
        let clicked = common_ancestor(press.members(), chain);
        push_on(told, PressKind::Click, button, clicked);
    }
}

/// The deepest member of a chain that is in the press chain.
fn common_ancestor(press: &[u32], chain: &[u32]) -> Option<u32>
    ensures { result ≡ common_ancestor press.now chain.now }
{
    chain
        .iter()
        .rev()
        .copied()
        .find(|member| press.contains(member))
}

/// Appends a press on an element, where there is one.
fn push_on(told: &mut Vec<Press>, kind: PressKind, button: u8, target: Option<u32>)
    requires { vec_len told.old < vec_capacity told.old }
    ensures items { told.new.items ≡ told.old.items ++ press_on kind button target }
    ensures len { vec_len told.new ≤ vec_len told.old + 1 }
    ensures capacity { vec_capacity told.new ≡ vec_capacity told.old }
{
    if let Some(target) = target {
        told.push_reserved(Press {
            kind,
            target,
            button,
        });
    }
}
