ghost use Rattle.std.specs.Prelude.{◌≡◌, ◌+◌, ◌≤◌, ◌<◌, ◌++◌, ◌∷◌, [], length, reverse, vec_len, vec_capacity, if◌then◌else◌, not, ◌&&◌};
ghost use Rattle.mouse_events.specs.Chain.{is_member, living, living_target, without};
ghost use Rattle.mouse_events.specs.Events.{event, on, on_each, change, events_between};

use crate::event::{Event, EventKind};

/// How many events a turn makes at most: a leave and an enter for each member, out, over and move.
pub const MOST_EVENTS: usize = 515;

/// Writes the events of a turn from the kept chain to the new one, in place of what was there, given for
/// each member of the kept chain whether it is still in the page. There is room for them; it takes no
/// memory. UI Events, "Mouse Event Order".
pub fn write_events(
    events: &mut Vec<Event>,
    kept: &[u32],
    alive: &[bool],
    new_chain: &[u32],
    moved: bool,
)
    requires flags { length alive.now ≡ length kept.now }
    requires room { length kept.now + length new_chain.now + 3 ≤ vec_capacity events.old }
    ensures items { events.new.items ≡ events_between kept.now alive.now new_chain.now moved }
    ensures capacity { vec_capacity events.new ≡ vec_capacity events.old }
{
    events.clear();
    let to = new_chain.last().copied();
    if kept.last().copied() != to {
        push_change(events, kept, alive, new_chain);
    }
    push_on(events, EventKind::Move, if moved { to } else { None }, None);
}

/// Appends the events of a new target, but for the move.
fn push_change(events: &mut Vec<Event>, kept: &[u32], alive: &[bool], new_chain: &[u32])
    requires flags { length alive.now ≡ length kept.now }
    requires room { vec_len events.old + length kept.now + length new_chain.now + 2 ≤ vec_capacity events.old }
    ensures items { events.new.items ≡ events.old.items ++ change kept.now alive.now new_chain.now }
    ensures len { vec_len events.new ≤ vec_len events.old + length kept.now + length new_chain.now + 2 }
    ensures capacity { vec_capacity events.new ≡ vec_capacity events.old }
{
    let to = new_chain.last().copied();
    let from = living_target(kept, alive);
    push_on(events, EventKind::Out, from, to);
    push_leaves(events, kept, alive, new_chain, to);
    push_on(events, EventKind::Over, to, from);
    push_enters(events, new_chain, kept, from);
}

/// The kept target, where it is still in the page.
fn living_target(kept: &[u32], alive: &[bool]) -> Option<u32>
    ensures { result ≡ living_target kept.now alive.now }
{
    match alive.last() {
        Some(true) => kept.last().copied(),
        _ => None,
    }
}

/// Appends a leave on each living member of the kept chain that isn't in the new one, deepest first.
fn push_leaves(
    events: &mut Vec<Event>,
    kept: &[u32],
    alive: &[bool],
    new_chain: &[u32],
    related: Option<u32>,
)
    requires flags { length alive.now ≡ length kept.now }
    requires room { vec_len events.old + length kept.now ≤ vec_capacity events.old }
    ensures items { events.new.items ≡ events.old.items ++ on_each EventKind.Leave (reverse (without new_chain.now (living kept.now alive.now))) related }
    ensures len { vec_len events.new ≤ vec_len events.old + length kept.now }
    ensures capacity { vec_capacity events.new ≡ vec_capacity events.old }
{
    for i in (0..kept.len()).rev() {
        let member = kept[i];
        push_if(
            events,
            is_left(member, alive[i], new_chain),
            EventKind::Leave,
            member,
            related,
        );
    }
}

/// Whether a member of the kept chain gets a leave: it is still in the page and isn't in the new chain.
fn is_left(member: u32, is_alive: bool, new_chain: &[u32]) -> bool
    ensures { result ≡ (is_alive && not (is_member member new_chain.now)) }
{
    is_alive && !new_chain.contains(&member)
}

/// Appends an enter on each member of the new chain that isn't in the kept one, outermost first.
fn push_enters(events: &mut Vec<Event>, new_chain: &[u32], kept: &[u32], related: Option<u32>)
    requires room { vec_len events.old + length new_chain.now ≤ vec_capacity events.old }
    ensures items { events.new.items ≡ events.old.items ++ on_each EventKind.Enter (without kept.now new_chain.now) related }
    ensures len { vec_len events.new ≤ vec_len events.old + length new_chain.now }
    ensures capacity { vec_capacity events.new ≡ vec_capacity events.old }
{
    for &member in new_chain {
        push_if(
            events,
            !kept.contains(&member),
            EventKind::Enter,
            member,
            related,
        );
    }
}

/// Appends an event on an element, where there is one.
fn push_on(events: &mut Vec<Event>, kind: EventKind, target: Option<u32>, related: Option<u32>)
    requires { vec_len events.old < vec_capacity events.old }
    ensures items { events.new.items ≡ events.old.items ++ on kind target related }
    ensures len { vec_len events.new ≤ vec_len events.old + 1 }
    ensures capacity { vec_capacity events.new ≡ vec_capacity events.old }
{
    if let Some(target) = target {
        events.push_reserved(Event {
            kind,
            target,
            related,
        });
    }
}

/// Appends an event, where it is wanted.
fn push_if(
    events: &mut Vec<Event>,
    wanted: bool,
    kind: EventKind,
    target: u32,
    related: Option<u32>,
)
    requires { vec_len events.old < vec_capacity events.old }
    ensures items { events.new.items ≡ events.old.items ++ (if wanted then event kind related target ∷ [] else []) }
    ensures len { vec_len events.new ≤ vec_len events.old + 1 }
    ensures capacity { vec_capacity events.new ≡ vec_capacity events.old }
{
    if wanted {
        events.push_reserved(Event {
            kind,
            target,
            related,
        });
    }
}
