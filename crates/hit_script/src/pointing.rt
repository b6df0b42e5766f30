// The commands that turn the pointer, and the events that they are answered with.
ghost use Rattle.std.specs.Prelude.{◌≡◌, ◌++◌, ◌≤◌, [], Some, None, Ok, IfOk, IfSome, OnOk, length, map};
ghost use Rattle.std.specs.Option.{option_map_or};
ghost use Rattle.box_tree.specs.Contents.{IsWithin, has_id};
ghost use Rattle.mouse_events.specs.Events.{events_between};
ghost use Rattle.point_query.specs.Chain.{chain_of};
ghost use Rattle.script_lines.specs.declared.command.Command.TheVariants.{Point as point_command, Refresh as refresh_command};
ghost use Rattle.script_lines.specs.Reply.{events_line};
ghost use Rattle.hit_script.specs.Answered.{Appends, IsSpotted, Replies, Turns, known};
ghost use Rattle.hit_script.specs.Log.{Grows, LogsAll, chain_entries, has_entries};
ghost use Rattle.hit_script.specs.Room.{HasRoom};

use crate::desks::Desk;
use crate::memory::OutOfMemory;
use fractions::{Ledger, Steps};
use mouse_events::Pointer;
use script_lines::{Reply, print};
use std::alloc::Global;

/// A spot that the pointer turns at, in units of 1/64 px, and whether it was moved there.
#[derive(Clone, Copy)]
struct Turn {
    x: i64,
    y: i64,
    is_moved: bool,
}

/// Answers a move of the pointer: its spot is set, and it turns to what is topmost there.
pub(crate) fn answer_point<D: Desk, L: Ledger>(
    alloc: Global,
    x: i64,
    y: i64,
    desk: &mut D,
    room: &mut Vec<u32>,
    pointer: &mut Pointer,
    steps: &mut Steps<L>,
    out: &mut Vec<u8>,
) -> Result<(), OutOfMemory>
    requires x { IsWithin 26 x }
    requires y { IsWithin 26 y }
    requires room { HasRoom (D.places desk.old) room.old.items }
    ensures spot { IsSpotted pointer.new }
    ensures room { OnOk result (HasRoom (D.places desk.new) room.new.items) }
    ensures log { Grows (D.log desk.old) (D.log desk.new) }
    ensures reply { OnOk result (Appends (Replies (Ok (point_command x y)) (known (D.page desk.old) (D.log desk.old) pointer.old) (known (D.page desk.new) (D.log desk.new) pointer.new)) out.old.items out.new.items) }
{
    pointer.set_spot(x, y);
    let turn = Turn {
        x,
        y,
        is_moved: true,
    };
    answer_turn(alloc, turn, desk, room, pointer, steps, out)
}

/// Answers a pointer that stays: it turns to what is topmost at its spot, where it has one.
pub(crate) fn answer_refresh<D: Desk, L: Ledger>(
    alloc: Global,
    desk: &mut D,
    room: &mut Vec<u32>,
    pointer: &mut Pointer,
    steps: &mut Steps<L>,
    out: &mut Vec<u8>,
) -> Result<(), OutOfMemory>
    requires spot { IsSpotted pointer.old }
    requires room { HasRoom (D.places desk.old) room.old.items }
    ensures spot { IsSpotted pointer.new }
    ensures room { OnOk result (HasRoom (D.places desk.new) room.new.items) }
    ensures log { Grows (D.log desk.old) (D.log desk.new) }
    ensures reply { OnOk result (Appends (Replies (Ok refresh_command) (known (D.page desk.old) (D.log desk.old) pointer.old) (known (D.page desk.new) (D.log desk.new) pointer.new)) out.old.items out.new.items) }
{
    let Some((x, y)) = pointer.spot() else {
        return Ok(print(&Reply::Events(&[]), out)?);
    };
    let turn = Turn {
        x,
        y,
        is_moved: false,
    };
    answer_turn(alloc, turn, desk, room, pointer, steps, out)
}

// Turns the pointer, whose spot is set, to what is topmost there.
fn answer_turn<D: Desk, L: Ledger>(
    alloc: Global,
    turn: Turn,
    desk: &mut D,
    room: &mut Vec<u32>,
    pointer: &mut Pointer,
    steps: &mut Steps<L>,
    out: &mut Vec<u8>,
) -> Result<(), OutOfMemory>
    requires x { IsWithin 26 turn.x }
    requires y { IsWithin 26 turn.y }
    requires spot { pointer.old.spot ≡ Some (turn.x, turn.y) }
    requires room { HasRoom (D.places desk.old) room.old.items }
    ensures spot { pointer.new.spot ≡ pointer.old.spot }
    ensures room { OnOk result (HasRoom (D.places desk.new) room.new.items) }
    ensures log { Grows (D.log desk.old) (D.log desk.new) }
    ensures reply { OnOk result (Appends (Turns turn.x turn.y turn.is_moved (known (D.page desk.old) (D.log desk.old) pointer.old) (known (D.page desk.new) (D.log desk.new) pointer.new)) out.old.items out.new.items) }
{
    let target = desk.top(room, turn.x, turn.y, steps);
    let members = chain_of_some(target, desk, room, steps);
    let alive = living(alloc, pointer.chain(), desk)?;
    print_turn(pointer, members, &alive, turn.is_moved, out)
}

// The chain of an element, where there is one, and else an empty one.
fn chain_of_some<'a, D: Desk, L: Ledger>(
    target: Option<u32>,
    desk: &mut D,
    room: &'a mut [u32],
    steps: &mut Steps<L>,
) -> &'a [u32]
    requires { HasRoom (D.places desk.old) room.old }
    ensures chain { IfSome (D.page desk.old) (λ was. result.now ≡ option_map_or (chain_of was) target []) }
    ensures none { target ≡ None → result.now ≡ [] }
    ensures short { length result.now ≤ 256 }
    ensures same { D.page desk.new ≡ D.page desk.old }
    ensures same_places { D.places desk.new ≡ D.places desk.old }
    ensures grows { Grows (D.log desk.old) (D.log desk.new) }
    ensures logged { LogsAll (D.log desk.old) (D.log desk.new) (chain_entries target result.now) }
{
    match target {
        Some(id) => desk.chain(room, id, steps),
        None => &room[..0],
    }
}

// Whether each member of a chain is still in the page.
fn living<D: Desk>(alloc: Global, chain: &[u32], desk: &mut D) -> Result<Vec<bool>, OutOfMemory>
    ensures count { IfOk result (λ alive. length alive.items ≡ length chain.now) }
    ensures alive { IfOk result (λ alive. IfSome (D.page desk.old) (λ was. alive.items ≡ map (has_id was) chain.now)) }
    ensures same { D.page desk.new ≡ D.page desk.old }
    ensures same_places { D.places desk.new ≡ D.places desk.old }
    ensures grows { Grows (D.log desk.old) (D.log desk.new) }
    ensures logged { IfOk result (λ alive. LogsAll (D.log desk.old) (D.log desk.new) (has_entries chain.now alive.items)) }
{
    let mut alive = Vec::new(alloc);
    for &id in chain {
        let is_there = desk.has(id);
        alive.push(is_there)?;
    }
    Ok(alive)
}

// Turns the pointer to a new chain, and puts the line of the events behind what `out` has.
fn print_turn(
    pointer: &mut Pointer,
    members: &[u32],
    alive: &[bool],
    is_moved: bool,
    out: &mut Vec<u8>,
) -> Result<(), OutOfMemory>
    requires short { length members.now ≤ 256 }
    requires flags { length alive.now ≡ length pointer.old.chain }
    ensures spot { pointer.new.spot ≡ pointer.old.spot }
    ensures chain { pointer.new.chain ≡ members.now }
    ensures reply { OnOk result (out.new.items ≡ out.old.items ++ events_line (events_between pointer.old.chain alive.now members.now is_moved)) }
{
    let events = pointer.turn(members, alive, is_moved);
    Ok(print(&Reply::Events(events), out)?)
}
