// One line, from its bytes to its reply.
ghost use Rattle.std.specs.Prelude.{◌≡◌, ◌≢◌, ℕ, List, ◌++◌, ◌&&◌, ◌∷◌, [], not, Ok, Err, IfOk, OnOk};
ghost use Rattle.box_tree.specs.Contents.{IsWithin};
ghost use Rattle.box_tree.specs.Edited.{IsInRange};
ghost use Rattle.mouse_events.specs.State.{State};
ghost use Rattle.script_lines.specs.Blank.{is_blank as blank};
ghost use Rattle.script_lines.specs.Command.{is_long, IsAskable};
ghost use Rattle.script_lines.specs.declared.command.Command.TheVariants.{Edit as edit_command, Hit as hit_command, Top as top_command};
ghost use Rattle.script_lines.specs.Reply.{line_fault_line};
ghost use Rattle.hit_script.specs.Answered.{Answers, Appends, IsSpotted, Replies, RepliesBeside, known};
ghost use Rattle.hit_script.specs.Cutting.{counted, cut_by_newline};
ghost use Rattle.hit_script.specs.Log.{Grows};
ghost use Rattle.hit_script.specs.Room.{HasRoom};

use crate::cutter::{Cut, LineCutter};
use crate::desks::Desk;
use crate::memory::OutOfMemory;
use crate::pointing::{answer_point, answer_refresh};
use crate::room::lengthen;
use box_tree::{Done, Edit, EditFault};
use fractions::{Ledger, Steps};
use mouse_events::Pointer;
use script_lines::{Command, LONGEST_LINE, LineFault, Reply, command_of, is_blank, print};
use std::alloc::Global;

fn answer_edit<D: Desk, L: Ledger>(
    edit: &Edit,
    desk: &mut D,
    room: &mut Vec<u32>,
    steps: &mut Steps<L>,
    out: &mut Vec<u8>,
) -> Result<(), OutOfMemory>
    requires edit { IsInRange edit.now }
    requires room { HasRoom (D.places desk.old) room.old.items }
    ensures room { OnOk result (HasRoom (D.places desk.new) room.new.items) }
    ensures log { Grows (D.log desk.old) (D.log desk.new) }
    ensures reply { (pointer : State) → OnOk result (Appends (RepliesBeside (Ok (edit_command edit.now)) pointer (D.page desk.old) (D.page desk.new) (D.log desk.old) (D.log desk.new)) out.old.items out.new.items) }
{
    let answer = desk.edit(edit, steps);
    lengthen(room, desk.places())?;
    match answer {
        Ok(Done::Node { id }) => print(&Reply::Node(id), out)?,
        Ok(Done::Done) => print(&Reply::Done, out)?,
        Err(EditFault::OutOfMemory) => return Err(OutOfMemory),
        Err(why) => print(&Reply::Edit(why), out)?,
    }
    Ok(())
}

fn answer_hit<D: Desk, L: Ledger>(
    x: i64,
    y: i64,
    desk: &mut D,
    room: &mut Vec<u32>,
    steps: &mut Steps<L>,
    out: &mut Vec<u8>,
) -> Result<(), OutOfMemory>
    requires x { IsWithin 26 x }
    requires y { IsWithin 26 y }
    requires room { HasRoom (D.places desk.old) room.old.items }
    ensures room { OnOk result (HasRoom (D.places desk.new) room.new.items) }
    ensures log { Grows (D.log desk.old) (D.log desk.new) }
    ensures reply { (pointer : State) → OnOk result (Appends (RepliesBeside (Ok (hit_command x y)) pointer (D.page desk.old) (D.page desk.new) (D.log desk.old) (D.log desk.new)) out.old.items out.new.items) }
{
    let ids = desk.hit(room, x, y, steps);
    Ok(print(&Reply::Hit(ids), out)?)
}

fn answer_top<D: Desk, L: Ledger>(
    x: i64,
    y: i64,
    desk: &mut D,
    room: &mut Vec<u32>,
    steps: &mut Steps<L>,
    out: &mut Vec<u8>,
) -> Result<(), OutOfMemory>
    requires x { IsWithin 26 x }
    requires y { IsWithin 26 y }
    requires room { HasRoom (D.places desk.old) room.old.items }
    ensures room { OnOk result (HasRoom (D.places desk.new) room.new.items) }
    ensures log { Grows (D.log desk.old) (D.log desk.new) }
    ensures reply { (pointer : State) → OnOk result (Appends (RepliesBeside (Ok (top_command x y)) pointer (D.page desk.old) (D.page desk.new) (D.log desk.old) (D.log desk.new)) out.old.items out.new.items) }
{
    let id = desk.top(room, x, y, steps);
    Ok(print(&Reply::Top(id), out)?)
}

// A want of memory in a line is one of the answer.
fn answer_fault(why: LineFault, out: &mut Vec<u8>) -> Result<(), OutOfMemory>
    ensures memory { OnOk result (why ≢ LineFault.OutOfMemory) }
    ensures reply { OnOk result (out.new.items ≡ out.old.items ++ line_fault_line why) }
{
    match why {
        LineFault::OutOfMemory => Err(OutOfMemory),
        why => Ok(print(&Reply::Line(why), out)?),
    }
}

fn answer_command<D: Desk, L: Ledger>(
    alloc: Global,
    asked: Result<Command, LineFault>,
    desk: &mut D,
    room: &mut Vec<u32>,
    pointer: &mut Pointer,
    steps: &mut Steps<L>,
    out: &mut Vec<u8>,
) -> Result<(), OutOfMemory>
    requires askable { IfOk asked IsAskable }
    requires spot { IsSpotted pointer.old }
    requires room { HasRoom (D.places desk.old) room.old.items }
    ensures memory { OnOk result (asked ≢ Err LineFault.OutOfMemory) }
    ensures spot { IsSpotted pointer.new }
    ensures room { OnOk result (HasRoom (D.places desk.new) room.new.items) }
    ensures log { Grows (D.log desk.old) (D.log desk.new) }
    ensures reply { OnOk result (Appends (Replies asked (known (D.page desk.old) (D.log desk.old) pointer.old) (known (D.page desk.new) (D.log desk.new) pointer.new)) out.old.items out.new.items) }
{
    match asked {
        Ok(Command::Edit(edit)) => answer_edit(&edit, desk, room, steps, out),
        Ok(Command::Hit { x, y }) => answer_hit(x, y, desk, room, steps, out),
        Ok(Command::Top { x, y }) => answer_top(x, y, desk, room, steps, out),
        Ok(Command::Point { x, y }) => answer_point(alloc, x, y, desk, room, pointer, steps, out),
        Ok(Command::Refresh) => answer_refresh(alloc, desk, room, pointer, steps, out),
        Err(why) => answer_fault(why, out),
    }
}

// Whether a line has no reply: it is blank, and not too long.
pub(crate) fn is_passed_over(line: &[u8]) -> bool
    ensures { result ≡ (not (is_long line.now) && blank line.now) }
{
    line.len() <= LONGEST_LINE && is_blank(line)
}

// Answers a line: its reply is put behind what `out` has.
fn answer<D: Desk, L: Ledger>(
    alloc: Global,
    line: &[u8],
    desk: &mut D,
    room: &mut Vec<u32>,
    pointer: &mut Pointer,
    steps: &mut Steps<L>,
    out: &mut Vec<u8>,
) -> Result<(), OutOfMemory>
    requires spot { IsSpotted pointer.old }
    requires room { HasRoom (D.places desk.old) room.old.items }
    ensures spot { IsSpotted pointer.new }
    ensures room { OnOk result (HasRoom (D.places desk.new) room.new.items) }
    ensures log { Grows (D.log desk.old) (D.log desk.new) }
    ensures reply { OnOk result (Appends (Answers (line.now ∷ []) (known (D.page desk.old) (D.log desk.old) pointer.old) (known (D.page desk.new) (D.log desk.new) pointer.new)) out.old.items out.new.items) }
{
    if is_passed_over(line) {
        return Ok(());
    }
    answer_command(
        alloc,
        command_of(alloc, line),
        desk,
        room,
        pointer,
        steps,
        out,
    )
}

/// Answers the line that a newline or the end of the script has cut: its reply is put behind what `out` has. Of a line
/// that is too long no more was kept than its front, and it has its fault.
pub fn answer_cut<D: Desk, L: Ledger>(
    alloc: Global,
    cut: Cut,
    cutter: &LineCutter,
    desk: &mut D,
    room: &mut Vec<u32>,
    pointer: &mut Pointer,
    steps: &mut Steps<L>,
    out: &mut Vec<u8>,
) -> Result<(), OutOfMemory>
    requires cut { cut ≡ cut_by_newline cutter.now }
    requires spot { IsSpotted pointer.old }
    requires room { HasRoom (D.places desk.old) room.old.items }
    ensures spot { IsSpotted pointer.new }
    ensures room { OnOk result (HasRoom (D.places desk.new) room.new.items) }
    ensures log { Grows (D.log desk.old) (D.log desk.new) }
    ensures reply { OnOk result ((line : List ℕ) → cutter.now ≡ counted line
        → Appends (Answers (line ∷ []) (known (D.page desk.old) (D.log desk.old) pointer.old) (known (D.page desk.new) (D.log desk.new) pointer.new)) out.old.items out.new.items) }
{
    match cut {
        Cut::Long => answer_command(alloc, Err(LineFault::Long), desk, room, pointer, steps, out),
        _ => answer(alloc, cutter.line(), desk, room, pointer, steps, out),
    }
}
