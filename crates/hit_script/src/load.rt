// The load: its lines, one after another, and the line that sums up what the desk answers to them.
ghost use Rattle.std.specs.Prelude.{◌≡◌, ◌≢◌, ◌+◌, ◌<◌, ◌≤◌, ◌++◌, ◌∷◌, [], ℕ, List, Some, Ok, Err, IfOk, OnOk, OnErr, length, map, codes, decimal};
ghost use Rattle.std.specs.List.{flat_map, range_with_len};
ghost use Rattle.std.specs.String.{string_bytes};
ghost use Rattle.box_tree.specs.Contents.{Contents, IsWithin};
ghost use Rattle.box_tree.specs.Edited.{IsInRange};
ghost use Rattle.script_lines.specs.Command.{IsAskable};
ghost use Rattle.script_lines.specs.declared.command.Command.TheVariants.{Edit as edit_command, Hit as hit_command};
ghost use Rattle.hit_script.specs.Ends.{Rose, TakesAll, TakesFront};
ghost use Rattle.hit_script.specs.Load.{add_line as line_of_add, block_line as line_of_block, block_lines, block_sides as sides_of_block, block_style as style_of_block, counted_lines, diagonal_line as line_of_diagonal, load_lines, root_line as line_of_root, section_line as line_of_section, section_lines, section_style as style_of_section, box_text as text_of_box, place_text as text_of_place, summary_line as line_of_summary, view_sides};
ghost use Rattle.hit_script.specs.Log.{Grows};
ghost use Rattle.hit_script.specs.Room.{HasRoom};
ghost use Rattle.hit_script.specs.Script.{opening};
ghost use Rattle.hit_script.specs.Tallied.{Gains, SumsUp, Tallies, TalliesCommand, unmoved};

use crate::answers::is_passed_over;
use crate::counts::Counts;
use crate::desks::Desk;
use crate::memory::OutOfMemory;
use crate::room::lengthen;
use crate::sinks::{Sink, SinkFault};
use crate::transfer::write_all;
use box_tree::Edit;
use fractions::{Ledger, Steps};
use script_lines::{Command, LineFault, command_of};
use std::alloc::{AllocError, Global};

/// The blocks of a section.
const SECTION: u32 = 100;

/// The queries of a load.
const QUERIES: u32 = 16;

/// A box by its left and top edge, its width and its height, in units of 1/64 px.
#[derive(Clone, Copy)]
struct Sides {
    left: u32,
    top: u32,
    width: u32,
    height: u32,
}

// The whole viewport.
fn view() -> Sides
    ensures { result ≡ view_sides }
{
    Sides {
        left: 0,
        top: 0,
        width: 81920,
        height: 46080,
    }
}

// Where the node of an add goes.
fn place_text(alloc: Global, parent: u32, at: u32) -> Result<String, AllocError>
    ensures { IfOk result (λ text. string_bytes text ≡ text_of_place parent at) }
{
    format!(in alloc; "{{\"op\":\"add\",\"parent\":{parent},\"at\":{at}")
}

// A block's one box.
fn box_text(alloc: Global, sides: Sides) -> Result<String, AllocError>
    ensures { IfOk result (λ text. string_bytes text ≡ text_of_box sides) }
{
    let Sides {
        left,
        top,
        width,
        height,
    } = sides;
    format!(in alloc; ",\"kind\":\"block\",\"boxes\":[[0,{left},{top},{width},{height}]]")
}

fn followed_by(mut text: String, more: &str) -> Result<String, AllocError>
    ensures { IfOk result (λ both. string_bytes both ≡ string_bytes text ++ more.now) }
{
    text.push_str(more)?;
    Ok(text)
}

// The line of an add of a block with one box.
fn add_line(
    alloc: Global,
    parent: u32,
    at: u32,
    sides: Sides,
    style: &str,
) -> Result<String, AllocError>
    ensures { IfOk result (λ line. string_bytes line ≡ line_of_add parent at sides style.now) }
{
    let place = place_text(alloc, parent, at)?;
    let one_box = box_text(alloc, sides)?;
    let line = followed_by(place, &one_box)?;
    let line = followed_by(line, ",\"style\":")?;
    let line = followed_by(line, style)?;
    followed_by(line, "}")
}

fn root_line(alloc: Global) -> Result<String, AllocError>
    ensures { IfOk result (λ line. string_bytes line ≡ line_of_root) }
{
    add_line(alloc, 0, 0, view(), "{}")
}

// The style of a section, one of three levels.
fn section_style(alloc: Global, section: u32) -> Result<String, AllocError>
    ensures { IfOk result (λ style. string_bytes style ≡ style_of_section section) }
{
    let level = section % 3;
    format!(in alloc; "{{\"position\":\"relative\",\"z\":{level}}}")
}

fn section_line(alloc: Global, section: u32) -> Result<String, AllocError>
    ensures { IfOk result (λ line. string_bytes line ≡ line_of_section section) }
{
    let style = section_style(alloc, section)?;
    add_line(alloc, 1, section, view(), &style)
}

fn block_sides(i: u32) -> Sides
    requires { i < 20000 }
    ensures { result ≡ sides_of_block i }
{
    let side = 64 * (20 + i % 60);
    Sides {
        left: 64 * (37 * i % 1200),
        top: 64 * (53 * i % 640),
        width: side,
        height: side,
    }
}

// The style of a block: every fourth is turned.
fn block_style(i: u32) -> &'static str
    ensures { result.now ≡ style_of_block i }
{
    if i % 4 == 3 {
        "{\"transform\":[[\"matrix\",3,4,-4,3,0,0,5]]}"
    } else {
        "{}"
    }
}

fn block_line(alloc: Global, i: u32) -> Result<String, AllocError>
    requires { i < 20000 }
    ensures { IfOk result (λ line. string_bytes line ≡ line_of_block i) }
{
    let section = 2 + 101 * (i / SECTION);
    add_line(alloc, section, i % SECTION, block_sides(i), block_style(i))
}

// The line of a query on the diagonal of the viewport.
fn diagonal_line(alloc: Global, j: u32) -> Result<String, AllocError>
    requires { j < 16 }
    ensures { IfOk result (λ line. string_bytes line ≡ line_of_diagonal j) }
{
    let x = 5120 * j;
    let y = 2880 * j;
    format!(in alloc; "{{\"op\":\"hit\",\"x\":{x},\"y\":{y}}}")
}

fn count_edit<D: Desk, L: Ledger>(
    edit: &Edit,
    desk: &mut D,
    room: &mut Vec<u32>,
    steps: &mut Steps<L>,
    counts: &mut Counts,
) -> Result<(), OutOfMemory>
    requires edit { IsInRange edit.now }
    requires room { HasRoom (D.places desk.old) room.old.items }
    ensures room { OnOk result (HasRoom (D.places desk.new) room.new.items) }
    ensures log { Grows (D.log desk.old) (D.log desk.new) }
    ensures counted { OnOk result (Gains (TalliesCommand (Ok (edit_command edit.now)) (unmoved (D.page desk.old) (D.log desk.old)) (unmoved (D.page desk.new) (D.log desk.new))) counts.old counts.new) }
{
    let answer = desk.edit(edit, steps);
    lengthen(room, desk.places())?;
    counts.count_answer(answer)
}

fn count_hit<D: Desk, L: Ledger>(
    x: i64,
    y: i64,
    desk: &mut D,
    room: &mut Vec<u32>,
    steps: &mut Steps<L>,
    counts: &mut Counts,
) -> Result<(), OutOfMemory>
    requires x { IsWithin 26 x }
    requires y { IsWithin 26 y }
    requires room { HasRoom (D.places desk.old) room.old.items }
    ensures room { OnOk result (HasRoom (D.places desk.new) room.new.items) }
    ensures log { Grows (D.log desk.old) (D.log desk.new) }
    ensures counted { OnOk result (Gains (TalliesCommand (Ok (hit_command x y)) (unmoved (D.page desk.old) (D.log desk.old)) (unmoved (D.page desk.new) (D.log desk.new))) counts.old counts.new) }
{
    let ids = desk.hit(room, x, y, steps);
    counts.count_members(ids)
}

// No line of a load asks for anything but an edit or a hit.
fn count_command<D: Desk, L: Ledger>(
    asked: Result<Command, LineFault>,
    desk: &mut D,
    room: &mut Vec<u32>,
    steps: &mut Steps<L>,
    counts: &mut Counts,
) -> Result<(), OutOfMemory>
    requires askable { IfOk asked IsAskable }
    requires room { HasRoom (D.places desk.old) room.old.items }
    ensures memory { OnOk result (asked ≢ Err LineFault.OutOfMemory) }
    ensures room { OnOk result (HasRoom (D.places desk.new) room.new.items) }
    ensures log { Grows (D.log desk.old) (D.log desk.new) }
    ensures counted { OnOk result (Gains (TalliesCommand asked (unmoved (D.page desk.old) (D.log desk.old)) (unmoved (D.page desk.new) (D.log desk.new))) counts.old counts.new) }
{
    match asked {
        Ok(Command::Edit(edit)) => count_edit(&edit, desk, room, steps, counts),
        Ok(Command::Hit { x, y }) => count_hit(x, y, desk, room, steps, counts),
        _ => Err(OutOfMemory),
    }
}

fn count_line<D: Desk, L: Ledger>(
    alloc: Global,
    line: &[u8],
    desk: &mut D,
    room: &mut Vec<u32>,
    steps: &mut Steps<L>,
    counts: &mut Counts,
) -> Result<(), OutOfMemory>
    requires { HasRoom (D.places desk.old) room.old.items }
    ensures room { OnOk result (HasRoom (D.places desk.new) room.new.items) }
    ensures log { Grows (D.log desk.old) (D.log desk.new) }
    ensures counted { OnOk result (Gains (Tallies (line.now ∷ []) (unmoved (D.page desk.old) (D.log desk.old)) (unmoved (D.page desk.new) (D.log desk.new))) counts.old counts.new) }
{
    if is_passed_over(line) {
        return Ok(());
    }
    count_command(command_of(alloc, line), desk, room, steps, counts)
}

// Before the first block of each hundred comes its section.
fn count_section<D: Desk, L: Ledger>(
    alloc: Global,
    i: u32,
    desk: &mut D,
    room: &mut Vec<u32>,
    steps: &mut Steps<L>,
    counts: &mut Counts,
) -> Result<(), OutOfMemory>
    requires { HasRoom (D.places desk.old) room.old.items }
    ensures room { OnOk result (HasRoom (D.places desk.new) room.new.items) }
    ensures log { Grows (D.log desk.old) (D.log desk.new) }
    ensures counted { OnOk result (Gains (Tallies (section_lines i) (unmoved (D.page desk.old) (D.log desk.old)) (unmoved (D.page desk.new) (D.log desk.new))) counts.old counts.new) }
{
    if i % SECTION != 0 {
        return Ok(());
    }
    let line = section_line(alloc, i / SECTION)?;
    count_line(alloc, line.as_bytes(), desk, room, steps, counts)
}

fn count_block<D: Desk, L: Ledger>(
    alloc: Global,
    i: u32,
    desk: &mut D,
    room: &mut Vec<u32>,
    steps: &mut Steps<L>,
    counts: &mut Counts,
) -> Result<(), OutOfMemory>
    requires i { i < 20000 }
    requires room { HasRoom (D.places desk.old) room.old.items }
    ensures room { OnOk result (HasRoom (D.places desk.new) room.new.items) }
    ensures log { Grows (D.log desk.old) (D.log desk.new) }
    ensures counted { OnOk result (Gains (Tallies (block_lines i) (unmoved (D.page desk.old) (D.log desk.old)) (unmoved (D.page desk.new) (D.log desk.new))) counts.old counts.new) }
{
    count_section(alloc, i, desk, room, steps, counts)?;
    let line = block_line(alloc, i)?;
    count_line(alloc, line.as_bytes(), desk, room, steps, counts)
}

fn count_blocks<D: Desk, L: Ledger>(
    alloc: Global,
    count: u32,
    desk: &mut D,
    room: &mut Vec<u32>,
    steps: &mut Steps<L>,
    counts: &mut Counts,
) -> Result<(), OutOfMemory>
    requires count { count ≤ 20000 }
    requires room { HasRoom (D.places desk.old) room.old.items }
    ensures room { OnOk result (HasRoom (D.places desk.new) room.new.items) }
    ensures log { Grows (D.log desk.old) (D.log desk.new) }
    ensures counted { OnOk result (Gains (Tallies (flat_map block_lines (range_with_len 0 count)) (unmoved (D.page desk.old) (D.log desk.old)) (unmoved (D.page desk.new) (D.log desk.new))) counts.old counts.new) }
{
    let mut i = 0;
    while i < count {
        count_block(alloc, i, desk, room, steps, counts)?;
        i += 1;
    }
    Ok(())
}

fn count_query<D: Desk, L: Ledger>(
    alloc: Global,
    j: u32,
    desk: &mut D,
    room: &mut Vec<u32>,
    steps: &mut Steps<L>,
    counts: &mut Counts,
) -> Result<(), OutOfMemory>
    requires j { j < 16 }
    requires room { HasRoom (D.places desk.old) room.old.items }
    ensures room { OnOk result (HasRoom (D.places desk.new) room.new.items) }
    ensures log { Grows (D.log desk.old) (D.log desk.new) }
    ensures counted { OnOk result (Gains (Tallies (line_of_diagonal j ∷ []) (unmoved (D.page desk.old) (D.log desk.old)) (unmoved (D.page desk.new) (D.log desk.new))) counts.old counts.new) }
{
    let line = diagonal_line(alloc, j)?;
    count_line(alloc, line.as_bytes(), desk, room, steps, counts)
}

fn count_queries<D: Desk, L: Ledger>(
    alloc: Global,
    desk: &mut D,
    room: &mut Vec<u32>,
    steps: &mut Steps<L>,
    counts: &mut Counts,
) -> Result<(), OutOfMemory>
    requires { HasRoom (D.places desk.old) room.old.items }
    ensures log { Grows (D.log desk.old) (D.log desk.new) }
    ensures counted { OnOk result (Gains (Tallies (map line_of_diagonal (range_with_len 0 16)) (unmoved (D.page desk.old) (D.log desk.old)) (unmoved (D.page desk.new) (D.log desk.new))) counts.old counts.new) }
{
    let mut j = 0;
    while j < QUERIES {
        count_query(alloc, j, desk, room, steps, counts)?;
        j += 1;
    }
    Ok(())
}

fn count_root<D: Desk, L: Ledger>(
    alloc: Global,
    desk: &mut D,
    room: &mut Vec<u32>,
    steps: &mut Steps<L>,
    counts: &mut Counts,
) -> Result<(), OutOfMemory>
    requires { HasRoom (D.places desk.old) room.old.items }
    ensures room { OnOk result (HasRoom (D.places desk.new) room.new.items) }
    ensures log { Grows (D.log desk.old) (D.log desk.new) }
    ensures counted { OnOk result (Gains (Tallies (line_of_root ∷ []) (unmoved (D.page desk.old) (D.log desk.old)) (unmoved (D.page desk.new) (D.log desk.new))) counts.old counts.new) }
{
    let line = root_line(alloc)?;
    count_line(alloc, line.as_bytes(), desk, room, steps, counts)
}

// What the desk answers to the lines of the load of so many blocks.
fn counts_of_load<D: Desk, L: Ledger>(
    alloc: Global,
    count: u32,
    desk: &mut D,
    room: &mut Vec<u32>,
    steps: &mut Steps<L>,
) -> Result<Counts, OutOfMemory>
    requires count { count ≤ 20000 }
    requires room { HasRoom (D.places desk.old) room.old.items }
    ensures log { Grows (D.log desk.old) (D.log desk.new) }
    ensures counted { IfOk result (Tallies (load_lines count) (unmoved (D.page desk.old) (D.log desk.old)) (unmoved (D.page desk.new) (D.log desk.new))) }
{
    let mut counts = Counts::nothing();
    count_root(alloc, desk, room, steps, &mut counts)?;
    count_blocks(alloc, count, desk, room, steps, &mut counts)?;
    count_queries(alloc, desk, room, steps, &mut counts)?;
    Ok(counts)
}

fn summary_line(alloc: Global, count: u32, counts: Counts) -> Result<String, OutOfMemory>
    ensures { IfOk result (λ line. string_bytes line ≡ line_of_summary count counts) }
{
    let Counts { nodes, listed, sum } = counts;
    Ok(format!(in alloc; "load {count} nodes {nodes} listed {listed} sum {sum}\n")?)
}

/// Does the load of so many blocks on the desk, and hands its summary to the sink. Where that fails the sink has taken a
/// front of it.
pub fn sum_up<K: Sink, D: Desk, L: Ledger>(
    alloc: Global,
    count: u32,
    sink: &mut K,
    desk: &mut D,
    room: &mut Vec<u32>,
    steps: &mut Steps<L>,
) -> Result<(), SinkFault>
    requires count { count ≤ 20000 }
    requires room { HasRoom (D.places desk.old) room.old.items }
    ensures log { Grows (D.log desk.old) (D.log desk.new) }
    ensures summed { OnOk result (SumsUp count (unmoved (D.page desk.old) (D.log desk.old)) (unmoved (D.page desk.new) (D.log desk.new)) (K.taken sink.old) (K.taken sink.new)) }
    ensures part { (first : Contents) → D.page desk.old ≡ Some first → TakesFront (K.taken sink.old) (K.taken sink.new) (line_of_summary count (counted_lines (opening first) (load_lines count))) }
    ensures failed { result ≡ Err SinkFault.Failed → Rose (K.faults sink.old) (K.faults sink.new) }
{
    let counts = counts_of_load(alloc, count, desk, room, steps)?;
    let line = summary_line(alloc, count, counts)?;
    write_all(sink, line.as_bytes())
}
