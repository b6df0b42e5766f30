// A piece of a script, from its bytes to the replies of its whole lines.
ghost use Rattle.std.specs.Prelude.{◌≡◌, ℕ, List, ◌++◌, ◌+◌, ◌^◌, ◌<◌, ◌≤◌, Some, Err, IfOk, OnOk, OnErr, length, take};
ghost use Rattle.hit_script.specs.Answered.{Answers, Appends, Hands, IsSpotted, known, scene_of};
ghost use Rattle.hit_script.specs.Cutting.{counted};
ghost use Rattle.hit_script.specs.Ends.{Rose, TakesFront};
ghost use Rattle.hit_script.specs.Lines.{lines, whole_lines, unfinished, HasBegun};
ghost use Rattle.hit_script.specs.Log.{Grows};
ghost use Rattle.hit_script.specs.Room.{HasRoom};
ghost use Rattle.hit_script.specs.Script.{Scene, replies_from};

use crate::answers::answer_cut;
use crate::cutter::{Cut, LineCutter};
use crate::desks::Desk;
use crate::memory::OutOfMemory;
use crate::sinks::{Sink, SinkFault};
use crate::transfer::write_all;
use fractions::{Ledger, Steps};
use mouse_events::Pointer;
use std::alloc::Global;

// Takes the bytes of a piece up to its first newline behind the line that is begun, and answers how many they are. Where
// they end the line, it is answered.
fn take_part<D: Desk, L: Ledger>(
    alloc: Global,
    piece: &[u8],
    desk: &mut D,
    room: &mut Vec<u32>,
    pointer: &mut Pointer,
    steps: &mut Steps<L>,
    cutter: &mut LineCutter,
    out: &mut Vec<u8>,
) -> Result<usize, OutOfMemory>
    requires some { 0 < length piece.now }
    requires fits { cutter.old.count + length piece.now ≤ 2 ^ 32 }
    requires spot { IsSpotted pointer.old }
    requires room { HasRoom (D.places desk.old) room.old.items }
    ensures some { IfOk result (λ n. 0 < n) }
    ensures within { IfOk result (λ n. n ≤ length piece.now) }
    ensures fits { IfOk result (λ n. cutter.new.count ≤ cutter.old.count + n) }
    ensures begun { IfOk result (λ n. (begun : List ℕ) → HasBegun cutter.old begun → cutter.new ≡ counted (unfinished (begun ++ take n piece.now))) }
    ensures spot { IsSpotted pointer.new }
    ensures room { OnOk result (HasRoom (D.places desk.new) room.new.items) }
    ensures log { Grows (D.log desk.old) (D.log desk.new) }
    ensures replies { IfOk result (λ n. (begun : List ℕ) → HasBegun cutter.old begun
        → Appends (Answers (lines (whole_lines (begun ++ take n piece.now))) (known (D.page desk.old) (D.log desk.old) pointer.old) (known (D.page desk.new) (D.log desk.new) pointer.new)) out.old.items out.new.items) }
{
    let (count, cut) = cutter.take_piece(piece);
    match cut {
        Cut::More => Ok(count),
        _ => {
            answer_cut(alloc, cut, cutter, desk, room, pointer, steps, out)?;
            cutter.clear();
            Ok(count)
        }
    }
}

/// Takes a piece of a script behind the line that is begun. The replies to the lines that are whole now are put behind
/// what `out` has, and what is counted then is the line that is begun.
pub fn absorb<D: Desk, L: Ledger>(
    alloc: Global,
    piece: &[u8],
    desk: &mut D,
    room: &mut Vec<u32>,
    pointer: &mut Pointer,
    steps: &mut Steps<L>,
    cutter: &mut LineCutter,
    out: &mut Vec<u8>,
) -> Result<(), OutOfMemory>
    requires fits { cutter.old.count + length piece.now ≤ 2 ^ 32 }
    requires spot { IsSpotted pointer.old }
    requires room { HasRoom (D.places desk.old) room.old.items }
    ensures begun { OnOk result ((begun : List ℕ) → HasBegun cutter.old begun → cutter.new ≡ counted (unfinished (begun ++ piece.now))) }
    ensures spot { IsSpotted pointer.new }
    ensures room { OnOk result (HasRoom (D.places desk.new) room.new.items) }
    ensures log { Grows (D.log desk.old) (D.log desk.new) }
    ensures replies { OnOk result ((begun : List ℕ) → HasBegun cutter.old begun
        → Appends (Answers (lines (whole_lines (begun ++ piece.now))) (known (D.page desk.old) (D.log desk.old) pointer.old) (known (D.page desk.new) (D.log desk.new) pointer.new)) out.old.items out.new.items) }
{
    let mut at = 0;
    while at < piece.len() {
        at += take_part(alloc, &piece[at..], desk, room, pointer, steps, cutter, out)?;
    }
    Ok(())
}

/// Takes a piece of a script behind the line that is begun, and hands the replies to the lines that are whole now to the
/// sink. Where that fails the sink has taken a front of them.
pub fn reply_to<K: Sink, D: Desk, L: Ledger>(
    alloc: Global,
    piece: &[u8],
    sink: &mut K,
    desk: &mut D,
    room: &mut Vec<u32>,
    pointer: &mut Pointer,
    steps: &mut Steps<L>,
    cutter: &mut LineCutter,
) -> Result<(), SinkFault>
    requires fits { cutter.old.count + length piece.now ≤ 2 ^ 32 }
    requires spot { IsSpotted pointer.old }
    requires room { HasRoom (D.places desk.old) room.old.items }
    ensures begun { OnOk result ((begun : List ℕ) → HasBegun cutter.old begun → cutter.new ≡ counted (unfinished (begun ++ piece.now))) }
    ensures spot { IsSpotted pointer.new }
    ensures room { OnOk result (HasRoom (D.places desk.new) room.new.items) }
    ensures log { Grows (D.log desk.old) (D.log desk.new) }
    ensures replied { OnOk result ((begun : List ℕ) → HasBegun cutter.old begun
        → Hands (Answers (lines (whole_lines (begun ++ piece.now))) (known (D.page desk.old) (D.log desk.old) pointer.old) (known (D.page desk.new) (D.log desk.new) pointer.new)) (K.taken sink.old) (K.taken sink.new)) }
    ensures part { OnErr result ((begun : List ℕ) → HasBegun cutter.old begun → (was : Scene) → scene_of (known (D.page desk.old) (D.log desk.old) pointer.old) ≡ Some was
        → TakesFront (K.taken sink.old) (K.taken sink.new) (replies_from was (lines (whole_lines (begun ++ piece.now))))) }
    ensures failed { result ≡ Err SinkFault.Failed → Rose (K.faults sink.old) (K.faults sink.new) }
    ensures never_falls { K.faults sink.old ≤ K.faults sink.new }
{
    let mut replies = Vec::new(alloc);
    absorb(
        alloc,
        piece,
        desk,
        room,
        pointer,
        steps,
        cutter,
        &mut replies,
    )?;
    write_all(sink, &replies)
}

// Answers a last line, which has no newline and counts where it isn't empty.
fn answer_last<D: Desk, L: Ledger>(
    alloc: Global,
    cutter: &mut LineCutter,
    desk: &mut D,
    room: &mut Vec<u32>,
    pointer: &mut Pointer,
    steps: &mut Steps<L>,
    out: &mut Vec<u8>,
) -> Result<(), OutOfMemory>
    requires fits { cutter.old.count < 2 ^ 32 }
    requires spot { IsSpotted pointer.old }
    requires room { HasRoom (D.places desk.old) room.old.items }
    ensures spot { IsSpotted pointer.new }
    ensures log { Grows (D.log desk.old) (D.log desk.new) }
    ensures replies { OnOk result ((begun : List ℕ) → HasBegun cutter.old begun
        → Appends (Answers (lines begun) (known (D.page desk.old) (D.log desk.old) pointer.old) (known (D.page desk.new) (D.log desk.new) pointer.new)) out.old.items out.new.items) }
{
    if cutter.length() == 0 {
        return Ok(());
    }
    let cut = cutter.take(b'\n');
    answer_cut(alloc, cut, cutter, desk, room, pointer, steps, out)
}

/// Hands the reply to a last line, which has no newline, to the sink. Where that fails the sink has taken a front of it.
pub fn reply_to_last<K: Sink, D: Desk, L: Ledger>(
    alloc: Global,
    cutter: &mut LineCutter,
    sink: &mut K,
    desk: &mut D,
    room: &mut Vec<u32>,
    pointer: &mut Pointer,
    steps: &mut Steps<L>,
) -> Result<(), SinkFault>
    requires fits { cutter.old.count < 2 ^ 32 }
    requires spot { IsSpotted pointer.old }
    requires room { HasRoom (D.places desk.old) room.old.items }
    ensures spot { IsSpotted pointer.new }
    ensures log { Grows (D.log desk.old) (D.log desk.new) }
    ensures replied { OnOk result ((begun : List ℕ) → HasBegun cutter.old begun
        → Hands (Answers (lines begun) (known (D.page desk.old) (D.log desk.old) pointer.old) (known (D.page desk.new) (D.log desk.new) pointer.new)) (K.taken sink.old) (K.taken sink.new)) }
    ensures part { OnErr result ((begun : List ℕ) → HasBegun cutter.old begun → (was : Scene) → scene_of (known (D.page desk.old) (D.log desk.old) pointer.old) ≡ Some was
        → TakesFront (K.taken sink.old) (K.taken sink.new) (replies_from was (lines begun))) }
    ensures failed { result ≡ Err SinkFault.Failed → Rose (K.faults sink.old) (K.faults sink.new) }
    ensures never_falls { K.faults sink.old ≤ K.faults sink.new }
{
    let mut reply = Vec::new(alloc);
    answer_last(alloc, cutter, desk, room, pointer, steps, &mut reply)?;
    write_all(sink, &reply)
}
