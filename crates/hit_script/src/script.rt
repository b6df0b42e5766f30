// The loop over the pieces of a script, and the top call.
ghost use Rattle.std.specs.Prelude.{◌≡◌, ◌≢◌, ◌↔◌, ◌⊎◌, ℕ, List, [], ◌++◌, ◌+◌, ◌<◌, ◌≤◌, ◌^◌, Option, Some, IfSome, IsSome, IsSomeAnd, None, length, drop, map};
ghost use Rattle.std.specs.String.{string_bytes};
ghost use Rattle.hit_script.specs.Cutting.{counted};
ghost use Rattle.hit_script.specs.Ending.{Ends, Moment};
ghost use Rattle.hit_script.specs.Ends.{ReadsAtMost, Rose, TakesAll, TakesFront};
ghost use Rattle.hit_script.specs.Lines.{whole_lines};
ghost use Rattle.hit_script.specs.Load.{counted_summary, load_summary, page_after_load};
ghost use Rattle.hit_script.specs.Outcome.{fault_status};
ghost use Rattle.hit_script.specs.Log.{Entry, Grows, scripted_replies};
ghost use Rattle.hit_script.specs.Room.{HasRoom};
ghost use Rattle.hit_script.specs.Script.{first_page, first_pointer, page_after, replies};
ghost use Rattle.hit_script.specs.Tallied.{EndsLoad};
ghost use Rattle.hit_script.specs.Words.{words_ask};

use crate::cutter::LineCutter;
use crate::desks::Desk;
use crate::load::sum_up;
use crate::outcome::Status;
use crate::room::room_for;
use crate::sinks::{Sink, SinkFault};
use crate::sources::Source;
use crate::transfer::read_piece;
use crate::turns::{reply_to, reply_to_last};
use crate::words::{Task, is_read_as, task_of};
use fractions::{Ledger, Steps};
use mouse_events::Pointer;
use std::alloc::Global;

/// The most bytes that one read asks for.
const PIECE: usize = 1 << 16;

/// The most bytes that are read in all.
const MOST: u64 = 1 << 32;

// How many bytes to ask for after so many.
fn room_after(read: u64) -> usize
    requires { read < 2 ^ 32 }
    ensures some { 0 < result }
    ensures piece { result ≤ 2 ^ 16 }
    ensures most { read + result ≤ 2 ^ 32 }
{
    (MOST - read).min(PIECE as u64) as usize
}

// The status of a run whose sink failed, or wanted memory.
fn status_of(fault: SinkFault) -> Status
    ensures { result ≡ fault_status fault }
{
    match fault {
        SinkFault::Failed => Status::WriteFault,
        SinkFault::OutOfMemory => Status::Memory,
    }
}

// A run without words.
#[tactic(none)]
fn play<S: Source, K: Sink, D: Desk, L: Ledger>(
    alloc: Global,
    source: &mut S,
    sink: &mut K,
    desk: &mut D,
    steps: &mut Steps<L>,
) -> Status
    ensures { Ends result
        (record { left = S.left source.old; taken = K.taken sink.old; page = D.page desk.old; log = D.log desk.old; read_faults = S.faults source.old; write_faults = K.faults sink.old })
        (record { left = S.left source.new; taken = K.taken sink.new; page = D.page desk.new; log = D.log desk.new; read_faults = S.faults source.new; write_faults = K.faults sink.new }) }
{
    let Ok(mut piece) = vec![in alloc; 0u8; PIECE] else {
        return Status::Memory;
    };
    let Ok(mut cutter) = LineCutter::new(alloc) else {
        return Status::Memory;
    };
    let Ok(mut pointer) = Pointer::new(alloc) else {
        return Status::Memory;
    };
    let Ok(mut room) = room_for(alloc, desk.places()) else {
        return Status::Memory;
    };
    play_pieces(
        alloc,
        source,
        &mut piece,
        &mut cutter,
        sink,
        desk,
        &mut room,
        &mut pointer,
        steps,
    )
}

// The same, with room for a piece, and with a cutter and a pointer that are new.
#[tactic(none)]
fn play_pieces<S: Source, K: Sink, D: Desk, L: Ledger>(
    alloc: Global,
    source: &mut S,
    piece: &mut [u8],
    cutter: &mut LineCutter,
    sink: &mut K,
    desk: &mut D,
    room: &mut Vec<u32>,
    pointer: &mut Pointer,
    steps: &mut Steps<L>,
) -> Status
    requires piece { length piece.old ≡ 2 ^ 16 }
    requires cutter { cutter.old ≡ counted [] }
    requires room { HasRoom (D.places desk.old) room.old.items }
    requires pointer { pointer.old ≡ first_pointer }
    ensures { Ends result
        (record { left = S.left source.old; taken = K.taken sink.old; page = D.page desk.old; log = D.log desk.old; read_faults = S.faults source.old; write_faults = K.faults sink.old })
        (record { left = S.left source.new; taken = K.taken sink.new; page = D.page desk.new; log = D.log desk.new; read_faults = S.faults source.new; write_faults = K.faults sink.new }) }
{
    let mut read = 0;
    'pieces: loop {
        let Ok(count) = read_piece(source, piece, room_after(read)) else {
            return Status::ReadFault;
        };
        if count == 0 {
            break;
        }
        read += count as u64;
        if read == MOST {
            return Status::TooMuch;
        }
        let replied = reply_to(
            alloc,
            &piece[..count],
            sink,
            desk,
            room,
            pointer,
            steps,
            cutter,
        );
        if let Err(fault) = replied {
            return status_of(fault);
        }
    }
    match reply_to_last(alloc, cutter, sink, desk, room, pointer, steps) {
        Ok(()) => Status::Done,
        Err(fault) => status_of(fault),
    }
}

// A run with the words of a load.
fn play_load<K: Sink, D: Desk, L: Ledger>(
    alloc: Global,
    words: &[String],
    count: u32,
    sink: &mut K,
    desk: &mut D,
    steps: &mut Steps<L>,
) -> Status
    requires { count ≤ 20000 }
    ensures { EndsLoad result count (D.page desk.old) (D.page desk.new) (D.log desk.old) (D.log desk.new) (K.taken sink.old) (K.taken sink.new) (K.faults sink.old) (K.faults sink.new) }
{
    if !is_read_as(alloc, words, count) {
        return Status::Memory;
    }
    let Ok(mut room) = room_for(alloc, desk.places()) else {
        return Status::Memory;
    };
    match sum_up(alloc, count, sink, desk, &mut room, steps) {
        Ok(()) => Status::Done,
        Err(fault) => status_of(fault),
    }
}

/// Runs a script on the desk: each line that isn't blank gets one reply line. The script comes in pieces of at most 65,536
/// bytes, fewer than 2^32 in all, and the replies to the lines that are whole are written before each further read.
///
/// `words` are those after the program's name: none; or `--load N` or `--load=N` for a number from 1 to 20,000, which reads
/// nothing, does the load of N blocks on the desk and writes its summary alone. Any other words are a usage fault. Units are
/// 1/64 px, and the page begins with a viewport of 81,920 by 46,080.
#[tactic(none)]
pub fn run<S: Source, K: Sink, D: Desk, L: Ledger>(
    alloc: Global,
    words: &[String],
    source: &mut S,
    sink: &mut K,
    desk: &mut D,
    steps: &mut Steps<L>,
) -> Status
    // Where the desk tells its page, it is the first one.
    requires { IfSome (D.page desk.old) (λ page. page ≡ first_page) }

    // The headline: for every script, with Done the sink has taken the replies to it, and nothing is left of it.
    ensures headline { result ≡ Status.Done → words.now ≡ [] → (script : List ℕ) → S.left source.old ≡ Some script → IsSome (D.page desk.old)
        → TakesAll (K.taken sink.old) (K.taken sink.new) (replies script) }
    ensures to_the_end { result ≡ Status.Done → words.now ≡ [] → (script : List ℕ) → S.left source.old ≡ Some script → S.left source.new ≡ Some [] }

    // However it ends, at most 2^32 bytes were read.
    ensures most { ReadsAtMost (2 ^ 32) (S.left source.old) (S.left source.new) }

    // However it ends, the sink has taken a front of the same replies.
    ensures front { words.now ≡ [] → (script : List ℕ) → S.left source.old ≡ Some script → IsSome (D.page desk.old)
        → TakesFront (K.taken sink.old) (K.taken sink.new) (replies script) }

    // With ReadFault they are just the replies to the whole lines of the bytes that were read.
    ensures whole { result ≡ Status.ReadFault → (read rest : List ℕ) → S.left source.old ≡ Some (read ++ rest) → S.left source.new ≡ Some rest → IsSome (D.page desk.old)
        → TakesAll (K.taken sink.old) (K.taken sink.new) (replies (whole_lines read)) }

    // The desk's page is then the page after the lines that were answered.
    ensures page { result ≡ Status.Done → words.now ≡ [] → (script : List ℕ) → S.left source.old ≡ Some script → IsSome (D.page desk.old)
        → D.page desk.new ≡ Some (page_after script) }
    ensures page_at_fault { result ≡ Status.ReadFault → (read rest : List ℕ) → S.left source.old ≡ Some (read ++ rest) → S.left source.new ≡ Some rest → IsSome (D.page desk.old)
        → D.page desk.new ≡ Some (page_after (whole_lines read)) }

    // Each answer is the one that the desk gave to that line: its log, where it is told, goes on, and with Done the sink has
    // taken the replies that the entries make.
    ensures log_grows { Grows (D.log desk.old) (D.log desk.new) }
    ensures scripted { result ≡ Status.Done → words.now ≡ [] → (script : List ℕ) (before entries : List Entry) → S.left source.old ≡ Some script
        → D.log desk.old ≡ Some before → D.log desk.new ≡ Some (before ++ entries)
        → IsSomeAnd (scripted_replies script entries) (TakesAll (K.taken sink.old) (K.taken sink.new)) }

    // With the words of a load the sink takes its summary, or a front of it; the source stays as it is; the page is the one
    // behind the load; and the summary is counted from the answers that the desk gave to the lines of the load.
    ensures load { result ≡ Status.Done → (count : ℕ) → words_ask (map string_bytes words.now) ≡ Some (Task.Load count) → IsSome (D.page desk.old)
        → TakesAll (K.taken sink.old) (K.taken sink.new) (load_summary count) }
    ensures load_front { (count : ℕ) → words_ask (map string_bytes words.now) ≡ Some (Task.Load count) → IsSome (D.page desk.old)
        → TakesFront (K.taken sink.old) (K.taken sink.new) (load_summary count) }
    ensures load_source { (count : ℕ) → words_ask (map string_bytes words.now) ≡ Some (Task.Load count) → source.new ≡ source.old }
    ensures load_page { result ≡ Status.Done → (count : ℕ) → words_ask (map string_bytes words.now) ≡ Some (Task.Load count) → IsSome (D.page desk.old)
        → D.page desk.new ≡ Some (page_after_load count) }
    ensures load_counted { result ≡ Status.Done → (count : ℕ) → words_ask (map string_bytes words.now) ≡ Some (Task.Load count) → (before entries : List Entry)
        → D.log desk.old ≡ Some before → D.log desk.new ≡ Some (before ++ entries)
        → IsSomeAnd (counted_summary count entries) (TakesAll (K.taken sink.old) (K.taken sink.new)) }
    ensures load_cause { (count : ℕ) → words_ask (map string_bytes words.now) ≡ Some (Task.Load count)
        → (result ≡ Status.Done) ⊎ ((result ≡ Status.Memory) ⊎ ((result ≡ Status.WriteFault) × Rose (K.faults sink.old) (K.faults sink.new))) }

    // The causes.
    ensures usage { (result ≡ Status.Usage) ↔ (words_ask (map string_bytes words.now) ≡ None) }
    ensures untouched { result ≡ Status.Usage → (source.new ≡ source.old) × (sink.new ≡ sink.old) × (desk.new ≡ desk.old) × (steps.new ≡ steps.old) }
    ensures read_fault { result ≡ Status.ReadFault → Rose (S.faults source.old) (S.faults source.new) }
    ensures write_fault { result ≡ Status.WriteFault → Rose (K.faults sink.old) (K.faults sink.new) }
    ensures too_much { result ≡ Status.TooMuch → (script : List ℕ) → S.left source.old ≡ Some script
        → (2 ^ 32 ≤ length script) × (S.left source.new ≡ Some (drop (2 ^ 32) script)) }
    ensures too_much_always { words.now ≡ [] → (script : List ℕ) → S.left source.old ≡ Some script
        → 2 ^ 32 ≤ length script → S.left source.new ≡ Some (drop (2 ^ 32) script) → result ≡ Status.TooMuch }

    // Completeness: where no count rose and the input is short enough, only memory can be wanting.
    ensures complete { words.now ≡ [] → ¬ Rose (S.faults source.old) (S.faults source.new) → ¬ Rose (K.faults sink.old) (K.faults sink.new)
        → (script : List ℕ) → S.left source.old ≡ Some script → length script < 2 ^ 32 → (result ≡ Status.Done) ⊎ (result ≡ Status.Memory) }
{
    match task_of(words) {
        None => Status::Usage,
        Some(Task::Script) => play(alloc, source, sink, desk, steps),
        Some(Task::Load(count)) => play_load(alloc, words, count, sink, desk, steps),
    }
}
