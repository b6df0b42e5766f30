ghost use Rattle.std.specs.Prelude.{◌≡◌, ◌≢◌, ◌↔◌, min, Contains, ℕ, List, ◌++◌, ◌<◌, ◌≤◌, Option, Some, None, option_map, IfOk, OnErr, length, take};
ghost use Rattle.hit_script.specs.Ends.{Rose, TakesAll, count_up};

use crate::memory::OutOfMemory;
use std::io;

/// Why a write took nothing.
#[derive(Clone, Copy, Debug, PartialEq, Eq, Hash)]
pub enum SinkFault {
    /// The write failed.
    Failed,
    /// The sink found no memory for the bytes.
    OutOfMemory,
}

impl From<OutOfMemory> for SinkFault {
    ghost use Rattle.hit_script.specs.declared.sinks.SinkFault.TheVariants.{OutOfMemory as memory_wanting};

    ghost from_gives = { λ _ fault. fault ≡ memory_wanting };

    fn from(_error: OutOfMemory) -> SinkFault {
        SinkFault::OutOfMemory
    }
}

/// Where the replies go.
pub trait Sink {
    /// The bytes that were taken so far, where they are known.
    ghost taken: { Self → Option (List ℕ) };

    /// How many writes failed so far.
    ghost faults: { Self → ℕ };

    /// Takes some of the front of a piece, and answers how many bytes.
    fn write(&mut self, piece: &[u8]) -> Result<usize, SinkFault>
        ensures within { IfOk result (λ n. n ≤ length piece.now) }
        ensures some { 0 < length piece.now → IfOk result (λ n. 0 < n) }
        ensures taken { IfOk result (λ n. TakesAll (taken self.old) (taken self.new) (take n piece.now)) }
        ensures failed { result ≡ Err SinkFault.Failed → Rose (faults self.old) (faults self.new) }
        ensures unchanged { OnErr result (taken self.new ≡ taken self.old) }
        ensures never_falls { faults self.old ≤ faults self.new };
}

/// Takes bytes into memory, in pieces of at most `piece` bytes, with writes that fail by plan.
#[derive(Debug, Drop)]
pub struct Taken {
    pub bytes: Vec<u8>,
    /// The most bytes that one write takes.
    pub piece: usize,
    /// The numbers of the writes that fail, the first write having the number 1.
    pub failing: Vec<u64>,
    /// How many writes there were.
    pub calls: u64,
    /// How many of them failed.
    pub faults: u64,
    ghost some_piece: { 0 < piece },
}

/// A writer of std, of whose bytes nothing is known.
#[derive(Debug, Drop)]
pub struct StdSink<W> {
    pub to: W,
    /// How many writes failed.
    pub faults: u64,
}

impl Sink for Taken {
    ghost taken = { λ s. Some s.bytes.items };

    ghost faults = { λ s. s.faults };

    fn write(&mut self, piece: &[u8]) -> Result<usize, SinkFault>
        ensures within { IfOk result (λ n. n ≤ length piece.now) }
        ensures some { 0 < length piece.now → IfOk result (λ n. 0 < n) }
        ensures taken { IfOk result (λ n. self.new.bytes.items ≡ self.old.bytes.items ++ take n piece.now) }
        ensures failed { result ≡ Err SinkFault.Failed → Rose self.old.faults self.new.faults }
        ensures unchanged { OnErr result (self.new.bytes.items ≡ self.old.bytes.items) }
        ensures never_falls { self.old.faults ≤ self.new.faults }
        ensures as_planned { (result ≡ Err SinkFault.Failed) ↔ Contains self.old.failing.items (count_up self.old.calls) }
        ensures as_much { IfOk result (λ n. n ≡ min (length piece.now) self.old.piece) }
        ensures only_failures_count { result ≢ Err SinkFault.Failed → self.new.faults ≡ self.old.faults }
        ensures calls { self.new.calls ≡ count_up self.old.calls }
        ensures same_plan { (self.new.piece ≡ self.old.piece) × (self.new.failing ≡ self.old.failing) }
    {
        self.calls = self.calls.saturating_add(1);
        if self.failing.contains(&self.calls) {
            self.faults = self.faults.saturating_add(1);
            return Err(SinkFault::Failed);
        }
        let count = piece.len().min(self.piece);
        match self.bytes.extend_from_slice(&piece[..count]) {
            Ok(()) => Ok(count),
            Err(_) => Err(SinkFault::OutOfMemory),
        }
    }
}

impl<W: io::Write> Sink for StdSink<W> {
    ghost taken = { λ _. None };

    ghost faults = { λ s. s.faults };

    fn write(&mut self, piece: &[u8]) -> Result<usize, SinkFault> {
        if let Ok(count) = self.to.write(piece) {
            if count > 0 || piece.is_empty() {
                return Ok(count);
            }
        }
        self.faults = self.faults.saturating_add(1);
        Err(SinkFault::Failed)
    }
}
