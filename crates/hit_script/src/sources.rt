ghost use Rattle.std.specs.Prelude.{◌≡◌, ℕ, List, [], ◌++◌, ◌+◌, ◌-◌, ◌<◌, ◌≤◌, ◌↔◌, Option, Some, None, option_map, IfSome, IfOk, OnErr, length, take, drop, min, vec_len, Contains, IsErr};
ghost use Rattle.hit_script.specs.Ends.{Rose, Read, count_up};

use std::io;

/// A read that failed.
#[derive(Clone, Copy, Debug, PartialEq, Eq, Hash)]
pub struct Failed;

/// Where the bytes of a script come from.
pub trait Source {
    /// The bytes that are still to come, where they are known.
    ghost left: { Self → Option (List ℕ) };

    /// How many reads failed so far.
    ghost faults: { Self → ℕ };

    /// Reads at most as many bytes as `into` holds to its front, and answers how many.
    fn read(&mut self, into: &mut [u8]) -> Result<usize, Failed>
        ensures within { IfOk result (λ n. n ≤ length into.old) }

        // The bytes read are the front of what was left, and are taken off.
        ensures read { IfOk result (λ n. Read (left self.old) (take n into.new) (left self.new)) }
        ensures end { result ≡ Ok 0 → 0 < length into.old → IfSome (left self.new) (λ rest. rest ≡ []) }
        ensures failed { OnErr result (Rose (faults self.old) (faults self.new)) }
        ensures unchanged { OnErr result (left self.new ≡ left self.old) }
        ensures never_falls { faults self.old ≤ faults self.new };
}

/// Bytes in memory, in pieces of at most `piece` bytes, with reads that fail by plan.
#[derive(Debug, Drop)]
pub struct Bytes {
    pub bytes: Vec<u8>,
    /// How many bytes were read.
    pub at: usize,
    /// The most bytes that one read gives.
    pub piece: usize,
    /// The numbers of the reads that fail, the first read having the number 1.
    pub failing: Vec<u64>,
    /// How many reads there were.
    pub calls: u64,
    /// How many of them failed.
    pub faults: u64,
    ghost within: { at ≤ vec_len bytes },
    ghost some_piece: { 0 < piece },
}

/// Bytes in memory whose reads never fail.
#[derive(Debug, Drop)]
pub struct Calm {
    pub bytes: Vec<u8>,
    /// How many bytes were read.
    pub at: usize,
    ghost within: { at ≤ vec_len bytes },
}

/// A reader of std, of whose bytes nothing is known.
#[derive(Debug, Drop)]
pub struct StdSource<R> {
    pub from: R,
    /// How many reads failed.
    pub faults: u64,
}

// Copies to the front of `into` as many of the bytes from a place on as `limit` and `into` allow.
fn copy_from(bytes: &[u8], at: usize, limit: usize, into: &mut [u8]) -> usize
    requires { at ≤ length bytes.now }
    ensures count { result ≡ min (min (length bytes.now - at) limit) (length into.old) }
    ensures copied { drop at bytes.now ≡ take result into.new ++ drop (at + result) bytes.now }
{
    let count = (bytes.len() - at).min(limit).min(into.len());
    into[..count].copy_from_slice(&bytes[at..at + count]);
    count
}

impl Source for Bytes {
    ghost left = { λ s. Some (drop s.at s.bytes.items) };

    ghost faults = { λ s. s.faults };

    fn read(&mut self, into: &mut [u8]) -> Result<usize, Failed>
        ensures within { IfOk result (λ n. n ≤ length into.old) }
        ensures read { IfOk result (λ n. drop self.old.at self.old.bytes.items ≡ take n into.new ++ drop self.new.at self.new.bytes.items) }
        ensures end { result ≡ Ok 0 → 0 < length into.old → drop self.new.at self.new.bytes.items ≡ [] }
        ensures failed { OnErr result (Rose self.old.faults self.new.faults) }
        ensures unchanged { OnErr result (self.new.at ≡ self.old.at) }
        ensures never_falls { self.old.faults ≤ self.new.faults }
        ensures as_planned { IsErr result ↔ Contains self.old.failing.items (count_up self.old.calls) }
        ensures only_failures_count { IfOk result (λ _. self.new.faults ≡ self.old.faults) }
        ensures as_much { IfOk result (λ n. n ≡ min (min (vec_len self.old.bytes - self.old.at) self.old.piece) (length into.old)) }
        ensures calls { self.new.calls ≡ count_up self.old.calls }
        ensures same_plan { (self.new.bytes ≡ self.old.bytes) × (self.new.piece ≡ self.old.piece) × (self.new.failing ≡ self.old.failing) }
    {
        self.calls = self.calls.saturating_add(1);
        if self.failing.contains(&self.calls) {
            self.faults = self.faults.saturating_add(1);
            return Err(Failed);
        }
        let count = copy_from(&self.bytes, self.at, self.piece, into);
        self.at += count;
        Ok(count)
    }
}

impl Source for Calm {
    ghost left = { λ s. Some (drop s.at s.bytes.items) };

    ghost faults = { λ _. 0 };

    fn read(&mut self, into: &mut [u8]) -> Result<usize, Failed> {
        let count = copy_from(&self.bytes, self.at, into.len(), into);
        self.at += count;
        Ok(count)
    }
}

impl<R: io::Read> Source for StdSource<R> {
    ghost left = { λ _. None };

    ghost faults = { λ s. s.faults };

    fn read(&mut self, into: &mut [u8]) -> Result<usize, Failed> {
        match self.from.read(into) {
            Ok(count) => Ok(count),
            Err(_) => {
                self.faults = self.faults.saturating_add(1);
                Err(Failed)
            }
        }
    }
}
