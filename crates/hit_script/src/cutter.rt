// The line that is begun, of which no more is kept than a line may have.
ghost use Rattle.std.specs.Prelude.{◌≡◌, ◌+◌, ◌^◌, ◌<◌, ◌≤◌, [], IfOk, length};
ghost use Rattle.hit_script.specs.Cutting.{counted, counted_on, cut_by, counted_behind, cutting};

use crate::memory::OutOfMemory;
use memchr::memchr;
use script_lines::LONGEST_LINE;
use std::alloc::Global;
use std::marker::Model;

/// What a byte makes of the line that is begun.
#[derive(Clone, Copy, Debug, PartialEq, Eq)]
pub enum Cut {
    /// The line goes on.
    More,
    /// The line ends here, and is kept whole.
    Whole,
    /// The line ends here, and has more than 1,048,576 bytes.
    Long,
}

/// Cuts the bytes of a script into lines.
///
/// It counts the bytes of the line that is begun and keeps the first 1,048,576 of them, for which it takes the room once,
/// when it is made. Contracts see what it has counted since it was cleared.
#[derive(Drop)]
pub struct LineCutter {
    line: Vec<u8>,
    count: u64,
}

impl Model for LineCutter {
    ghost use Rattle.std.specs.Prelude.{vec_len, vec_capacity};
    ghost use Rattle.hit_script.specs.Cutting.{Counted, IsKept};

    ghost Value = { Counted };

    ghost view = { λ c. record { front = c.line.items; count = c.count } };

    ghost invariant = { λ c. IsKept (vec_len c.line) (vec_capacity c.line) c.count };
}

impl LineCutter {
    /// A cutter that has counted no byte, with room for 1,048,576.
    #[tactic(auto, unfolding(crate::specs::Cutting::counted))]
    pub fn new(alloc: Global) -> Result<LineCutter, OutOfMemory>
        ensures { IfOk result (λ cutter. cutter ≡ counted []) }
    {
        Ok(LineCutter {
            line: Vec::with_capacity(alloc, LONGEST_LINE)?,
            count: 0,
        })
    }

    /// Takes a byte. One that isn't a newline is counted; a newline ends the line, and changes nothing.
    pub fn take(&mut self, byte: u8) -> Cut
        requires { self.old.count < 2 ^ 32 }
        ensures cut { result ≡ cut_by self.old byte }
        ensures counted { self.new ≡ counted_behind self.old byte }
    {
        if byte != b'\n' {
            self.count_all(&[byte]);
            return Cut::More;
        }
        if self.count <= LONGEST_LINE as u64 {
            Cut::Whole
        } else {
            Cut::Long
        }
    }

    /// Takes the bytes of a piece, one after another, up to and with its first newline. It answers how many they are, and
    /// what `take` answers to the last of them: `More` where the piece has no newline, and all of it was taken.
    pub fn take_piece(&mut self, piece: &[u8]) -> (usize, Cut)
        requires { self.old.count + length piece.now ≤ 2 ^ 32 }
        ensures taken { result.0 ≡ (cutting self.old piece.now).taken }
        ensures cut { result.1 ≡ (cutting self.old piece.now).cut }
        ensures counted { self.new ≡ (cutting self.old piece.now).behind }
    {
        let Some(newline) = memchr(b'\n', piece) else {
            self.count_all(piece);
            return (piece.len(), Cut::More);
        };
        self.count_all(&piece[..newline]);
        (newline + 1, self.take(b'\n'))
    }

    /// The bytes that were counted since the last clear, the first 1,048,576 of them where there are more.
    pub fn line(&self) -> &[u8]
        ensures { result.now ≡ self.now.front }
    {
        &self.line
    }

    /// How many bytes were counted since the last clear.
    pub fn length(&self) -> u64
        ensures { result ≡ self.now.count }
    {
        self.count
    }

    /// Forgets what was counted.
    #[tactic(auto, unfolding(crate::specs::Cutting::counted))]
    pub fn clear(&mut self)
        ensures { self.new ≡ counted [] }
    {
        self.line.clear();
        self.count = 0;
    }

    // Counts bytes behind the line that is begun, and keeps those for which a line has room.
    fn count_all(&mut self, bytes: &[u8])
        requires { self.old.count + length bytes.now ≤ 2 ^ 32 }
        ensures counted { self.new ≡ counted_on self.old bytes.now }
        ensures kept { length self.old.front ≤ 2 ^ 20 }
    {
        let room = LONGEST_LINE - self.line.len();
        let kept = bytes.len().min(room);
        // The room was taken when the cutter was made, so nothing is asked for here.
        let _ = self.line.extend_from_slice(&bytes[..kept]);
        self.count += bytes.len() as u64;
    }
}
