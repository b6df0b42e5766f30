ghost use Rattle.std.specs.Prelude.{◌≡◌, ◌+◌, ◌<◌, ◌≤◌, [], ◌∷◌, length};

use std::marker::Model;

/// A way down through lists: the number of an entry in each list that it goes through, at most so many. It grows at
/// its front.
#[derive(Drop)]
pub struct Path<const MOST: usize> {
    numbers: [usize; MOST],
    start: usize,
}

impl<const MOST: usize> Model for Path<MOST> {
    ghost use Rattle.std.specs.Prelude.{ℕ, ◌≤◌, List, drop};

    ghost Value = { List ℕ };

    ghost view = { λ p. drop p.start p.numbers };

    ghost invariant = { λ p. p.start ≤ MOST };
}

impl<const MOST: usize> Path<MOST> {
    /// No number yet.
    pub fn new() -> Path<MOST>
        ensures { result ≡ [] }
    {
        Path {
            numbers: [0; MOST],
            start: MOST,
        }
    }

    /// The same way, with room for more numbers.
    pub fn with_room<const MORE: usize>(&self) -> Path<MORE>
        requires { MOST ≤ MORE }
        ensures { result ≡ self.now }
    {
        let whole = &self.numbers[..];
        let own = &whole[self.start..];
        let mut numbers = [0; MORE];
        let start = MORE - own.len();
        let room = &mut numbers[..];
        room[start..].copy_from_slice(own);
        Path { numbers, start }
    }

    /// Puts a number at the front, where there is room for it.
    pub fn push_front(&mut self, number: usize)
        requires { length self.old < MOST }
        ensures { self.new ≡ number ∷ self.old }
    {
        self.start -= 1;
        self.numbers[self.start] = number;
    }

    /// How many numbers there is room for.
    pub fn room(&self) -> usize
        ensures { result + length self.now ≡ MOST }
    {
        self.start
    }

    /// The numbers from the first list down.
    pub fn numbers(&self) -> &[usize]
        ensures { result.now ≡ self.now }
    {
        let whole = &self.numbers[..];
        &whole[self.start..]
    }
}
