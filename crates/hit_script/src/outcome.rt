ghost use Rattle.std.specs.Prelude.{◌≡◌};
ghost use Rattle.hit_script.specs.Outcome.{status_number};

/// How a run ended.
#[derive(Clone, Copy, Debug, PartialEq, Eq, Hash)]
pub enum Status {
    /// The input was read to its end, and every reply was written.
    Done,
    /// The words of the command line have no form that the program knows.
    Usage,
    /// The source failed.
    ReadFault,
    /// The sink failed.
    WriteFault,
    /// Memory was wanting.
    Memory,
    /// The input has 2^32 bytes or more.
    TooMuch,
}

impl Status {
    /// The number that the program ends with.
    pub fn number(&self) -> u8
        ensures { result ≡ status_number self.now }
    {
        match self {
            Status::Done => 0,
            Status::Usage => 2,
            Status::ReadFault => 4,
            Status::WriteFault => 5,
            Status::Memory => 6,
            Status::TooMuch => 7,
        }
    }
}
