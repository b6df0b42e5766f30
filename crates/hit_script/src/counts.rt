// What the replies to a load come to.
ghost use Rattle.std.specs.Prelude.{◌≡◌, ◌≢◌, ◌+◌, Err, IfOk, OnOk, length, sum};
ghost use Rattle.hit_script.specs.Load.{counted_answer, counted_both, counted_members, nothing_counted};

use crate::memory::OutOfMemory;
use box_tree::{Done, EditFault};

/// How many nodes were made, how many ids stand in the replies to hits, and what these ids add up to.
#[derive(Clone, Copy, Debug, PartialEq, Eq)]
pub struct Counts {
    pub nodes: u64,
    pub listed: u64,
    pub sum: u64,
}

// Two counts in one. A count that 64 bits don't hold is one of more than memory holds.
fn both(one: u64, other: u64) -> Result<u64, OutOfMemory>
    ensures { IfOk result (λ n. n ≡ one + other) }
{
    one.checked_add(other).ok_or(OutOfMemory)
}

fn sum_of(ids: &[u32]) -> Result<u64, OutOfMemory>
    ensures { IfOk result (λ n. n ≡ sum ids.now) }
{
    let mut total = 0;
    for id in ids {
        total = both(total, u64::from(*id))?;
    }
    Ok(total)
}

impl Counts {
    pub fn nothing() -> Counts
        ensures { result ≡ nothing_counted }
    {
        Counts {
            nodes: 0,
            listed: 0,
            sum: 0,
        }
    }

    /// Counts what an edit was answered with: a node where it made one.
    pub fn count_answer(&mut self, answer: Result<Done, EditFault>) -> Result<(), OutOfMemory>
        ensures memory { OnOk result (answer ≢ Err EditFault.OutOfMemory) }
        ensures counted { OnOk result (self.new ≡ counted_both self.old (counted_answer answer)) }
    {
        match answer {
            Ok(Done::Node { .. }) => self.nodes = both(self.nodes, 1)?,
            Err(EditFault::OutOfMemory) => return Err(OutOfMemory),
            _ => {}
        }
        Ok(())
    }

    /// Counts the elements under a point.
    pub fn count_members(&mut self, ids: &[u32]) -> Result<(), OutOfMemory>
        ensures { OnOk result (self.new ≡ counted_both self.old (counted_members ids.now)) }
    {
        self.listed = both(self.listed, ids.len() as u64)?;
        self.sum = both(self.sum, sum_of(ids)?)?;
        Ok(())
    }
}
