// The room that is lent to a desk for its answers. It is as large as the page wants before anything is asked.
ghost use Rattle.std.specs.Prelude.{IfOk, OnOk};
ghost use Rattle.hit_script.specs.Room.{HasRoom};

use crate::memory::OutOfMemory;
use std::alloc::Global;

/// How many members the chain of an element has at most.
const CHAIN: usize = 256;

/// Room for the answers from a page of so many items.
pub(crate) fn room_for(alloc: Global, places: u32) -> Result<Vec<u32>, OutOfMemory>
    ensures { IfOk result (λ room. HasRoom places room.items) }
{
    Ok(vec![in alloc; 0; places as usize + CHAIN]?)
}

/// Lengthens the room where a page of so many items wants more.
pub(crate) fn lengthen(room: &mut Vec<u32>, places: u32) -> Result<(), OutOfMemory>
    ensures { OnOk result (HasRoom places room.new.items) }
{
    let wanted = places as usize + CHAIN;
    if room.len() < wanted {
        room.resize(wanted, 0)?;
    }
    Ok(())
}
