ghost use Rattle.std.specs.Prelude.{◌≡◌, ◌++◌, ◌∷◌, ◌≤◌, [], ℕ, IfOk, if◌then◌else◌};
ghost use Rattle.box_tree.specs.Planned.{is_among, times_in};

use crate::memory::OutOfMemory;
use std::alloc::Global;
use std::collections::BTreeSet;

// Each id at its first place only. It takes memory for the answer and for those seen.
pub(crate) fn each_once(alloc: Global, ids: &[u32]) -> Result<Vec<u32>, OutOfMemory>
    ensures same { IfOk result (λ once. (id : ℕ) → is_among once.items id ≡ is_among ids.now id) }
    ensures once { IfOk result (λ once. (id : ℕ) → times_in id once.items ≤ 1) }
{
    let mut once = Vec::new(alloc);
    let mut seen = BTreeSet::new(alloc);
    for id in ids {
        let is_new = seen.insert(*id)?;
        push_if(&mut once, *id, is_new)?;
    }
    Ok(once)
}

// Appends the id where that is wanted.
fn push_if(ids: &mut Vec<u32>, id: u32, is_wanted: bool) -> Result<(), OutOfMemory>
    ensures { IfOk result (λ _. ids.new.items ≡ ids.old.items ++ (if is_wanted then id ∷ [] else [])) }
{
    if is_wanted {
        ids.push(id)?;
    }
    Ok(())
}
