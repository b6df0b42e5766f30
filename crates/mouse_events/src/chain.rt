ghost use Rattle.std.specs.Prelude.{◌≡◌, ◌≤◌, length, vec_capacity};

/// How many members a chain has at most.
pub const LONGEST_CHAIN: usize = 256;

/// Puts a chain in place of the kept one, for which there is room. It takes no memory.
pub fn keep_chain(kept: &mut Vec<u32>, chain: &[u32])
    requires { length chain.now ≤ vec_capacity kept.old }
    ensures items { kept.new.items ≡ chain.now }
    ensures capacity { vec_capacity kept.new ≡ vec_capacity kept.old }
{
    kept.clear();
    for &member in chain {
        kept.push_reserved(member);
    }
}
