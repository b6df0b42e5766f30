// Laws of the definitions, each the contract of a function without a body.
ghost use Rattle.mouse_events.specs.Turns.{Turn, AreSettled, CrossingsAreBalanced};
ghost use Rattle.std.specs.Prelude.{ℕ, List, []};

/// Over any list of turns in which no element goes from the page, each chain has distinct members and
/// successive chains with the same target are the same chain: for each element enters and leaves take
/// turns, and it is entered and not yet left exactly while it is in the kept chain.
///
/// Where a target's chain changes under it, as after a move in the tree, the rules make no enter and no
/// leave.
pub fn enters_and_leaves_take_turns()
    ensures { (x : ℕ) (turns : List Turn) → AreSettled [] turns → CrossingsAreBalanced x turns }
{}
