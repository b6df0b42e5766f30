ghost use Rattle.std.specs.Prelude.{◌≡◌};
ghost use Rattle.pointer_input.specs.Capture.{holds_on, chain_of_turn, holder_after};

/// Whether the holder holds on: its chain leads to it.
fn holds_on(holder: Option<u32>, holding: &[u32]) -> bool
    ensures { result ≡ holds_on holder holding.now }
{
    holder.is_some() && holder == holding.last().copied()
}

/// The chain of a turn: the holder's, while it holds on, and else that of the element under the pointer.
pub fn chain_of_turn<'a>(holder: Option<u32>, under: &'a [u32], holding: &'a [u32]) -> &'a [u32]
    ensures { result.now ≡ chain_of_turn holder under.now holding.now }
{
    if holds_on(holder, holding) {
        holding
    } else {
        under
    }
}

/// The holder, while it holds on.
pub fn holder_after(holder: Option<u32>, holding: &[u32]) -> Option<u32>
    ensures { result ≡ holder_after holder holding.now }
{
    if holds_on(holder, holding) {
        holder
    } else {
        None
    }
}
