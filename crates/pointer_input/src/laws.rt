// Laws of the definitions, each the contract of a function without a body.
ghost use Rattle.std.specs.Prelude.{ℕ, List};
ghost use Rattle.pointer_input.specs.declared.input.Input.{Input};
ghost use Rattle.pointer_input.specs.State.{start};
ghost use Rattle.pointer_input.specs.Clicks.{ClicksNearest};
ghost use Rattle.pointer_input.specs.Runs.{state_after, IsFreeWithoutButton};

/// A click goes to the nearest common ancestor: where a press chain and the chain kept at the release begin
/// with the same ancestors, and no further member of the latter is in the former, the last of these
/// ancestors is clicked, and nothing where there are none. UI Events, "click".
pub fn a_click_goes_to_the_nearest_common_ancestor()
    ensures { (ancestors pressed released : List ℕ) → ClicksNearest ancestors pressed released }
{}

/// After any list of inputs no element holds the pointer unless a button is down. Pointer Events, "Implicit
/// release of pointer capture".
pub fn a_holder_needs_a_button()
    ensures { (inputs : List Input) → IsFreeWithoutButton (state_after start inputs) }
{}
