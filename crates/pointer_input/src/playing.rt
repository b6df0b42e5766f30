ghost use Rattle.std.specs.Prelude.{◌≡◌, ◌↔◌, ◌∷◌, [], ◌++◌, All, IsTrue, IfOk, OnOk};
ghost use Rattle.std.specs.Option.{option_to_list};
ghost use Rattle.pointer_input.specs.State.{start};
ghost use Rattle.pointer_input.specs.Inputs.{IsAllowed, as_events, as_presses, answer_to, step, played};

use crate::buttons::Buttons;
use crate::input::{Input, Output};
use crate::press::Press;
use mouse_events::{Event, OutOfMemory};
use std::alloc::{AllocError, Global};

/// Whether each input may be asked: what `play` requires.
pub fn are_allowed(inputs: &[Input]) -> bool
    ensures { IsTrue result ↔ All IsAllowed inputs.now }
{
    inputs.iter().all(|input| input.is_allowed())
}

/// Puts a list of inputs in order to a new pointer with buttons, and answers all that they are answered
/// with. In each input the chains have at most 256 members, and the button is from 0 to 4.
pub fn play(alloc: Global, inputs: &[Input]) -> Result<Vec<Output>, OutOfMemory>
    requires { All IsAllowed inputs.now }
    ensures { IfOk result (λ outputs. outputs.items ≡ played start inputs.now) }
{
    let mut buttons = Buttons::new(alloc)?;
    let mut outputs = Vec::new(alloc);
    for input in inputs {
        answer(&mut buttons, input, &mut outputs)?;
    }
    Ok(outputs)
}

/// One input: appends what it is answered with.
fn answer(buttons: &mut Buttons, input: &Input, outputs: &mut Vec<Output>) -> Result<(), AllocError>
    requires { IsAllowed input.now }
    ensures outputs { OnOk result (outputs.new.items ≡ outputs.old.items ++ answer_to buttons.old input.now) }
    ensures state { OnOk result (buttons.new ≡ step buttons.old input.now) }
{
    match input {
        Input::Turn {
            under,
            holding,
            gone,
            moved,
        } => push_events(
            outputs,
            buttons.turn(
                under.as_slice(),
                holding.as_slice(),
                gone.as_slice(),
                *moved,
            ),
        ),
        Input::Down { button } => push_press(outputs, buttons.down(*button)),
        Input::Up { button } => push_presses(outputs, buttons.up(*button)),
        Input::Capture { id } => push_held(outputs, buttons.capture(*id)),
    }
}

/// Appends the events of a turn.
fn push_events(outputs: &mut Vec<Output>, events: &[Event]) -> Result<(), AllocError>
    ensures { OnOk result (outputs.new.items ≡ outputs.old.items ++ as_events events.now) }
{
    for &event in events {
        outputs.push(Output::Event { event })?;
    }
    Ok(())
}

/// Appends presses.
fn push_presses(outputs: &mut Vec<Output>, presses: &[Press]) -> Result<(), AllocError>
    ensures { OnOk result (outputs.new.items ≡ outputs.old.items ++ as_presses presses.now) }
{
    for &press in presses {
        outputs.push(Output::Press { press })?;
    }
    Ok(())
}

/// Appends a press, where there is one.
fn push_press(outputs: &mut Vec<Output>, press: Option<Press>) -> Result<(), AllocError>
    ensures { OnOk result (outputs.new.items ≡ outputs.old.items ++ as_presses (option_to_list press)) }
{
    if let Some(press) = press {
        outputs.push(Output::Press { press })?;
    }
    Ok(())
}

/// Appends whether an element took hold.
fn push_held(outputs: &mut Vec<Output>, held: bool) -> Result<(), AllocError>
    ensures { OnOk result (outputs.new.items ≡ outputs.old.items ++ Output.Captured held ∷ []) }
{
    outputs.push(Output::Captured { held })?;
    Ok(())
}
