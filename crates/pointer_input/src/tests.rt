use crate::PressKind::{Click, Down, Up};
use crate::{Buttons, Ids, Input, Output, Press, PressKind, are_allowed, play};
use mouse_events::EventKind::{Enter, Leave, Move, Out, Over};
use mouse_events::{Event, EventKind};
use std::alloc::{AllocError, Global};
use std::process::Abort;
use std::test::Fail;

fn event(kind: EventKind, target: u32, related: Option<u32>) -> Event {
    Event {
        kind,
        target,
        related,
    }
}

fn press(kind: PressKind, target: u32, button: u8) -> Press {
    Press {
        kind,
        target,
        button,
    }
}

/// Turns with the holder's chain and the elements that are gone, and compares the events and the holder.
fn turns(
    rt: &impl Abort,
    buttons: &mut Buttons,
    (under, holding, gone): (&[u32], &[u32], &[u32]),
    moved: bool,
    events: &[Event],
    holder: Option<u32>,
) {
    assert!(rt; under.len() <= 256);
    assert!(rt; holding.len() <= 256);
    assert_eq!(rt; buttons.turn(under, holding, gone, moved), events);
    assert_eq!(rt; buttons.captured(), holder);
}

/// Moves the pointer over a chain while nobody holds it, and compares the kept chain alone.
fn goes_to(rt: &impl Abort, buttons: &mut Buttons, under: &[u32]) {
    assert!(rt; under.len() <= 256);
    let _ = buttons.turn(under, &[], &[], true);
    assert_eq!(rt; buttons.chain(), under);
}

fn goes_down(rt: &impl Abort, buttons: &mut Buttons, button: u8, target: Option<u32>) {
    assert!(rt; button < 5);
    let down = target.map(|target| press(Down, target, button));
    assert_eq!(rt; buttons.down(button), down);
}

fn goes_up(rt: &impl Abort, buttons: &mut Buttons, button: u8, told: &[Press]) {
    assert!(rt; button < 5);
    assert_eq!(rt; buttons.up(button), told);
}

/// A page of a root 1 with the children 2 and 4, and 3 in 2: a drag from 3 to 4 clicks the root, and so does
/// a press on 4, which then goes from the page.
#[test]
fn a_drag_and_a_removal(rt: HostRuntime) -> Result<(), Fail> {
    let mut buttons = Buttons::new(rt.alloc())?;
    assert_eq!(rt; buttons.chain().len(), 0);
    let into_3 = [
        event(Over, 3, None),
        event(Enter, 1, None),
        event(Enter, 2, None),
        event(Enter, 3, None),
        event(Move, 3, None),
    ];
    turns(
        &rt,
        &mut buttons,
        (&[1, 2, 3], &[], &[]),
        true,
        &into_3,
        None,
    );
    goes_down(&rt, &mut buttons, 0, Some(3));
    let over_to_4 = [
        event(Out, 3, Some(4)),
        event(Leave, 3, Some(4)),
        event(Leave, 2, Some(4)),
        event(Over, 4, Some(3)),
        event(Enter, 4, Some(3)),
        event(Move, 4, None),
    ];
    turns(
        &rt,
        &mut buttons,
        (&[1, 4], &[], &[]),
        true,
        &over_to_4,
        None,
    );
    goes_up(&rt, &mut buttons, 0, &[press(Up, 4, 0), press(Click, 1, 0)]);
    goes_down(&rt, &mut buttons, 0, Some(4));
    let without_4 = [event(Over, 1, None)];
    turns(
        &rt,
        &mut buttons,
        (&[1], &[], &[4]),
        false,
        &without_4,
        None,
    );
    goes_up(&rt, &mut buttons, 0, &[press(Up, 1, 0), press(Click, 1, 0)]);
    goes_up(&rt, &mut buttons, 0, &[]);
    Ok(())
}

/// On the same page 3 holds the pointer over 4, until the button goes up.
#[test]
fn a_capture(rt: HostRuntime) -> Result<(), Fail> {
    let mut buttons = Buttons::new(rt.alloc())?;
    assert!(rt; !buttons.capture(3));
    assert_eq!(rt; buttons.captured(), None);
    goes_to(&rt, &mut buttons, &[1, 2, 3]);
    goes_down(&rt, &mut buttons, 0, Some(3));
    assert!(rt; buttons.capture(3));
    turns(
        &rt,
        &mut buttons,
        (&[1, 4], &[1, 2, 3], &[]),
        true,
        &[event(Move, 3, None)],
        Some(3),
    );
    assert_eq!(rt; buttons.chain(), [1, 2, 3].as_slice());
    goes_up(&rt, &mut buttons, 0, &[press(Up, 3, 0), press(Click, 3, 0)]);
    assert_eq!(rt; buttons.captured(), None);
    let over_to_4 = [
        event(Out, 3, Some(4)),
        event(Leave, 3, Some(4)),
        event(Leave, 2, Some(4)),
        event(Over, 4, Some(3)),
        event(Enter, 4, Some(3)),
        event(Move, 4, None),
    ];
    turns(
        &rt,
        &mut buttons,
        (&[1, 4], &[], &[]),
        true,
        &over_to_4,
        None,
    );
    Ok(())
}

#[test]
fn drags_with_many_buttons(rt: HostRuntime) -> Result<(), Fail> {
    let mut buttons = Buttons::new(rt.alloc())?;
    // button 2 clicks nothing, and a second down tells nothing and keeps what was pressed first
    goes_to(&rt, &mut buttons, &[1, 2]);
    goes_down(&rt, &mut buttons, 0, Some(2));
    goes_down(&rt, &mut buttons, 2, Some(2));
    goes_to(&rt, &mut buttons, &[1, 3]);
    goes_down(&rt, &mut buttons, 0, None);
    goes_down(&rt, &mut buttons, 4, Some(3));
    goes_up(&rt, &mut buttons, 2, &[press(Up, 3, 2)]);
    goes_up(&rt, &mut buttons, 0, &[press(Up, 3, 0), press(Click, 1, 0)]);
    goes_up(&rt, &mut buttons, 4, &[press(Up, 3, 4)]);
    // back on the element that was pressed, and from a child to its parent
    goes_down(&rt, &mut buttons, 0, Some(3));
    goes_to(&rt, &mut buttons, &[]);
    goes_to(&rt, &mut buttons, &[1, 3]);
    goes_up(&rt, &mut buttons, 0, &[press(Up, 3, 0), press(Click, 3, 0)]);
    goes_down(&rt, &mut buttons, 0, Some(3));
    goes_to(&rt, &mut buttons, &[1]);
    goes_up(&rt, &mut buttons, 0, &[press(Up, 1, 0), press(Click, 1, 0)]);
    // released over nothing: nothing is told, and the button is up
    goes_down(&rt, &mut buttons, 0, Some(1));
    goes_to(&rt, &mut buttons, &[]);
    goes_up(&rt, &mut buttons, 0, &[]);
    // pressed over nothing: the button is down, and there is nothing to click
    goes_down(&rt, &mut buttons, 0, None);
    goes_to(&rt, &mut buttons, &[1]);
    goes_down(&rt, &mut buttons, 0, None);
    goes_up(&rt, &mut buttons, 0, &[press(Up, 1, 0)]);
    Ok(())
}

#[test]
fn removals_during_a_press(rt: HostRuntime) -> Result<(), Fail> {
    let mut buttons = Buttons::new(rt.alloc())?;
    // the deepest element goes, and its parent is clicked
    goes_to(&rt, &mut buttons, &[1, 2, 3]);
    goes_down(&rt, &mut buttons, 0, Some(3));
    let over_2 = [event(Over, 2, None), event(Move, 2, None)];
    turns(&rt, &mut buttons, (&[1, 2], &[], &[3]), true, &over_2, None);
    goes_up(&rt, &mut buttons, 0, &[press(Up, 2, 0), press(Click, 2, 0)]);
    // an element that is told to be gone is clicked no more, though its chain comes again
    goes_down(&rt, &mut buttons, 0, Some(2));
    turns(&rt, &mut buttons, (&[1, 2], &[], &[2]), false, &[], None);
    goes_up(&rt, &mut buttons, 0, &[press(Up, 2, 0), press(Click, 1, 0)]);
    // the whole page goes, and a new root is no element that was pressed
    goes_down(&rt, &mut buttons, 0, Some(2));
    turns(&rt, &mut buttons, (&[], &[], &[1, 2]), false, &[], None);
    let into_5 = [event(Over, 5, None), event(Enter, 5, None)];
    turns(&rt, &mut buttons, (&[5], &[], &[]), false, &into_5, None);
    goes_up(&rt, &mut buttons, 0, &[press(Up, 5, 0)]);
    Ok(())
}

#[test]
fn holders_come_and_go(rt: HostRuntime) -> Result<(), Fail> {
    let mut buttons = Buttons::new(rt.alloc())?;
    goes_to(&rt, &mut buttons, &[1, 2]);
    goes_down(&rt, &mut buttons, 0, Some(2));
    goes_down(&rt, &mut buttons, 1, Some(2));
    // a second holder takes the place of the first, and stays while a button is down
    assert!(rt; buttons.capture(2));
    assert!(rt; buttons.capture(3));
    goes_up(&rt, &mut buttons, 0, &[press(Up, 2, 0), press(Click, 2, 0)]);
    assert_eq!(rt; buttons.captured(), Some(3));
    let to_3 = [
        event(Out, 2, Some(3)),
        event(Leave, 2, Some(3)),
        event(Over, 3, Some(2)),
        event(Enter, 3, Some(2)),
    ];
    turns(
        &rt,
        &mut buttons,
        (&[1, 2], &[1, 3], &[]),
        false,
        &to_3,
        Some(3),
    );
    // its chain leads to another element: the holder ends
    let to_2 = [
        event(Out, 3, Some(2)),
        event(Leave, 3, Some(2)),
        event(Over, 2, Some(3)),
        event(Enter, 2, Some(3)),
    ];
    turns(
        &rt,
        &mut buttons,
        (&[1, 2], &[1, 3, 4], &[]),
        false,
        &to_2,
        None,
    );
    // the holder goes from the page
    assert!(rt; buttons.capture(2));
    let over_1 = [event(Over, 1, None)];
    turns(&rt, &mut buttons, (&[1], &[], &[2]), false, &over_1, None);
    // the last button ends the holder, and a button that is up ends none
    assert!(rt; buttons.capture(1));
    goes_up(&rt, &mut buttons, 0, &[]);
    assert_eq!(rt; buttons.captured(), Some(1));
    goes_up(&rt, &mut buttons, 1, &[press(Up, 1, 1)]);
    assert_eq!(rt; buttons.captured(), None);
    assert!(rt; !buttons.capture(1));
    Ok(())
}

fn ids(alloc: Global, ids: &[u32]) -> Result<Ids, AllocError> {
    Ok(Ids(Vec::from_slice(alloc, ids)?))
}

#[test]
fn plays_a_list_of_inputs(rt: HostRuntime) -> Result<(), Fail> {
    let alloc = rt.alloc();
    let to_2 = Input::Turn {
        under: ids(alloc, &[1, 2])?,
        holding: ids(alloc, &[])?,
        gone: ids(alloc, &[])?,
        moved: false,
    };
    let held = Input::Turn {
        under: ids(alloc, &[1])?,
        holding: ids(alloc, &[1, 2])?,
        gone: ids(alloc, &[])?,
        moved: true,
    };
    let inputs = [
        Input::Capture { id: 2 },
        to_2,
        Input::Down { button: 0 },
        Input::Down { button: 0 },
        Input::Capture { id: 2 },
        held,
        Input::Up { button: 0 },
        Input::Up { button: 0 },
    ];
    let outputs = [
        Output::Captured { held: false },
        Output::Event {
            event: event(Over, 2, None),
        },
        Output::Event {
            event: event(Enter, 1, None),
        },
        Output::Event {
            event: event(Enter, 2, None),
        },
        Output::Press {
            press: press(Down, 2, 0),
        },
        Output::Captured { held: true },
        Output::Event {
            event: event(Move, 2, None),
        },
        Output::Press {
            press: press(Up, 2, 0),
        },
        Output::Press {
            press: press(Click, 2, 0),
        },
    ];
    assert!(rt; are_allowed(&inputs));
    assert_eq!(rt; play(alloc, &inputs)?.as_slice(), outputs.as_slice());
    Ok(())
}
