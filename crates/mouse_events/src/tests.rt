use crate::EventKind::{Enter, Leave, Move, Out, Over};
use crate::{Event, EventKind, OutOfMemory, Pointer};
use std::process::Abort;
use std::test::Fail;

fn event(kind: EventKind, target: u32, related: Option<u32>) -> Event {
    Event {
        kind,
        target,
        related,
    }
}

/// Turns the pointer and compares the events, the kept chain and the spot.
fn turns(
    rt: &impl Abort,
    pointer: &mut Pointer,
    alive: &[bool],
    new_chain: &[u32],
    moved: bool,
    events: &[Event],
) {
    let spot = pointer.spot();
    assert!(rt; new_chain.len() <= 256);
    assert_eq!(rt; pointer.chain().len(), alive.len());
    assert_eq!(rt; pointer.turn(new_chain, alive, moved), events);
    assert_eq!(rt; pointer.chain(), new_chain);
    assert_eq!(rt; pointer.spot(), spot);
}

/// A page of a root 1 with the children 2 and 4, and 3 in 2: into 3, over to 4, 4 goes from the page, a
/// move that stays, and out of the page.
#[test]
fn a_walk_over_a_page(rt: HostRuntime) -> Result<(), Fail> {
    let mut pointer = Pointer::new(rt.alloc())?;
    assert_eq!(rt; pointer.spot(), None);
    assert_eq!(rt; pointer.chain().len(), 0);
    pointer.set_spot(10, 10);
    assert_eq!(rt; pointer.spot(), Some((10, 10)));
    let into_3 = [
        event(Over, 3, None),
        event(Enter, 1, None),
        event(Enter, 2, None),
        event(Enter, 3, None),
        event(Move, 3, None),
    ];
    turns(&rt, &mut pointer, &[], &[1, 2, 3], true, &into_3);
    pointer.set_spot(60, 10);
    let over_to_4 = [
        event(Out, 3, Some(4)),
        event(Leave, 3, Some(4)),
        event(Leave, 2, Some(4)),
        event(Over, 4, Some(3)),
        event(Enter, 4, Some(3)),
        event(Move, 4, None),
    ];
    turns(
        &rt,
        &mut pointer,
        &[true, true, true],
        &[1, 4],
        true,
        &over_to_4,
    );
    turns(
        &rt,
        &mut pointer,
        &[true, false],
        &[1],
        false,
        &[event(Over, 1, None)],
    );
    turns(&rt, &mut pointer, &[true], &[1], false, &[]);
    turns(
        &rt,
        &mut pointer,
        &[true],
        &[1],
        true,
        &[event(Move, 1, None)],
    );
    pointer.set_spot(-1, 0);
    turns(
        &rt,
        &mut pointer,
        &[true],
        &[],
        true,
        &[event(Out, 1, None), event(Leave, 1, None)],
    );
    assert_eq!(rt; pointer.spot(), Some((-1, 0)));
    Ok(())
}

#[test]
fn pairs_of_chains(rt: HostRuntime) -> Result<(), Fail> {
    let mut pointer = Pointer::new(rt.alloc())?;
    // nothing to nothing, and nothing to a target
    turns(&rt, &mut pointer, &[], &[], true, &[]);
    let from_nothing = [
        event(Over, 2, None),
        event(Enter, 1, None),
        event(Enter, 2, None),
    ];
    turns(&rt, &mut pointer, &[], &[1, 2], false, &from_nothing);
    // parent to child, and child to parent
    let to_child = [
        event(Out, 2, Some(3)),
        event(Over, 3, Some(2)),
        event(Enter, 3, Some(2)),
        event(Move, 3, None),
    ];
    turns(
        &rt,
        &mut pointer,
        &[true, true],
        &[1, 2, 3],
        true,
        &to_child,
    );
    let to_parent = [
        event(Out, 3, Some(2)),
        event(Leave, 3, Some(2)),
        event(Over, 2, Some(3)),
    ];
    turns(
        &rt,
        &mut pointer,
        &[true, true, true],
        &[1, 2],
        false,
        &to_parent,
    );
    // cousins
    turns(
        &rt,
        &mut pointer,
        &[true, true],
        &[1, 2, 3],
        true,
        &to_child,
    );
    let to_cousin = [
        event(Out, 3, Some(5)),
        event(Leave, 3, Some(5)),
        event(Leave, 2, Some(5)),
        event(Over, 5, Some(3)),
        event(Enter, 4, Some(3)),
        event(Enter, 5, Some(3)),
    ];
    turns(
        &rt,
        &mut pointer,
        &[true, true, true],
        &[1, 4, 5],
        false,
        &to_cousin,
    );
    // the same target under another chain: the chain is kept, and nobody is told
    turns(
        &rt,
        &mut pointer,
        &[true, true, true],
        &[1, 6, 5],
        true,
        &[event(Move, 5, None)],
    );
    // a dead target: no out, no leave on it, and nothing comes from it
    let from_dead = [
        event(Leave, 6, Some(7)),
        event(Over, 7, None),
        event(Enter, 7, None),
        event(Move, 7, None),
    ];
    turns(
        &rt,
        &mut pointer,
        &[true, true, false],
        &[1, 7],
        true,
        &from_dead,
    );
    // a dead ancestor above a target that has moved: it gets no leave
    turns(&rt, &mut pointer, &[true, true], &[1, 8, 7], false, &[]);
    let over_dead = [
        event(Out, 7, Some(9)),
        event(Leave, 7, Some(9)),
        event(Over, 9, Some(7)),
        event(Enter, 9, Some(7)),
    ];
    turns(
        &rt,
        &mut pointer,
        &[true, false, true],
        &[1, 9],
        false,
        &over_dead,
    );
    // to nothing, from a target that is there and from one that isn't
    let to_nothing = [
        event(Out, 9, None),
        event(Leave, 9, None),
        event(Leave, 1, None),
    ];
    turns(&rt, &mut pointer, &[true, true], &[], true, &to_nothing);
    turns(
        &rt,
        &mut pointer,
        &[],
        &[1],
        false,
        &[event(Over, 1, None), event(Enter, 1, None)],
    );
    turns(&rt, &mut pointer, &[false], &[], false, &[]);
    Ok(())
}

#[test]
fn says_why_there_is_no_pointer(rt: HostRuntime) -> Result<(), Fail> {
    let text = format!(in rt.alloc(); "{OutOfMemory}")?;
    assert_eq!(rt; text.as_str(), "out of memory");
    Ok(())
}
