// The lines that replies are.

use crate::{LineFault, Reply, print};
use box_tree::EditFault;
use mouse_events::{Event, EventKind};
use std::test::Fail;

fn event(kind: EventKind, target: u32, related: Option<u32>) -> Event {
    Event {
        kind,
        target,
        related,
    }
}

#[test]
fn replies_are_printed(rt: HostRuntime) -> Result<(), Fail> {
    let events = [
        event(EventKind::Out, 10, Some(9)),
        event(EventKind::Leave, 10, Some(9)),
        event(EventKind::Over, 9, Some(10)),
        event(EventKind::Enter, 9, None),
        event(EventKind::Move, 9, None),
    ];
    let mut out = Vec::new(rt.alloc());
    print(&Reply::Node(4294967295), &mut out)?;
    print(&Reply::Done, &mut out)?;
    print(&Reply::Hit(&[10, 9]), &mut out)?;
    print(&Reply::Hit(&[]), &mut out)?;
    print(&Reply::Top(Some(7)), &mut out)?;
    print(&Reply::Top(None), &mut out)?;
    print(&Reply::Events(&[]), &mut out)?;
    print(&Reply::Events(&events), &mut out)?;
    print(&Reply::Line(LineFault::Long), &mut out)?;
    print(&Reply::Edit(EditFault::Full), &mut out)?;
    assert_eq!(rt;
        out.as_slice(),
        b"node 4294967295\nok\nhit 10 9\nhit\ntop 7\ntop null\nevents\nevents out=10:9 leave=10:9 over=9:10 enter=9:- move=9:-\nerr 1 long\nerr 10 full\n".as_slice()
    );
    Ok(())
}

#[test]
fn line_faults_have_numbers_and_names(rt: HostRuntime) -> Result<(), Fail> {
    for (fault, number, name) in [
        (LineFault::Long, Some(1), "long"),
        (LineFault::Syntax, Some(2), "syntax"),
        (LineFault::Command, Some(3), "command"),
    ] {
        assert!(rt; fault.number() == number && fault.name() == name, "{name}");
    }
    assert!(rt; LineFault::OutOfMemory.number().is_none());
    Ok(())
}
