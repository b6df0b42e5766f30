// What a desk is asked, and what is answered from it.
ghost use Rattle.std.specs.Prelude.{◌≡◌, ◌<◌};

use super::{EVER, THREE_BLOCKS, sink_of, source_of};
use crate::{Asked, Canned, Status, run};
use fractions::{Blank, Brand, Ledger, Steps};
use std::alloc::Global;
use std::process::Abort;
use std::test::Fail;
use tree_edits::Engine;

// How many nodes the page of the desk has after the script of three blocks.
fn nodes_after_three_blocks<L: Ledger>(
    rt: &impl Abort,
    alloc: Global,
    blank: Blank,
) -> Result<u32, Fail>
    requires name { blank.name ≡ L.name }
    requires parts { blank.parts ≡ L.parts }
    requires some_parts { 0 < blank.parts }
{
    let mut desk = Engine::new(alloc, 81920, 46080)?;
    let mut steps = Steps::<L>::new(blank);
    let mut source = source_of(alloc, THREE_BLOCKS, EVER, &[])?;
    let mut sink = sink_of(alloc, EVER, &[])?;
    let status = run(alloc, &[], &mut source, &mut sink, &mut desk, &mut steps);
    assert_eq!(rt; status, Status::Done);
    Ok(desk.page().count())
}

// A run that answered from a tree of its own would leave the desk's page as it was.
#[test]
fn the_page_is_that_of_the_desk(rt: HostRuntime) -> Result<(), Fail> {
    let nodes = nodes_after_three_blocks::<Brand>(&rt, rt.alloc(), Blank::new(1))?;
    assert_eq!(rt; nodes, 3);
    Ok(())
}

// A desk that finds node 7 under every point, after so many calls.
fn canned(count: u32) -> Canned {
    Canned {
        member: 7,
        count,
        asked: [Asked::Edit; 64],
    }
}

// Runs a script on a desk without a page.
fn run_on_canned<L: Ledger>(
    rt: &impl Abort,
    alloc: Global,
    script: &[u8],
    desk: &mut Canned,
    replies: &[u8],
    blank: Blank,
) -> Result<(), Fail>
    requires name { blank.name ≡ L.name }
    requires parts { blank.parts ≡ L.parts }
    requires some_parts { 0 < blank.parts }
{
    let mut steps = Steps::<L>::new(blank);
    let mut source = source_of(alloc, script, EVER, &[])?;
    let mut sink = sink_of(alloc, EVER, &[])?;
    let status = run(alloc, &[], &mut source, &mut sink, desk, &mut steps);
    assert_eq!(rt; status, Status::Done);
    assert_eq!(rt; sink.bytes.as_slice(), replies);
    Ok(())
}

// Each answer is the one that the desk gave, which is asked for the edits and the points of the lines and nothing else: a
// line that asks for nothing, or has a fault, is no call. Of more than 64 calls the first 64 are kept.
#[test]
fn the_desk_is_asked_line_by_line(rt: HostRuntime) -> Result<(), Fail> {
    let mut desk = canned(0);
    run_on_canned::<Brand>(
        &rt,
        rt.alloc(),
        THREE_BLOCKS,
        &mut desk,
        b"ok\nok\nok\nhit 7\nhit 7\n",
        Blank::new(1),
    )?;
    assert_eq!(rt; desk.count, 5);
    assert_eq!(rt;
        &desk.asked[..5],
        [
            Asked::Edit,
            Asked::Edit,
            Asked::Edit,
            Asked::Hit { x: 35, y: 35 },
            Asked::Hit { x: 200, y: 200 },
        ]
        .as_slice()
    );
    let mut full = canned(63);
    run_on_canned::<Brand>(
        &rt,
        rt.alloc(),
        b" \n{\"op\":\"top\",\"x\":1,\"y\":-2}\n[]\n{\"op\":\"top\",\"x\":3,\"y\":4}\n{\"op\":\"top\",\"x\":5,\"y\":6}\n",
        &mut full,
        b"top 7\nerr 3 command\ntop 7\ntop 7\n",
        Blank::new(1),
    )?;
    assert_eq!(rt; full.count, 65);
    assert_eq!(rt; full.asked[63], Asked::Top { x: 1, y: -2 });
    Ok(())
}

/// A pointer that stays before it was anywhere, that goes to a point twice, and that stays.
const POINTS: &[u8] = br#"{"op":"refresh"}
{"op":"point","x":1,"y":-2}
{"op":"point","x":3,"y":4}
{"op":"remove","id":7}
{"op":"refresh"}
"#;

// A turn asks for the topmost element at the spot, then for its chain, and then for each member of the kept chain. Nothing
// is asked for a pointer that was nowhere yet.
#[test]
fn a_turn_asks_for_the_target_its_chain_and_the_kept_members(rt: HostRuntime) -> Result<(), Fail> {
    let mut desk = canned(0);
    run_on_canned::<Brand>(
        &rt,
        rt.alloc(),
        POINTS,
        &mut desk,
        b"events\nevents over=7:- enter=7:- move=7:-\nevents move=7:-\nok\nevents\n",
        Blank::new(1),
    )?;
    assert_eq!(rt; desk.count, 9);
    assert_eq!(rt;
        &desk.asked[..9],
        [
            Asked::Top { x: 1, y: -2 },
            Asked::Chain { id: 7 },
            Asked::Top { x: 3, y: 4 },
            Asked::Chain { id: 7 },
            Asked::Has { id: 7 },
            Asked::Edit,
            Asked::Top { x: 3, y: 4 },
            Asked::Chain { id: 7 },
            Asked::Has { id: 7 },
        ]
        .as_slice()
    );
    Ok(())
}
