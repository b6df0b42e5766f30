// What suits which kind of node: tables and scripts, worked out by hand.
use super::assert_replies;
use super::building::{push_add, push_move, push_nodes, push_often};
use std::alloc::Global;
use std::process::Abort;
use std::test::Fail;

/// The kinds, in the order of the columns below.
const KINDS: [&str; 11] = [
    "block",
    "inline",
    "inline-block",
    "image",
    "svg",
    "text",
    "map",
    "area",
    "group",
    "shape",
    "inner",
];

/// A root 1 with a block 2, an inline 3, an inline-block 4, an image 5, a text 6 in the block, an svg 7, a map 8 with an area
/// 9, and in the svg a group 10, a shape 11 and an inner svg 12.
const ONE_OF_EACH: &[u8] =
    br#"{"op":"add","parent":0,"at":0,"kind":"block","boxes":[[0,0,0,100,100]],"style":{}}
{"op":"add","parent":1,"at":0,"kind":"block","boxes":[],"style":{}}
{"op":"add","parent":1,"at":0,"kind":"inline","boxes":[],"style":{}}
{"op":"add","parent":1,"at":0,"kind":"inline-block","boxes":[],"style":{}}
{"op":"add","parent":1,"at":0,"kind":"image","boxes":[],"style":{}}
{"op":"add","parent":2,"at":0,"kind":"text","boxes":[],"style":{}}
{"op":"add","parent":1,"at":0,"kind":"svg","boxes":[],"style":{}}
{"op":"add","parent":1,"at":0,"kind":"map","boxes":[],"style":{}}
{"op":"add","parent":8,"at":0,"kind":"area","boxes":[],"style":{}}
{"op":"add","parent":7,"at":0,"kind":"group","boxes":[],"style":{}}
{"op":"add","parent":7,"at":0,"kind":"shape","boxes":[],"style":{}}
{"op":"add","parent":7,"at":0,"kind":"inner","boxes":[],"style":{}}
"#;

const ONE_OF_EACH_REPLIES: &[u8] =
    b"node 1\nnode 2\nnode 3\nnode 4\nnode 5\nnode 6\nnode 7\nnode 8\nnode 9\nnode 10\nnode 11\nnode 12\n";

// Compares the replies to the lines of a script that goes on from that page.
fn assert_replies_there(
    rt: &impl Abort,
    alloc: Global,
    script: &[u8],
    replies: &[u8],
) -> Result<(), Fail> {
    let mut whole = Vec::from_slice(alloc, ONE_OF_EACH)?;
    let mut all = Vec::from_slice(alloc, ONE_OF_EACH_REPLIES)?;
    whole.extend_from_slice(script)?;
    all.extend_from_slice(replies)?;
    assert_replies(rt, alloc, &whole, &all)
}

/// What the nodes of that page may hold, a column for each kind: `x` where they may; the root holds no text.
const HELD: [(u32, &[u8; 11]); 12] = [
    (1, b"xxxxx-x----"),
    (2, b"xxxxxxx----"),
    (3, b"xxxxxxx----"),
    (4, b"xxxxxxx----"),
    (5, b"-----------"),
    (6, b"-----------"),
    (7, b"--------xxx"),
    (8, b"-------x---"),
    (9, b"-----------"),
    (10, b"--------xxx"),
    (11, b"-----------"),
    (12, b"--------xxx"),
];

/// Where a further node of each kind stands, in the order of the columns: the nodes 13 to 23.
const HOMES: [u32; 11] = [2, 2, 2, 2, 2, 2, 2, 8, 7, 7, 7];

// A move of a further node to a parent for each column that has this mark.
fn push_moves(script: &mut Vec<u8>, parent: u32, held: &[u8; 11], mark: u8) -> Result<(), Fail> {
    for (id, cell) in (13u32..24).zip(held) {
        if *cell == mark {
            push_move(script, id, parent)?;
        }
    }
    Ok(())
}

// An add to a parent for each column that has this mark.
fn push_adds(script: &mut Vec<u8>, parent: u32, held: &[u8; 11], mark: u8) -> Result<(), Fail> {
    for (kind, cell) in KINDS.iter().zip(held) {
        if *cell == mark {
            push_add(script, parent, kind, 0)?;
        }
    }
    Ok(())
}

// Each pair of the table that has this mark, as a move and as an add.
fn push_pairs(script: &mut Vec<u8>, mark: u8) -> Result<(), Fail> {
    for (parent, held) in HELD {
        push_moves(script, parent, held, mark)?;
    }
    for (parent, held) in HELD {
        push_adds(script, parent, held, mark)?;
    }
    Ok(())
}

// The table has 95 pairs that are refused, and 37 that aren't.
#[test]
fn kinds_hold_one_another_by_the_table(rt: HostRuntime) -> Result<(), Fail> {
    let alloc = rt.alloc();
    let mut script = Vec::new(alloc);
    let mut replies = Vec::new(alloc);
    for (kind, home) in KINDS.iter().zip(HOMES) {
        push_add(&mut script, home, kind, 0)?;
    }
    push_nodes(&mut replies, 13, 24)?;
    push_pairs(&mut script, b'-')?;
    push_often(&mut replies, b"err 6 kind\n", 190)?;
    push_pairs(&mut script, b'x')?;
    push_often(&mut replies, b"ok\n", 37)?;
    push_nodes(&mut replies, 24, 61)?;
    assert_replies_there(&rt, alloc, &script, &replies)
}

/// Only a block with one box is a root.
const ROOTS: &[u8] = br#"{"op":"add","parent":0,"at":0,"kind":"block","boxes":[],"style":{}}
{"op":"add","parent":0,"at":0,"kind":"block","boxes":[[0,0,0,0,0],[0,0,0,0,0]],"style":{}}
{"op":"add","parent":0,"at":0,"kind":"inline","boxes":[[0,0,0,0,0]],"style":{}}
{"op":"add","parent":0,"at":0,"kind":"inline-block","boxes":[[0,0,0,0,0]],"style":{}}
{"op":"add","parent":0,"at":0,"kind":"image","boxes":[[0,0,0,0,0]],"style":{}}
{"op":"add","parent":0,"at":0,"kind":"text","boxes":[[0,0,0,0,0]],"style":{}}
{"op":"add","parent":0,"at":0,"kind":"svg","boxes":[[0,0,0,0,0]],"style":{}}
{"op":"add","parent":0,"at":0,"kind":"map","boxes":[],"style":{}}
{"op":"add","parent":0,"at":0,"kind":"area","boxes":[],"style":{}}
{"op":"add","parent":0,"at":0,"kind":"group","boxes":[],"style":{}}
{"op":"add","parent":0,"at":0,"kind":"shape","boxes":[],"style":{}}
{"op":"add","parent":0,"at":0,"kind":"inner","boxes":[],"style":{}}
{"op":"add","parent":0,"at":0,"kind":"block","boxes":[[0,0,0,0,0]],"style":{}}
"#;

const ROOTS_REPLIES: &[u8] =
    b"err 6 kind\nerr 6 kind\nerr 6 kind\nerr 6 kind\nerr 6 kind\nerr 6 kind\nerr 6 kind\nerr 6 kind\nerr 6 kind\nerr 6 kind\nerr 6 kind\nerr 6 kind\nnode 1\n";

/// An add and a place have so many boxes or not, by the kind.
const BOXES: &[u8] = br#"{"op":"add","parent":2,"at":0,"kind":"block","boxes":[],"style":{}}
{"op":"place","id":2,"anchor":[0,0],"boxes":[],"max":[0,0]}
{"op":"add","parent":2,"at":0,"kind":"block","boxes":[[0,0,0,0,0]],"style":{}}
{"op":"place","id":2,"anchor":[0,0],"boxes":[[0,0,0,0,0]],"max":[0,0]}
{"op":"add","parent":2,"at":0,"kind":"block","boxes":[[0,0,0,0,0],[0,0,0,0,0]],"style":{}}
{"op":"place","id":2,"anchor":[0,0],"boxes":[[0,0,0,0,0],[0,0,0,0,0]],"max":[0,0]}
{"op":"add","parent":2,"at":0,"kind":"inline","boxes":[],"style":{}}
{"op":"place","id":3,"anchor":[0,0],"boxes":[],"max":[0,0]}
{"op":"add","parent":2,"at":0,"kind":"inline","boxes":[[0,0,0,0,0],[0,0,0,0,0],[0,0,0,0,0]],"style":{}}
{"op":"place","id":3,"anchor":[0,0],"boxes":[[0,0,0,0,0],[0,0,0,0,0],[0,0,0,0,0]],"max":[0,0]}
{"op":"add","parent":2,"at":0,"kind":"inline-block","boxes":[[0,0,0,0,0]],"style":{}}
{"op":"place","id":4,"anchor":[0,0],"boxes":[[0,0,0,0,0]],"max":[0,0]}
{"op":"add","parent":2,"at":0,"kind":"inline-block","boxes":[[0,0,0,0,0],[0,0,0,0,0]],"style":{}}
{"op":"place","id":4,"anchor":[0,0],"boxes":[[0,0,0,0,0],[0,0,0,0,0]],"max":[0,0]}
{"op":"add","parent":2,"at":0,"kind":"image","boxes":[[0,0,0,0,0]],"style":{}}
{"op":"place","id":5,"anchor":[0,0],"boxes":[[0,0,0,0,0]],"max":[0,0]}
{"op":"add","parent":2,"at":0,"kind":"image","boxes":[[0,0,0,0,0],[0,0,0,0,0]],"style":{}}
{"op":"place","id":5,"anchor":[0,0],"boxes":[[0,0,0,0,0],[0,0,0,0,0]],"max":[0,0]}
{"op":"add","parent":2,"at":0,"kind":"text","boxes":[],"style":{}}
{"op":"place","id":6,"anchor":[0,0],"boxes":[],"max":[0,0]}
{"op":"add","parent":2,"at":0,"kind":"text","boxes":[[0,0,0,0,0],[0,0,0,0,0],[0,0,0,0,0]],"style":{}}
{"op":"place","id":6,"anchor":[0,0],"boxes":[[0,0,0,0,0],[0,0,0,0,0],[0,0,0,0,0]],"max":[0,0]}
{"op":"add","parent":2,"at":0,"kind":"svg","boxes":[[0,0,0,0,0]],"style":{}}
{"op":"place","id":7,"anchor":[0,0],"boxes":[[0,0,0,0,0]],"max":[0,0]}
{"op":"add","parent":2,"at":0,"kind":"svg","boxes":[[0,0,0,0,0],[0,0,0,0,0]],"style":{}}
{"op":"place","id":7,"anchor":[0,0],"boxes":[[0,0,0,0,0],[0,0,0,0,0]],"max":[0,0]}
{"op":"add","parent":2,"at":0,"kind":"map","boxes":[],"style":{}}
{"op":"place","id":8,"anchor":[0,0],"boxes":[],"max":[0,0]}
{"op":"add","parent":2,"at":0,"kind":"map","boxes":[[0,0,0,0,0]],"style":{}}
{"op":"place","id":8,"anchor":[0,0],"boxes":[[0,0,0,0,0]],"max":[0,0]}
{"op":"add","parent":8,"at":0,"kind":"area","boxes":[],"style":{}}
{"op":"place","id":9,"anchor":[0,0],"boxes":[],"max":[0,0]}
{"op":"add","parent":8,"at":0,"kind":"area","boxes":[[0,0,0,0,0]],"style":{}}
{"op":"place","id":9,"anchor":[0,0],"boxes":[[0,0,0,0,0]],"max":[0,0]}
{"op":"add","parent":7,"at":0,"kind":"group","boxes":[],"style":{}}
{"op":"place","id":10,"anchor":[0,0],"boxes":[],"max":[0,0]}
{"op":"add","parent":7,"at":0,"kind":"group","boxes":[[0,0,0,0,0]],"style":{}}
{"op":"place","id":10,"anchor":[0,0],"boxes":[[0,0,0,0,0]],"max":[0,0]}
{"op":"add","parent":7,"at":0,"kind":"shape","boxes":[],"style":{}}
{"op":"place","id":11,"anchor":[0,0],"boxes":[],"max":[0,0]}
{"op":"add","parent":7,"at":0,"kind":"shape","boxes":[[0,0,0,0,0]],"style":{}}
{"op":"place","id":11,"anchor":[0,0],"boxes":[[0,0,0,0,0]],"max":[0,0]}
{"op":"add","parent":7,"at":0,"kind":"inner","boxes":[],"style":{}}
{"op":"place","id":12,"anchor":[0,0],"boxes":[],"max":[0,0]}
{"op":"add","parent":7,"at":0,"kind":"inner","boxes":[[0,0,0,0,0]],"style":{}}
{"op":"place","id":12,"anchor":[0,0],"boxes":[[0,0,0,0,0]],"max":[0,0]}
{"op":"place","id":1,"anchor":[0,0],"boxes":[],"max":[0,0]}
{"op":"place","id":1,"anchor":[0,0],"boxes":[[0,0,0,0,0],[0,0,0,0,0]],"max":[0,0]}
"#;

const BOXES_REPLIES: &[u8] =
    b"node 13\nok\nnode 14\nok\nerr 6 kind\nerr 6 kind\nnode 15\nok\nnode 16\nok\nnode 17\nok\nerr 6 kind\nerr 6 kind\nnode 18\nok\nerr 6 kind\nerr 6 kind\nnode 19\nok\nnode 20\nok\nnode 21\nok\nerr 6 kind\nerr 6 kind\nnode 22\nerr 6 kind\nerr 6 kind\nerr 6 kind\nnode 23\nerr 6 kind\nerr 6 kind\nerr 6 kind\nnode 24\nerr 6 kind\nerr 6 kind\nerr 6 kind\nnode 25\nerr 6 kind\nerr 6 kind\nerr 6 kind\nnode 26\nerr 6 kind\nerr 6 kind\nerr 6 kind\nerr 6 kind\nerr 6 kind\n";

/// A text, a map and an area have the empty style alone, also where a value is the initial one, and take no other one.
const STYLES: &[u8] = br#"{"op":"add","parent":2,"at":0,"kind":"text","boxes":[],"style":{}}
{"op":"add","parent":2,"at":0,"kind":"text","boxes":[],"style":{"z":0}}
{"op":"add","parent":2,"at":0,"kind":"text","boxes":[],"style":{"display":"block"}}
{"op":"add","parent":2,"at":0,"kind":"text","boxes":[],"style":{"visibility":"visible"}}
{"op":"add","parent":2,"at":0,"kind":"text","boxes":[],"style":{"position":"static"}}
{"op":"add","parent":2,"at":0,"kind":"map","boxes":[],"style":{}}
{"op":"add","parent":2,"at":0,"kind":"map","boxes":[],"style":{"float":"left"}}
{"op":"add","parent":8,"at":0,"kind":"area","boxes":[],"style":{"visibility":"hidden"}}
{"op":"add","parent":7,"at":0,"kind":"group","boxes":[],"style":{"visibility":"hidden"}}
{"op":"add","parent":2,"at":0,"kind":"image","boxes":[],"style":{"position":"fixed"}}
{"op":"add","parent":2,"at":0,"kind":"image","boxes":[],"style":{"opacity":1001}}
{"op":"style","id":6,"style":{}}
{"op":"style","id":8,"style":{}}
{"op":"style","id":9,"style":{}}
{"op":"style","id":0,"style":{}}
{"op":"style","id":18,"style":{}}
{"op":"style","id":1,"style":{}}
{"op":"style","id":5,"style":{"float":"left"}}
{"op":"style","id":12,"style":{"opacity":1}}
"#;

const STYLES_REPLIES: &[u8] =
    b"node 13\nerr 6 kind\nerr 6 kind\nerr 6 kind\nnode 14\nnode 15\nerr 6 kind\nerr 6 kind\nnode 16\nnode 17\nerr 3 command\nerr 6 kind\nerr 6 kind\nerr 6 kind\nerr 3 command\nerr 4 absent\nok\nok\nok\n";

/// A kind that doesn't suit comes before a cycle and a place that isn't there.
const ORDER: &[u8] = br#"{"op":"move","id":2,"parent":6,"at":0}
{"op":"move","id":6,"parent":1,"at":9}
{"op":"move","id":1,"parent":5,"at":0}
{"op":"move","id":4,"parent":5,"at":0}
{"op":"move","id":2,"parent":2,"at":0}
{"op":"move","id":6,"parent":3,"at":1}
{"op":"move","id":6,"parent":3,"at":0}
"#;

const ORDER_REPLIES: &[u8] =
    b"err 6 kind\nerr 6 kind\nerr 5 root\nerr 6 kind\nerr 7 cycle\nerr 8 place\nok\n";

/// Each sort of shape on a node of each kind.
const SHAPES: &[u8] = br#"{"op":"shape","id":1,"shape":["map",8]}
{"op":"shape","id":1,"shape":["view",0,0,4096,4096,"xMidYMid","meet"]}
{"op":"shape","id":1,"shape":["default"]}
{"op":"shape","id":1,"shape":["circle",0,0,64]}
{"op":"shape","id":1,"shape":["port",0,0,64,64,0,0,4096,4096,"xMidYMid","meet"]}
{"op":"shape","id":2,"shape":["map",8]}
{"op":"shape","id":2,"shape":["view",0,0,4096,4096,"xMidYMid","meet"]}
{"op":"shape","id":2,"shape":["default"]}
{"op":"shape","id":2,"shape":["circle",0,0,64]}
{"op":"shape","id":2,"shape":["port",0,0,64,64,0,0,4096,4096,"xMidYMid","meet"]}
{"op":"shape","id":3,"shape":["map",8]}
{"op":"shape","id":3,"shape":["view",0,0,4096,4096,"xMidYMid","meet"]}
{"op":"shape","id":3,"shape":["default"]}
{"op":"shape","id":3,"shape":["circle",0,0,64]}
{"op":"shape","id":3,"shape":["port",0,0,64,64,0,0,4096,4096,"xMidYMid","meet"]}
{"op":"shape","id":4,"shape":["map",8]}
{"op":"shape","id":4,"shape":["view",0,0,4096,4096,"xMidYMid","meet"]}
{"op":"shape","id":4,"shape":["default"]}
{"op":"shape","id":4,"shape":["circle",0,0,64]}
{"op":"shape","id":4,"shape":["port",0,0,64,64,0,0,4096,4096,"xMidYMid","meet"]}
{"op":"shape","id":5,"shape":["map",8]}
{"op":"shape","id":5,"shape":["view",0,0,4096,4096,"xMidYMid","meet"]}
{"op":"shape","id":5,"shape":["default"]}
{"op":"shape","id":5,"shape":["circle",0,0,64]}
{"op":"shape","id":5,"shape":["port",0,0,64,64,0,0,4096,4096,"xMidYMid","meet"]}
{"op":"shape","id":6,"shape":["map",8]}
{"op":"shape","id":6,"shape":["view",0,0,4096,4096,"xMidYMid","meet"]}
{"op":"shape","id":6,"shape":["default"]}
{"op":"shape","id":6,"shape":["circle",0,0,64]}
{"op":"shape","id":6,"shape":["port",0,0,64,64,0,0,4096,4096,"xMidYMid","meet"]}
{"op":"shape","id":7,"shape":["map",8]}
{"op":"shape","id":7,"shape":["view",0,0,4096,4096,"xMidYMid","meet"]}
{"op":"shape","id":7,"shape":["default"]}
{"op":"shape","id":7,"shape":["circle",0,0,64]}
{"op":"shape","id":7,"shape":["port",0,0,64,64,0,0,4096,4096,"xMidYMid","meet"]}
{"op":"shape","id":8,"shape":["map",8]}
{"op":"shape","id":8,"shape":["view",0,0,4096,4096,"xMidYMid","meet"]}
{"op":"shape","id":8,"shape":["default"]}
{"op":"shape","id":8,"shape":["circle",0,0,64]}
{"op":"shape","id":8,"shape":["port",0,0,64,64,0,0,4096,4096,"xMidYMid","meet"]}
{"op":"shape","id":9,"shape":["map",8]}
{"op":"shape","id":9,"shape":["view",0,0,4096,4096,"xMidYMid","meet"]}
{"op":"shape","id":9,"shape":["default"]}
{"op":"shape","id":9,"shape":["circle",0,0,64]}
{"op":"shape","id":9,"shape":["port",0,0,64,64,0,0,4096,4096,"xMidYMid","meet"]}
{"op":"shape","id":10,"shape":["map",8]}
{"op":"shape","id":10,"shape":["view",0,0,4096,4096,"xMidYMid","meet"]}
{"op":"shape","id":10,"shape":["default"]}
{"op":"shape","id":10,"shape":["circle",0,0,64]}
{"op":"shape","id":10,"shape":["port",0,0,64,64,0,0,4096,4096,"xMidYMid","meet"]}
{"op":"shape","id":11,"shape":["map",8]}
{"op":"shape","id":11,"shape":["view",0,0,4096,4096,"xMidYMid","meet"]}
{"op":"shape","id":11,"shape":["default"]}
{"op":"shape","id":11,"shape":["circle",0,0,64]}
{"op":"shape","id":11,"shape":["port",0,0,64,64,0,0,4096,4096,"xMidYMid","meet"]}
{"op":"shape","id":12,"shape":["map",8]}
{"op":"shape","id":12,"shape":["view",0,0,4096,4096,"xMidYMid","meet"]}
{"op":"shape","id":12,"shape":["default"]}
{"op":"shape","id":12,"shape":["circle",0,0,64]}
{"op":"shape","id":12,"shape":["port",0,0,64,64,0,0,4096,4096,"xMidYMid","meet"]}
{"op":"shape","id":13,"shape":["map",8]}
{"op":"shape","id":0,"shape":["map",8]}
"#;

const SHAPES_REPLIES: &[u8] =
    b"err 6 kind\nerr 6 kind\nerr 6 kind\nerr 6 kind\nerr 6 kind\nerr 6 kind\nerr 6 kind\nerr 6 kind\nerr 6 kind\nerr 6 kind\nerr 6 kind\nerr 6 kind\nerr 6 kind\nerr 6 kind\nerr 6 kind\nerr 6 kind\nerr 6 kind\nerr 6 kind\nerr 6 kind\nerr 6 kind\nok\nerr 6 kind\nerr 6 kind\nerr 6 kind\nerr 6 kind\nerr 6 kind\nerr 6 kind\nerr 6 kind\nerr 6 kind\nerr 6 kind\nerr 6 kind\nok\nerr 6 kind\nerr 6 kind\nerr 6 kind\nerr 6 kind\nerr 6 kind\nerr 6 kind\nerr 6 kind\nerr 6 kind\nerr 6 kind\nerr 6 kind\nok\nerr 6 kind\nerr 6 kind\nerr 6 kind\nerr 6 kind\nerr 6 kind\nerr 6 kind\nerr 6 kind\nerr 6 kind\nerr 6 kind\nerr 6 kind\nok\nerr 6 kind\nerr 6 kind\nerr 6 kind\nerr 6 kind\nerr 6 kind\nok\nerr 4 absent\nerr 3 command\n";

#[test]
fn kinds_have_boxes_styles_and_shapes_by_the_table(rt: HostRuntime) -> Result<(), Fail> {
    assert_replies(&rt, rt.alloc(), ROOTS, ROOTS_REPLIES)?;
    for (script, replies) in [
        (BOXES, BOXES_REPLIES),
        (STYLES, STYLES_REPLIES),
        (ORDER, ORDER_REPLIES),
        (SHAPES, SHAPES_REPLIES),
    ] {
        assert_replies_there(&rt, rt.alloc(), script, replies)?;
    }
    Ok(())
}
