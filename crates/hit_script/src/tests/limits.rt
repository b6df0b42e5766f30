// The limits of depth and of the boxes of a node.
use super::assert_replies;
use super::building::{push_add, push_nodes, push_place};
use std::test::Fail;

const ROOT: &[u8] =
    br#"{"op":"add","parent":0,"at":0,"kind":"block","boxes":[[0,0,0,100,100]],"style":{}}
"#;

/// Moves of a block 256 that holds a block 257, in a page whose nodes 1 to 255 are a chain.
const DEEP_MOVES: &[u8] = br#"{"op":"move","id":256,"parent":255,"at":0}
{"op":"move","id":256,"parent":254,"at":0}
{"op":"add","parent":257,"at":0,"kind":"block","boxes":[],"style":{}}
{"op":"move","id":257,"parent":255,"at":0}
{"op":"move","id":256,"parent":255,"at":0}
{"op":"add","parent":256,"at":0,"kind":"block","boxes":[],"style":{}}
{"op":"move","id":2,"parent":1,"at":0}
{"op":"move","id":256,"parent":1,"at":0}
{"op":"add","parent":256,"at":0,"kind":"block","boxes":[],"style":{}}
"#;

const DEEP_MOVES_REPLIES: &[u8] =
    b"err 9 deep\nok\nerr 9 deep\nok\nok\nerr 9 deep\nok\nok\nnode 258\n";

#[test]
fn a_moved_tree_may_reach_the_greatest_depth(rt: HostRuntime) -> Result<(), Fail> {
    let alloc = rt.alloc();
    let mut script = Vec::from_slice(alloc, ROOT)?;
    let mut replies = Vec::new(alloc);
    for parent in 1..255u32 {
        push_add(&mut script, parent, "block", 0)?;
    }
    push_add(&mut script, 1, "block", 0)?;
    push_add(&mut script, 256, "block", 0)?;
    push_nodes(&mut replies, 1, 258)?;
    script.extend_from_slice(DEEP_MOVES)?;
    replies.extend_from_slice(DEEP_MOVES_REPLIES)?;
    assert_replies(&rt, alloc, &script, &replies)
}

#[test]
fn a_node_has_at_most_1_024_boxes(rt: HostRuntime) -> Result<(), Fail> {
    let alloc = rt.alloc();
    let mut script = Vec::from_slice(alloc, ROOT)?;
    push_add(&mut script, 1, "inline", 1025)?;
    push_add(&mut script, 1, "inline", 1024)?;
    push_place(&mut script, 2, 1025)?;
    push_place(&mut script, 2, 1024)?;
    let replies = b"node 1\nerr 10 full\nnode 2\nerr 10 full\nok\n";
    assert_replies(&rt, alloc, &script, replies)
}
