// Nodes that move, and edits that are refused.
use super::assert_replies;
use super::building::{push_add, push_nodes};
use std::test::Fail;

// A block in each other, from the child of node 3 down to the greatest depth, and one that is too deep.
fn push_chain(script: &mut Vec<u8>) -> Result<(), Fail> {
    for parent in 3u32..=256 {
        push_add(script, parent, "block", 0)?;
    }
    Ok(())
}

fn push_chain_replies(replies: &mut Vec<u8>) -> Result<(), Fail> {
    push_nodes(replies, 4, 257)?;
    replies.extend_from_slice(b"err 9 deep\n")?;
    Ok(())
}

/// Edits of a page of three nested blocks, each refused.
const REFUSED_MOVES: &[u8] =
    br#"{"op":"add","parent":0,"at":0,"kind":"block","boxes":[[0,0,0,100,100]],"style":{}}
{"op":"add","parent":1,"at":0,"kind":"block","boxes":[[0,0,0,50,50]],"style":{}}
{"op":"add","parent":2,"at":0,"kind":"block","boxes":[[0,0,0,20,20]],"style":{}}
{"op":"move","id":2,"parent":3,"at":0}
{"op":"hit","x":10,"y":10}
{"op":"move","id":3,"parent":1,"at":5}
{"op":"hit","x":10,"y":10}
{"op":"move","id":1,"parent":2,"at":0}
{"op":"hit","x":10,"y":10}
{"op":"move","id":2,"parent":0,"at":0}
{"op":"hit","x":10,"y":10}
{"op":"add","parent":0,"at":0,"kind":"block","boxes":[[0,0,0,1,1]],"style":{}}
{"op":"hit","x":10,"y":10}
{"op":"remove","id":9999}
{"op":"hit","x":10,"y":10}
{"op":"add","parent":1,"at":1,"kind":"text","boxes":[],"style":{}}
{"op":"hit","x":10,"y":10}
{"op":"add","parent":1,"at":1,"kind":"area","boxes":[],"style":{}}
{"op":"hit","x":10,"y":10}
{"op":"move","id":0,"parent":1,"at":0}
{"op":"move","id":9,"parent":1,"at":0}
{"op":"move","id":2,"parent":9,"at":0}
"#;

const REFUSED_MOVES_REPLIES: &[u8] =
    b"node 1\nnode 2\nnode 3\nerr 7 cycle\nhit 3 2 1\nerr 8 place\nhit 3 2 1\nerr 5 root\nhit 3 2 1\nerr 5 root\nhit 3 2 1\nerr 5 root\nhit 3 2 1\nerr 4 absent\nhit 3 2 1\nerr 6 kind\nhit 3 2 1\nerr 6 kind\nhit 3 2 1\nerr 3 command\nerr 4 absent\nerr 4 absent\n";

#[test]
fn nodes_move_with_all_below_them(rt: HostRuntime) -> Result<(), Fail> {
    let mut script = Vec::from_slice(rt.alloc(), REFUSED_MOVES)?;
    let mut replies = Vec::from_slice(rt.alloc(), REFUSED_MOVES_REPLIES)?;
    push_chain(&mut script)?;
    push_chain_replies(&mut replies)?;
    script.extend_from_slice(
        br#"{"at":0,"parent":1,"id":3,"op":"move"}
{"op":"hit","x":10,"y":10}
{"op":"move","id":3,"parent":1,"at":2}
{"op":"move","id":3,"parent":1,"at":1}
{"op":"hit","x":10,"y":10}
{"op":"add","parent":256,"at":0,"kind":"block","boxes":[],"style":{}}
"#,
    )?;
    replies.extend_from_slice(b"ok\nhit 2 3 1\nerr 8 place\nok\nhit 3 2 1\nnode 257\n")?;
    assert_replies(&rt, rt.alloc(), &script, &replies)
}
