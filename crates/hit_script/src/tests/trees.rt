// Trees that are edited: adds, removes and moves, in scripts with their replies, worked out by hand. All boxes but those that
// say otherwise lie over one another, so a hit lists the tree from its last node to its first.
use super::assert_replies;
use std::test::Fail;

/// The faults of adds in their order, and children that stand at their places.
const ADDS: &[u8] =
    br#"{"op":"add","parent":1,"at":0,"kind":"block","boxes":[[0,0,0,100,100]],"style":{}}
{"op":"add","parent":0,"at":0,"kind":"block","boxes":[],"style":{}}
{"op":"add","parent":0,"at":0,"kind":"block","boxes":[[0,0,0,1,1],[0,1,1,1,1]],"style":{}}
{"op":"add","parent":0,"at":1,"kind":"block","boxes":[[0,0,0,100,100]],"style":{}}
{"op":"add","parent":0,"at":0,"kind":"block","boxes":[[0,0,0,100,100]],"style":{}}
{"op":"add","parent":0,"at":9,"kind":"block","boxes":[],"style":{}}
{"op":"add","parent":1,"at":1,"kind":"block","boxes":[[0,0,0,1,1],[0,1,1,1,1]],"style":{}}
{"op":"add","parent":1,"at":1,"kind":"block","boxes":[],"style":{}}
{"op":"add","parent":1,"at":0,"kind":"block","boxes":[[0,0,0,100,100]],"style":{}}
{"op":"add","parent":1,"at":0,"kind":"block","boxes":[[0,0,0,100,100]],"style":{}}
{"op":"add","parent":1,"at":1,"kind":"block","boxes":[[0,0,0,100,100]],"style":{}}
{"op":"add","parent":1,"at":3,"kind":"block","boxes":[[0,0,0,100,100]],"style":{}}
{"op":"hit","x":0,"y":0}
{"op":"add","parent":4,"at":0,"kind":"block","boxes":[],"style":{}}
{"op":"add","parent":6,"at":0,"kind":"block","boxes":[[0,0,0,100,100]],"style":{}}
{"op":"hit","x":0,"y":0}
"#;

const ADDS_REPLIES: &[u8] =
    b"err 4 absent\nerr 6 kind\nerr 6 kind\nerr 8 place\nnode 1\nerr 5 root\nerr 6 kind\nerr 8 place\nnode 2\nnode 3\nnode 4\nnode 5\nhit 5 2 4 3 1\nnode 6\nnode 7\nhit 5 2 7 4 3 1\n";

/// Children that are added in front, in the midst and at the end, past each power of two up to eight.
const GROWING: &[u8] =
    br#"{"op":"add","parent":0,"at":0,"kind":"block","boxes":[[0,0,0,100,100]],"style":{}}
{"op":"add","parent":1,"at":0,"kind":"block","boxes":[[0,0,0,100,100]],"style":{}}
{"op":"hit","x":0,"y":0}
{"op":"add","parent":1,"at":0,"kind":"block","boxes":[[0,0,0,100,100]],"style":{}}
{"op":"hit","x":0,"y":0}
{"op":"add","parent":1,"at":1,"kind":"block","boxes":[[0,0,0,100,100]],"style":{}}
{"op":"hit","x":0,"y":0}
{"op":"add","parent":1,"at":3,"kind":"block","boxes":[[0,0,0,100,100]],"style":{}}
{"op":"hit","x":0,"y":0}
{"op":"add","parent":1,"at":0,"kind":"block","boxes":[[0,0,0,100,100]],"style":{}}
{"op":"hit","x":0,"y":0}
{"op":"add","parent":1,"at":2,"kind":"block","boxes":[[0,0,0,100,100]],"style":{}}
{"op":"hit","x":0,"y":0}
{"op":"add","parent":1,"at":6,"kind":"block","boxes":[[0,0,0,100,100]],"style":{}}
{"op":"hit","x":0,"y":0}
{"op":"add","parent":1,"at":3,"kind":"block","boxes":[[0,0,0,100,100]],"style":{}}
{"op":"hit","x":0,"y":0}
{"op":"add","parent":1,"at":0,"kind":"block","boxes":[[0,0,0,100,100]],"style":{}}
{"op":"hit","x":0,"y":0}
{"op":"add","parent":1,"at":9,"kind":"block","boxes":[[0,0,0,100,100]],"style":{}}
{"op":"hit","x":0,"y":0}
{"op":"add","parent":1,"at":5,"kind":"block","boxes":[[0,0,0,100,100]],"style":{}}
{"op":"hit","x":0,"y":0}
"#;

const GROWING_REPLIES: &[u8] =
    b"node 1\nnode 2\nhit 2 1\nnode 3\nhit 2 3 1\nnode 4\nhit 2 4 3 1\nnode 5\nhit 5 2 4 3 1\nnode 6\nhit 5 2 4 3 6 1\nnode 7\nhit 5 2 4 7 3 6 1\nnode 8\nhit 8 5 2 4 7 3 6 1\nnode 9\nhit 8 5 2 4 9 7 3 6 1\nnode 10\nhit 8 5 2 4 9 7 3 6 10 1\nnode 11\nhit 11 8 5 2 4 9 7 3 6 10 1\nnode 12\nhit 11 8 5 2 4 12 9 7 3 6 10 1\n";

/// A remove takes the node and all below it, and no id is given again.
const REMOVES: &[u8] = br#"{"op":"remove","id":1}
{"op":"add","parent":0,"at":0,"kind":"block","boxes":[[0,0,0,100,100]],"style":{}}
{"op":"add","parent":1,"at":0,"kind":"block","boxes":[[0,0,0,100,100]],"style":{}}
{"op":"add","parent":2,"at":0,"kind":"block","boxes":[[0,0,0,100,100]],"style":{}}
{"op":"add","parent":2,"at":1,"kind":"block","boxes":[[0,0,0,100,100]],"style":{}}
{"op":"add","parent":4,"at":0,"kind":"block","boxes":[[0,0,0,100,100]],"style":{}}
{"op":"add","parent":1,"at":1,"kind":"block","boxes":[[0,0,0,100,100]],"style":{}}
{"op":"add","parent":1,"at":0,"kind":"block","boxes":[[0,0,0,100,100]],"style":{}}
{"op":"remove","id":9999}
{"op":"hit","x":0,"y":0}
{"op":"remove","id":2}
{"op":"hit","x":0,"y":0}
{"op":"remove","id":2}
{"op":"remove","id":5}
{"op":"add","parent":4,"at":0,"kind":"block","boxes":[[0,0,0,100,100]],"style":{}}
{"op":"add","parent":6,"at":0,"kind":"block","boxes":[[0,0,0,100,100]],"style":{}}
{"op":"hit","x":0,"y":0}
{"op":"remove","id":8}
{"op":"hit","x":0,"y":0}
{"op":"add","parent":1,"at":0,"kind":"block","boxes":[[0,0,0,100,100]],"style":{}}
{"op":"remove","id":1}
{"op":"hit","x":0,"y":0}
{"op":"add","parent":9,"at":0,"kind":"block","boxes":[[0,0,0,100,100]],"style":{}}
{"op":"add","parent":0,"at":0,"kind":"block","boxes":[[0,0,0,100,100]],"style":{}}
{"op":"hit","x":0,"y":0}
{"op":"remove","id":10}
{"op":"add","parent":0,"at":0,"kind":"block","boxes":[[0,0,0,100,100]],"style":{}}
{"op":"hit","x":0,"y":0}
"#;

const REMOVES_REPLIES: &[u8] =
    b"err 4 absent\nnode 1\nnode 2\nnode 3\nnode 4\nnode 5\nnode 6\nnode 7\nerr 4 absent\nhit 6 5 4 3 2 7 1\nok\nhit 6 7 1\nerr 4 absent\nerr 4 absent\nerr 4 absent\nnode 8\nhit 8 6 7 1\nok\nhit 6 7 1\nnode 9\nok\nhit\nerr 4 absent\nnode 10\nhit 10\nok\nnode 11\nhit 11\n";

/// The place of a move counts the other children.
const MOVES_AMONG_CHILDREN: &[u8] =
    br#"{"op":"add","parent":0,"at":0,"kind":"block","boxes":[[0,0,0,100,100]],"style":{}}
{"op":"add","parent":1,"at":0,"kind":"block","boxes":[[0,0,0,100,100]],"style":{}}
{"op":"add","parent":1,"at":1,"kind":"block","boxes":[[0,0,0,100,100]],"style":{}}
{"op":"add","parent":1,"at":2,"kind":"block","boxes":[[0,0,0,100,100]],"style":{}}
{"op":"add","parent":1,"at":3,"kind":"block","boxes":[[0,0,0,100,100]],"style":{}}
{"op":"hit","x":0,"y":0}
{"op":"move","id":3,"parent":1,"at":0}
{"op":"hit","x":0,"y":0}
{"op":"move","id":3,"parent":1,"at":1}
{"op":"hit","x":0,"y":0}
{"op":"move","id":3,"parent":1,"at":1}
{"op":"hit","x":0,"y":0}
{"op":"move","id":3,"parent":1,"at":2}
{"op":"hit","x":0,"y":0}
{"op":"move","id":3,"parent":1,"at":3}
{"op":"hit","x":0,"y":0}
{"op":"move","id":3,"parent":1,"at":4}
{"op":"hit","x":0,"y":0}
{"op":"move","id":2,"parent":1,"at":1}
{"op":"hit","x":0,"y":0}
{"op":"move","id":5,"parent":1,"at":0}
{"op":"hit","x":0,"y":0}
{"op":"move","id":3,"parent":1,"at":1}
{"op":"hit","x":0,"y":0}
{"op":"move","id":4,"parent":3,"at":1}
{"op":"hit","x":0,"y":0}
{"op":"move","id":4,"parent":3,"at":0}
{"op":"hit","x":0,"y":0}
{"op":"move","id":4,"parent":1,"at":3}
{"op":"hit","x":0,"y":0}
"#;

const MOVES_AMONG_CHILDREN_REPLIES: &[u8] =
    b"node 1\nnode 2\nnode 3\nnode 4\nnode 5\nhit 5 4 3 2 1\nok\nhit 5 4 2 3 1\nok\nhit 5 4 3 2 1\nok\nhit 5 4 3 2 1\nok\nhit 5 3 4 2 1\nok\nhit 3 5 4 2 1\nerr 8 place\nhit 3 5 4 2 1\nok\nhit 3 5 2 4 1\nok\nhit 3 2 4 5 1\nok\nhit 2 4 3 5 1\nerr 8 place\nhit 2 4 3 5 1\nok\nhit 2 4 3 5 1\nok\nhit 4 2 3 5 1\n";

/// A move takes the node and all below it. Each node but the root stands 10 further to the right than its parent, so the
/// hits at 15, 25, 35 and 45 have the nodes down to the second, third, fourth and fifth level.
const MOVES_BELOW: &[u8] =
    br#"{"op":"add","parent":0,"at":0,"kind":"block","boxes":[[0,0,0,100,100]],"style":{}}
{"op":"add","parent":1,"at":0,"kind":"block","boxes":[[0,10,0,90,100]],"style":{}}
{"op":"add","parent":2,"at":0,"kind":"block","boxes":[[0,10,0,90,100]],"style":{}}
{"op":"add","parent":3,"at":0,"kind":"block","boxes":[[0,10,0,90,100]],"style":{}}
{"op":"add","parent":4,"at":0,"kind":"block","boxes":[[0,10,0,90,100]],"style":{}}
{"op":"hit","x":35,"y":0}
{"op":"hit","x":45,"y":0}
{"op":"move","id":3,"parent":1,"at":0}
{"op":"hit","x":15,"y":0}
{"op":"hit","x":25,"y":0}
{"op":"hit","x":35,"y":0}
{"op":"move","id":3,"parent":1,"at":1}
{"op":"hit","x":15,"y":0}
{"op":"hit","x":35,"y":0}
{"op":"move","id":4,"parent":1,"at":2}
{"op":"hit","x":15,"y":0}
{"op":"hit","x":25,"y":0}
{"op":"move","id":4,"parent":1,"at":0}
{"op":"hit","x":15,"y":0}
{"op":"hit","x":25,"y":0}
{"op":"move","id":2,"parent":5,"at":0}
{"op":"hit","x":25,"y":0}
{"op":"hit","x":35,"y":0}
{"op":"move","id":4,"parent":3,"at":0}
{"op":"hit","x":35,"y":0}
{"op":"hit","x":45,"y":0}
"#;

const MOVES_BELOW_REPLIES: &[u8] =
    b"node 1\nnode 2\nnode 3\nnode 4\nnode 5\nhit 4 3 2 1\nhit 5 4 3 2 1\nok\nhit 2 3 1\nhit 2 4 3 1\nhit 2 5 4 3 1\nok\nhit 3 2 1\nhit 5 4 3 2 1\nok\nhit 4 3 2 1\nhit 5 4 3 2 1\nok\nhit 3 2 4 1\nhit 3 2 5 4 1\nok\nhit 3 5 4 1\nhit 3 2 5 4 1\nok\nhit 5 4 3 1\nhit 2 5 4 3 1\n";

/// The faults of moves in their order.
const FAULTS_OF_MOVES: &[u8] = br#"{"op":"move","id":1,"parent":1,"at":0}
{"op":"add","parent":0,"at":0,"kind":"block","boxes":[[0,0,0,100,100]],"style":{}}
{"op":"add","parent":1,"at":0,"kind":"block","boxes":[[0,0,0,100,100]],"style":{}}
{"op":"add","parent":2,"at":0,"kind":"block","boxes":[[0,0,0,100,100]],"style":{}}
{"op":"move","id":2,"parent":3,"at":0}
{"op":"move","id":2,"parent":2,"at":0}
{"op":"move","id":2,"parent":3,"at":9}
{"op":"move","id":3,"parent":1,"at":5}
{"op":"move","id":1,"parent":2,"at":0}
{"op":"move","id":2,"parent":0,"at":0}
{"op":"move","id":1,"parent":0,"at":0}
{"op":"move","id":9,"parent":0,"at":0}
{"op":"move","id":1,"parent":9,"at":0}
{"op":"add","parent":0,"at":0,"kind":"block","boxes":[[0,0,0,100,100]],"style":{}}
{"op":"hit","x":0,"y":0}
"#;

const FAULTS_OF_MOVES_REPLIES: &[u8] =
    b"err 4 absent\nnode 1\nnode 2\nnode 3\nerr 7 cycle\nerr 7 cycle\nerr 7 cycle\nerr 8 place\nerr 5 root\nerr 5 root\nerr 5 root\nerr 4 absent\nerr 4 absent\nerr 5 root\nhit 3 2 1\n";

#[test]
fn trees_are_edited(rt: HostRuntime) -> Result<(), Fail> {
    for (script, replies) in [
        (ADDS, ADDS_REPLIES),
        (GROWING, GROWING_REPLIES),
        (REMOVES, REMOVES_REPLIES),
        (MOVES_AMONG_CHILDREN, MOVES_AMONG_CHILDREN_REPLIES),
        (MOVES_BELOW, MOVES_BELOW_REPLIES),
        (FAULTS_OF_MOVES, FAULTS_OF_MOVES_REPLIES),
    ] {
        assert_replies(&rt, rt.alloc(), script, replies)?;
    }
    Ok(())
}
