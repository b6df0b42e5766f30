// Pages whose inherited values decide what is a target, worked out by hand: scripts and their replies.

/// Members of a negative level, a float, blocks, a text, and members of the levels 0 and 1; a block that is then hidden hides
/// its text, and no sibling.
pub const HIDDEN: &[u8] =
    br#"{"op":"add","parent":0,"at":0,"kind":"block","boxes":[[0,0,0,100,100]],"style":{}}
{"op":"add","parent":1,"at":0,"kind":"block","boxes":[[0,0,0,100,100]],"style":{"position":"relative","z":1}}
{"op":"add","parent":1,"at":1,"kind":"block","boxes":[[0,0,0,100,100]],"style":{"position":"relative"}}
{"op":"add","parent":1,"at":2,"kind":"block","boxes":[[0,0,0,100,100]],"style":{}}
{"op":"add","parent":4,"at":0,"kind":"text","boxes":[[0,0,0,100,100]],"style":{}}
{"op":"add","parent":1,"at":3,"kind":"block","boxes":[[0,0,0,100,100]],"style":{"float":"left"}}
{"op":"add","parent":1,"at":4,"kind":"block","boxes":[[0,0,0,100,100]],"style":{}}
{"op":"add","parent":1,"at":5,"kind":"block","boxes":[[0,0,0,100,100]],"style":{"position":"relative","z":-1}}
{"op":"hit","x":50,"y":50}
{"op":"style","id":4,"style":{"visibility":"hidden"}}
{"op":"hit","x":50,"y":50}
"#;

pub const HIDDEN_REPLIES: &[u8] =
    b"node 1\nnode 2\nnode 3\nnode 4\nnode 5\nnode 6\nnode 7\nnode 8\nhit 2 3 4 6 7 8 1\nok\nhit 2 3 6 7 8 1\n";

/// What takes no pointer hands that on, until a value is declared below; the root comes last whatever it declares.
pub const NO_TARGETS: &[u8] =
    br#"{"op":"add","parent":0,"at":0,"kind":"block","boxes":[[0,0,0,100,100]],"style":{}}
{"op":"add","parent":1,"at":0,"kind":"block","boxes":[[0,0,0,50,50]],"style":{"pointer-events":"none"}}
{"op":"add","parent":2,"at":0,"kind":"block","boxes":[[0,0,0,20,20]],"style":{}}
{"op":"hit","x":5,"y":5}
{"op":"style","id":3,"style":{"pointer-events":"stroke"}}
{"op":"hit","x":5,"y":5}
{"op":"style","id":1,"style":{"pointer-events":"none"}}
{"op":"hit","x":5,"y":5}
{"op":"top","x":30,"y":30}
"#;

pub const NO_TARGETS_REPLIES: &[u8] =
    b"node 1\nnode 2\nnode 3\nhit 1\nok\nhit 3 1\nok\nhit 3 1\ntop 1\n";
