// Pages whose order of painting was worked out by hand: scripts and their replies.

/// A positioned block without a level leaves its members to the root, until it has a level; a member that moves out of it is the
/// root's again.
pub const AUTO_LEVEL: &[u8] =
    br#"{"op":"add","parent":0,"at":0,"kind":"block","boxes":[[0,0,0,100,100]],"style":{}}
{"op":"add","parent":1,"at":0,"kind":"block","boxes":[[0,0,0,50,50]],"style":{"position":"relative"}}
{"op":"add","parent":2,"at":0,"kind":"block","boxes":[[0,0,0,50,50]],"style":{"position":"relative","z":5}}
{"op":"add","parent":1,"at":1,"kind":"block","boxes":[[0,0,0,50,50]],"style":{"position":"relative","z":1}}
{"op":"hit","x":10,"y":10}
{"op":"style","id":2,"style":{"position":"relative","z":0}}
{"op":"hit","x":10,"y":10}
{"op":"move","id":3,"parent":1,"at":2}
{"op":"hit","x":10,"y":10}
{"op":"remove","id":2}
{"op":"hit","x":10,"y":10}
"#;

pub const AUTO_LEVEL_REPLIES: &[u8] =
    b"node 1\nnode 2\nnode 3\nnode 4\nhit 3 4 2 1\nok\nhit 4 3 2 1\nok\nhit 3 4 2 1\nok\nhit 3 4 1\n";

/// An inline on two lines, and one inside it on the first.
pub const LINES: &[u8] =
    br#"{"op":"add","parent":0,"at":0,"kind":"block","boxes":[[0,0,0,100,100]],"style":{}}
{"op":"add","parent":1,"at":0,"kind":"block","boxes":[[0,0,0,100,100]],"style":{}}
{"op":"add","parent":2,"at":0,"kind":"inline","boxes":[[0,0,0,50,20],[1,0,10,50,20]],"style":{}}
{"op":"add","parent":3,"at":0,"kind":"inline","boxes":[[0,0,0,50,20]],"style":{}}
{"op":"hit","x":10,"y":15}
{"op":"hit","x":10,"y":5}
"#;

pub const LINES_REPLIES: &[u8] = b"node 1\nnode 2\nnode 3\nnode 4\nhit 3 4 2 1\nhit 4 3 2 1\n";

/// The content of an image is painted on the lines, inside its borders; the root holds no text.
pub const IMAGE: &[u8] =
    br#"{"op":"add","parent":0,"at":0,"kind":"block","boxes":[[0,0,0,100,100]],"style":{}}
{"op":"add","parent":1,"at":0,"kind":"image","boxes":[[0,0,0,50,50]],"style":{"display":"block"}}
{"op":"add","parent":1,"at":1,"kind":"block","boxes":[[0,0,0,50,50]],"style":{}}
{"op":"hit","x":10,"y":10}
{"op":"style","id":2,"style":{"display":"block","border":[5,5,5,5]}}
{"op":"hit","x":2,"y":2}
{"op":"hit","x":10,"y":10}
{"op":"style","id":3,"style":{"opacity":999}}
{"op":"hit","x":10,"y":10}
{"op":"add","parent":1,"at":2,"kind":"text","boxes":[],"style":{}}
"#;

pub const IMAGE_REPLIES: &[u8] =
    b"node 1\nnode 2\nnode 3\nhit 2 3 1\nok\nhit 3 2 1\nhit 2 3 1\nok\nhit 3 2 1\nerr 6 kind\n";

/// An absolute block is placed from the nearest positioned ancestor, also after a move.
pub const HOLDERS: &[u8] =
    br#"{"op":"add","parent":0,"at":0,"kind":"block","boxes":[[0,0,0,100,100]],"style":{}}
{"op":"add","parent":1,"at":0,"kind":"block","boxes":[[0,10,10,50,50]],"style":{}}
{"op":"add","parent":2,"at":0,"kind":"block","boxes":[[0,0,0,40,40]],"style":{}}
{"op":"add","parent":3,"at":0,"kind":"block","boxes":[[0,0,0,5,5]],"style":{"position":"absolute"}}
{"op":"hit","x":2,"y":2}
{"op":"style","id":2,"style":{"position":"relative"}}
{"op":"hit","x":2,"y":2}
{"op":"hit","x":12,"y":12}
{"op":"move","id":3,"parent":1,"at":1}
{"op":"hit","x":2,"y":2}
{"op":"hit","x":12,"y":12}
"#;

pub const HOLDERS_REPLIES: &[u8] =
    b"node 1\nnode 2\nnode 3\nnode 4\nhit 4 1\nok\nhit 1\nhit 4 3 2 1\nok\nhit 4 3 1\nhit 2 3 1\n";

/// All boxes lie over one another, so that each answer has the whole order from above, after each edit: members of positive and
/// of negative levels, a context that stops being one, a move into another, an opacity that makes one, boxes that go and come
/// back, and another root.
pub const ALL_AT_ONE_POINT: &[u8] =
    br#"{"op":"add","parent":0,"at":0,"kind":"block","boxes":[[0,0,0,100,100]],"style":{}}
{"op":"hit","x":50,"y":50}
{"op":"add","parent":1,"at":0,"kind":"block","boxes":[[0,0,0,100,100]],"style":{"position":"relative","z":1}}
{"op":"hit","x":50,"y":50}
{"op":"add","parent":1,"at":1,"kind":"block","boxes":[[0,0,0,100,100]],"style":{"position":"relative","z":-1}}
{"op":"hit","x":50,"y":50}
{"op":"add","parent":2,"at":0,"kind":"block","boxes":[[0,0,0,100,100]],"style":{"position":"relative","z":5}}
{"op":"hit","x":50,"y":50}
{"op":"add","parent":1,"at":2,"kind":"block","boxes":[[0,0,0,100,100]],"style":{"position":"relative","z":3}}
{"op":"hit","x":50,"y":50}
{"op":"style","id":2,"style":{}}
{"op":"hit","x":50,"y":50}
{"op":"move","id":4,"parent":3,"at":0}
{"op":"hit","x":50,"y":50}
{"op":"style","id":3,"style":{"position":"relative"}}
{"op":"hit","x":50,"y":50}
{"op":"style","id":3,"style":{"opacity":500}}
{"op":"hit","x":50,"y":50}
{"op":"remove","id":5}
{"op":"hit","x":50,"y":50}
{"op":"move","id":3,"parent":2,"at":0}
{"op":"hit","x":50,"y":50}
{"op":"add","parent":1,"at":1,"kind":"block","boxes":[[0,0,0,100,100]],"style":{}}
{"op":"hit","x":50,"y":50}
{"op":"style","id":2,"style":{"position":"relative","z":-2}}
{"op":"hit","x":50,"y":50}
{"op":"place","id":4,"anchor":[0,0],"boxes":[],"max":[0,0]}
{"op":"hit","x":50,"y":50}
{"op":"place","id":4,"anchor":[0,0],"boxes":[[0,0,0,100,100]],"max":[0,0]}
{"op":"hit","x":50,"y":50}
{"op":"remove","id":1}
{"op":"hit","x":50,"y":50}
{"op":"add","parent":0,"at":0,"kind":"block","boxes":[[0,0,0,100,100]],"style":{}}
{"op":"hit","x":50,"y":50}
{"op":"add","parent":7,"at":0,"kind":"block","boxes":[[0,0,0,100,100]],"style":{}}
{"op":"hit","x":50,"y":50}
{"op":"add","parent":7,"at":1,"kind":"block","boxes":[[0,0,0,100,100]],"style":{"position":"relative","z":-1}}
{"op":"hit","x":50,"y":50}
"#;

pub const ALL_AT_ONE_POINT_REPLIES: &[u8] =
    b"node 1\nhit 1\nnode 2\nhit 2 1\nnode 3\nhit 2 3 1\nnode 4\nhit 4 2 3 1\nnode 5\nhit 5 4 2 3 1\nok\nhit 4 5 2 3 1\nok\nhit 5 2 4 3 1\nok\nhit 4 5 3 2 1\nok\nhit 5 4 3 2 1\nok\nhit 4 3 2 1\nok\nhit 4 3 2 1\nnode 6\nhit 4 3 6 2 1\nok\nhit 6 4 3 2 1\nok\nhit 6 3 2 1\nok\nhit 6 4 3 2 1\nok\nhit\nnode 7\nhit 7\nnode 8\nhit 8 7\nnode 9\nhit 8 9 7\n";
