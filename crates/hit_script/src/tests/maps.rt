// Transformed pages, and edits that pass the bound on maps: scripts and their replies, worked out by hand.

/// A block turned by a matrix of fifths, whose edges are half open in its own space.
pub const TURNED: &[u8] =
    br#"{"op":"add","parent":0,"at":0,"kind":"block","boxes":[[0,0,0,100,100]],"style":{}}
{"op":"add","parent":1,"at":0,"kind":"block","boxes":[[0,-10,-10,20,20]],"style":{"transform":[["matrix",3,4,-4,3,0,0,5]]}}
{"op":"place","id":2,"anchor":[50,50],"boxes":[[0,-10,-10,20,20]],"max":[0,0]}
{"op":"hit","x":63,"y":52}
{"op":"hit","x":64,"y":52}
{"op":"hit","x":52,"y":36}
{"op":"hit","x":52,"y":35}
"#;

pub const TURNED_REPLIES: &[u8] = b"node 1\nnode 2\nok\nhit 2 1\nhit 1\nhit 2 1\nhit 1\n";

/// A singular map admits nothing, and hides what its node holds, until the transform goes.
pub const SINGULAR: &[u8] =
    br#"{"op":"add","parent":0,"at":0,"kind":"block","boxes":[[0,0,0,100,100]],"style":{}}
{"op":"add","parent":1,"at":0,"kind":"block","boxes":[[0,10,10,20,20]],"style":{"transform":[["scale",0,1,1]]}}
{"op":"add","parent":2,"at":0,"kind":"block","boxes":[[0,0,0,50,50]],"style":{"position":"fixed"}}
{"op":"hit","x":20,"y":20}
{"op":"style","id":2,"style":{}}
{"op":"hit","x":20,"y":20}
"#;

pub const SINGULAR_REPLIES: &[u8] = b"node 1\nnode 2\nnode 3\nhit 1\nok\nhit 3 2 1\n";

/// A transform, also one that moves nothing, holds what is fixed below it.
pub const FIXED: &[u8] =
    br#"{"op":"add","parent":0,"at":0,"kind":"block","boxes":[[0,0,0,100,100]],"style":{}}
{"op":"add","parent":1,"at":0,"kind":"block","boxes":[[0,20,20,60,60]],"style":{}}
{"op":"add","parent":2,"at":0,"kind":"block","boxes":[[0,0,0,60,60]],"style":{}}
{"op":"add","parent":3,"at":0,"kind":"block","boxes":[[0,0,0,10,10]],"style":{"position":"fixed"}}
{"op":"hit","x":5,"y":5}
{"op":"style","id":2,"style":{"transform":[["translate",0,0]]}}
{"op":"hit","x":5,"y":5}
{"op":"hit","x":25,"y":25}
{"op":"style","id":2,"style":{}}
{"op":"hit","x":5,"y":5}
"#;

pub const FIXED_REPLIES: &[u8] =
    b"node 1\nnode 2\nnode 3\nnode 4\nhit 4 1\nok\nhit 1\nhit 4 3 2 1\nok\nhit 4 1\n";

/// The fourth scale of 9,999 / 10,000 inside another passes the bound by its denominator; it uses up no id.
pub const DEEP_SCALES: &[u8] =
    br#"{"op":"add","parent":0,"at":0,"kind":"block","boxes":[[0,0,0,100,100]],"style":{}}
{"op":"add","parent":1,"at":0,"kind":"block","boxes":[[0,0,0,100,100]],"style":{"origin":[0,0],"transform":[["matrix",9999,0,0,9999,0,0,10000]]}}
{"op":"add","parent":2,"at":0,"kind":"block","boxes":[[0,0,0,100,100]],"style":{"origin":[0,0],"transform":[["matrix",9999,0,0,9999,0,0,10000]]}}
{"op":"add","parent":3,"at":0,"kind":"block","boxes":[[0,0,0,100,100]],"style":{"origin":[0,0],"transform":[["matrix",9999,0,0,9999,0,0,10000]]}}
{"op":"add","parent":4,"at":0,"kind":"block","boxes":[[0,0,0,100,100]],"style":{"origin":[0,0],"transform":[["matrix",9999,0,0,9999,0,0,10000]]}}
{"op":"hit","x":50,"y":50}
{"op":"add","parent":4,"at":0,"kind":"block","boxes":[],"style":{}}
"#;

pub const DEEP_SCALES_REPLIES: &[u8] =
    b"node 1\nnode 2\nnode 3\nnode 4\nerr 11 bound\nhit 4 3 2 1\nnode 5\n";

/// A transform of the root, and a move below others, pass the bound for a node further in.
pub const SCALED_FROM_ABOVE: &[u8] =
    br#"{"op":"add","parent":0,"at":0,"kind":"block","boxes":[[0,0,0,100,100]],"style":{}}
{"op":"add","parent":1,"at":0,"kind":"block","boxes":[[0,0,0,100,100]],"style":{"origin":[0,0],"transform":[["matrix",9999,0,0,9999,0,0,10000]]}}
{"op":"add","parent":2,"at":0,"kind":"block","boxes":[[0,0,0,100,100]],"style":{"origin":[0,0],"transform":[["matrix",9999,0,0,9999,0,0,10000]]}}
{"op":"add","parent":3,"at":0,"kind":"block","boxes":[[0,0,0,100,100]],"style":{"origin":[0,0],"transform":[["matrix",9999,0,0,9999,0,0,10000]]}}
{"op":"style","id":1,"style":{"origin":[0,0],"transform":[["matrix",9999,0,0,9999,0,0,10000]]}}
{"op":"move","id":4,"parent":1,"at":0}
{"op":"style","id":1,"style":{"origin":[0,0],"transform":[["matrix",9999,0,0,9999,0,0,10000]]}}
{"op":"move","id":4,"parent":3,"at":0}
{"op":"hit","x":50,"y":50}
"#;

pub const SCALED_FROM_ABOVE_REPLIES: &[u8] =
    b"node 1\nnode 2\nnode 3\nnode 4\nerr 11 bound\nok\nok\nerr 11 bound\nhit 3 2 4 1\n";

/// Products at the bound, 2^44 in the matrix and 2^70 in the translation, and one past it; and one that is small again.
pub const AT_THE_BOUND: &[u8] =
    br#"{"op":"add","parent":0,"at":0,"kind":"block","boxes":[[0,0,0,100,100]],"style":{}}
{"op":"add","parent":1,"at":0,"kind":"block","boxes":[[0,0,0,4,4]],"style":{"origin":[0,0],"transform":[["scale",4194304,4194304,1],["scale",4194304,4194304,1]]}}
{"op":"hit","x":50,"y":50}
{"op":"style","id":2,"style":{"origin":[0,0],"transform":[["matrix",4194304,0,1,1,0,0,1],["matrix",4194304,1,0,1,0,0,1]]}}
{"op":"hit","x":50,"y":50}
{"op":"style","id":2,"style":{"origin":[0,0],"transform":[["scale",1073741824,1,1],["matrix",1,0,0,1,1099511627776,0,1]]}}
{"op":"style","id":2,"style":{"origin":[0,0],"transform":[["matrix",1073741824,0,0,1,1,0,1],["matrix",1,0,0,1,1099511627776,0,1]]}}
{"op":"style","id":2,"style":{"origin":[0,0],"transform":[["scale",1073741824,1,1],["scale",1073741824,1,1],["scale",0,0,1]]}}
{"op":"hit","x":50,"y":50}
{"op":"style","id":2,"style":{}}
{"op":"hit","x":3,"y":3}
"#;

pub const AT_THE_BOUND_REPLIES: &[u8] =
    b"node 1\nnode 2\nhit 2 1\nerr 11 bound\nhit 2 1\nok\nerr 11 bound\nerr 11 bound\nhit 1\nok\nhit 2 1\n";

/// A style and a move that would double a map at the bound further in are refused, and leave all below the node where it is;
/// without that map the style is taken.
pub const REFUSED_ABOVE: &[u8] =
    br#"{"op":"add","parent":0,"at":0,"kind":"block","boxes":[[0,0,0,100,100]],"style":{}}
{"op":"add","parent":1,"at":0,"kind":"block","boxes":[[0,10,10,60,60]],"style":{}}
{"op":"add","parent":2,"at":0,"kind":"block","boxes":[[0,10,10,40,40]],"style":{}}
{"op":"add","parent":3,"at":0,"kind":"block","boxes":[[0,0,0,1,1]],"style":{"origin":[0,0],"transform":[["scale",4194304,4194304,1],["scale",4194304,4194304,1]]}}
{"op":"hit","x":25,"y":25}
{"op":"style","id":2,"style":{"origin":[0,0],"transform":[["scale",2,2,1]]}}
{"op":"hit","x":25,"y":25}
{"op":"hit","x":15,"y":15}
{"op":"add","parent":1,"at":1,"kind":"block","boxes":[[0,80,80,10,10]],"style":{"origin":[0,0],"transform":[["scale",2,2,1]]}}
{"op":"hit","x":85,"y":85}
{"op":"move","id":3,"parent":5,"at":0}
{"op":"hit","x":25,"y":25}
{"op":"style","id":4,"style":{}}
{"op":"hit","x":20,"y":20}
{"op":"hit","x":21,"y":21}
{"op":"style","id":2,"style":{"origin":[0,0],"transform":[["scale",2,2,1]]}}
{"op":"hit","x":25,"y":25}
{"op":"hit","x":31,"y":31}
{"op":"hit","x":32,"y":32}
{"op":"hit","x":85,"y":85}
"#;

pub const REFUSED_ABOVE_REPLIES: &[u8] =
    b"node 1\nnode 2\nnode 3\nnode 4\nhit 4 3 2 1\nerr 11 bound\nhit 4 3 2 1\nhit 2 1\nnode 5\nhit 5 4 1\nerr 11 bound\nhit 4 3 2 1\nok\nhit 4 3 2 1\nhit 3 2 1\nok\nhit 2 1\nhit 4 3 2 1\nhit 3 2 1\nhit 5 3 2 1\n";
