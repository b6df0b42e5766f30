// Scrolled nodes, a scrolled viewport, and what clips: scripts and their replies, worked out by hand.

/// A fixed node stays where it is while the viewport scrolls, and the page goes up.
pub const FIXED_IN_A_SCROLLED_VIEWPORT: &[u8] =
    br#"{"op":"add","parent":0,"at":0,"kind":"block","boxes":[[0,0,0,100,100]],"style":{}}
{"op":"add","parent":1,"at":0,"kind":"block","boxes":[[0,20,20,60,60]],"style":{}}
{"op":"add","parent":2,"at":0,"kind":"block","boxes":[[0,0,0,60,60]],"style":{}}
{"op":"add","parent":3,"at":0,"kind":"block","boxes":[[0,0,0,10,10]],"style":{"position":"fixed"}}
{"op":"resize","w":100,"h":100,"max":[0,200]}
{"op":"hit","x":25,"y":60}
{"op":"scrollview","x":0,"y":50}
{"op":"hit","x":5,"y":5}
{"op":"hit","x":5,"y":60}
{"op":"hit","x":25,"y":29}
"#;

pub const FIXED_IN_A_SCROLLED_VIEWPORT_REPLIES: &[u8] =
    b"node 1\nnode 2\nnode 3\nnode 4\nok\nhit 3 2 1\nok\nhit 4 1\nhit 1\nhit 3 2 1\n";

/// The scroll of the viewport is clamped between 0 and the greatest one, each coordinate by itself, also to a new greatest
/// one.
pub const CLAMPED_VIEWPORT: &[u8] =
    br#"{"op":"add","parent":0,"at":0,"kind":"block","boxes":[[0,0,0,100,100]],"style":{}}
{"op":"add","parent":1,"at":0,"kind":"block","boxes":[[0,20,20,20,20]],"style":{}}
{"op":"scrollview","x":10,"y":0}
{"op":"hit","x":39,"y":20}
{"op":"resize","w":100,"h":100,"max":[10,0]}
{"op":"scrollview","x":999,"y":-5}
{"op":"hit","x":9,"y":20}
{"op":"hit","x":10,"y":20}
{"op":"hit","x":30,"y":20}
{"op":"resize","w":100,"h":100,"max":[4,7]}
{"op":"hit","x":15,"y":20}
{"op":"hit","x":16,"y":20}
{"op":"hit","x":16,"y":19}
"#;

pub const CLAMPED_VIEWPORT_REPLIES: &[u8] =
    b"node 1\nnode 2\nok\nhit 2 1\nok\nok\nhit 1\nhit 2 1\nhit 1\nok\nhit 1\nhit 2 1\nhit 1\n";

/// A scroll of a node that doesn't clip is kept, and acts once the node clips; a place clamps it to its greatest one.
pub const SCROLLED_BEFORE_IT_CLIPS: &[u8] =
    br#"{"op":"add","parent":0,"at":0,"kind":"block","boxes":[[0,0,0,100,100]],"style":{}}
{"op":"add","parent":1,"at":0,"kind":"block","boxes":[[0,0,0,40,40]],"style":{}}
{"op":"add","parent":2,"at":0,"kind":"block","boxes":[[0,0,0,40,40]],"style":{}}
{"op":"place","id":2,"anchor":[0,0],"boxes":[[0,0,0,40,40]],"max":[0,30]}
{"op":"scroll","id":2,"x":0,"y":20}
{"op":"hit","x":5,"y":30}
{"op":"style","id":2,"style":{"overflow":"auto"}}
{"op":"hit","x":5,"y":19}
{"op":"hit","x":5,"y":20}
{"op":"place","id":2,"anchor":[0,0],"boxes":[[0,0,0,40,40]],"max":[0,15]}
{"op":"hit","x":5,"y":24}
{"op":"hit","x":5,"y":25}
{"op":"style","id":2,"style":{"overflow":"visible"}}
{"op":"hit","x":5,"y":25}
"#;

pub const SCROLLED_BEFORE_IT_CLIPS_REPLIES: &[u8] =
    b"node 1\nnode 2\nnode 3\nok\nok\nhit 3 2 1\nok\nhit 3 2 1\nhit 2 1\nok\nhit 3 2 1\nhit 2 1\nok\nhit 3 2 1\n";

/// A scroll of no node, and of an image, which takes none; the root takes one.
pub const REFUSED_SCROLLS: &[u8] =
    br#"{"op":"add","parent":0,"at":0,"kind":"block","boxes":[[0,0,0,100,100]],"style":{}}
{"op":"add","parent":1,"at":0,"kind":"image","boxes":[[0,0,0,10,10]],"style":{}}
{"op":"scroll","id":3,"x":0,"y":0}
{"op":"scroll","id":2,"x":0,"y":0}
{"op":"scroll","id":1,"x":0,"y":0}
{"op":"scroll","id":1,"x":0}
"#;

pub const REFUSED_SCROLLS_REPLIES: &[u8] =
    b"node 1\nnode 2\nerr 4 absent\nerr 6 kind\nok\nerr 3 command\n";

/// A node clips what has it among its containing blocks, so an absolute node escapes it until it is positioned. Its scroll
/// is clamped, and its clip doesn't move with it.
pub const CLIPPED: &[u8] =
    br#"{"op":"add","parent":0,"at":0,"kind":"block","boxes":[[0,0,0,100,100]],"style":{}}
{"op":"add","parent":1,"at":0,"kind":"block","boxes":[[0,10,10,40,40]],"style":{"overflow":"hidden"}}
{"op":"add","parent":2,"at":0,"kind":"block","boxes":[[0,0,0,20,80]],"style":{}}
{"op":"add","parent":2,"at":1,"kind":"block","boxes":[[0,60,0,20,90]],"style":{"position":"absolute"}}
{"op":"place","id":2,"anchor":[0,0],"boxes":[[0,10,10,40,40]],"max":[0,40]}
{"op":"scroll","id":2,"x":0,"y":30}
{"op":"hit","x":15,"y":45}
{"op":"hit","x":15,"y":55}
{"op":"hit","x":65,"y":85}
{"op":"hit","x":75,"y":45}
{"op":"scroll","id":2,"x":0,"y":999}
{"op":"hit","x":15,"y":49}
{"op":"style","id":2,"style":{"overflow":"hidden","position":"relative"}}
{"op":"hit","x":75,"y":45}
"#;

pub const CLIPPED_REPLIES: &[u8] =
    b"node 1\nnode 2\nnode 3\nnode 4\nok\nok\nhit 3 2 1\nhit 1\nhit 4 1\nhit 4 1\nok\nhit 3 2 1\nok\nhit 1\n";

/// The border box is rounded by the used radii, and clips by those of the padding curve.
pub const ROUNDED: &[u8] =
    br#"{"op":"add","parent":0,"at":0,"kind":"block","boxes":[[0,0,0,12800,12800]],"style":{}}
{"op":"add","parent":1,"at":0,"kind":"block","boxes":[[0,0,0,6400,2560]],"style":{"overflow":"hidden","border":[640,640,640,640],"radii":[639936,639936,639936,639936,639936,639936,639936,639936]}}
{"op":"add","parent":2,"at":0,"kind":"block","boxes":[[0,0,0,6400,2560]],"style":{}}
{"op":"hit","x":374,"y":374}
{"op":"hit","x":375,"y":375}
{"op":"hit","x":827,"y":827}
{"op":"hit","x":828,"y":828}
"#;

pub const ROUNDED_REPLIES: &[u8] = b"node 1\nnode 2\nnode 3\nhit 1\nhit 2 1\nhit 2 1\nhit 3 2 1\n";

/// The scroll of a node is clamped between 0 and the greatest one, each coordinate by itself, also to a new greatest one. The
/// child stands at (20, 50) less the scroll.
pub const CLAMPED_NODE: &[u8] =
    br#"{"op":"add","parent":0,"at":0,"kind":"block","boxes":[[0,0,0,100,100]],"style":{}}
{"op":"add","parent":1,"at":0,"kind":"block","boxes":[[0,0,0,100,100]],"style":{"overflow":"auto"}}
{"op":"add","parent":2,"at":0,"kind":"block","boxes":[[0,20,50,10,10]],"style":{}}
{"op":"add","parent":2,"at":1,"kind":"text","boxes":[],"style":{}}
{"op":"scroll","id":2,"x":5,"y":5}
{"op":"hit","x":20,"y":50}
{"op":"hit","x":19,"y":50}
{"op":"place","id":2,"anchor":[0,0],"boxes":[[0,0,0,100,100]],"max":[10,40]}
{"op":"hit","x":20,"y":50}
{"op":"hit","x":19,"y":50}
{"op":"scroll","id":2,"x":5,"y":30}
{"op":"hit","x":15,"y":20}
{"op":"hit","x":14,"y":20}
{"op":"hit","x":15,"y":19}
{"op":"scroll","id":2,"x":999,"y":-1}
{"op":"hit","x":10,"y":50}
{"op":"hit","x":9,"y":50}
{"op":"hit","x":10,"y":49}
{"op":"scroll","id":2,"x":3,"y":999}
{"op":"hit","x":17,"y":10}
{"op":"hit","x":16,"y":10}
{"op":"hit","x":17,"y":9}
{"op":"place","id":2,"anchor":[0,0],"boxes":[[0,0,0,100,100]],"max":[2,7]}
{"op":"hit","x":18,"y":43}
{"op":"hit","x":17,"y":43}
{"op":"hit","x":18,"y":42}
{"op":"place","id":2,"anchor":[0,0],"boxes":[[0,0,0,100,100]],"max":[99,99]}
{"op":"hit","x":18,"y":43}
{"op":"hit","x":17,"y":43}
{"op":"hit","x":18,"y":42}
{"op":"scroll","id":4,"x":1,"y":1}
{"op":"scroll","id":5,"x":1,"y":1}
{"op":"scroll","id":0,"x":1,"y":1}
{"op":"scroll","id":2,"x":67108864,"y":-67108864}
{"op":"scroll","id":2,"x":-67108864,"y":67108864}
{"op":"scroll","id":2,"x":67108865,"y":0}
{"op":"scroll","id":2,"x":-67108865,"y":0}
{"op":"scroll","id":2,"x":0,"y":67108865}
{"op":"scroll","id":2,"x":0,"y":-67108865}
{"op":"scrollview","x":67108864,"y":-67108864}
{"op":"scrollview","x":-67108864,"y":67108864}
{"op":"scrollview","x":67108865,"y":0}
{"op":"scrollview","x":-67108865,"y":0}
{"op":"scrollview","x":0,"y":67108865}
{"op":"scrollview","x":0,"y":-67108865}
{"op":"hit","x":0,"y":0}
"#;

pub const CLAMPED_NODE_REPLIES: &[u8] =
    b"node 1\nnode 2\nnode 3\nnode 4\nok\nhit 3 2 1\nhit 2 1\nok\nhit 3 2 1\nhit 2 1\nok\nhit 3 2 1\nhit 2 1\nhit 2 1\nok\nhit 3 2 1\nhit 2 1\nhit 2 1\nok\nhit 3 2 1\nhit 2 1\nhit 2 1\nok\nhit 3 2 1\nhit 2 1\nhit 2 1\nok\nhit 3 2 1\nhit 2 1\nhit 2 1\nerr 6 kind\nerr 4 absent\nerr 3 command\nok\nok\nerr 3 command\nerr 3 command\nerr 3 command\nerr 3 command\nok\nok\nerr 3 command\nerr 3 command\nerr 3 command\nerr 3 command\nhit 2 1\n";

/// A block container with a box clips; the root, an inline and a block without a box clip nothing.
pub const WHAT_CLIPS: &[u8] =
    br#"{"op":"add","parent":0,"at":0,"kind":"block","boxes":[[0,0,0,100,100]],"style":{"overflow":"hidden"}}
{"op":"add","parent":1,"at":0,"kind":"block","boxes":[[0,0,0,10,10]],"style":{"overflow":"hidden"}}
{"op":"add","parent":2,"at":0,"kind":"block","boxes":[[0,0,0,50,50]],"style":{}}
{"op":"add","parent":1,"at":1,"kind":"inline","boxes":[[0,0,0,10,10]],"style":{"overflow":"hidden"}}
{"op":"add","parent":4,"at":0,"kind":"block","boxes":[[0,0,20,50,50]],"style":{}}
{"op":"add","parent":1,"at":2,"kind":"block","boxes":[],"style":{"overflow":"hidden"}}
{"op":"add","parent":6,"at":0,"kind":"block","boxes":[[0,0,40,50,100]],"style":{}}
{"op":"add","parent":1,"at":3,"kind":"inline-block","boxes":[[0,0,0,10,10]],"style":{"overflow":"hidden"}}
{"op":"add","parent":8,"at":0,"kind":"block","boxes":[[0,0,0,50,50]],"style":{}}
{"op":"hit","x":5,"y":5}
{"op":"hit","x":15,"y":15}
{"op":"hit","x":15,"y":25}
{"op":"hit","x":15,"y":135}
"#;

pub const WHAT_CLIPS_REPLIES: &[u8] =
    b"node 1\nnode 2\nnode 3\nnode 4\nnode 5\nnode 6\nnode 7\nnode 8\nnode 9\nhit 9 8 4 3 2 1\nhit 1\nhit 5 1\nhit 7 1\n";

/// The scrolls of a node and of the viewport move what is deep below, each by itself and back again; node 6 is in node 5, but
/// the root holds it, so the viewport alone moves it.
pub const SCROLLED_FAR_ABOVE: &[u8] =
    br#"{"op":"add","parent":0,"at":0,"kind":"block","boxes":[[0,0,0,100,100]],"style":{}}
{"op":"add","parent":1,"at":0,"kind":"block","boxes":[[0,10,10,60,60]],"style":{"overflow":"auto"}}
{"op":"add","parent":2,"at":0,"kind":"block","boxes":[[0,0,0,40,80]],"style":{}}
{"op":"add","parent":3,"at":0,"kind":"block","boxes":[[0,5,5,20,20]],"style":{}}
{"op":"add","parent":4,"at":0,"kind":"block","boxes":[[0,5,5,10,10]],"style":{}}
{"op":"add","parent":5,"at":0,"kind":"block","boxes":[[0,90,50,5,5]],"style":{"position":"absolute"}}
{"op":"place","id":2,"anchor":[0,0],"boxes":[[0,10,10,60,60]],"max":[0,40]}
{"op":"resize","w":100,"h":100,"max":[0,50]}
{"op":"hit","x":25,"y":25}
{"op":"hit","x":92,"y":52}
{"op":"scroll","id":2,"x":0,"y":8}
{"op":"hit","x":25,"y":12}
{"op":"hit","x":25,"y":22}
{"op":"hit","x":25,"y":27}
{"op":"hit","x":92,"y":52}
{"op":"scrollview","x":0,"y":10}
{"op":"hit","x":25,"y":2}
{"op":"hit","x":25,"y":12}
{"op":"hit","x":25,"y":17}
{"op":"hit","x":92,"y":52}
{"op":"hit","x":92,"y":42}
{"op":"scroll","id":2,"x":0,"y":3}
{"op":"hit","x":25,"y":6}
{"op":"hit","x":25,"y":7}
{"op":"scrollview","x":0,"y":0}
{"op":"hit","x":25,"y":16}
{"op":"hit","x":25,"y":17}
"#;

pub const SCROLLED_FAR_ABOVE_REPLIES: &[u8] =
    b"node 1\nnode 2\nnode 3\nnode 4\nnode 5\nnode 6\nok\nok\nhit 5 4 3 2 1\nhit 6 1\nok\nhit 5 4 3 2 1\nhit 4 3 2 1\nhit 3 2 1\nhit 6 1\nok\nhit 5 4 3 2 1\nhit 4 3 2 1\nhit 3 2 1\nhit 1\nhit 6 1\nok\nhit 4 3 2 1\nhit 5 4 3 2 1\nok\nhit 4 3 2 1\nhit 5 4 3 2 1\n";
