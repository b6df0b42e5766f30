// Boxes, texts, borders, corners and clips: scripts and their replies, worked out by hand.

/// An anchor moves a node and all below it, and a box is counted from the corner of the box that holds it.
pub const ANCHORS: &[u8] =
    br#"{"op":"add","parent":0,"at":0,"kind":"block","boxes":[[0,0,0,100,100]],"style":{}}
{"op":"add","parent":1,"at":0,"kind":"block","boxes":[[0,0,0,10,10]],"style":{}}
{"op":"add","parent":2,"at":0,"kind":"block","boxes":[[0,1,2,4,4]],"style":{}}
{"op":"add","parent":1,"at":1,"kind":"block","boxes":[],"style":{}}
{"op":"add","parent":4,"at":0,"kind":"block","boxes":[[0,0,0,3,3]],"style":{}}
{"op":"place","id":2,"anchor":[50,0],"boxes":[[0,5,5,10,10]],"max":[0,0]}
{"op":"place","id":3,"anchor":[2,-1],"boxes":[[0,1,2,4,4]],"max":[0,0]}
{"op":"place","id":4,"anchor":[7,7],"boxes":[],"max":[0,0]}
{"op":"hit","x":56,"y":6}
{"op":"hit","x":6,"y":6}
{"op":"hit","x":54,"y":5}
{"op":"hit","x":55,"y":5}
{"op":"hit","x":64,"y":14}
{"op":"hit","x":65,"y":14}
{"op":"hit","x":57,"y":6}
{"op":"hit","x":58,"y":6}
{"op":"hit","x":61,"y":9}
{"op":"hit","x":62,"y":9}
{"op":"hit","x":58,"y":10}
{"op":"hit","x":6,"y":7}
{"op":"hit","x":7,"y":7}
{"op":"hit","x":9,"y":9}
{"op":"hit","x":10,"y":9}
{"op":"place","id":1,"anchor":[10,20],"boxes":[[0,-4,0,100,100]],"max":[0,0]}
{"op":"hit","x":12,"y":27}
{"op":"hit","x":13,"y":27}
{"op":"hit","x":60,"y":25}
{"op":"hit","x":61,"y":25}
{"op":"hit","x":63,"y":26}
{"op":"hit","x":64,"y":26}
"#;

pub const ANCHORS_REPLIES: &[u8] =
    b"node 1\nnode 2\nnode 3\nnode 4\nnode 5\nok\nok\nok\nhit 2 1\nhit 1\nhit 1\nhit 2 1\nhit 2 1\nhit 1\nhit 2 1\nhit 3 2 1\nhit 3 2 1\nhit 2 1\nhit 2 1\nhit 1\nhit 5 1\nhit 5 1\nhit 1\nok\nhit 1\nhit 5 1\nhit 1\nhit 2 1\nhit 2 1\nhit 3 2 1\n";

/// The right and lower edges of the viewport are inside of it, also once it is resized.
pub const RESIZED: &[u8] = br#"{"op":"resize","w":100,"h":80,"max":[0,0]}
{"op":"add","parent":0,"at":0,"kind":"block","boxes":[[0,0,0,100,80]],"style":{}}
{"op":"add","parent":1,"at":0,"kind":"block","boxes":[[0,90,70,20,20]],"style":{}}
{"op":"hit","x":89,"y":70}
{"op":"hit","x":90,"y":70}
{"op":"hit","x":100,"y":80}
{"op":"hit","x":101,"y":80}
{"op":"hit","x":100,"y":81}
{"op":"hit","x":-1,"y":0}
"#;

pub const RESIZED_REPLIES: &[u8] = b"ok\nnode 1\nnode 2\nhit 1\nhit 2 1\nhit 2 1\nhit\nhit\nhit\n";

/// A text is hit as its parent, and borders move what is inside.
pub const TEXT_IN_BORDERS: &[u8] =
    br#"{"op":"add","parent":0,"at":0,"kind":"block","boxes":[[0,0,0,100,100]],"style":{"border":[0,0,0,10]}}
{"op":"add","parent":1,"at":0,"kind":"inline","boxes":[[0,5,5,20,10]],"style":{"position":"relative","border":[1,0,0,1]}}
{"op":"add","parent":2,"at":0,"kind":"text","boxes":[[0,5,5,20,10]],"style":{}}
{"op":"add","parent":2,"at":1,"kind":"block","boxes":[[0,0,0,4,4]],"style":{"position":"absolute"}}
{"op":"hit","x":14,"y":5}
{"op":"hit","x":15,"y":5}
{"op":"hit","x":16,"y":6}
{"op":"hit","x":19,"y":9}
{"op":"hit","x":20,"y":6}
{"op":"hit","x":34,"y":14}
{"op":"hit","x":35,"y":14}
"#;

pub const TEXT_IN_BORDERS_REPLIES: &[u8] =
    b"node 1\nnode 2\nnode 3\nnode 4\nhit 1\nhit 2 1\nhit 4 2 1\nhit 4 2 1\nhit 2 1\nhit 2 1\nhit 1\n";

/// Hidden boxes and those without pointer events are passed over, a text by the values of its parent; the root is always there.
pub const PASSED_OVER: &[u8] =
    br#"{"op":"add","parent":0,"at":0,"kind":"block","boxes":[[0,0,0,100,100]],"style":{}}
{"op":"add","parent":1,"at":0,"kind":"block","boxes":[[0,0,0,50,50]],"style":{}}
{"op":"add","parent":2,"at":0,"kind":"block","boxes":[[0,0,0,20,20]],"style":{}}
{"op":"add","parent":3,"at":0,"kind":"text","boxes":[[0,0,0,30,30]],"style":{}}
{"op":"add","parent":1,"at":1,"kind":"image","boxes":[[0,0,0,50,50]],"style":{}}
{"op":"style","id":2,"style":{"pointer-events":"none"}}
{"op":"style","id":5,"style":{"visibility":"hidden"}}
{"op":"hit","x":5,"y":5}
{"op":"hit","x":25,"y":25}
{"op":"style","id":3,"style":{"pointer-events":"stroke"}}
{"op":"style","id":1,"style":{"pointer-events":"none"}}
{"op":"hit","x":5,"y":5}
{"op":"hit","x":25,"y":25}
{"op":"hit","x":35,"y":35}
{"op":"hit","x":60,"y":60}
"#;

pub const PASSED_OVER_REPLIES: &[u8] =
    b"node 1\nnode 2\nnode 3\nnode 4\nnode 5\nok\nok\nhit 1\nhit 1\nok\nok\nhit 3 1\nhit 3 1\nhit 1\nhit 1\n";

/// The content of an image lies above a block that comes after its box, inside the padding curve alone.
pub const ROUNDED_CONTENT: &[u8] =
    br#"{"op":"add","parent":0,"at":0,"kind":"block","boxes":[[0,0,0,200,200]],"style":{}}
{"op":"add","parent":1,"at":0,"kind":"image","boxes":[[0,0,0,100,100]],"style":{"border":[10,10,10,10],"radii":[50,50,50,50,50,50,50,50],"display":"block"}}
{"op":"add","parent":1,"at":1,"kind":"block","boxes":[[0,0,0,100,100]],"style":{}}
{"op":"hit","x":14,"y":14}
{"op":"hit","x":15,"y":15}
{"op":"hit","x":21,"y":21}
{"op":"hit","x":22,"y":22}
"#;

pub const ROUNDED_CONTENT_REPLIES: &[u8] =
    b"node 1\nnode 2\nnode 3\nhit 3 1\nhit 3 2 1\nhit 3 2 1\nhit 2 3 1\n";

/// What holds an absolute node changes with the position of an ancestor, and once a move takes it away from that ancestor.
pub const HELD: &[u8] =
    br#"{"op":"add","parent":0,"at":0,"kind":"block","boxes":[[0,0,0,100,100]],"style":{}}
{"op":"add","parent":1,"at":0,"kind":"block","boxes":[[0,10,10,50,50]],"style":{}}
{"op":"add","parent":2,"at":0,"kind":"block","boxes":[[0,0,0,40,40]],"style":{}}
{"op":"add","parent":3,"at":0,"kind":"block","boxes":[[0,0,0,5,5]],"style":{"position":"absolute"}}
{"op":"hit","x":2,"y":2}
{"op":"style","id":2,"style":{"position":"relative"}}
{"op":"hit","x":2,"y":2}
{"op":"hit","x":12,"y":12}
{"op":"move","id":3,"parent":1,"at":1}
{"op":"hit","x":2,"y":2}
{"op":"hit","x":12,"y":12}
"#;

pub const HELD_REPLIES: &[u8] =
    b"node 1\nnode 2\nnode 3\nnode 4\nhit 4 1\nok\nhit 1\nhit 4 3 2 1\nok\nhit 4 3 1\nhit 2 3 1\n";

/// A block that reaches far out of the viewport, and one past its edge until it is wide enough.
pub const FAR_OUT: &[u8] =
    br#"{"op":"add","parent":0,"at":0,"kind":"block","boxes":[[0,0,0,100,100]],"style":{}}
{"op":"add","parent":1,"at":0,"kind":"block","boxes":[[0,-50,-50,100,100]],"style":{"transform":[["scale",1000,1000,1]]}}
{"op":"add","parent":1,"at":1,"kind":"block","boxes":[[0,90000,0,10,10]],"style":{}}
{"op":"hit","x":99,"y":99}
{"op":"hit","x":90005,"y":5}
{"op":"resize","w":100000,"h":100,"max":[0,0]}
{"op":"hit","x":90005,"y":5}
"#;

pub const FAR_OUT_REPLIES: &[u8] = b"node 1\nnode 2\nnode 3\nhit 2 1\nhit\nok\nhit 3 1\n";
