// SVG content: scripts and their replies, worked out by hand.

/// A viewBox that `meet` fits into its svg, `slice` covers it with, and `none` stretches over it; a side of 0 shows nothing. An
/// svg clips what passes it, unless its overflow is visible, or auto, which acts as visible on it.
pub const VIEWS: &[u8] =
    br#"{"op":"add","parent":0,"at":0,"kind":"block","boxes":[[0,0,0,300,300]],"style":{}}
{"op":"add","parent":1,"at":0,"kind":"svg","boxes":[[0,0,0,200,100]],"style":{}}
{"op":"add","parent":2,"at":0,"kind":"shape","boxes":[],"style":{}}
{"op":"shape","id":3,"shape":["rect",0,0,40960,40960,0,0]}
{"op":"shape","id":2,"shape":["view",0,0,40960,40960,"xMidYMid","meet"]}
{"op":"hit","x":49,"y":50}
{"op":"hit","x":50,"y":50}
{"op":"hit","x":149,"y":50}
{"op":"hit","x":150,"y":50}
{"op":"shape","id":2,"shape":["view",0,0,40960,40960,"xMidYMid","slice"]}
{"op":"hit","x":49,"y":50}
{"op":"shape","id":2,"shape":["view",0,0,40960,40960,"none","meet"]}
{"op":"hit","x":49,"y":50}
{"op":"shape","id":2,"shape":["view",0,0,0,40960,"xMidYMid","meet"]}
{"op":"hit","x":50,"y":50}
{"op":"shape","id":2,"shape":["view",0,0,40960,40960,"xMidYMid","slice"]}
{"op":"hit","x":50,"y":120}
{"op":"style","id":2,"style":{"overflow":"auto"}}
{"op":"hit","x":50,"y":120}
"#;

pub const VIEWS_REPLIES: &[u8] =
    b"node 1\nnode 2\nnode 3\nok\nok\nhit 2 1\nhit 3 2 1\nhit 3 2 1\nhit 2 1\nok\nhit 3 2 1\nok\nhit 3 2 1\nok\nhit 2 1\nok\nhit 1\nok\nhit 3 1\n";

/// A star of five points: its middle is wound round twice, so the evenodd rule leaves it out. Its stroke of two units is closed,
/// and counts by `pointer-events` though it isn't painted.
pub const STAR: &[u8] =
    br#"{"op":"add","parent":0,"at":0,"kind":"block","boxes":[[0,0,0,200,200]],"style":{}}
{"op":"add","parent":1,"at":0,"kind":"svg","boxes":[[0,0,0,128,128]],"style":{}}
{"op":"add","parent":2,"at":0,"kind":"shape","boxes":[],"style":{}}
{"op":"shape","id":3,"shape":["polygon",[3200,0,5120,6400,0,2240,6400,2240,1280,6400]]}
{"op":"hit","x":50,"y":50}
{"op":"style","id":3,"style":{"fill-rule":"evenodd"}}
{"op":"hit","x":50,"y":50}
{"op":"hit","x":50,"y":10}
{"op":"style","id":3,"style":{"pointer-events":"visibleStroke","stroke-width":128}}
{"op":"hit","x":50,"y":35}
{"op":"hit","x":50,"y":36}
{"op":"hit","x":50,"y":37}
{"op":"style","id":3,"style":{"pointer-events":"painted","visibility":"hidden"}}
{"op":"hit","x":50,"y":50}
"#;

pub const STAR_REPLIES: &[u8] =
    b"node 1\nnode 2\nnode 3\nok\nhit 3 2 1\nok\nhit 2 1\nhit 3 2 1\nok\nhit 3 2 1\nhit 3 2 1\nhit 2 1\nok\nhit 3 2 1\n";

/// The ends of a stroke of 20 units: butt, round and square.
pub const CAPS: &[u8] =
    br#"{"op":"add","parent":0,"at":0,"kind":"block","boxes":[[0,0,0,200,200]],"style":{}}
{"op":"add","parent":1,"at":0,"kind":"svg","boxes":[[0,0,0,200,200]],"style":{}}
{"op":"add","parent":2,"at":0,"kind":"shape","boxes":[],"style":{}}
{"op":"shape","id":3,"shape":["polyline",[1280,3200,3840,3200]]}
{"op":"style","id":3,"style":{"fill":"none","stroke":"paint","stroke-width":1280,"stroke-linecap":"butt"}}
{"op":"hit","x":70,"y":50}
{"op":"hit","x":70,"y":60}
{"op":"hit","x":60,"y":60}
{"op":"style","id":3,"style":{"fill":"none","stroke":"paint","stroke-width":1280,"stroke-linecap":"round"}}
{"op":"hit","x":70,"y":50}
{"op":"hit","x":70,"y":60}
{"op":"hit","x":60,"y":60}
{"op":"style","id":3,"style":{"fill":"none","stroke":"paint","stroke-width":1280,"stroke-linecap":"square"}}
{"op":"hit","x":70,"y":50}
{"op":"hit","x":70,"y":60}
{"op":"hit","x":60,"y":60}
"#;

pub const CAPS_REPLIES: &[u8] =
    b"node 1\nnode 2\nnode 3\nok\nok\nhit 2 1\nhit 2 1\nhit 3 2 1\nok\nhit 3 2 1\nhit 2 1\nhit 3 2 1\nok\nhit 3 2 1\nhit 3 2 1\nhit 3 2 1\n";

/// The interior of each shape, first of a shape that has none yet: curves are closed, the right and lower edges of rects are
/// open, a radius or a side of 0 leaves nothing, and a rect has no corners where one of its two radii is 0. An open subpath is
/// filled as a closed one.
pub const INTERIORS: &[u8] =
    br#"{"op":"add","parent":0,"at":0,"kind":"block","boxes":[[0,0,0,200,200]],"style":{}}
{"op":"add","parent":1,"at":0,"kind":"svg","boxes":[[0,0,0,200,200]],"style":{}}
{"op":"add","parent":2,"at":0,"kind":"shape","boxes":[],"style":{}}
{"op":"hit","x":10,"y":10}
{"op":"shape","id":3,"shape":["circle",3200,3200,1280]}
{"op":"hit","x":70,"y":50}
{"op":"hit","x":71,"y":50}
{"op":"hit","x":64,"y":64}
{"op":"hit","x":65,"y":64}
{"op":"shape","id":3,"shape":["circle",3200,3200,0]}
{"op":"hit","x":50,"y":50}
{"op":"shape","id":3,"shape":["ellipse",3200,3200,1280,640]}
{"op":"hit","x":50,"y":60}
{"op":"hit","x":50,"y":61}
{"op":"hit","x":62,"y":58}
{"op":"hit","x":63,"y":58}
{"op":"shape","id":3,"shape":["rect",640,640,2560,1280,640,640]}
{"op":"hit","x":10,"y":20}
{"op":"hit","x":49,"y":20}
{"op":"hit","x":50,"y":20}
{"op":"hit","x":12,"y":14}
{"op":"hit","x":11,"y":14}
{"op":"shape","id":3,"shape":["rect",640,640,2560,1280,640,0]}
{"op":"hit","x":10,"y":10}
{"op":"hit","x":49,"y":29}
{"op":"hit","x":49,"y":30}
{"op":"shape","id":3,"shape":["rect",640,640,0,1280,0,0]}
{"op":"hit","x":10,"y":10}
{"op":"shape","id":3,"shape":["boxes",[[640,640,640,640],[1920,640,640,640]]]}
{"op":"hit","x":10,"y":10}
{"op":"hit","x":20,"y":10}
{"op":"hit","x":30,"y":19}
{"op":"hit","x":30,"y":20}
{"op":"shape","id":3,"shape":["line",640,640,6400,640]}
{"op":"hit","x":50,"y":10}
{"op":"shape","id":3,"shape":["path",[[1,640,640,5760,640,5760,5760,640,5760],[0,1920,1920,4480,1920,4480,4480,1920,4480]]]}
{"op":"hit","x":20,"y":50}
{"op":"hit","x":50,"y":50}
{"op":"style","id":3,"style":{"fill-rule":"evenodd"}}
{"op":"hit","x":20,"y":50}
{"op":"hit","x":50,"y":50}
{"op":"hit","x":30,"y":50}
{"op":"hit","x":29,"y":50}
{"op":"shape","id":3,"shape":["path",[]]}
{"op":"hit","x":50,"y":50}
"#;

pub const INTERIORS_REPLIES: &[u8] =
    b"node 1\nnode 2\nnode 3\nhit 2 1\nok\nhit 3 2 1\nhit 2 1\nhit 3 2 1\nhit 2 1\nok\nhit 2 1\nok\nhit 3 2 1\nhit 2 1\nhit 3 2 1\nhit 2 1\nok\nhit 3 2 1\nhit 3 2 1\nhit 2 1\nhit 3 2 1\nhit 2 1\nok\nhit 3 2 1\nhit 3 2 1\nhit 2 1\nok\nhit 2 1\nok\nhit 3 2 1\nhit 2 1\nhit 3 2 1\nhit 2 1\nok\nhit 2 1\nok\nhit 3 2 1\nhit 3 2 1\nok\nhit 3 2 1\nhit 2 1\nhit 2 1\nhit 3 2 1\nok\nhit 2 1\n";

/// The perimeter of each shape: half of a stroke's width lies on each side. Its own boundary is in it; the band of a rect has
/// its left outer edge and its right inner one, and is round at its outer corners. An open subpath has no closing edge. Boxes
/// have no perimeter, and a width of 0 leaves none.
pub const PERIMETERS: &[u8] =
    br#"{"op":"add","parent":0,"at":0,"kind":"block","boxes":[[0,0,0,200,200]],"style":{}}
{"op":"add","parent":1,"at":0,"kind":"svg","boxes":[[0,0,0,200,200]],"style":{}}
{"op":"add","parent":2,"at":0,"kind":"shape","boxes":[],"style":{}}
{"op":"style","id":3,"style":{"fill":"none","stroke":"paint","stroke-width":640}}
{"op":"shape","id":3,"shape":["line",640,640,6400,640]}
{"op":"hit","x":50,"y":5}
{"op":"hit","x":50,"y":4}
{"op":"hit","x":50,"y":15}
{"op":"hit","x":50,"y":16}
{"op":"hit","x":100,"y":10}
{"op":"hit","x":101,"y":10}
{"op":"shape","id":3,"shape":["circle",3200,3200,1280]}
{"op":"hit","x":75,"y":50}
{"op":"hit","x":76,"y":50}
{"op":"hit","x":66,"y":50}
{"op":"hit","x":65,"y":50}
{"op":"hit","x":50,"y":50}
{"op":"shape","id":3,"shape":["boxes",[[640,640,640,640]]]}
{"op":"hit","x":10,"y":10}
{"op":"shape","id":3,"shape":["path",[[1,640,640,5760,640,5760,5760,640,5760],[0,1920,1920,4480,1920,4480,4480,1920,4480]]]}
{"op":"hit","x":5,"y":50}
{"op":"hit","x":4,"y":50}
{"op":"hit","x":15,"y":50}
{"op":"hit","x":30,"y":50}
{"op":"hit","x":70,"y":50}
{"op":"hit","x":75,"y":50}
{"op":"hit","x":76,"y":50}
{"op":"hit","x":6,"y":6}
{"op":"hit","x":7,"y":6}
{"op":"style","id":3,"style":{"fill":"none","stroke":"paint","stroke-width":1280}}
{"op":"shape","id":3,"shape":["rect",1280,1280,2560,2560,0,0]}
{"op":"hit","x":10,"y":40}
{"op":"hit","x":9,"y":40}
{"op":"hit","x":29,"y":40}
{"op":"hit","x":30,"y":40}
{"op":"hit","x":49,"y":40}
{"op":"hit","x":50,"y":40}
{"op":"hit","x":69,"y":40}
{"op":"hit","x":70,"y":40}
{"op":"hit","x":13,"y":13}
{"op":"hit","x":12,"y":12}
{"op":"style","id":3,"style":{"fill":"none","stroke":"paint","stroke-width":0}}
{"op":"hit","x":20,"y":40}
"#;

pub const PERIMETERS_REPLIES: &[u8] =
    b"node 1\nnode 2\nnode 3\nok\nok\nhit 3 2 1\nhit 2 1\nhit 3 2 1\nhit 2 1\nhit 3 2 1\nhit 2 1\nok\nhit 3 2 1\nhit 2 1\nhit 3 2 1\nhit 2 1\nhit 2 1\nok\nhit 2 1\nok\nhit 3 2 1\nhit 2 1\nhit 3 2 1\nhit 2 1\nhit 3 2 1\nhit 3 2 1\nhit 2 1\nhit 2 1\nhit 3 2 1\nok\nok\nhit 3 2 1\nhit 2 1\nhit 3 2 1\nhit 2 1\nhit 2 1\nhit 3 2 1\nhit 3 2 1\nhit 2 1\nhit 3 2 1\nhit 2 1\nok\nhit 2 1\n";

/// A rect whose inherited stroke of 20 units is 10 units wide on each side, by `pointer-events`, `visibility` and paint: its
/// interior alone, its perimeter alone, and neither of them. What an svg declares its shapes inherit, but for what they declare.
pub const POINTER_EVENTS: &[u8] =
    br#"{"op":"add","parent":0,"at":0,"kind":"block","boxes":[[0,0,0,200,200]],"style":{}}
{"op":"add","parent":1,"at":0,"kind":"svg","boxes":[[0,0,0,128,128]],"style":{"stroke-width":1280}}
{"op":"add","parent":2,"at":0,"kind":"shape","boxes":[],"style":{}}
{"op":"shape","id":3,"shape":["rect",1280,1280,2560,2560,0,0]}
{"op":"style","id":3,"style":{}}
{"op":"hit","x":40,"y":40}
{"op":"hit","x":15,"y":40}
{"op":"hit","x":5,"y":40}
{"op":"style","id":3,"style":{"stroke":"paint"}}
{"op":"hit","x":40,"y":40}
{"op":"hit","x":15,"y":40}
{"op":"hit","x":5,"y":40}
{"op":"style","id":3,"style":{"fill":"none","stroke":"paint"}}
{"op":"hit","x":40,"y":40}
{"op":"hit","x":15,"y":40}
{"op":"hit","x":5,"y":40}
{"op":"style","id":3,"style":{"fill":"none"}}
{"op":"hit","x":40,"y":40}
{"op":"hit","x":15,"y":40}
{"op":"hit","x":5,"y":40}
{"op":"style","id":3,"style":{"visibility":"hidden","stroke":"paint"}}
{"op":"hit","x":40,"y":40}
{"op":"hit","x":15,"y":40}
{"op":"hit","x":5,"y":40}
{"op":"style","id":3,"style":{"pointer-events":"visiblePainted","visibility":"collapse"}}
{"op":"hit","x":40,"y":40}
{"op":"hit","x":15,"y":40}
{"op":"hit","x":5,"y":40}
{"op":"style","id":3,"style":{"pointer-events":"visiblePainted","stroke":"paint"}}
{"op":"hit","x":40,"y":40}
{"op":"hit","x":15,"y":40}
{"op":"hit","x":5,"y":40}
{"op":"style","id":3,"style":{"pointer-events":"visibleFill","fill":"none","stroke":"paint"}}
{"op":"hit","x":40,"y":40}
{"op":"hit","x":15,"y":40}
{"op":"hit","x":5,"y":40}
{"op":"style","id":3,"style":{"pointer-events":"visibleFill","visibility":"hidden"}}
{"op":"hit","x":40,"y":40}
{"op":"hit","x":15,"y":40}
{"op":"hit","x":5,"y":40}
{"op":"style","id":3,"style":{"pointer-events":"visibleStroke"}}
{"op":"hit","x":40,"y":40}
{"op":"hit","x":15,"y":40}
{"op":"hit","x":5,"y":40}
{"op":"style","id":3,"style":{"pointer-events":"visible","fill":"none"}}
{"op":"hit","x":40,"y":40}
{"op":"hit","x":15,"y":40}
{"op":"hit","x":5,"y":40}
{"op":"style","id":3,"style":{"pointer-events":"visible","visibility":"hidden"}}
{"op":"hit","x":40,"y":40}
{"op":"hit","x":15,"y":40}
{"op":"hit","x":5,"y":40}
{"op":"style","id":3,"style":{"pointer-events":"painted","visibility":"hidden"}}
{"op":"hit","x":40,"y":40}
{"op":"hit","x":15,"y":40}
{"op":"hit","x":5,"y":40}
{"op":"style","id":3,"style":{"pointer-events":"painted","fill":"none","visibility":"hidden","stroke":"paint"}}
{"op":"hit","x":40,"y":40}
{"op":"hit","x":15,"y":40}
{"op":"hit","x":5,"y":40}
{"op":"style","id":3,"style":{"pointer-events":"painted","fill":"none"}}
{"op":"hit","x":40,"y":40}
{"op":"hit","x":15,"y":40}
{"op":"hit","x":5,"y":40}
{"op":"style","id":3,"style":{"pointer-events":"fill","fill":"none","visibility":"hidden"}}
{"op":"hit","x":40,"y":40}
{"op":"hit","x":15,"y":40}
{"op":"hit","x":5,"y":40}
{"op":"style","id":3,"style":{"pointer-events":"stroke","visibility":"hidden"}}
{"op":"hit","x":40,"y":40}
{"op":"hit","x":15,"y":40}
{"op":"hit","x":5,"y":40}
{"op":"style","id":3,"style":{"pointer-events":"all","fill":"none","visibility":"hidden"}}
{"op":"hit","x":40,"y":40}
{"op":"hit","x":15,"y":40}
{"op":"hit","x":5,"y":40}
{"op":"style","id":3,"style":{"pointer-events":"none","stroke":"paint"}}
{"op":"hit","x":40,"y":40}
{"op":"hit","x":15,"y":40}
{"op":"hit","x":5,"y":40}
{"op":"style","id":3,"style":{"fill":"none","stroke":"paint"}}
{"op":"style","id":2,"style":{"stroke-width":1280,"pointer-events":"visibleFill","visibility":"hidden"}}
{"op":"hit","x":40,"y":40}
{"op":"style","id":3,"style":{"visibility":"visible"}}
{"op":"hit","x":40,"y":40}
{"op":"hit","x":15,"y":40}
{"op":"style","id":2,"style":{"stroke-width":1280,"pointer-events":"none"}}
{"op":"hit","x":40,"y":40}
{"op":"style","id":3,"style":{"pointer-events":"all"}}
{"op":"hit","x":40,"y":40}
{"op":"hit","x":15,"y":40}
{"op":"hit","x":5,"y":40}
"#;

pub const POINTER_EVENTS_REPLIES: &[u8] =
    b"node 1\nnode 2\nnode 3\nok\nok\nhit 3 2 1\nhit 2 1\nhit 2 1\nok\nhit 3 2 1\nhit 3 2 1\nhit 2 1\nok\nhit 2 1\nhit 3 2 1\nhit 2 1\nok\nhit 2 1\nhit 2 1\nhit 2 1\nok\nhit 2 1\nhit 2 1\nhit 2 1\nok\nhit 2 1\nhit 2 1\nhit 2 1\nok\nhit 3 2 1\nhit 3 2 1\nhit 2 1\nok\nhit 3 2 1\nhit 2 1\nhit 2 1\nok\nhit 2 1\nhit 2 1\nhit 2 1\nok\nhit 2 1\nhit 3 2 1\nhit 2 1\nok\nhit 3 2 1\nhit 3 2 1\nhit 2 1\nok\nhit 2 1\nhit 2 1\nhit 2 1\nok\nhit 3 2 1\nhit 2 1\nhit 2 1\nok\nhit 2 1\nhit 3 2 1\nhit 2 1\nok\nhit 2 1\nhit 2 1\nhit 2 1\nok\nhit 3 2 1\nhit 2 1\nhit 2 1\nok\nhit 2 1\nhit 3 2 1\nhit 2 1\nok\nhit 3 2 1\nhit 3 2 1\nhit 2 1\nok\nhit 2 1\nhit 2 1\nhit 2 1\nok\nok\nhit 1\nok\nhit 3 1\nhit 1\nok\nhit 1\nok\nhit 3 1\nhit 3 1\nhit 1\n";

/// A group that is scaled, and then turned round an origin of its user space, in an svg whose viewport is its padding box; and an
/// svg in it, that clips by its own viewport. Position, z-index, opacity and what else belongs to boxes has no effect on SVG
/// content, which is painted in tree order. Where the svg has no box, or the one in it a side of 0, nothing in it is shown.
pub const NESTED_VIEWPORTS: &[u8] =
    br#"{"op":"add","parent":0,"at":0,"kind":"block","boxes":[[0,0,0,300,300]],"style":{}}
{"op":"add","parent":1,"at":0,"kind":"svg","boxes":[[0,20,20,120,120]],"style":{"border":[10,10,10,10]}}
{"op":"add","parent":2,"at":0,"kind":"group","boxes":[],"style":{"transform":[["scale",2,2,1]]}}
{"op":"add","parent":3,"at":0,"kind":"shape","boxes":[],"style":{}}
{"op":"shape","id":4,"shape":["rect",0,0,1280,1280,0,0]}
{"op":"hit","x":30,"y":30}
{"op":"hit","x":29,"y":30}
{"op":"hit","x":69,"y":69}
{"op":"hit","x":70,"y":69}
{"op":"add","parent":2,"at":1,"kind":"inner","boxes":[],"style":{}}
{"op":"add","parent":5,"at":0,"kind":"shape","boxes":[],"style":{}}
{"op":"shape","id":6,"shape":["circle",3200,3200,6400]}
{"op":"hit","x":105,"y":105}
{"op":"shape","id":5,"shape":["port",3200,3200,3200,3200,0,0,6400,6400,"none","meet"]}
{"op":"hit","x":105,"y":105}
{"op":"hit","x":80,"y":80}
{"op":"hit","x":79,"y":105}
{"op":"style","id":5,"style":{"overflow":"visible"}}
{"op":"hit","x":79,"y":105}
{"op":"hit","x":55,"y":105}
{"op":"hit","x":54,"y":105}
{"op":"hit","x":130,"y":105}
{"op":"style","id":2,"style":{"border":[10,10,10,10],"overflow":"visible"}}
{"op":"hit","x":130,"y":105}
{"op":"hit","x":141,"y":105}
{"op":"style","id":3,"style":{"origin":[20,20],"transform":[["quarter",1]]}}
{"op":"hit","x":51,"y":30}
{"op":"hit","x":50,"y":30}
{"op":"hit","x":70,"y":30}
{"op":"hit","x":71,"y":30}
{"op":"hit","x":70,"y":49}
{"op":"hit","x":70,"y":50}
{"op":"style","id":4,"style":{"position":"absolute","float":"left","z":5,"opacity":500,"border":[5,5,5,5],"radii":[9,9,9,9,9,9,9,9],"display":"block"}}
{"op":"hit","x":51,"y":30}
{"op":"hit","x":50,"y":30}
{"op":"add","parent":2,"at":2,"kind":"shape","boxes":[],"style":{}}
{"op":"shape","id":7,"shape":["rect",0,0,6400,6400,0,0]}
{"op":"hit","x":51,"y":30}
{"op":"hit","x":105,"y":105}
{"op":"move","id":7,"parent":2,"at":0}
{"op":"hit","x":51,"y":30}
{"op":"shape","id":5,"shape":["port",3200,3200,0,3200]}
{"op":"hit","x":105,"y":105}
{"op":"place","id":2,"anchor":[0,0],"boxes":[],"max":[0,0]}
{"op":"hit","x":105,"y":105}
"#;

pub const NESTED_VIEWPORTS_REPLIES: &[u8] =
    b"node 1\nnode 2\nnode 3\nnode 4\nok\nhit 4 2 1\nhit 2 1\nhit 4 2 1\nhit 2 1\nnode 5\nnode 6\nok\nhit 2 1\nok\nhit 6 2 1\nhit 6 2 1\nhit 2 1\nok\nhit 6 2 1\nhit 6 2 1\nhit 2 1\nhit 2 1\nok\nhit 6 2 1\nhit 6 1\nok\nhit 4 2 1\nhit 2 1\nhit 4 2 1\nhit 2 1\nhit 4 2 1\nhit 2 1\nok\nhit 4 2 1\nhit 2 1\nnode 7\nok\nhit 7 4 2 1\nhit 7 6 2 1\nok\nhit 4 7 2 1\nok\nhit 7 2 1\nok\nhit 1\n";

/// What an svg and what stands in it may hold, have and be given.
pub const CONTENT_BY_KIND: &[u8] =
    br#"{"op":"add","parent":0,"at":0,"kind":"svg","boxes":[[0,0,0,9,9]],"style":{}}
{"op":"add","parent":0,"at":0,"kind":"block","boxes":[[0,0,0,100,100]],"style":{}}
{"op":"add","parent":1,"at":0,"kind":"group","boxes":[],"style":{}}
{"op":"add","parent":1,"at":0,"kind":"shape","boxes":[],"style":{}}
{"op":"add","parent":1,"at":0,"kind":"inner","boxes":[],"style":{}}
{"op":"add","parent":1,"at":0,"kind":"svg","boxes":[[0,0,0,9,9],[0,0,0,9,9]],"style":{}}
{"op":"add","parent":1,"at":0,"kind":"svg","boxes":[],"style":{}}
{"op":"add","parent":2,"at":0,"kind":"block","boxes":[],"style":{}}
{"op":"add","parent":2,"at":0,"kind":"svg","boxes":[],"style":{}}
{"op":"add","parent":2,"at":0,"kind":"text","boxes":[],"style":{}}
{"op":"add","parent":2,"at":0,"kind":"shape","boxes":[[0,0,0,9,9]],"style":{}}
{"op":"add","parent":2,"at":0,"kind":"shape","boxes":[],"style":{}}
{"op":"add","parent":3,"at":0,"kind":"shape","boxes":[],"style":{}}
{"op":"add","parent":2,"at":1,"kind":"inner","boxes":[],"style":{}}
{"op":"add","parent":4,"at":0,"kind":"group","boxes":[],"style":{"opacity":1}}
{"op":"add","parent":5,"at":0,"kind":"shape","boxes":[],"style":{}}
{"op":"place","id":3,"anchor":[0,0],"boxes":[],"max":[0,0]}
{"op":"place","id":4,"anchor":[0,0],"boxes":[],"max":[0,0]}
{"op":"place","id":5,"anchor":[0,0],"boxes":[],"max":[0,0]}
{"op":"scroll","id":2,"x":0,"y":0}
{"op":"scroll","id":3,"x":0,"y":0}
{"op":"scroll","id":4,"x":0,"y":0}
{"op":"scroll","id":5,"x":0,"y":0}
{"op":"shape","id":3,"shape":["view"]}
{"op":"shape","id":3,"shape":["port",0,0,1,1]}
{"op":"shape","id":3,"shape":["map",2]}
{"op":"shape","id":3,"shape":["rect",[0,0,1,1]]}
{"op":"shape","id":3,"shape":["rect",0,0,1,1,0,0]}
{"op":"shape","id":5,"shape":["circle",0,0,1]}
{"op":"shape","id":4,"shape":["view"]}
{"op":"shape","id":4,"shape":["port",0,0,1,1]}
{"op":"shape","id":2,"shape":["port",0,0,1,1]}
{"op":"shape","id":2,"shape":["view"]}
{"op":"shape","id":1,"shape":["view"]}
{"op":"move","id":3,"parent":1,"at":0}
{"op":"move","id":4,"parent":5,"at":0}
{"op":"move","id":2,"parent":4,"at":0}
{"op":"move","id":3,"parent":5,"at":1}
{"op":"shape","id":3,"shape":["polygon",[0,0,1]]}
{"op":"shape","id":3,"shape":["circle",0,0,-1]}
{"op":"shape","id":3,"shape":["rect",0,0,1,1,0]}
{"op":"shape","id":2,"shape":["view",0,0,1,1,"xMidYMid"]}
{"op":"shape","id":9,"shape":["line",0,0,1,1]}
{"op":"place","id":2,"anchor":[0,0],"boxes":[[0,0,0,50,50]],"max":[0,0]}
{"op":"hit","x":0,"y":0}
"#;

pub const CONTENT_BY_KIND_REPLIES: &[u8] =
    b"err 6 kind\nnode 1\nerr 6 kind\nerr 6 kind\nerr 6 kind\nerr 6 kind\nnode 2\nerr 6 kind\nerr 6 kind\nerr 6 kind\nerr 6 kind\nnode 3\nerr 6 kind\nnode 4\nnode 5\nnode 6\nerr 6 kind\nerr 6 kind\nerr 6 kind\nerr 6 kind\nerr 6 kind\nerr 6 kind\nerr 6 kind\nerr 6 kind\nerr 6 kind\nerr 6 kind\nerr 6 kind\nok\nerr 6 kind\nerr 6 kind\nok\nerr 6 kind\nok\nerr 6 kind\nerr 6 kind\nerr 7 cycle\nerr 6 kind\nok\nerr 3 command\nerr 3 command\nerr 3 command\nerr 3 command\nerr 4 absent\nok\nhit 3 2 1\n";
