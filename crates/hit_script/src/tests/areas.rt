// Image maps: scripts and their replies, worked out by hand.

/// The first area that covers the point takes the place of its image, once for its box and its content.
pub const AREAS: &[u8] =
    br#"{"op":"add","parent":0,"at":0,"kind":"block","boxes":[[0,0,0,100,100]],"style":{}}
{"op":"add","parent":1,"at":0,"kind":"map","boxes":[],"style":{}}
{"op":"add","parent":2,"at":0,"kind":"area","boxes":[],"style":{}}
{"op":"add","parent":2,"at":1,"kind":"area","boxes":[],"style":{}}
{"op":"add","parent":2,"at":2,"kind":"area","boxes":[],"style":{}}
{"op":"add","parent":2,"at":3,"kind":"area","boxes":[],"style":{}}
{"op":"add","parent":1,"at":1,"kind":"image","boxes":[[0,0,0,60,60]],"style":{}}
{"op":"shape","id":3,"shape":["rect",[40,40,10,10]]}
{"op":"shape","id":4,"shape":["circle",[30,30,0]]}
{"op":"shape","id":5,"shape":["rect",[30,30,50,50]]}
{"op":"shape","id":7,"shape":["map",2]}
{"op":"hit","x":35,"y":35}
{"op":"hit","x":45,"y":45}
{"op":"hit","x":55,"y":55}
{"op":"shape","id":6,"shape":["default"]}
{"op":"hit","x":55,"y":55}
{"op":"point","x":35,"y":35}
"#;

pub const AREAS_REPLIES: &[u8] =
    b"node 1\nnode 2\nnode 3\nnode 4\nnode 5\nnode 6\nnode 7\nok\nok\nok\nok\nhit 3 1\nhit 5 1\nhit 7 1\nok\nhit 6 1\nevents over=3:- enter=1:- enter=2:- enter=3:- move=3:-\n";

/// An area counts from the padding corner, inside of the padding curve, in the space of its image; a name that is no map's
/// names none; what is no shape of a node's kind is refused.
pub const AREAS_IN_BORDERS: &[u8] =
    br#"{"op":"add","parent":0,"at":0,"kind":"block","boxes":[[0,0,0,400,400]],"style":{}}
{"op":"add","parent":1,"at":0,"kind":"map","boxes":[],"style":{}}
{"op":"add","parent":2,"at":0,"kind":"area","boxes":[],"style":{}}
{"op":"add","parent":2,"at":1,"kind":"area","boxes":[],"style":{}}
{"op":"add","parent":1,"at":1,"kind":"image","boxes":[[0,0,0,100,100]],"style":{"border":[10,10,10,10],"origin":[0,0],"transform":[["scale",2,2,1]]}}
{"op":"shape","id":3,"shape":["rect",[0,0,20,20]]}
{"op":"shape","id":4,"shape":["poly",[20,20,40,20,20,40]]}
{"op":"hit","x":19,"y":19}
{"op":"shape","id":5,"shape":["map",2]}
{"op":"hit","x":19,"y":19}
{"op":"hit","x":20,"y":20}
{"op":"hit","x":59,"y":59}
{"op":"hit","x":60,"y":60}
{"op":"hit","x":100,"y":60}
{"op":"hit","x":90,"y":60}
{"op":"hit","x":180,"y":180}
{"op":"shape","id":5,"shape":["map",9]}
{"op":"hit","x":20,"y":20}
{"op":"shape","id":5,"shape":["map",1]}
{"op":"hit","x":20,"y":20}
{"op":"shape","id":5,"shape":["map",2]}
{"op":"remove","id":3}
{"op":"hit","x":20,"y":20}
{"op":"shape","id":5,"shape":["map",0]}
{"op":"hit","x":60,"y":60}
{"op":"shape","id":5,"shape":["rect",[0,0,1,1]]}
{"op":"shape","id":4,"shape":["map",2]}
{"op":"shape","id":1,"shape":["default"]}
{"op":"shape","id":2,"shape":["default"]}
{"op":"shape","id":3,"shape":["default"]}
{"op":"shape","id":4,"shape":["poly",[1,2,3,4,5]]}
{"op":"place","id":4,"anchor":[0,0],"boxes":[],"max":[0,0]}
{"op":"style","id":4,"style":{}}
{"op":"style","id":2,"style":{}}
{"op":"add","parent":2,"at":1,"kind":"area","boxes":[],"style":{"opacity":1000}}
{"op":"add","parent":2,"at":2,"kind":"area","boxes":[],"style":{"opacity":999}}
{"op":"add","parent":2,"at":2,"kind":"block","boxes":[],"style":{}}
{"op":"add","parent":1,"at":2,"kind":"area","boxes":[],"style":{}}
"#;

pub const AREAS_IN_BORDERS_REPLIES: &[u8] =
    b"node 1\nnode 2\nnode 3\nnode 4\nnode 5\nok\nok\nhit 5 1\nok\nhit 5 1\nhit 3 1\nhit 3 1\nhit 4 1\nhit 5 1\nhit 4 1\nhit 5 1\nok\nhit 5 1\nok\nhit 5 1\nok\nok\nhit 5 1\nok\nhit 5 1\nerr 6 kind\nerr 6 kind\nerr 6 kind\nerr 6 kind\nerr 4 absent\nok\nerr 6 kind\nerr 6 kind\nerr 6 kind\nnode 6\nerr 6 kind\nerr 6 kind\nerr 6 kind\n";

/// The areas of an image with round borders that is turned by a quarter, then halved, then doubled, so that points fall between
/// its units: inside the padding curve an area, default the last one, takes the image's place; between the two curves it is the
/// image itself, outside of both nothing. A singular map leaves nothing.
pub const ROUNDED_AREAS: &[u8] =
    br#"{"op":"add","parent":0,"at":0,"kind":"block","boxes":[[0,0,0,400,400]],"style":{}}
{"op":"add","parent":1,"at":0,"kind":"map","boxes":[],"style":{}}
{"op":"add","parent":2,"at":0,"kind":"area","boxes":[],"style":{}}
{"op":"add","parent":2,"at":1,"kind":"area","boxes":[],"style":{}}
{"op":"add","parent":2,"at":2,"kind":"area","boxes":[],"style":{}}
{"op":"add","parent":1,"at":1,"kind":"image","boxes":[[0,0,0,100,100]],"style":{"border":[10,10,10,10],"radii":[30,30,30,30,30,30,30,30],"origin":[0,0],"transform":[["quarter",1]]}}
{"op":"place","id":6,"anchor":[200,0],"boxes":[[0,0,0,100,100]],"max":[0,0]}
{"op":"shape","id":3,"shape":["rect",[0,0,80,10]]}
{"op":"shape","id":4,"shape":["circle",[40,40,30]]}
{"op":"shape","id":5,"shape":["default"]}
{"op":"shape","id":6,"shape":["map",2]}
{"op":"hit","x":185,"y":50}
{"op":"hit","x":181,"y":50}
{"op":"hit","x":180,"y":50}
{"op":"hit","x":150,"y":50}
{"op":"hit","x":188,"y":12}
{"op":"hit","x":195,"y":5}
{"op":"hit","x":184,"y":16}
{"op":"hit","x":185,"y":15}
{"op":"hit","x":150,"y":85}
{"op":"hit","x":150,"y":95}
{"op":"hit","x":150,"y":100}
{"op":"hit","x":150,"y":0}
{"op":"hit","x":200,"y":50}
{"op":"hit","x":201,"y":50}
{"op":"hit","x":101,"y":50}
{"op":"hit","x":100,"y":50}
{"op":"style","id":6,"style":{"border":[10,10,10,10],"radii":[30,30,30,30,30,30,30,30],"origin":[0,0],"transform":[["scale",1,1,2]]}}
{"op":"hit","x":225,"y":10}
{"op":"hit","x":225,"y":9}
{"op":"hit","x":207,"y":7}
{"op":"hit","x":208,"y":8}
{"op":"style","id":6,"style":{"border":[10,10,10,10],"radii":[30,30,30,30,30,30,30,30],"origin":[0,0],"transform":[["scale",2,2,1]]}}
{"op":"hit","x":231,"y":31}
{"op":"hit","x":232,"y":32}
{"op":"hit","x":231,"y":32}
{"op":"hit","x":231,"y":33}
{"op":"style","id":6,"style":{"border":[10,10,10,10],"radii":[30,30,30,30,30,30,30,30],"origin":[0,0],"transform":[["scale",0,1,1]]}}
{"op":"hit","x":200,"y":50}
"#;

pub const ROUNDED_AREAS_REPLIES: &[u8] =
    b"node 1\nnode 2\nnode 3\nnode 4\nnode 5\nnode 6\nok\nok\nok\nok\nok\nhit 3 1\nhit 3 1\nhit 4 1\nhit 4 1\nhit 6 1\nhit 1\nhit 3 1\nhit 6 1\nhit 5 1\nhit 6 1\nhit 1\nhit 6 1\nhit 6 1\nhit 1\nhit 6 1\nhit 1\nok\nhit 4 1\nhit 3 1\nhit 6 1\nhit 3 1\nok\nhit 6 1\nhit 3 1\nhit 6 1\nhit 3 1\nok\nhit 1\n";
