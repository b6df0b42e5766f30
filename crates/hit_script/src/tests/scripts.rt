// Scripts and the replies to them.
use super::{
    THREE_BLOCKS, THREE_BLOCKS_REPLIES, areas, assert_replies, boxes, maps, painting, scrolls, svg,
    values,
};
use std::test::Fail;

const ROOT: &[u8] =
    br#"{"op":"add","parent":0,"at":0,"kind":"block","boxes":[[0,0,0,100,100]],"style":{}}"#;

/// The faults of an edit in their order, none of which uses up an id.
const REFUSALS: &[u8] = br#"{"op":"hit","x":5,"y":5}
{"op":"add","parent":1,"at":0,"kind":"block","boxes":[[0,0,0,1,1]],"style":{}}
{"op":"add","parent":0,"at":0,"kind":"block","boxes":[],"style":{}}
{"op":"add","parent":0,"at":1,"kind":"block","boxes":[[0,0,0,1,1]],"style":{}}
{"op":"add","parent":0,"at":0,"kind":"block","boxes":[[0,0,0,100,100]],"style":{}}
{"op":"add","parent":0,"at":0,"kind":"block","boxes":[[0,0,0,1,1]],"style":{}}
{"op":"add","parent":1,"at":1,"kind":"block","boxes":[],"style":{}}
{"op":"sing"}
{"op":"add","parent":1,"at":0,"kind":"block","boxes":[],"style":{}}
{"op":"hit","x":5,"y":5}
"#;

const REFUSALS_REPLIES: &[u8] =
    b"hit\nerr 4 absent\nerr 6 kind\nerr 8 place\nnode 1\nerr 5 root\nerr 8 place\nerr 3 command\nnode 2\nhit 1\n";

/// Numbers, each in the place of x, on a page without a root.
const NUMBERS: &[u8] = br#"{"op":"hit","x":1.0,"y":0}
{"op":"hit","x":-0,"y":0}
{"op":"hit","x":1e2,"y":0}
{"op":"hit","x":9223372036854775808,"y":0}
{"op":"hit","x":18446744073709551616,"y":0}
{"op":"hit","x":1e400,"y":0}
{"op":"hit","x":67108864,"y":0}
{"op":"hit","x":67108865,"y":0}
{"op":"hit","x":-67108864,"y":0}
{"op":"hit","x":-67108865,"y":0}
{"op":"hit","x":"1","y":0}
"#;

const NUMBERS_REPLIES: &[u8] =
    b"err 3 command\nerr 3 command\nerr 3 command\nerr 3 command\nerr 3 command\nerr 2 syntax\nhit\nerr 3 command\nhit\nerr 3 command\nerr 3 command\n";

/// Keys in any order, a key too few or too many, and a key that stands twice, of which the last value counts.
const KEYS: &[u8] = br#"{"y":5,"op":"hit","x":5}
{"style":{},"boxes":[[0,0,0,9,9]],"kind":"block","at":0,"parent":0,"op":"add"}
{"op":"hit","x":1}
{"op":"hit","x":5,"y":5,"z":1}
{"op":"hit","x":99999999,"x":5,"y":5}
{"op":"hit","op":"top","x":5,"y":5}
{"x":5,"y":5}
{"op":7,"x":5,"y":5}
{"op":"add","parent":1,"at":0,"kind":"block","boxes":[]}
"#;

const KEYS_REPLIES: &[u8] =
    b"hit\nnode 1\nerr 3 command\nerr 3 command\nhit 1\ntop 1\nerr 3 command\nerr 3 command\nerr 3 command\n";

/// What stands in the place of an object, and white space round one.
const FORMS: &[u8] =
    b"[]\nnull\n\"hit\"\n{\"op\":\"\\ud800\"}\n \t{\"op\":\"hit\",\"x\":0,\"y\":0} \r\n\r\n \t\r\n\xff\n{\"op\":\"hit\",\"x\":0,\"y\":0}{}\n{}";

const FORMS_REPLIES: &[u8] =
    b"err 3 command\nerr 3 command\nerr 3 command\nerr 2 syntax\nhit\nerr 2 syntax\nerr 2 syntax\nerr 3 command\n";

/// The values of an add: boxes, kind, style, parent and place.
const VALUES: &[u8] =
    br#"{"op":"add","parent":0,"at":0,"kind":"block","boxes":[[65536,0,0,1,1]],"style":{}}
{"op":"add","parent":0,"at":0,"kind":"block","boxes":[[0,0,0,-1,1]],"style":{}}
{"op":"add","parent":0,"at":0,"kind":"block","boxes":[[0,1,0,67108864,1]],"style":{}}
{"op":"add","parent":0,"at":0,"kind":"block","boxes":[[0,0,67108864,1,1]],"style":{}}
{"op":"add","parent":0,"at":0,"kind":"block","boxes":[[0,0,0,1]],"style":{}}
{"op":"add","parent":0,"at":0,"kind":"block","boxes":[[0,0,0,1,1,1]],"style":{}}
{"op":"add","parent":0,"at":0,"kind":"block","boxes":{},"style":{}}
{"op":"add","parent":0,"at":0,"kind":"canvas","boxes":[[0,0,0,1,1]],"style":{}}
{"op":"add","parent":0,"at":0,"kind":"block","boxes":[[0,0,0,1,1]],"style":{"z":2147483648}}
{"op":"add","parent":0,"at":0,"kind":"block","boxes":[[0,0,0,1,1]],"style":[]}
{"op":"add","parent":-1,"at":0,"kind":"block","boxes":[[0,0,0,1,1]],"style":{}}
{"op":"add","parent":4294967296,"at":0,"kind":"block","boxes":[[0,0,0,1,1]],"style":{}}
{"op":"add","parent":4294967295,"at":0,"kind":"block","boxes":[[0,0,0,1,1]],"style":{}}
{"op":"add","parent":0,"at":4294967295,"kind":"block","boxes":[[0,0,0,1,1]],"style":{}}
{"op":"add","parent":0,"at":0,"kind":"block","boxes":[[0,0,0,1,1],[0,0,0,1,1]],"style":{}}
{"op":"add","parent":0,"at":0,"kind":"block","boxes":[[65535,-67108864,-67108864,67108864,67108864]],"style":{}}
"#;

const VALUES_REPLIES: &[u8] =
    b"err 3 command\nerr 3 command\nerr 3 command\nerr 3 command\nerr 3 command\nerr 3 command\nerr 3 command\nerr 3 command\nerr 3 command\nerr 3 command\nerr 3 command\nerr 3 command\nerr 4 absent\nerr 8 place\nerr 6 kind\nnode 1\n";

/// Nodes that go with all below them, and ids that are not given again.
const REMOVES: &[u8] =
    br#"{"op":"add","parent":0,"at":0,"kind":"block","boxes":[[0,0,0,100,100]],"style":{}}
{"op":"add","parent":1,"at":0,"kind":"block","boxes":[[0,0,0,10,10]],"style":{}}
{"op":"add","parent":2,"at":0,"kind":"block","boxes":[[0,2,2,5,5]],"style":{}}
{"op":"hit","x":3,"y":3}
{"op":"remove","id":9}
{"op":"remove","id":0}
{"op":"remove","id":2,"all":true}
{"id":2,"op":"remove"}
{"op":"hit","x":3,"y":3}
{"op":"remove","id":3}
{"op":"add","parent":1,"at":0,"kind":"block","boxes":[[0,0,0,1,1]],"style":{}}
{"op":"remove","id":1}
{"op":"hit","x":5,"y":5}
{"op":"add","parent":0,"at":0,"kind":"block","boxes":[[0,0,0,100,100]],"style":{}}
{"op":"hit","x":5,"y":5}
"#;

const REMOVES_REPLIES: &[u8] =
    b"node 1\nnode 2\nnode 3\nhit 3 2 1\nerr 4 absent\nerr 3 command\nerr 3 command\nok\nhit 1\nerr 4 absent\nnode 4\nok\nhit\nnode 5\nhit 5\n";

/// Queries without a root, and at the edges of a small viewport, which belong to it.
const TOPS: &[u8] = br#"{"op":"hit","x":5,"y":5}
{"op":"top","x":5,"y":5}
{"op":"top","x":-1,"y":0}
{"op":"resize","w":100,"h":80,"max":[0,0]}
{"op":"add","parent":0,"at":0,"kind":"block","boxes":[[0,0,0,100,80]],"style":{}}
{"op":"hit","x":100,"y":80}
{"op":"hit","x":101,"y":80}
{"op":"hit","x":-1,"y":0}
{"op":"top","x":100,"y":80}
{"op":"top","x":101,"y":0}
{"op":"add","parent":1,"at":0,"kind":"block","boxes":[[0,90,70,20,20]],"style":{}}
{"op":"hit","x":100,"y":80}
{"op":"top","x":100,"y":80}
"#;

const TOPS_REPLIES: &[u8] =
    b"hit\ntop null\ntop null\nok\nnode 1\nhit 1\nhit\nhit\ntop 1\ntop null\nnode 2\nhit 2 1\ntop 2\n";

/// A node that is placed and taken out again, and a page that loses its root.
const PLACES: &[u8] =
    br#"{"op":"add","parent":0,"at":0,"kind":"block","boxes":[[0,0,0,100,100]],"style":{}}
{"op":"add","parent":1,"at":0,"kind":"block","boxes":[[0,0,0,10,10]],"style":{}}
{"op":"place","id":2,"anchor":[50,0],"boxes":[[0,5,5,10,10]],"max":[0,0]}
{"op":"hit","x":56,"y":6}
{"op":"hit","x":6,"y":6}
{"op":"remove","id":2}
{"op":"hit","x":56,"y":6}
{"op":"place","id":2,"anchor":[0,0],"boxes":[[0,0,0,1,1]],"max":[0,0]}
{"op":"add","parent":1,"at":0,"kind":"block","boxes":[[0,0,0,1,1]],"style":{}}
{"op":"remove","id":1}
{"op":"hit","x":5,"y":5}
{"op":"add","parent":0,"at":0,"kind":"block","boxes":[[0,0,0,100,100]],"style":{}}
"#;

const PLACES_REPLIES: &[u8] =
    b"node 1\nnode 2\nok\nhit 2 1\nhit 1\nok\nhit 1\nerr 4 absent\nnode 3\nok\nhit\nnode 4\n";

/// The limits of places and resizes, each at its last good value and one past it. The child of the placed node is at
/// (62, 17) of the viewport: the anchor and the corner of its parent, and its own corner.
const LAYOUTS: &[u8] =
    br#"{"op":"add","parent":0,"at":0,"kind":"block","boxes":[[0,0,0,100,100]],"style":{}}
{"op":"add","parent":1,"at":0,"kind":"block","boxes":[[0,0,0,10,10]],"style":{}}
{"op":"add","parent":2,"at":0,"kind":"block","boxes":[[0,7,2,3,3]],"style":{}}
{"max":[67108864,67108864],"boxes":[[0,5,5,10,10]],"anchor":[50,10],"id":2,"op":"place"}
{"op":"hit","x":62,"y":17}
{"op":"hit","x":61,"y":17}
{"op":"hit","x":65,"y":17}
{"op":"place","id":2,"anchor":[50,10],"boxes":[],"max":[0,0]}
{"op":"hit","x":57,"y":12}
{"op":"hit","x":62,"y":17}
{"op":"place","id":2,"anchor":[67108864,-67108864],"boxes":[[0,0,0,1,1]],"max":[0,0]}
{"op":"place","id":2,"anchor":[67108865,0],"boxes":[],"max":[0,0]}
{"op":"place","id":2,"anchor":[0,-67108865],"boxes":[],"max":[0,0]}
{"op":"place","id":2,"anchor":[0,0],"boxes":[],"max":[67108865,0]}
{"op":"place","id":2,"anchor":[0,0],"boxes":[],"max":[0,-1]}
{"op":"place","id":2,"anchor":[0,0],"boxes":[[0,0,0,67108865,0]],"max":[0,0]}
{"op":"place","id":2,"anchor":[0],"boxes":[],"max":[0,0]}
{"op":"place","id":2,"anchor":[0,0,0],"boxes":[],"max":[0,0]}
{"op":"place","id":0,"anchor":[0,0],"boxes":[],"max":[0,0]}
{"op":"place","id":2,"anchor":[0,0],"boxes":[]}
{"op":"place","id":1,"anchor":[0,0],"boxes":[],"max":[0,0]}
{"op":"place","id":2,"anchor":[0,0],"boxes":[[0,0,0,1,1],[0,0,0,1,1]],"max":[0,0]}
{"op":"place","id":4294967295,"anchor":[0,0],"boxes":[[0,0,0,1,1],[0,0,0,1,1]],"max":[0,0]}
{"op":"resize","w":1048576,"h":1048576,"max":[67108864,67108864]}
{"op":"top","x":1048576,"y":1048576}
{"op":"top","x":1048577,"y":0}
{"op":"resize","w":1048577,"h":1,"max":[0,0]}
{"op":"resize","w":1,"h":1048577,"max":[0,0]}
{"op":"resize","w":0,"h":1,"max":[0,0]}
{"op":"resize","w":1,"h":0,"max":[0,0]}
{"op":"resize","w":1,"h":1,"max":[0,67108865]}
{"op":"resize","w":1,"h":1,"max":[-1,0]}
{"op":"resize","w":1,"h":1,"max":[0,0],"x":0}
{"op":"resize","w":1,"h":1,"max":[0,0]}
{"op":"top","x":1,"y":1}
{"op":"top","x":2,"y":1}
"#;

const LAYOUTS_REPLIES: &[u8] =
    b"node 1\nnode 2\nnode 3\nok\nhit 3 2 1\nhit 2 1\nhit 1\nok\nhit 3 1\nhit 1\nok\nerr 3 command\nerr 3 command\nerr 3 command\nerr 3 command\nerr 3 command\nerr 3 command\nerr 3 command\nerr 3 command\nerr 3 command\nerr 6 kind\nerr 6 kind\nerr 4 absent\nok\ntop 1\ntop null\nerr 3 command\nerr 3 command\nerr 3 command\nerr 3 command\nerr 3 command\nerr 3 command\nerr 3 command\nok\ntop 1\ntop null\n";

#[test]
fn scripts_are_answered(rt: HostRuntime) -> Result<(), Fail> {
    assert_replies(&rt, rt.alloc(), b"", b"")?;
    assert_replies(&rt, rt.alloc(), THREE_BLOCKS, THREE_BLOCKS_REPLIES)?;
    assert_replies(&rt, rt.alloc(), REFUSALS, REFUSALS_REPLIES)?;
    assert_replies(&rt, rt.alloc(), NUMBERS, NUMBERS_REPLIES)?;
    assert_replies(&rt, rt.alloc(), KEYS, KEYS_REPLIES)?;
    assert_replies(&rt, rt.alloc(), FORMS, FORMS_REPLIES)?;
    assert_replies(&rt, rt.alloc(), VALUES, VALUES_REPLIES)?;
    assert_replies(&rt, rt.alloc(), REMOVES, REMOVES_REPLIES)?;
    assert_replies(&rt, rt.alloc(), TOPS, TOPS_REPLIES)?;
    assert_replies(&rt, rt.alloc(), PLACES, PLACES_REPLIES)?;
    for (script, replies) in [
        (painting::AUTO_LEVEL, painting::AUTO_LEVEL_REPLIES),
        (
            painting::ALL_AT_ONE_POINT,
            painting::ALL_AT_ONE_POINT_REPLIES,
        ),
        (painting::LINES, painting::LINES_REPLIES),
        (painting::IMAGE, painting::IMAGE_REPLIES),
        (painting::HOLDERS, painting::HOLDERS_REPLIES),
        (maps::TURNED, maps::TURNED_REPLIES),
        (maps::SINGULAR, maps::SINGULAR_REPLIES),
        (maps::FIXED, maps::FIXED_REPLIES),
        (maps::DEEP_SCALES, maps::DEEP_SCALES_REPLIES),
        (maps::SCALED_FROM_ABOVE, maps::SCALED_FROM_ABOVE_REPLIES),
        (
            scrolls::FIXED_IN_A_SCROLLED_VIEWPORT,
            scrolls::FIXED_IN_A_SCROLLED_VIEWPORT_REPLIES,
        ),
        (scrolls::CLAMPED_VIEWPORT, scrolls::CLAMPED_VIEWPORT_REPLIES),
        (
            scrolls::SCROLLED_BEFORE_IT_CLIPS,
            scrolls::SCROLLED_BEFORE_IT_CLIPS_REPLIES,
        ),
        (scrolls::CLIPPED, scrolls::CLIPPED_REPLIES),
        (scrolls::ROUNDED, scrolls::ROUNDED_REPLIES),
        (scrolls::REFUSED_SCROLLS, scrolls::REFUSED_SCROLLS_REPLIES),
        (maps::AT_THE_BOUND, maps::AT_THE_BOUND_REPLIES),
        (maps::REFUSED_ABOVE, maps::REFUSED_ABOVE_REPLIES),
        (areas::AREAS, areas::AREAS_REPLIES),
        (areas::AREAS_IN_BORDERS, areas::AREAS_IN_BORDERS_REPLIES),
        (areas::ROUNDED_AREAS, areas::ROUNDED_AREAS_REPLIES),
        (svg::VIEWS, svg::VIEWS_REPLIES),
        (svg::STAR, svg::STAR_REPLIES),
        (svg::CAPS, svg::CAPS_REPLIES),
        (svg::INTERIORS, svg::INTERIORS_REPLIES),
        (svg::PERIMETERS, svg::PERIMETERS_REPLIES),
        (svg::POINTER_EVENTS, svg::POINTER_EVENTS_REPLIES),
        (svg::NESTED_VIEWPORTS, svg::NESTED_VIEWPORTS_REPLIES),
        (svg::CONTENT_BY_KIND, svg::CONTENT_BY_KIND_REPLIES),
        (values::HIDDEN, values::HIDDEN_REPLIES),
        (values::NO_TARGETS, values::NO_TARGETS_REPLIES),
    ] {
        assert_replies(&rt, rt.alloc(), script, replies)?;
    }
    assert_replies(&rt, rt.alloc(), LAYOUTS, LAYOUTS_REPLIES)?;
    assert_replies(&rt, rt.alloc(), ROOT, b"node 1\n")
}

#[test]
fn pages_of_boxes_are_answered(rt: HostRuntime) -> Result<(), Fail> {
    for (script, replies) in [
        (boxes::ANCHORS, boxes::ANCHORS_REPLIES),
        (boxes::RESIZED, boxes::RESIZED_REPLIES),
        (boxes::FAR_OUT, boxes::FAR_OUT_REPLIES),
        (boxes::TEXT_IN_BORDERS, boxes::TEXT_IN_BORDERS_REPLIES),
        (boxes::PASSED_OVER, boxes::PASSED_OVER_REPLIES),
        (boxes::ROUNDED_CONTENT, boxes::ROUNDED_CONTENT_REPLIES),
        (boxes::HELD, boxes::HELD_REPLIES),
        (scrolls::CLAMPED_NODE, scrolls::CLAMPED_NODE_REPLIES),
        (scrolls::WHAT_CLIPS, scrolls::WHAT_CLIPS_REPLIES),
        (
            scrolls::SCROLLED_FAR_ABOVE,
            scrolls::SCROLLED_FAR_ABOVE_REPLIES,
        ),
    ] {
        assert_replies(&rt, rt.alloc(), script, replies)?;
    }
    Ok(())
}
