// What a node has beside its boxes.

use super::assert_row;
use crate::{Command, command_of};
use box_tree::{Edit, Form};
use std::alloc::Global;
use std::test::Fail;
use svg_shapes::Shape;
use view_boxes::{Align, Fit, Side, ViewBox};

// The form of a `shape` with this value of its key, and none where that is no command.
fn formed(alloc: Global, shape: &str) -> Result<Option<Form>, Fail> {
    let line = format!(in alloc; "{{\"op\":\"shape\",\"id\":7,\"shape\":{shape}}}")?;
    match command_of(alloc, line.as_bytes()) {
        Ok(Command::Edit(Edit::Reshape { id: 7, form })) => Ok(Some(form)),
        _ => Ok(None),
    }
}

// What a form is, in words: its sort, its numbers, and of lists how many there are.
type Told = (&'static str, [i64; 6], usize);

fn told(form: &Form) -> Told {
    match form {
        Form::Outline(Shape::Path(poly)) => ("path", [0; 6], poly.points().len()),
        Form::Outline(Shape::Polygon(poly)) => ("polygon", [0; 6], poly.points().len()),
        Form::Outline(Shape::Polyline(poly)) => ("polyline", [0; 6], poly.points().len()),
        &Form::Outline(Shape::Line { x1, y1, x2, y2 }) => ("line", [x1, y1, x2, y2, 0, 0], 0),
        &Form::Outline(Shape::Rect { x, y, w, h, rx, ry }) => ("rect", [x, y, w, h, rx, ry], 0),
        &Form::Outline(Shape::Circle { cx, cy, r }) => ("circle", [cx, cy, r, 0, 0, 0], 0),
        &Form::Outline(Shape::Ellipse { cx, cy, rx, ry }) => {
            ("ellipse", [cx, cy, rx, ry, 0, 0], 0)
        }
        Form::Outline(Shape::Boxes(boxes)) => ("boxes", [0; 6], boxes.0.len()),
        Form::Cover(_) => ("area", [0; 6], 0),
        Form::View(None) => ("no view", [0; 6], 0),
        Form::View(Some(view)) => ("view", [view.x, view.y, view.w, view.h, 0, 0], 0),
        Form::Port(port) => ("port", [port.x, port.y, port.w, port.h, 0, 0], 0),
        &Form::MapName(map) => ("map", [i64::from(map), 0, 0, 0, 0, 0], 0),
    }
}

const FORMS: &[(&str, Option<Told>)] = &[
    (r#"["path",[]]"#, Some(("path", [0; 6], 0))),
    (r#"["path",[[0],[1]]]"#, Some(("path", [0; 6], 0))),
    (
        r#"["path",[[1,-67108864,67108864,0,0],[0,1,2]]]"#,
        Some(("path", [0; 6], 3)),
    ),
    (r#"["path",[[]]]"#, None),
    (r#"["path",[[2,0,0]]]"#, None),
    (r#"["path",[[1,0]]]"#, None),
    (r#"["path",[[1,67108865,0]]]"#, None),
    (r#"["path",[1,0,0]]"#, None),
    (r#"["polygon",[]]"#, Some(("polygon", [0; 6], 0))),
    (r#"["polygon",[0,0,5,5,0,5]]"#, Some(("polygon", [0; 6], 3))),
    (r#"["polygon",[0,0,5]]"#, None),
    (r#"["polygon",[0,-67108865]]"#, None),
    (r#"["polyline",[0,0,5,5]]"#, Some(("polyline", [0; 6], 2))),
    (r#"["polyline",[0]]"#, None),
    (
        r#"["line",-67108864,67108864,1,2]"#,
        Some(("line", [-67108864, 67108864, 1, 2, 0, 0], 0)),
    ),
    (r#"["line",0,0,67108865,0]"#, None),
    (r#"["line",0,0,0]"#, None),
    (
        r#"["rect",-67108864,67108864,0,67108864,1,2]"#,
        Some(("rect", [-67108864, 67108864, 0, 67108864, 1, 2], 0)),
    ),
    (r#"["rect",0,0,-1,0,0,0]"#, None),
    (r#"["rect",0,0,0,0,0,67108865]"#, None),
    (r#"["rect",0,0,0,0]"#, None),
    (
        r#"["circle",1,2,67108864]"#,
        Some(("circle", [1, 2, 67108864, 0, 0, 0], 0)),
    ),
    (r#"["circle",1,2,-1]"#, None),
    (
        r#"["ellipse",1,2,3,4]"#,
        Some(("ellipse", [1, 2, 3, 4, 0, 0], 0)),
    ),
    (r#"["ellipse",1,2,3]"#, None),
    (
        r#"["boxes",[[0,0,1,1],[-67108864,0,67108864,0]]]"#,
        Some(("boxes", [0; 6], 2)),
    ),
    (r#"["boxes",[[0,0,1]]]"#, None),
    (r#"["rect",[1048576,-1048576]]"#, Some(("area", [0; 6], 0))),
    (r#"["rect",[1048577]]"#, None),
    (r#"["circle",[]]"#, Some(("area", [0; 6], 0))),
    (r#"["circle",[-1048577]]"#, None),
    (r#"["poly",[1,2,3]]"#, Some(("area", [0; 6], 0))),
    (r#"["poly",1]"#, None),
    (r#"["default"]"#, Some(("area", [0; 6], 0))),
    (r#"["default",[]]"#, None),
    (r#"["view"]"#, Some(("no view", [0; 6], 0))),
    (
        r#"["view",-67108864,1,0,67108864,"xMidYMax","slice"]"#,
        Some(("view", [-67108864, 1, 0, 67108864, 0, 0], 0)),
    ),
    (r#"["view",0,0,1,1,"xmidymid","meet"]"#, None),
    (r#"["view",0,0,1,1,"none","fill"]"#, None),
    (r#"["view",0,0,-1,1,"none","meet"]"#, None),
    (r#"["port",1,2,3,4]"#, Some(("port", [1, 2, 3, 4, 0, 0], 0))),
    (
        r#"["port",1,2,3,4,5,6,7,8,"none","meet"]"#,
        Some(("port", [1, 2, 3, 4, 0, 0], 0)),
    ),
    (r#"["port",1,2,3,4,5,6,7,8,"none"]"#, None),
    (
        r#"["map",4294967295]"#,
        Some(("map", [4294967295, 0, 0, 0, 0, 0], 0)),
    ),
    (r#"["map",0]"#, Some(("map", [0; 6], 0))),
    (r#"["map",4294967296]"#, None),
    (r#"["star",0]"#, None),
    (r#"[]"#, None),
    (r#"{}"#, None),
];

#[test]
fn each_form_has_its_least_and_its_greatest_numbers(rt: HostRuntime) -> Result<(), Fail> {
    for (text, expected) in FORMS {
        let form = formed(rt.alloc(), text)?.map(|form| told(&form));
        assert_row(&rt, text, &form, expected);
    }
    Ok(())
}

// The viewBox of an inner svg with this align and fit, and none where that is no command.
fn aligned(alloc: Global, align: &str, fit: &str) -> Result<Option<ViewBox>, Fail> {
    let text = format!(in alloc; "[\"port\",0,0,1,1,2,3,4,5,\"{align}\",\"{fit}\"]")?;
    match formed(alloc, &text)? {
        Some(Form::Port(port)) => Ok(port.view),
        _ => Ok(None),
    }
}

fn view_box(align: Align, fit: Fit) -> Option<ViewBox> {
    Some(ViewBox {
        x: 2,
        y: 3,
        w: 4,
        h: 5,
        align,
        fit,
    })
}

const ALIGNS: &[(&str, Align)] = &[
    ("none", Align::Stretch),
    (
        "xMinYMin",
        Align::Keep {
            x: Side::Min,
            y: Side::Min,
        },
    ),
    (
        "xMidYMin",
        Align::Keep {
            x: Side::Mid,
            y: Side::Min,
        },
    ),
    (
        "xMaxYMin",
        Align::Keep {
            x: Side::Max,
            y: Side::Min,
        },
    ),
    (
        "xMinYMid",
        Align::Keep {
            x: Side::Min,
            y: Side::Mid,
        },
    ),
    (
        "xMidYMid",
        Align::Keep {
            x: Side::Mid,
            y: Side::Mid,
        },
    ),
    (
        "xMaxYMid",
        Align::Keep {
            x: Side::Max,
            y: Side::Mid,
        },
    ),
    (
        "xMinYMax",
        Align::Keep {
            x: Side::Min,
            y: Side::Max,
        },
    ),
    (
        "xMidYMax",
        Align::Keep {
            x: Side::Mid,
            y: Side::Max,
        },
    ),
    (
        "xMaxYMax",
        Align::Keep {
            x: Side::Max,
            y: Side::Max,
        },
    ),
];

#[test]
fn each_align_has_its_name_with_either_fit(rt: HostRuntime) -> Result<(), Fail> {
    let alloc = rt.alloc();
    for (name, align) in ALIGNS {
        let meet = aligned(alloc, name, "meet")?;
        assert_row(&rt, name, &meet, &view_box(*align, Fit::Meet));
        let slice = aligned(alloc, name, "slice")?;
        assert_row(&rt, name, &slice, &view_box(*align, Fit::Slice));
    }
    Ok(())
}
