// Lines that ask for a query, lines that scroll, and blank lines.

use super::assert_row;
use crate::{Command, LineFault, command_of, is_blank};
use box_tree::Edit;
use std::alloc::Global;
use std::test::Fail;

#[test]
fn blank_lines_have_spaces_tabs_and_carriage_returns_alone(rt: HostRuntime) -> Result<(), Fail> {
    assert!(rt; is_blank(b" \t\r") && is_blank(b"") && !is_blank(b" a") && !is_blank(b"\n"));
    Ok(())
}

// What a line asks for: its op, the id that it names, and its point.
type Asked = (&'static str, Option<u32>, i64, i64);

fn asked(alloc: Global, line: &str) -> Result<Asked, LineFault> {
    let asked = match command_of(alloc, line.as_bytes())? {
        Command::Hit { x, y } => ("hit", None, x, y),
        Command::Top { x, y } => ("top", None, x, y),
        Command::Point { x, y } => ("point", None, x, y),
        Command::Refresh => ("refresh", None, 0, 0),
        Command::Edit(Edit::Scroll { id, x, y }) => ("scroll", Some(id), x, y),
        Command::Edit(Edit::ScrollView { x, y }) => ("scrollview", None, x, y),
        Command::Edit(_) => ("edit", None, 0, 0),
    };
    Ok(asked)
}

const NONE: Result<Asked, LineFault> = Err(LineFault::Command);

const LINES: &[(&str, Result<Asked, LineFault>)] = &[
    (r#"{"x":-3,"y":4,"op":"hit"}"#, Ok(("hit", None, -3, 4))),
    (
        r#"{"op":"top","y":67108864,"x":-67108864}"#,
        Ok(("top", None, -67108864, 67108864)),
    ),
    (r#"{"op":"top","x":67108865,"y":0}"#, NONE),
    (r#"{"op":"top","x":0}"#, NONE),
    (r#"{"op":"top","x":0,"y":0"#, Err(LineFault::Syntax)),
    (r#"{"op":"point","x":-1,"y":2}"#, Ok(("point", None, -1, 2))),
    (r#"{"op":"point","x":0,"y":-67108865}"#, NONE),
    (r#"{"op":"point"}"#, NONE),
    (r#"{"op":"refresh"}"#, Ok(("refresh", None, 0, 0))),
    (r#"{"op":"refresh","x":0,"y":0}"#, NONE),
    (
        r#"{"op":"scroll","id":4294967295,"x":-67108864,"y":67108864}"#,
        Ok(("scroll", Some(4294967295), -67108864, 67108864)),
    ),
    (
        r#"{"y":-2,"x":1,"id":1,"op":"scroll"}"#,
        Ok(("scroll", Some(1), 1, -2)),
    ),
    (r#"{"op":"scroll","id":0,"x":0,"y":0}"#, NONE),
    (r#"{"op":"scroll","id":4294967296,"x":0,"y":0}"#, NONE),
    (r#"{"op":"scroll","id":1,"x":67108865,"y":0}"#, NONE),
    (r#"{"op":"scroll","id":1,"x":0,"y":-67108865}"#, NONE),
    (r#"{"op":"scroll","id":1,"x":0}"#, NONE),
    (r#"{"op":"scroll","id":1,"x":0,"y":0,"at":0}"#, NONE),
    (
        r#"{"op":"scrollview","x":67108864,"y":-67108864}"#,
        Ok(("scrollview", None, 67108864, -67108864)),
    ),
    (r#"{"op":"scrollview","x":-67108865,"y":0}"#, NONE),
    (r#"{"op":"scrollview","x":0,"y":67108865}"#, NONE),
    (r#"{"op":"scrollview","id":1,"x":0,"y":0}"#, NONE),
    (r#"{"op":"scrollview"}"#, NONE),
    (r#"{"op":"style","id":0,"style":{}}"#, NONE),
    (r#"{"op":"style","id":4294967296,"style":{}}"#, NONE),
    (r#"{"op":"style","id":1}"#, NONE),
    (r#"{"op":"style","id":1,"style":{},"at":0}"#, NONE),
    (r#"{"op":"style","id":1,"style":{"color":0}}"#, NONE),
];

#[test]
fn lines_ask_for_queries_and_scrolls(rt: HostRuntime) -> Result<(), Fail> {
    for (line, expected) in LINES {
        assert_row(&rt, line, &asked(rt.alloc(), line), expected);
    }
    Ok(())
}
