// Lines and replies, each expected value worked out by hand.

use crate::{Command, command_of};
use box_tree::{Edit, Kind};
use computed_style::Style;
use std::alloc::Global;
use std::fmt::Debug;
use std::process::Abort;
use std::test::Fail;

mod forms;
mod inherited;
mod queries;
mod replies;
mod styles;
mod transforms;

// What was found at a row of a table is what is expected there.
fn assert_row<T: PartialEq + Debug>(rt: &impl Abort, row: &str, found: &T, expected: &T) {
    assert_eq!(rt; found, expected, "{row}");
}

// The kind and the style of an add with these values of its keys, and none where that is no command.
fn added(alloc: Global, kind: &str, style: &str) -> Result<Option<(Kind, Style)>, Fail> {
    let line = format!(in alloc;
        "{{\"op\":\"add\",\"parent\":1,\"at\":0,\"kind\":{kind},\"boxes\":[],\"style\":{style}}}"
    )?;
    match command_of(alloc, line.as_bytes()) {
        Ok(Command::Edit(Edit::Add { kind, style, .. })) => Ok(Some((kind, style))),
        _ => Ok(None),
    }
}
