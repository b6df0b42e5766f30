ghost use Rattle.std.specs.Prelude.{◌≡◌, ◌++◌, ◌∷◌, [], OnOk, OnErr, decimal};
ghost use Rattle.std.specs.List.{flat_map};
ghost use Rattle.script_lines.specs.Reply.{line_of, line_fault_number, line_fault_name, fault_line, listed, hit_line, top_line, event_name, related_name, listed_kind, listed_event, events_line, reply_line, HasLine, Keeps};

use crate::command::LineFault;
use box_tree::EditFault;
use itoa::Buffer;
use mouse_events::{Event, EventKind};
use std::alloc::{AllocError, AllocFailed};
use thiserror::Error;

/// What a line is answered with.
#[derive(Clone, Copy, Debug)]
pub enum Reply<'a> {
    /// The id of the node that an accepted add made.
    Node(u32),
    /// Any other accepted edit.
    Done,
    /// The members under a point, topmost first.
    Hit(&'a [u32]),
    /// The topmost element under a point, or none.
    Top(Option<u32>),
    /// The events of a turn of the pointer, in their order.
    Events(&'a [Event]),
    Line(LineFault),
    Edit(EditFault),
}

/// Memory was wanting.
#[derive(Clone, Copy, Debug, PartialEq, Eq, Error)]
#[error("out of memory")]
pub struct OutOfMemory;

impl From<AllocError> for OutOfMemory {
    fn from(_error: AllocError) -> OutOfMemory {
        OutOfMemory
    }
}

impl<T: Drop> From<AllocFailed<T>> for OutOfMemory {
    fn from(_error: AllocFailed<T>) -> OutOfMemory {
        OutOfMemory
    }
}

impl LineFault {
    /// The number of the fault in replies, and none for want of memory.
    pub fn number(&self) -> Option<u8>
        ensures { result ≡ line_fault_number self.now }
    {
        match self {
            LineFault::Long => Some(1),
            LineFault::Syntax => Some(2),
            LineFault::Command => Some(3),
            LineFault::OutOfMemory => None,
        }
    }

    /// The name of the fault in replies.
    pub fn name(&self) -> &'static str
        ensures { result.now ≡ line_fault_name self.now }
    {
        match self {
            LineFault::Long => "long",
            LineFault::Syntax => "syntax",
            LineFault::Command => "command",
            LineFault::OutOfMemory => "memory",
        }
    }
}

/// Puts the line of a reply, with its newline, behind what `out` has. Where memory is wanting, `out` is as before.
pub fn print(reply: &Reply<'_>, out: &mut Vec<u8>) -> Result<(), OutOfMemory>
    requires { HasLine reply.now }
    ensures ok { OnOk result (out.new.items ≡ out.old.items ++ reply_line reply.now) }
    ensures err { OnErr result (out.new.items ≡ out.old.items) }
{
    let before = out.as_slice().len();
    if append(reply, out).is_err() {
        out.truncate(before);
        return Err(OutOfMemory);
    }
    Ok(())
}

fn append(reply: &Reply<'_>, out: &mut Vec<u8>) -> Result<(), AllocError>
    ensures ok { OnOk result (out.new.items ≡ out.old.items ++ reply_line reply.now) }
    ensures kept { Keeps out.old.items out.new.items }
{
    match reply {
        Reply::Node(id) => {
            out.extend_from_slice(b"node ")?;
            append_number(*id, out)?;
            out.extend_from_slice(b"\n")
        }
        Reply::Done => out.extend_from_slice(b"ok\n"),
        Reply::Hit(ids) => append_hit(ids, out),
        Reply::Top(id) => append_top(*id, out),
        Reply::Events(events) => append_events(events, out),
        Reply::Line(why) => append_fault(why.number(), why.name(), out),
        Reply::Edit(why) => append_fault(why.number(), why.name(), out),
    }
}

fn append_number(number: u32, out: &mut Vec<u8>) -> Result<(), AllocError>
    ensures ok { OnOk result (out.new.items ≡ out.old.items ++ decimal number) }
    ensures kept { Keeps out.old.items out.new.items }
{
    let mut buffer = Buffer::new();
    out.extend_from_slice(buffer.format(number).as_bytes())
}

fn append_listed(id: u32, out: &mut Vec<u8>) -> Result<(), AllocError>
    ensures ok { OnOk result (out.new.items ≡ out.old.items ++ listed id) }
    ensures kept { Keeps out.old.items out.new.items }
{
    out.extend_from_slice(b" ")?;
    append_number(id, out)
}

fn append_hit(ids: &[u32], out: &mut Vec<u8>) -> Result<(), AllocError>
    ensures ok { OnOk result (out.new.items ≡ out.old.items ++ hit_line ids.now) }
    ensures kept { Keeps out.old.items out.new.items }
{
    out.extend_from_slice(b"hit")?;
    for id in ids {
        append_listed(*id, out)?;
    }
    out.extend_from_slice(b"\n")
}

fn append_top(id: Option<u32>, out: &mut Vec<u8>) -> Result<(), AllocError>
    ensures ok { OnOk result (out.new.items ≡ out.old.items ++ top_line id) }
    ensures kept { Keeps out.old.items out.new.items }
{
    let Some(id) = id else {
        return out.extend_from_slice(b"top null\n");
    };
    out.extend_from_slice(b"top ")?;
    append_number(id, out)?;
    out.extend_from_slice(b"\n")
}

fn append_events(events: &[Event], out: &mut Vec<u8>) -> Result<(), AllocError>
    ensures ok { OnOk result (out.new.items ≡ out.old.items ++ events_line events.now) }
    ensures kept { Keeps out.old.items out.new.items }
{
    out.extend_from_slice(b"events")?;
    for event in events {
        append_event(*event, out)?;
    }
    out.extend_from_slice(b"\n")
}

fn append_event(event: Event, out: &mut Vec<u8>) -> Result<(), AllocError>
    ensures ok { OnOk result (out.new.items ≡ out.old.items ++ listed_event event) }
    ensures kept { Keeps out.old.items out.new.items }
{
    append_kind(event.kind, out)?;
    append_number(event.target, out)?;
    out.extend_from_slice(b":")?;
    append_related(event.related, out)
}

fn append_kind(kind: EventKind, out: &mut Vec<u8>) -> Result<(), AllocError>
    ensures ok { OnOk result (out.new.items ≡ out.old.items ++ listed_kind kind) }
    ensures kept { Keeps out.old.items out.new.items }
{
    out.extend_from_slice(b" ")?;
    out.extend_from_slice(event_name(kind).as_bytes())?;
    out.extend_from_slice(b"=")
}

fn append_related(related: Option<u32>, out: &mut Vec<u8>) -> Result<(), AllocError>
    ensures ok { OnOk result (out.new.items ≡ out.old.items ++ related_name related) }
    ensures kept { Keeps out.old.items out.new.items }
{
    match related {
        Some(id) => append_number(id, out),
        None => out.extend_from_slice(b"-"),
    }
}

// What a kind of event is called in replies.
fn event_name(kind: EventKind) -> &'static str
    ensures { result.now ≡ event_name kind }
{
    match kind {
        EventKind::Out => "out",
        EventKind::Leave => "leave",
        EventKind::Over => "over",
        EventKind::Enter => "enter",
        EventKind::Move => "move",
    }
}

fn append_fault(number: Option<u8>, name: &str, out: &mut Vec<u8>) -> Result<(), AllocError>
    ensures ok { OnOk result (out.new.items ≡ out.old.items ++ fault_line number name.now) }
    ensures kept { Keeps out.old.items out.new.items }
{
    if let Some(number) = number {
        out.extend_from_slice(b"err ")?;
        append_number(u32::from(number), out)?;
        out.extend_from_slice(b" ")?;
        out.extend_from_slice(name.as_bytes())?;
        out.extend_from_slice(b"\n")?;
    }
    Ok(())
}
