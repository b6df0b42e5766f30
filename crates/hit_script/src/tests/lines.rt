// How scripts are cut into lines, and in which order a line is tested.
use super::{EVER, assert_replies, play, push_line, sink_of, source_of};
use crate::{Cut, LineCutter, Status};
use std::alloc::AllocError;
use std::process::Abort;
use std::test::Fail;

// Brackets so deep, and a newline.
fn push_nest(script: &mut Vec<u8>, depth: usize) -> Result<(), AllocError> {
    for _ in 0..depth {
        script.push(b'[')?;
    }
    push_line(script, b']', depth)
}

/// Lines that have a fault, the last of them without a newline.
const FAULTY_LINES: &[u8] = br#"{"op":"hit","x":1.0,"y":0}
{"op":"hit","x":1}
{"op":"top","x":0,"y":0"#;

// A line is tested in this order: too long, blank, no JSON, no command.
#[test]
fn lines_are_tested_in_order(rt: HostRuntime) -> Result<(), Fail> {
    let mut hostile = Vec::new(rt.alloc());
    push_line(&mut hostile, b' ', 0)?;
    push_line(&mut hostile, b'a', 1048577)?;
    hostile.extend_from_slice(FAULTY_LINES)?;
    assert_replies(
        &rt,
        rt.alloc(),
        &hostile,
        b"err 1 long\nerr 3 command\nerr 3 command\nerr 2 syntax\n",
    )?;
    let mut limits = Vec::new(rt.alloc());
    push_nest(&mut limits, 127)?;
    push_nest(&mut limits, 128)?;
    push_line(&mut limits, 255, 1)?;
    push_line(&mut limits, b'a', 1048576)?;
    push_line(&mut limits, b' ', 1048577)?;
    push_line(&mut limits, b' ', 1048576)?;
    push_line(&mut limits, b'{', 2000000)?;
    limits.extend_from_slice(b"[]")?;
    assert_replies(
        &rt,
        rt.alloc(),
        &limits,
        b"err 3 command\nerr 2 syntax\nerr 2 syntax\nerr 2 syntax\nerr 1 long\nerr 1 long\nerr 3 command\n",
    )
}

// The longest line that there may be, and one byte more: each is a line of its own, and what is too long is no part of the
// next line. The last line has no newline.
#[test]
fn no_line_runs_into_the_next(rt: HostRuntime) -> Result<(), Fail> {
    let mut script = Vec::new(rt.alloc());
    push_line(&mut script, b'a', 1048576)?;
    push_line(&mut script, b'1', 1048577)?;
    script.push(b'2')?;
    for piece in [7, EVER] {
        let mut source = source_of(rt.alloc(), &script, piece, &[])?;
        let mut sink = sink_of(rt.alloc(), EVER, &[])?;
        assert_eq!(rt; play(rt.alloc(), &mut source, &mut sink)?, Status::Done);
        assert_eq!(rt;
            sink.bytes.as_slice(),
            b"err 2 syntax\nerr 1 long\nerr 3 command\n".as_slice()
        );
    }
    Ok(())
}

// A piece that a cutter takes, with its condition.
fn take_piece(rt: &impl Abort, cutter: &mut LineCutter, piece: &[u8]) -> (usize, Cut) {
    let most = 1 << 31;
    assert!(rt; cutter.length() <= most && piece.len() as u64 <= most);
    cutter.take_piece(piece)
}

// A byte that a cutter takes, with its condition.
fn take_byte(rt: &impl Abort, cutter: &mut LineCutter, byte: u8) -> Cut {
    assert!(rt; cutter.length() < 1 << 32);
    cutter.take(byte)
}

// The longest line that there may be, byte by byte, and one byte more.
#[test]
fn lines_at_the_limit_are_cut(rt: HostRuntime) -> Result<(), Fail> {
    let mut cutter = LineCutter::new(rt.alloc())?;
    for _ in 0..1048576 {
        assert_eq!(rt; take_byte(&rt, &mut cutter, b'a'), Cut::More);
    }
    assert_eq!(rt; take_byte(&rt, &mut cutter, b'\n'), Cut::Whole);
    assert_eq!(rt; take_byte(&rt, &mut cutter, b'b'), Cut::More);
    assert_eq!(rt; take_byte(&rt, &mut cutter, b'\n'), Cut::Long);
    assert_eq!(rt; cutter.length(), 1048577);
    assert_eq!(rt; cutter.line().len(), 1048576);
    Ok(())
}

// A cutter by itself: bytes one by one and in pieces, a line at its limit and one past it.
#[test]
fn a_cutter_counts_what_it_does_not_keep(rt: HostRuntime) -> Result<(), Fail> {
    let mut cutter = LineCutter::new(rt.alloc())?;
    assert_eq!(rt; take_byte(&rt, &mut cutter, b'\n'), Cut::Whole);
    assert_eq!(rt; take_byte(&rt, &mut cutter, b'a'), Cut::More);
    assert_eq!(rt; take_piece(&rt, &mut cutter, b"bcd\nef"), (4, Cut::Whole));
    assert_eq!(rt; cutter.line(), b"abcd".as_slice());
    assert_eq!(rt; cutter.length(), 4);
    assert_eq!(rt; take_piece(&rt, &mut cutter, b""), (0, Cut::More));
    cutter.clear();
    assert_eq!(rt; cutter.line(), b"".as_slice());
    assert_eq!(rt; cutter.length(), 0);
    let mut longest = Vec::new(rt.alloc());
    push_line(&mut longest, b'a', 1048576)?;
    assert_eq!(rt;
        take_piece(&rt, &mut cutter, &longest),
        (1048577, Cut::Whole)
    );
    assert_eq!(rt; take_piece(&rt, &mut cutter, b"b"), (1, Cut::More));
    assert_eq!(rt; take_piece(&rt, &mut cutter, b"\ncd"), (1, Cut::Long));
    assert_eq!(rt; take_piece(&rt, &mut cutter, b"cd\n"), (3, Cut::Long));
    assert_eq!(rt; cutter.length(), 1048579);
    assert_eq!(rt; Some(cutter.line()), longest.get(..1048576));
    Ok(())
}
