// How runs end, and what is written when.
ghost use Rattle.std.specs.Prelude.{◌<◌, None};

use super::{EVER, THREE_BLOCKS, THREE_BLOCKS_REPLIES, play, play_with, sink_of, source_of};
use crate::{Failed, Sink, SinkFault, Source, Status, StdSink, StdSource};
use std::alloc::Global;
use std::cell::Cell;
use std::io;
use std::process::Abort;
use std::test::Fail;

/// The pieces that an end gives or takes, and its calls that fail.
#[derive(Clone, Copy)]
struct Plan<'a> {
    piece: usize,
    failing: &'a [u64],
    ghost some_piece: { 0 < piece },
}

fn planned(piece: usize, failing: &[u64]) -> Plan<'_>
    requires { 0 < piece }
{
    Plan { piece, failing }
}

// What comes of the script of three blocks between two ends.
fn assert_outcome(
    rt: &impl Abort,
    alloc: Global,
    from: Plan<'_>,
    to: Plan<'_>,
    status: u8,
    replies: &[u8],
) -> Result<(), Fail> {
    let mut source = source_of(alloc, THREE_BLOCKS, from.piece, from.failing)?;
    let mut sink = sink_of(alloc, to.piece, to.failing)?;
    assert_eq!(rt; play(alloc, &mut source, &mut sink)?.number(), status);
    assert_eq!(rt; sink.bytes.as_slice(), replies);
    Ok(())
}

// Pieces of any size come and go; a failure leaves the replies so far, and the status names the end that failed.
#[test]
fn runs_end_as_their_ends_do(rt: HostRuntime) -> Result<(), Fail> {
    let alloc = rt.alloc();
    let whole = planned(EVER, &[]);
    let line = planned(83, &[]);
    for piece in [1, 7, 83, EVER] {
        let any = planned(piece, &[]);
        assert_outcome(&rt, alloc, any, whole, 0, THREE_BLOCKS_REPLIES)?;
        assert_outcome(&rt, alloc, whole, any, 0, THREE_BLOCKS_REPLIES)?;
    }
    assert_outcome(&rt, alloc, planned(83, &[1]), whole, 4, b"")?;
    assert_outcome(&rt, alloc, planned(83, &[2]), whole, 4, b"node 1\n")?;
    assert_outcome(
        &rt,
        alloc,
        planned(EVER, &[2]),
        whole,
        4,
        THREE_BLOCKS_REPLIES,
    )?;
    assert_outcome(&rt, alloc, line, planned(EVER, &[1]), 5, b"")?;
    assert_outcome(&rt, alloc, line, planned(3, &[2]), 5, b"nod")
}

/// A source and a sink with one log between them, which says how many bytes were written before each read.
#[derive(Drop)]
struct Logged<'a> {
    script: &'a [u8],
    piece: usize,
    written: &'a Cell<usize>,
    before_reads: Vec<usize>,
}

#[derive(Drop)]
struct Counting<'a> {
    written: &'a Cell<usize>,
}

impl<'a> Source for Logged<'a> {
    ghost left = { λ _. None };

    ghost faults = { λ _. 0 };

    fn read(&mut self, into: &mut [u8]) -> Result<usize, Failed> {
        // A note that finds no memory is missing in the log.
        let _ = self.before_reads.push(self.written.get());
        let count = self.script.len().min(self.piece).min(into.len());
        into[..count].copy_from_slice(&self.script[..count]);
        self.script = &self.script[count..];
        Ok(count)
    }
}

impl<'a> Sink for Counting<'a> {
    ghost taken = { λ _. None };

    ghost faults = { λ _. 0 };

    fn write(&mut self, piece: &[u8]) -> Result<usize, SinkFault> {
        self.written
            .set(self.written.get().saturating_add(piece.len()));
        Ok(piece.len())
    }
}

fn assert_written_before_reads(
    rt: &impl Abort,
    alloc: Global,
    piece: usize,
    expected: &[usize],
) -> Result<(), Fail> {
    let written = Cell::new(0);
    let mut source = Logged {
        script: THREE_BLOCKS,
        piece,
        written: &written,
        before_reads: Vec::new(alloc),
    };
    let mut sink = Counting { written: &written };
    assert_eq!(rt; play(alloc, &mut source, &mut sink)?, Status::Done);
    assert_eq!(rt; source.before_reads.as_slice(), expected);
    Ok(())
}

// The replies to all lines that are whole are written before the next read. The first three lines have 83 bytes and replies
// of 7, the others 27 and 29 with replies of 10 and 6.
#[test]
fn replies_are_written_before_each_further_read(rt: HostRuntime) -> Result<(), Fail> {
    assert_written_before_reads(&rt, rt.alloc(), 83, &[0, 7, 14, 21, 37])?;
    assert_written_before_reads(&rt, rt.alloc(), 100, &[0, 7, 14, 31, 37])?;
    assert_written_before_reads(&rt, rt.alloc(), EVER, &[0, 37])
}

#[test]
fn a_word_is_a_usage_fault(rt: HostRuntime) -> Result<(), Fail> {
    let mut source = source_of(rt.alloc(), THREE_BLOCKS, EVER, &[])?;
    let mut sink = sink_of(rt.alloc(), EVER, &[])?;
    let words = [String::from_str(rt.alloc(), "--load")?];
    let status = play_with(rt.alloc(), &words, &mut source, &mut sink)?;
    assert_eq!(rt; (status, status.number()), (Status::Usage, 2));
    assert_eq!(rt; (source.calls, sink.calls), (0, 0));
    assert_eq!(rt; (Status::Memory.number(), Status::TooMuch.number()), (6, 7));
    Ok(())
}

/// A reader and writer that always fails.
#[derive(Drop)]
struct Broken;

impl io::Read for Broken {
    fn read(&mut self, _buf: &mut [u8]) -> io::Result<usize> {
        Err(io::Error::from(io::ErrorKind::BrokenPipe))
    }
}

impl io::Write for Broken {
    fn write(&mut self, _buf: &[u8]) -> io::Result<usize> {
        Err(io::Error::from(io::ErrorKind::BrokenPipe))
    }

    fn flush(&mut self) -> io::Result<()> {
        Ok(())
    }
}

#[test]
fn std_ends_pass_bytes_on_and_count_faults(rt: HostRuntime) -> Result<(), Fail> {
    let mut piece = [0; 4];
    let text = [104, 105];
    let mut source = StdSource {
        from: text.as_slice(),
        faults: 0,
    };
    assert_eq!(rt; source.read(&mut piece), Ok(2));
    assert_eq!(rt; piece, [104, 105, 0, 0]);
    assert_eq!(rt; source.read(&mut piece), Ok(0));
    let mut sink = StdSink {
        to: Vec::new(rt.alloc()),
        faults: 0,
    };
    assert_eq!(rt; sink.write(&text), Ok(2));
    assert_eq!(rt; sink.to.as_slice(), text.as_slice());
    let mut no_source = StdSource {
        from: Broken,
        faults: 0,
    };
    assert_eq!(rt; no_source.read(&mut piece), Err(Failed));
    let mut no_sink = StdSink {
        to: Broken,
        faults: 6,
    };
    assert_eq!(rt; no_sink.write(&text), Err(SinkFault::Failed));
    assert_eq!(rt;
        (source.faults, sink.faults, no_source.faults, no_sink.faults),
        (0, 0, 1, 7)
    );
    Ok(())
}
