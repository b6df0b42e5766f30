// Whole runs, bytes in and bytes out. Each expected output was worked out by hand.
ghost use Rattle.std.specs.Prelude.{◌≡◌, ◌<◌};

use crate::{Bytes, Calm, OutOfMemory, Sink, Source, Status, Taken, run};
use fractions::{Blank, Brand, Ledger, Steps};
use std::alloc::{AllocError, Global};
use std::process::Abort;
use std::test::Fail;
use tree_edits::Engine;

mod areas;
mod boxes;
mod building;
mod desks;
mod edits;
mod ends;
mod kinds;
mod limits;
mod lines;
mod loads;
mod maps;
mod painting;
mod pointer;
mod scripts;
mod scrolls;
mod svg;
mod trees;
mod values;

/// A piece as large as any.
const EVER: usize = 65536;

/// Two blocks in a root, and two questions.
const THREE_BLOCKS: &[u8] =
    br#"{"op":"add","parent":0,"at":0,"kind":"block","boxes":[[0,0,0,100,100]],"style":{}}
{"op":"add","parent":1,"at":0,"kind":"block","boxes":[[0,10,10,40,40]],"style":{}}
{"op":"add","parent":1,"at":1,"kind":"block","boxes":[[0,30,30,40,40]],"style":{}}
{"op":"hit","x":35,"y":35}
{"op":"hit","x":200,"y":200}
"#;

const THREE_BLOCKS_REPLIES: &[u8] = b"node 1\nnode 2\nnode 3\nhit 3 2 1\nhit 1\n";

fn run_on_new_page<S: Source, K: Sink, L: Ledger>(
    alloc: Global,
    words: &[String],
    source: &mut S,
    sink: &mut K,
    blank: Blank,
) -> Result<Status, OutOfMemory>
    requires name { blank.name ≡ L.name }
    requires parts { blank.parts ≡ L.parts }
    requires some_parts { 0 < blank.parts }
{
    let mut desk = Engine::new(alloc, 81920, 46080)?;
    let mut steps = Steps::<L>::new(blank);
    Ok(run(alloc, words, source, sink, &mut desk, &mut steps))
}

fn play_with<S: Source, K: Sink>(
    alloc: Global,
    words: &[String],
    source: &mut S,
    sink: &mut K,
) -> Result<Status, OutOfMemory> {
    run_on_new_page::<S, K, Brand>(alloc, words, source, sink, Blank::new(1))
}

fn play<S: Source, K: Sink>(
    alloc: Global,
    source: &mut S,
    sink: &mut K,
) -> Result<Status, OutOfMemory> {
    play_with(alloc, &[], source, sink)
}

fn sink_of(alloc: Global, piece: usize, failing: &[u64]) -> Result<Taken, AllocError>
    requires { 0 < piece }
{
    Ok(Taken {
        bytes: Vec::new(alloc),
        piece,
        failing: Vec::from_slice(alloc, failing)?,
        calls: 0,
        faults: 0,
    })
}

fn source_of(
    alloc: Global,
    bytes: &[u8],
    piece: usize,
    failing: &[u64],
) -> Result<Bytes, AllocError>
    requires { 0 < piece }
{
    Ok(Bytes {
        bytes: Vec::from_slice(alloc, bytes)?,
        at: 0,
        piece,
        failing: Vec::from_slice(alloc, failing)?,
        calls: 0,
        faults: 0,
    })
}

fn calm_run(alloc: Global, script: &[u8], sink: &mut Taken) -> Result<Status, OutOfMemory> {
    let mut source = Calm {
        bytes: Vec::from_slice(alloc, script)?,
        at: 0,
    };
    play(alloc, &mut source, sink)
}

fn assert_replies(
    rt: &impl Abort,
    alloc: Global,
    script: &[u8],
    replies: &[u8],
) -> Result<(), Fail> {
    let mut sink = sink_of(alloc, EVER, &[])?;
    let status = calm_run(alloc, script, &mut sink)?;
    assert_eq!(rt; status, Status::Done);
    assert_eq!(rt; sink.bytes.as_slice(), replies);
    Ok(())
}

// A byte so often, and a newline.
fn push_line(script: &mut Vec<u8>, byte: u8, count: usize) -> Result<(), AllocError> {
    for _ in 0..count {
        script.push(byte)?;
    }
    script.push(b'\n')?;
    Ok(())
}
