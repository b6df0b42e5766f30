// The words of the command line, and the load.
use super::{EVER, OutOfMemory, THREE_BLOCKS, play_with, sink_of, source_of};
use crate::Status;
use std::alloc::{AllocError, Global};
use std::process::Abort;
use std::test::Fail;

fn words_of(alloc: Global, words: &[&str]) -> Result<Vec<String>, AllocError> {
    let mut all = Vec::new(alloc);
    for word in words {
        all.push(String::from_str(alloc, word)?)?;
    }
    Ok(all)
}

// Runs with words over a script that has to stay as it is, and compares the status and what is written.
fn assert_words(
    rt: &impl Abort,
    alloc: Global,
    words: &[&str],
    status: Status,
    written: &[u8],
) -> Result<(), Fail> {
    let words = words_of(alloc, words)?;
    let mut source = source_of(alloc, THREE_BLOCKS, EVER, &[])?;
    let mut sink = sink_of(alloc, EVER, &[])?;
    let ended = play_with(alloc, &words, &mut source, &mut sink)?;
    assert_eq!(rt; ended, status);
    assert_eq!(rt; sink.bytes.as_slice(), written);
    assert_eq!(rt; (source.calls, source.at), (0, 0));
    Ok(())
}

/// The words of a load have two forms.
#[test]
fn a_load_answers_its_summary_alone(rt: HostRuntime) -> Result<(), Fail> {
    let alloc = rt.alloc();
    let two = b"load 2 nodes 4 listed 33 sum 51\n";
    for words in [
        ["--load", "2"].as_slice(),
        ["--load=2"].as_slice(),
        ["--load", "00002"].as_slice(),
        ["--load=02"].as_slice(),
    ] {
        assert_words(&rt, alloc, words, Status::Done, two)?;
    }
    Ok(())
}

#[test]
fn other_words_are_a_usage_fault(rt: HostRuntime) -> Result<(), Fail> {
    let alloc = rt.alloc();
    for words in [
        ["--load"].as_slice(),
        ["--load="].as_slice(),
        ["--load", ""].as_slice(),
        ["--load", "0"].as_slice(),
        ["--load=0"].as_slice(),
        ["--load", "20001"].as_slice(),
        ["--load", "020000"].as_slice(),
        ["--load", "+2"].as_slice(),
        ["--load", " 2"].as_slice(),
        ["--load", "2x"].as_slice(),
        ["--load", "2", "x"].as_slice(),
        ["--load=2", "x"].as_slice(),
        ["--load=2", "--load=2"].as_slice(),
        ["--load", "2", "--load", "2"].as_slice(),
        ["--load", "=2"].as_slice(),
        ["--loads", "2"].as_slice(),
        ["--loa", "2"].as_slice(),
        ["-load", "2"].as_slice(),
        ["--", "--load=2"].as_slice(),
        ["2"].as_slice(),
        ["--help"].as_slice(),
        ["--version"].as_slice(),
        [""].as_slice(),
    ] {
        assert_words(&rt, alloc, words, Status::Usage, b"")?;
    }
    Ok(())
}

// Whether a point is in a block. A turned block is tested by the point turned back about the middle of its box, with all
// numbers five times as large.
fn is_in_block(i: i64, x: i64, y: i64) -> bool {
    let side = i.wrapping_rem(60).wrapping_add(20).wrapping_mul(64);
    let half = side.wrapping_div(2);
    let left = i.wrapping_mul(37).wrapping_rem(1200).wrapping_mul(64);
    let top = i.wrapping_mul(53).wrapping_rem(640).wrapping_mul(64);
    let right = x.wrapping_sub(left.wrapping_add(half));
    let down = y.wrapping_sub(top.wrapping_add(half));
    let (along, across, most) = if i.wrapping_rem(4) == 3 {
        let along = right.wrapping_mul(3).wrapping_add(down.wrapping_mul(4));
        let across = down.wrapping_mul(3).wrapping_sub(right.wrapping_mul(4));
        (along, across, half.wrapping_mul(5))
    } else {
        (right, down, half)
    };
    let least = most.wrapping_neg();
    least <= along && along < most && least <= across && across < most
}

// The ids under the query of a number: the root and each section, which are as large as the viewport, and the blocks that
// hold the point. Answers how many they are and what they add up to.
fn under_query(count: i64, j: i64) -> (i64, i64) {
    let (x, y) = (j.wrapping_mul(5120), j.wrapping_mul(2880));
    let (mut listed, mut sum) = (1i64, 1i64);
    for i in 0..count {
        let section = i.wrapping_div(100).wrapping_mul(101).wrapping_add(2);
        let place = i.wrapping_rem(100);
        if place == 0 {
            listed = listed.wrapping_add(1);
            sum = sum.wrapping_add(section);
        }
        if is_in_block(i, x, y) {
            listed = listed.wrapping_add(1);
            sum = sum.wrapping_add(section.wrapping_add(place).wrapping_add(1));
        }
    }
    (listed, sum)
}

// The summary by a walk over all blocks for each query.
fn summary_by_walk(alloc: Global, count: i64) -> Result<String, AllocError> {
    let nodes = count
        .wrapping_add(count.wrapping_add(99).wrapping_div(100))
        .wrapping_add(1);
    let (mut listed, mut sum) = (0i64, 0i64);
    for j in 0..16 {
        let (more, higher) = under_query(count, j);
        listed = listed.wrapping_add(more);
        sum = sum.wrapping_add(higher);
    }
    format!(in alloc; "load {count} nodes {nodes} listed {listed} sum {sum}\n")
}

#[test]
fn summaries_are_those_of_a_plain_walk(rt: HostRuntime) -> Result<(), Fail> {
    let alloc = rt.alloc();
    for count in [1, 2, 99, 100, 101, 200, 20_000] {
        let number = format!(in alloc; "{count}")?;
        let summary = summary_by_walk(alloc, count)?;
        assert_words(
            &rt,
            alloc,
            &["--load", number.as_str()],
            Status::Done,
            summary.as_bytes(),
        )?;
    }
    Ok(())
}
