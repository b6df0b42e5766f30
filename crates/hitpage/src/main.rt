// The program `hitpage`: a script on standard input, and its replies on standard output.
//
// It promises nothing of its own. It hands the words of its command line, standard input and output, and the engine of an
// empty page to `run` of `hit_script`, and ends with the number of the status that `run` answers.
#![tactic(auto)]

ghost use Rattle.std.specs.Prelude.{◌≡◌, ◌<◌};

use fractions::{Blank, Brand, Ledger, Steps};
use hit_script::{Status, StdSink, StdSource, run};
use std::process::ExitCode;
use std::rt::Env;
use std::{env, io};
use tree_edits::Engine;

/// The sides of the viewport at first, in units: 1,280 by 720 px.
const WIDTH: i64 = 81920;

const HEIGHT: i64 = 46080;

// The words after the program's name. One that isn't UTF-8 is a word of no form.
fn words_of<R: Env + AllocGlobal>(rt: &R) -> Result<Vec<String>, Status> {
    let words = match env::args(rt) {
        Ok(words) => words,
        Err(error) if error.kind() == io::ErrorKind::OutOfMemory => return Err(Status::Memory),
        Err(_) => return Err(Status::Usage),
    };
    words
        .skip(1)
        .collect(rt.alloc())
        .map_err(|_| Status::Memory)
}

fn status_on<R: Env + AllocGlobal + Input + Print, L: Ledger>(rt: &R, blank: Blank) -> Status
    requires name { blank.name ≡ L.name }
    requires parts { blank.parts ≡ L.parts }
    requires some_parts { 0 < blank.parts }
{
    let words = match words_of(rt) {
        Ok(words) => words,
        Err(status) => return status,
    };
    let Ok(mut desk) = Engine::new(rt.alloc(), WIDTH, HEIGHT) else {
        return Status::Memory;
    };
    let mut source = StdSource {
        from: rt.reader(),
        faults: 0,
    };
    let mut sink = StdSink {
        to: io::writer(rt),
        faults: 0,
    };
    let mut steps = Steps::<L>::new(blank);
    run(
        rt.alloc(),
        &words,
        &mut source,
        &mut sink,
        &mut desk,
        &mut steps,
    )
}

// Runs the program, and answers the number that it ends with.
fn number_on<R: Env + AllocGlobal + Input + Print + Eprint>(rt: &R) -> u8 {
    let status = status_on::<R, Brand>(rt, Blank::new(1));
    if status == Status::Usage {
        let _ = eprintln!(rt; "usage: hitpage [--load N]");
    }
    status.number()
}

fn main(rt: HostRuntime) -> ExitCode {
    ExitCode::from(number_on(&rt))
}

#[cfg(test)]
mod tests;
