// The program on a host in memory: its words, what it reads and what it writes.
use crate::number_on;
use std::alloc::{Allocator, Global};
use std::cell::RefCell;
use std::env::FillError;
use std::fmt::Display;
use std::io;
use std::io::{BufRead, Lines};
use std::process::Abort;
use std::rt::Env;
use std::test::Fail;

// The words of a command line, the bytes of standard input, and the bytes that were written.
#[derive(Drop)]
struct Host<'a> {
    alloc: Global,
    words: &'a [&'a str],
    input: &'a [u8],
    output: RefCell<Vec<u8>>,
    errors: RefCell<Vec<u8>>,
}

fn put(into: &RefCell<Vec<u8>>, bytes: &[u8]) -> io::Result<()> {
    match into.try_borrow_mut() {
        Ok(mut taken) => Ok(taken.extend_from_slice(bytes)?),
        Err(_) => Err(io::Error::from(io::ErrorKind::Other)),
    }
}

impl Alloc for Host<'_> {
    type A = Global;

    fn alloc(&self) -> Global {
        self.alloc
    }
}

impl Env for Host<'_> {
    fn arg(&self, i: usize, buf: &mut [u8]) -> Result<usize, FillError> {
        let Some(word) = self.words.get(i) else {
            return Err(FillError::NotPresent);
        };
        let bytes = word.as_bytes();
        match buf.get_mut(..bytes.len()) {
            Some(front) => {
                front.copy_from_slice(bytes);
                Ok(bytes.len())
            }
            None => Err(FillError::TooLong),
        }
    }

    fn var(&self, _name: &str, _buf: &mut [u8]) -> Result<usize, FillError> {
        Err(FillError::NotPresent)
    }

    fn var_at(&self, _i: usize, _buf: &mut [u8]) -> Result<usize, FillError> {
        Err(FillError::NotPresent)
    }
}

impl<'a> Input for Host<'a> {
    type Reader = &'a [u8];

    fn read_line<A: Allocator + Clone>(&self, buf: &mut String<A>) -> io::Result<usize> {
        self.reader().read_line(buf)
    }

    fn lines<A: Allocator>(&self, alloc: A) -> Lines<&'a [u8], A> {
        self.reader().lines(alloc)
    }

    fn reader(&self) -> &'a [u8] {
        self.input
    }
}

impl Print for Host<'_> {
    fn print<D: Display + Drop>(&self, value: D) -> io::Result<()> {
        put(&self.output, format!(in self.alloc; "{value}")?.as_bytes())
    }

    fn println<D: Display + Drop>(&self, value: D) -> io::Result<()> {
        put(
            &self.output,
            format!(in self.alloc; "{value}\n")?.as_bytes(),
        )
    }

    fn write_all(&self, bytes: &[u8]) -> io::Result<()> {
        put(&self.output, bytes)
    }
}

impl Eprint for Host<'_> {
    fn eprint<D: Display + Drop>(&self, value: D) -> io::Result<()> {
        put(&self.errors, format!(in self.alloc; "{value}")?.as_bytes())
    }

    fn eprintln<D: Display + Drop>(&self, value: D) -> io::Result<()> {
        put(
            &self.errors,
            format!(in self.alloc; "{value}\n")?.as_bytes(),
        )
    }
}

// Runs the program with words and an input, and compares the number that it ends with and what it writes.
fn assert_run(
    rt: &impl Abort,
    alloc: Global,
    words: &[&str],
    input: &[u8],
    number: u8,
    output: &[u8],
    errors: &[u8],
) -> Result<(), Fail> {
    let host = Host {
        alloc,
        words,
        input,
        output: RefCell::new(Vec::new(alloc)),
        errors: RefCell::new(Vec::new(alloc)),
    };
    assert_eq!(rt; number_on(&host), number);
    assert_eq!(rt; host.output.into_inner().as_slice(), output);
    assert_eq!(rt; host.errors.into_inner().as_slice(), errors);
    Ok(())
}

const SCRIPT: &[u8] =
    b"{\"op\":\"resize\",\"w\":100,\"h\":80,\"max\":[0,0]}\n{\"op\":\"top\",\"x\":1,\"y\":2}\n";

#[test]
fn a_script_is_answered_on_standard_output(rt: HostRuntime) -> Result<(), Fail> {
    let alloc = rt.alloc();
    assert_run(&rt, alloc, &["hitpage"], b"", 0, b"", b"")?;
    assert_run(&rt, alloc, &["hitpage"], SCRIPT, 0, b"ok\ntop null\n", b"")
}

#[test]
fn words_of_no_form_are_a_usage_fault(rt: HostRuntime) -> Result<(), Fail> {
    let alloc = rt.alloc();
    let usage = b"usage: hitpage [--load N]\n";
    for words in [
        ["hitpage", "--help"].as_slice(),
        ["hitpage", ""].as_slice(),
        ["hitpage", "--load", "0"].as_slice(),
        ["hitpage", "--load=2", "x"].as_slice(),
    ] {
        assert_run(&rt, alloc, words, SCRIPT, 2, b"", usage)?;
    }
    Ok(())
}

#[test]
fn a_load_writes_its_summary_alone(rt: HostRuntime) -> Result<(), Fail> {
    let alloc = rt.alloc();
    let two = b"load 2 nodes 4 listed 33 sum 51\n";
    assert_run(&rt, alloc, &["hitpage", "--load", "2"], SCRIPT, 0, two, b"")?;
    assert_run(&rt, alloc, &["hitpage", "--load=2"], SCRIPT, 0, two, b"")
}
