// The words of the command line.
ghost use Rattle.std.specs.Prelude.{◌≡◌, ◌≤◌, ◌+◌, ◌<◌, ◌*◌, ◌^◌, ℕ, IfOk, IfSome, Some, None, length, map, option_map};
ghost use Rattle.std.specs.List.{list_all};
ghost use Rattle.std.specs.String.{string_bytes};
ghost use Rattle.std.specs.Bool.{IsTrue};
ghost use Rattle.hit_script.specs.Words.{HasFewBlocks, is_digit, is_short_number, load_by, load_count, spelled, words_ask};

use clap::{Arg, Command};
use std::alloc::Global;

/// What the words of a command line ask for.
#[derive(Clone, Copy, Debug, PartialEq, Eq)]
pub enum Task {
    /// The replies to the script of the source.
    Script,
    /// The summary of the load of so many blocks, from 1 to 20,000.
    Load(u32),
}

/// The most blocks of a load.
const MOST_BLOCKS: u32 = 20000;

/// The most digits of their number.
const MOST_DIGITS: usize = 5;

fn has_digits_alone(text: &[u8]) -> bool
    ensures { result ≡ list_all is_digit text.now }
{
    text.iter().all(|byte| byte.is_ascii_digit())
}

// Whether a text is one to five ASCII digits.
fn is_number(text: &[u8]) -> bool
    ensures { result ≡ is_short_number text.now }
{
    !text.is_empty() && text.len() <= MOST_DIGITS && has_digits_alone(text)
}

// The number that one to five ASCII digits spell.
fn number_of(text: &[u8]) -> u32
    requires { IsTrue (is_short_number text.now) }
    ensures { result ≡ spelled text.now }
{
    let mut number = 0;
    for digit in text {
        number = number * 10 + u32::from(*digit - b'0');
    }
    number
}

// The load of a number of blocks, where the text spells one.
fn load_of(text: &[u8]) -> Option<Task>
    ensures load { result ≡ load_by text.now }
    ensures few { IfSome result HasFewBlocks }
{
    if !is_number(text) {
        return None;
    }
    let count = number_of(text);
    if count == 0 || count > MOST_BLOCKS {
        return None;
    }
    Some(Task::Load(count))
}

/// What the words ask for, where they have one of the three forms: none; `--load` and a number; or `--load=` with it.
pub fn task_of(words: &[String]) -> Option<Task>
    ensures asked { result ≡ words_ask (map string_bytes words.now) }
    ensures within { IfSome result HasFewBlocks }
{
    match words {
        [] => Some(Task::Script),
        [word] => load_of(word.as_str().strip_prefix("--load=")?.as_bytes()),
        [word, number] if word.as_str() == "--load" => load_of(number.as_bytes()),
        _ => None,
    }
}

// The number of blocks as `clap` reads it from the words.
fn read_count(alloc: Global, words: &[String]) -> Option<u32> {
    let load = Arg::new(alloc, "load").long("load");
    let command = Command::new(alloc, "hitpage")
        .no_binary_name(true)
        .arg(load)
        .ok()?;
    let matches = command.try_get_matches_from(words).ok()?;
    matches.get_str("load")?.parse().ok()
}

/// Whether `clap` reads this number of blocks from the words. It answers no only where it finds no memory.
pub fn is_read_as(alloc: Global, words: &[String], count: u32) -> bool {
    read_count(alloc, words) == Some(count)
}
