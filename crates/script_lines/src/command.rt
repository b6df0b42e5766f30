ghost use Rattle.std.specs.Prelude.{◌≡◌, ◌≢◌, IsTrue, IfOk, IfErr, Some, None, Ok, Err};
ghost use Rattle.serde_json.specs.View.{view};
ghost use Rattle.serde_json.specs.Errors.{IsMemory};
ghost use Rattle.script_lines.specs.Blank.{is_blank as blank};
ghost use Rattle.script_lines.specs.Command.{is_long, json_reading, meaning, IsAskable};

use crate::rows::command_from;
use box_tree::Edit;
use serde_json::{Category, Error, Value};
use std::alloc::Global;

/// What a line asks for.
#[derive(Debug, Drop)]
pub enum Command {
    /// A change of the page.
    Edit(Edit),
    /// Which elements lie under a point, in units of 1/64 px within 2^26.
    Hit { x: i64, y: i64 },
    /// Which element is topmost under a point, in the same units.
    Top { x: i64, y: i64 },
    /// The pointer goes to a point, in the same units.
    Point { x: i64, y: i64 },
    /// The pointer stays where it is, over what is there now.
    Refresh,
}

/// Why a line is no command, in the order of the tests.
#[derive(Clone, Copy, Debug, PartialEq, Eq, thiserror::Error)]
pub enum LineFault {
    #[error("the line has more than 1,048,576 bytes")]
    Long,
    #[error("the line is no JSON")]
    Syntax,
    #[error("the line is no command")]
    Command,
    #[error("out of memory")]
    OutOfMemory,
}

/// The most bytes that a line may have without its newline.
pub const LONGEST_LINE: usize = 1 << 20;

/// Whether a line has only spaces, tabs and carriage returns. Such a line has no reply.
pub fn is_blank(line: &[u8]) -> bool
    ensures { result ≡ blank line.now }
{
    line.iter()
        .all(|byte| *byte == b' ' || *byte == b'\t' || *byte == b'\r')
}

/// The command that a line spells, or its first fault. A line that is too long is refused before any memory is taken.
#[tactic(auto, using(crate::proofs::Meanings::meaning_long, crate::proofs::Meanings::meaning_of))]
pub fn command_of(alloc: Global, line: &[u8]) -> Result<Command, LineFault>
    // Unless memory is wanting, the answer is what the line means.
    ensures meaning { result ≢ Err LineFault.OutOfMemory → result ≡ meaning line.now }
    ensures long { IsTrue (is_long line.now) → result ≡ Err LineFault.Long }
    ensures in_range { IfOk result IsAskable }
{
    if line.len() > LONGEST_LINE {
        return Err(LineFault::Long);
    }
    let value = value_of(alloc, line)?;
    match command_from(alloc, &value) {
        Ok(Some(command)) => Ok(command),
        Ok(None) => Err(LineFault::Command),
        Err(_) => Err(LineFault::OutOfMemory),
    }
}

// The JSON reading of a line.
#[tactic(auto, using(crate::proofs::Meanings::reading_of_text, crate::proofs::Meanings::reading_of_bytes))]
fn value_of(alloc: Global, line: &[u8]) -> Result<Value, LineFault>
    ensures ok { IfOk result (λ value. json_reading line.now ≡ Some (view value)) }
    ensures syntax { IfErr result (λ why. why ≢ LineFault.OutOfMemory
        → (why ≡ LineFault.Syntax) × (json_reading line.now ≡ None)) }
{
    let Ok(text) = std::str::from_utf8(line) else {
        return Err(LineFault::Syntax);
    };
    match Value::from_str(alloc, text) {
        Ok(value) => Ok(value),
        Err(error) => Err(fault_of(&error)),
    }
}

// Why a text has no JSON reading.
fn fault_of(error: &Error) -> LineFault
    ensures memory { IsMemory error.now → result ≡ LineFault.OutOfMemory }
    ensures syntax { ¬ IsMemory error.now → result ≡ LineFault.Syntax }
{
    if error.classify() == Category::Memory {
        LineFault::OutOfMemory
    } else {
        LineFault::Syntax
    }
}
