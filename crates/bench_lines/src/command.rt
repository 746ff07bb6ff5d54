// What a line of the bench asks for.
ghost use Rattle.std.specs.Prelude.{◌≡◌, ◌≤◌, ℕ, List, length, Some, IfOk, IsSomeAnd, OnErr};
ghost use Rattle.std.specs.Fmt.{DisplaysOnOk};
ghost use Rattle.std.specs.List.{join_with_byte};
ghost use Rattle.std.specs.Option.{option_map};
ghost use Rattle.bench_lines.specs.Commands.{Asked, IsForSession, asked, command_of, gathered_asks, line_asks, make_in};
ghost use Rattle.bench_lines.specs.Printing.{IsAsked, asked_text, call_words};
ghost use Rattle.texts.specs.Buffers.{gathered, gathered_of, whole_line};
ghost use Rattle.texts.specs.Texts.{left};

use crate::calls::read_call;
use crate::fields::next_number;
use history::call::Call;
use session::suite_slot::SuiteSlot;
use settings::colour::Colour;
use std::alloc::{AllocError, Global};
use std::fmt;
use texts::{Fields, LineBuffer, number};

/// The most bytes of a line that the bench reads.
pub const MOST_BYTES: usize = 1400;

/// What a line asks for.
#[derive(PartialEq, Eq, Debug, Drop)]
pub enum Command {
    /// A session of so many suites, with these nodes.
    Make { suites: usize, nodes: Vec<u64> },
    /// A call of the session.
    Perform(Call<Colour>),
}

/// Its letter and its numbers, with one space between each two.
impl fmt::Display for Command {
    ghost output = { λ command. Some (asked_text (asked command)) };

    fn fmt<W: fmt::Write>(&self, f: &mut fmt::Formatter<W>) -> fmt::Result {
        match self {
            Command::Make { suites, nodes } => {
                write!(f, "N {suites}")?;
                for node in nodes {
                    write!(f, " {node}")?;
                }
                Ok(())
            }
            Command::Perform(call) => write_call(call, f),
        }
    }
}

fn write_call<W: fmt::Write>(call: &Call<Colour>, f: &mut fmt::Formatter<W>) -> fmt::Result
    ensures { DisplaysOnOk W.write_str_gives f.old result (Some (join_with_byte 32 (call_words call.now))) f.new }
{
    match call {
        Call::Begin(SuiteSlot { suite, slot }) => write!(f, "B {suite} {slot}"),
        Call::Commit(SuiteSlot { suite, slot }) => write!(f, "C {suite} {slot}"),
        Call::Abandon(SuiteSlot { suite, slot }) => write!(f, "A {suite} {slot}"),
        Call::Collect(SuiteSlot { suite, slot }) => write!(f, "K {suite} {slot}"),
        Call::Read(SuiteSlot { suite, slot }, node) => write!(f, "R {suite} {slot} {node}"),
        Call::Write(SuiteSlot { suite, slot }, node, colour) => {
            write!(f, "W {suite} {slot} {node} {colour}")
        }
        Call::Settle => f.write_str("S"),
        Call::Take(suite) => write!(f, "T {suite}"),
    }
}

/// What a gathered line asks for, or `None` where it is too long or cannot be read. It fails only where there is no memory
/// for a session's nodes.
pub fn read_line(heap: Global, line: &LineBuffer) -> Result<Option<Command>, AllocError>
    ensures answer { IfOk result (λ command. option_map asked command ≡ gathered_asks (gathered line.now)) }
    ensures limited { (text : List ℕ) → gathered line.now ≡ gathered_of MOST_BYTES text
        → IfOk result (λ command. option_map asked command ≡ line_asks text) }
    ensures fails { OnErr result (IsSomeAnd (whole_line (gathered line.now)) IsForSession) }
{
    let Some(bytes) = line.whole() else {
        return Ok(None);
    };
    read_command(heap, bytes)
}

/// What a line asks for, or `None` where it cannot be read. It fails only where there is no memory for a session's nodes.
pub fn read_command(heap: Global, line: &[u8]) -> Result<Option<Command>, AllocError>
    ensures answer { IfOk result (λ command. option_map asked command ≡ command_of line.now) }
    ensures fails { OnErr result (IsForSession line.now) }
{
    let mut fields = Fields::new(line);
    let Some([letter]) = fields.next() else {
        return Ok(None);
    };
    if *letter == b'N' {
        return read_making(heap, &mut fields);
    }
    let Some(call) = read_call(*letter, &mut fields) else {
        return Ok(None);
    };
    Ok(Some(Command::Perform(call)))
}

/// The session that fields ask for: its suites, and then its nodes.
fn read_making(heap: Global, fields: &mut Fields) -> Result<Option<Command>, AllocError>
    ensures { IfOk result (λ command. option_map asked command ≡ make_in (left fields.old)) }
{
    let Some(suites) = next_number(fields) else {
        return Ok(None);
    };
    let mut nodes = Vec::new(heap);
    for field in fields {
        let Some(node) = number(field) else {
            return Ok(None);
        };
        nodes.push(node)?;
    }
    Ok(Some(Command::Make {
        suites: suites as usize,
        nodes,
    }))
}

/// What a command prints is read as that command, and whatever a line asks for is printed by such a command.
pub fn commands_return()
    ensures read { (a : Asked) → IsAsked a → command_of (asked_text a) ≡ Some a }
    ensures within { (a : Asked) → IsAsked a → length (asked_text a) ≤ MOST_BYTES → line_asks (asked_text a) ≡ Some a }
    ensures any { (line : List ℕ) (a : Asked) → command_of line ≡ Some a → IsAsked a }
{}
