// What a script line asks for.
use std::alloc::Global;
use texts::{FromWords, Misread, hex_bytes, integer, number_up_to};

// The most bytes that a line is made over: a few more than 4,097 places have.
const MOST_BYTES: u64 = 5_000_000;

// The most bytes of a buffer.
const MOST_ROOM: u64 = 2048;

/// In which order a line settles.
#[derive(Clone, Copy)]
pub(crate) enum Order {
    Offering,
    Turns,
}

/// The line to make.
#[derive(Clone, Copy)]
pub(crate) struct Making {
    pub order: Order,
    pub bytes: usize,
    pub fill: u8,
}

/// A call on the line.
#[derive(Drop)]
pub(crate) enum Call {
    /// A suite and its message.
    Offer(usize, Vec<u8>),
    Settle,
    Count,
    /// A message's number, and the bytes of the buffer.
    Fetch(usize, usize),
    /// A count, and fetches of all that is agreed.
    Agreed,
}

#[derive(Drop)]
pub(crate) enum Command {
    Make(Making),
    Perform(Call),
}

/// The form of each command.
pub(crate) const FORMS: &[&str] = &[
    "first-come BYTES FILL",
    "turn BYTES FILL",
    "offer SUITE HEX",
    "settle",
    "count",
    "fetch NUMBER ROOM",
    "agreed",
];

impl FromWords for Command {
    fn from_words(heap: Global, words: &[&[u8]]) -> Result<Command, Misread> {
        match words {
            [b"first-come", bytes, fill] => make_line(Order::Offering, bytes, fill),
            [b"turn", bytes, fill] => make_line(Order::Turns, bytes, fill),
            [b"offer", suite, text] => {
                let suite = integer(suite)?;
                let message = hex_bytes(heap, text)?.ok_or(Misread::Form)?;
                Ok(Command::Perform(Call::Offer(suite, message)))
            }
            [b"settle"] => Ok(Command::Perform(Call::Settle)),
            [b"count"] => Ok(Command::Perform(Call::Count)),
            [b"fetch", number, room] => {
                let number = integer(number)?;
                let room = at_most(MOST_ROOM, room)?;
                Ok(Command::Perform(Call::Fetch(number, room)))
            }
            [b"agreed"] => Ok(Command::Perform(Call::Agreed)),
            _ => Err(Misread::Form),
        }
    }
}

fn make_line(order: Order, bytes: &[u8], fill: &[u8]) -> Result<Command, Misread> {
    Ok(Command::Make(Making {
        order,
        bytes: at_most(MOST_BYTES, bytes)?,
        fill: integer(fill)?,
    }))
}

fn at_most(most: u64, word: &[u8]) -> Result<usize, Misread> {
    let n = number_up_to(word, most).ok_or(Misread::Form)?;
    Ok(n as usize)
}
