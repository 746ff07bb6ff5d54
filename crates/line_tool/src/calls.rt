// Calls on a line, and what is printed of their answers.
use crate::command::Call;
use limits::MESSAGE;
use lines::line::Line;
use refusals::Refusal;
use std::io;
use texts::hex_text;
use thiserror::Error;

// What a buffer holds before a fetch.
const UNTOUCHED: u8 = 0xee;

/// Why a call is not answered.
#[derive(Debug, Drop, Error)]
enum Stop {
    #[error("no {}", .0.number())]
    Refused(#[from] Refusal),
    /// The program ends.
    #[error(transparent)]
    Failed(#[from] io::Error),
}

/// A line that is called, and where the answers are printed.
#[derive(Drop)]
pub(crate) struct Calls<'a, L> {
    pub rt: &'a HostRuntime,
    pub line: L,
}

impl<L: Line> Calls<'_, L> {
    /// Makes a call, and prints its answer or its refusal.
    pub(crate) fn perform(&mut self, call: Call) -> io::Result<()> {
        match self.answer(call) {
            Ok(()) => Ok(()),
            Err(Stop::Failed(e)) => Err(e),
            Err(refused) => println!(self.rt; "{refused}"),
        }
    }

    fn answer(&mut self, call: Call) -> Result<(), Stop> {
        match call {
            Call::Offer(suite, message) => {
                self.line.offer(suite, message.as_slice())?;
                println!(self.rt; "ok")?;
            }
            Call::Settle => {
                self.line.settle()?;
                println!(self.rt; "ok")?;
            }
            Call::Count => println!(self.rt; "count {}", self.line.count()?)?,
            Call::Fetch(number, room) => self.fetch(number, room)?,
            Call::Agreed => self.show_agreed(self.line.count()?)?,
        }
        Ok(())
    }

    // Fetches into a buffer of `room` bytes, and prints the whole buffer.
    fn fetch(&self, number: usize, room: usize) -> io::Result<()> {
        let mut buffer = vec![in self.rt.alloc(); UNTOUCHED; room]?;
        let answer = self.line.fetch(number, buffer.as_mut_slice());
        let text = hex_text(self.rt.alloc(), buffer.as_slice())?;
        match answer {
            Ok(length) => println!(self.rt; "fetched {length} {text}"),
            Err(refusal) => println!(self.rt; "no {} {text}", refusal.number()),
        }
    }

    // Prints the first `count` agreed messages in their order.
    fn show_agreed(&self, count: usize) -> io::Result<()> {
        print!(self.rt; "agreed")?;
        for number in 1..=count {
            let mut buffer = [0; MESSAGE];
            if let Ok(length) = self.line.fetch(number, &mut buffer) {
                let text = hex_text(self.rt.alloc(), &buffer[0..length])?;
                print!(self.rt; " {text}")?;
            }
        }
        println!(self.rt; "")
    }
}
