// What the program prints: a line for each call, with what it answered.

use refusals::Refusal;
use session::ruling::Outcome;
use std::fmt::Display;
use std::io;

/// Prints lines. A failure to print is kept for the end, since whoever has a move must spend it first.
#[derive(Drop)]
pub(crate) struct Teller<'a> {
    rt: &'a HostRuntime,
    printed: io::Result<()>,
}

impl<'a> Teller<'a> {
    pub fn new(rt: &'a HostRuntime) -> Teller<'a> {
        Teller {
            rt,
            printed: Ok(()),
        }
    }

    /// Prints a call and its answer.
    pub fn tell(&mut self, call: impl Display + Drop, answer: impl Display + Drop) {
        if self.printed.is_ok() {
            self.printed = println!(self.rt; "{call}: {answer}");
        }
    }

    /// Prints a call and its answer, or the number with which it was refused.
    pub fn tell_answer(
        &mut self,
        call: impl Display + Drop,
        answer: Result<impl Display + Drop, Refusal>,
    ) {
        match answer {
            Ok(answer) => self.tell(call, answer),
            Err(why) => self.tell(call, format_args!("no {}", why.number())),
        }
    }

    /// Prints a call and the outcome that it gave.
    pub fn tell_outcome(&mut self, call: impl Display + Drop, outcome: Outcome) {
        match outcome {
            Outcome::Clash(node) => self.tell(call, format_args!("clash {node}")),
            Outcome::Commit(stamp) => self.tell(call, format_args!("commit {stamp}")),
        }
    }

    /// Whether all lines were printed.
    pub fn end(self) -> io::Result<()> {
        self.printed
    }
}
