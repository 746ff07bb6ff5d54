// What can be offered to a line.
ghost use Rattle.std.specs.Prelude.{◌≤◌, length};
ghost use Rattle.limits.specs.Limits.{longest_message};

use crate::suite::Suite;

/// A message, and the suite that it is offered for.
#[derive(Clone, Copy)]
pub(crate) struct Offer<'a> {
    pub suite: Suite,
    pub message: &'a [u8],
    // the message is not empty, and a place can hold it
    ghost some: { 1 ≤ length message.now },
    ghost short: { length message.now ≤ longest_message },
}
