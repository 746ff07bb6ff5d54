// What every line shows. Whatever handles a line is written and proved once, over this trait.
ghost use Rattle.std.specs.Prelude.{◌≡◌, OnErr, length};
ghost use Rattle.lines.specs.Lines.{LineState, Lawful, offer_answer, after_offer, settle_answer, Settles, count_answer, fetch_answer, message_number, after_fetch, KeepsAgreed};

use refusals::Refusal;

/// A line (an atomic broadcast): one order of messages for all suites. Every call tells that the line is lawful.
pub trait Line {
    // the meaning of a line: the agreed list, a waiting list for each suite, and the limit on their total
    ghost state: { Self → LineState };

    /// Puts a message at the end of its suite's waiting list.
    fn offer(&mut self, suite: usize, message: &[u8]) -> Result<(), Refusal>
        ensures answer { result ≡ offer_answer (state self.old) suite message.now }
        ensures line { state self.new ≡ after_offer result (state self.old) suite message.now }
        ensures same { OnErr result (self.new ≡ self.old) }
        ensures kept { KeepsAgreed (state self.old) (state self.new) }
        ensures law { Lawful (state self.new) };

    /// Moves the first message of one waiting list to the end of the agreed list. The line chooses which.
    fn settle(&mut self) -> Result<(), Refusal>
        ensures answer { result ≡ settle_answer (state self.old) }
        ensures choice { Settles result (state self.old) (state self.new) }
        ensures same { OnErr result (self.new ≡ self.old) }
        ensures kept { KeepsAgreed (state self.old) (state self.new) }
        ensures law { Lawful (state self.new) };

    /// How many messages are agreed.
    fn count(&self) -> Result<usize, Refusal>
        ensures answer { result ≡ count_answer (state self.now) }
        ensures law { Lawful (state self.now) };

    /// Copies the agreed message of this number, counted from 1, over the front of the buffer, and gives its length.
    fn fetch(&self, number: usize, buffer: &mut [u8]) -> Result<usize, Refusal>
        ensures answer { result ≡ fetch_answer (state self.now) number (length buffer.old) }
        ensures buffer { buffer.new ≡ after_fetch result (message_number (state self.now) number) buffer.old }
        ensures law { Lawful (state self.now) };

    // every line is lawful at every moment
    ghost lawful: { (l : Self) → Lawful (state l) };
}
