// The store of both lines: the order of places cut into agreed, waiting and free ones. The agreed places come first, in
// the order of agreement, then the waiting ones in the order of offering, then those that are free.
ghost use Rattle.std.specs.Prelude.{◌≡◌, ◌+◌, ◌<◌, ◌≤◌, [], ◌∷◌, ◌++◌, length, if◌then◌else◌, Ok, Err, OnOk, OnErr, slice_index, slice_index_or};
ghost use Rattle.limits.specs.Limits.{most_suites, longest_message};
ghost use Rattle.refusals.specs.declared.Refusal.TheVariants.{MemorySize};
ghost use Rattle.lines.specs.Lines.{waiting_count, held, empty_line, Serves, unusable, offer_check, offer_answer, after_offer, settle_answer, count_answer, fetch_answer, message_number, after_fetch};
ghost use Rattle.lines.specs.Orders.{queue_after_offer, arrivals_after_offer, ServesHead};
ghost use Rattle.lines.specs.Places.{cell, offered_in, places_in, places_used, order, row, rest};
ghost use Rattle.lines.specs.Stores.{empty, nothing, Good, FirstOfSuite};
ghost use Rattle.std.specs.List.{remove};

use crate::cell::{message_of, suite_of};
use crate::offer::Offer;
use crate::places;
use crate::suite::Suite;
use limits::{LINE_PLACE, LINE_PLACES, MESSAGE, SUITES, outside};
use refusals::Refusal;

/// A store of messages over handed bytes. With a rule by which it settles, it is a line.
#[derive(Drop)]
pub struct Store<'a, R> {
    bytes: &'a mut [u8],
    agreed: usize,
    waiting: usize,
    pub(crate) rule: R,
    // what always holds of them
    ghost good: { Good bytes.now agreed waiting },
}

impl<'a, R> Store<'a, R> {
    ghost use Rattle.lines.specs.Views.{handed, contents, line_of, arrivals_of};

    /// An empty store over these bytes, whatever they hold.
    pub(crate) fn over(bytes: &'a mut [u8], rule: R) -> Store<'a, R>
        ensures contents { contents result ≡ empty bytes.old }
        ensures line { line_of result ≡ empty_line (places_in bytes.old) }
        ensures memory { (handed result).ghost_name ≡ bytes.entry.ghost_name }
        ensures beyond { rest (handed result).now ≡ rest bytes.old }
        ensures rule { result.rule ≡ rule }
    {
        for i in 0..places::count(bytes).min(LINE_PLACES) {
            places::set_link(bytes, i, i as u16);
        }
        Store {
            bytes,
            agreed: 0,
            waiting: 0,
            rule,
        }
    }

    // How many places there are.
    fn limit(&self) -> usize
        ensures value { result ≡ places_in (handed self.now).now }
        ensures line { result ≡ (line_of self.now).limit }
    {
        places::count(self.bytes)
    }

    // That there is a place, and no more of them than a line may have.
    fn check_memory(&self) -> Result<(), Refusal>
        ensures answer { result ≡ if unusable (line_of self.now).limit then Err MemorySize else Ok tt }
    {
        if outside(self.limit(), LINE_PLACES) {
            return Err(Refusal::MemorySize);
        }
        Ok(())
    }

    // How many messages are agreed.
    fn agreed(&self) -> usize
        ensures value { result ≡ self.now.agreed }
        ensures line { result ≡ length (line_of self.now).agreed }
    {
        self.agreed
    }

    /// How many messages wait.
    pub(crate) fn waiting(&self) -> usize
        ensures value { result ≡ self.now.waiting }
        ensures line { result ≡ waiting_count (line_of self.now) }
        ensures queue { result ≡ length (contents self.now).queue }
    {
        self.waiting
    }

    // How many messages are held.
    fn held(&self) -> usize
        ensures value { result ≡ self.now.agreed + self.now.waiting }
        ensures line { result ≡ held (line_of self.now) }
    {
        self.agreed + self.waiting
    }

    // The place that comes i-th in the order.
    fn place(&self, i: usize) -> usize
        requires { i < places_used (handed self.now).now }
        ensures value { result ≡ slice_index (order (handed self.now).now) i }
        ensures bound { result < places_in (handed self.now).now }
    {
        usize::from(places::place(self.bytes, i))
    }

    // The bytes of that place.
    fn cell(&self, i: usize) -> &[u8; LINE_PLACE]
        requires { i < places_used (handed self.now).now }
        ensures value { result.now ≡ cell (handed self.now).now (slice_index (order (handed self.now).now) i) }
        ensures row { offered_in result.now ≡ slice_index_or (row (handed self.now).now) i nothing }
    {
        places::cell(self.bytes, self.place(i))
    }

    // That a message of so many bytes can be offered for the suite, or why not.
    fn check_offer(&self, suite: usize, bytes: usize) -> Result<(), Refusal>
        ensures answer { result ≡ offer_check (line_of self.now).limit (held (line_of self.now)) suite bytes }
        ensures room { OnOk result (self.now.agreed + self.now.waiting < places_used (handed self.now).now) }
        ensures fits { OnOk result ((1 ≤ suite) × (suite ≤ most_suites) × (1 ≤ bytes) × (bytes ≤ longest_message)) }
    {
        self.check_memory()?;
        if outside(suite, SUITES) {
            return Err(Refusal::NoSuchSlot);
        }
        if self.limit() <= self.held() {
            return Err(Refusal::LineFull);
        }
        if outside(bytes, MESSAGE) {
            return Err(Refusal::MessageLength);
        }
        Ok(())
    }

    /// Puts a message into the first free place, which is then the last that waits; or says why it cannot.
    pub(crate) fn put(&mut self, suite: usize, message: &[u8]) -> Result<(), Refusal>
        ensures answer { result ≡ offer_answer (line_of self.old) suite message.now }
        ensures line { line_of self.new ≡ after_offer result (line_of self.old) suite message.now }
        ensures same { OnErr result (self.new ≡ self.old) }
        ensures order { (contents self.new).queue ≡ queue_after_offer result (contents self.old).queue suite message.now }
        ensures arrivals { arrivals_of self.new ≡ arrivals_after_offer result (arrivals_of self.old) message.now }
        ensures rule { self.new.rule ≡ self.old.rule }
        ensures memory { (handed self.new).ghost_name ≡ (handed self.old).ghost_name }
        ensures beyond { rest (handed self.new).now ≡ rest (handed self.old).now }
    {
        self.check_offer(suite, message.len())?;
        let place = self.place(self.held());
        let suite = Suite { number: suite };
        places::set_message(self.bytes, place, Offer { suite, message });
        self.waiting += 1;
        Ok(())
    }

    /// That a message waits, or why none can be settled.
    pub(crate) fn check_settle(&self) -> Result<(), Refusal>
        ensures answer { result ≡ settle_answer (line_of self.now) }
        ensures some { OnOk result (0 < self.now.waiting) }
    {
        self.check_memory()?;
        if self.waiting() == 0 {
            return Err(Refusal::NothingWaiting);
        }
        Ok(())
    }

    /// Settles message k of those that wait, counted from 0: the first of its suite.
    pub(crate) fn settle_at(&mut self, k: usize)
        requires k_lt_waiting { k < self.old.waiting }
        requires first_of_suite { FirstOfSuite (contents self.old).queue k }
        ensures choice { Serves (line_of self.old) (line_of self.new) (slice_index_or (contents self.old).queue k nothing).suite }
        ensures agreed { (line_of self.new).agreed ≡ (line_of self.old).agreed ++ (slice_index_or (contents self.old).queue k nothing).message ∷ [] }
        ensures order { (contents self.new).queue ≡ remove (contents self.old).queue k }
        ensures rule { self.new.rule ≡ self.old.rule }
        ensures memory { (handed self.new).ghost_name ≡ (handed self.old).ghost_name }
        ensures beyond { rest (handed self.new).now ≡ rest (handed self.old).now }
    {
        places::bring(self.bytes, self.agreed + k, self.agreed);
        self.agreed += 1;
        self.waiting -= 1;
    }

    /// Settles the message that was offered first of those that wait.
    pub(crate) fn settle_first(&mut self)
        requires { 0 < self.old.waiting }
        ensures choice { Serves (line_of self.old) (line_of self.new) (slice_index_or (contents self.old).queue 0 nothing).suite }
        ensures order { ServesHead (contents self.old).queue (contents self.new).queue (line_of self.old) (line_of self.new) }
        ensures arrivals { arrivals_of self.new ≡ arrivals_of self.old }
        ensures rule { self.new.rule ≡ self.old.rule }
        ensures memory { (handed self.new).ghost_name ≡ (handed self.old).ghost_name }
        ensures beyond { rest (handed self.new).now ≡ rest (handed self.old).now }
    {
        self.settle_at(0);
    }

    /// The suite of message k of those that wait.
    pub(crate) fn suite(&self, k: usize) -> Suite
        requires { k < self.now.waiting }
        ensures { result.number ≡ (slice_index_or (contents self.now).queue k nothing).suite }
    {
        Suite {
            number: usize::from(suite_of(self.cell(self.agreed + k))),
        }
    }

    /// How many messages are agreed, or that the line cannot be used.
    pub(crate) fn count_agreed(&self) -> Result<usize, Refusal>
        ensures answer { result ≡ count_answer (line_of self.now) }
    {
        self.check_memory()?;
        Ok(self.agreed())
    }

    // The agreed message of this number.
    fn message(&self, number: usize) -> &[u8]
        requires le_number { 1 ≤ number }
        requires number_le_agreed { number ≤ self.now.agreed }
        ensures { result.now ≡ message_number (line_of self.now) number }
    {
        message_of(self.cell(number - 1))
    }

    /// Copies the agreed message of this number, counted from 1, over the front of the buffer.
    pub(crate) fn fetch_agreed(&self, number: usize, buffer: &mut [u8]) -> Result<usize, Refusal>
        ensures answer { result ≡ fetch_answer (line_of self.now) number (length buffer.old) }
        ensures buffer { buffer.new ≡ after_fetch result (message_number (line_of self.now) number) buffer.old }
    {
        self.check_memory()?;
        if outside(number, self.agreed()) {
            return Err(Refusal::NoSuchMessage);
        }
        let message = self.message(number);
        if buffer.len() < message.len() {
            return Err(Refusal::NoSuchMessage);
        }
        buffer[0..message.len()].copy_from_slice(message);
        Ok(message.len())
    }
}
