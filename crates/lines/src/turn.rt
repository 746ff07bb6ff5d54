// The turn line: suites with waiting messages are served one after the other, and after suite 8 comes suite 1.
ghost use Rattle.std.specs.Prelude.{◌≡◌, OnErr, ℕ, ◌<◌, ◌≤◌, [], slice_index_or};
ghost use Rattle.lines.specs.Lines.{empty_line, Lawful, offer_answer, after_offer, settle_answer, Settles, KeepsAgreed};
ghost use Rattle.lines.specs.Orders.{suite_after, steps_to, turn_picks, ByTurn};
ghost use Rattle.lines.specs.Places.{places_in, rest};
ghost use Rattle.lines.specs.StoreLaws.{lawful_line};
ghost use Rattle.lines.specs.Stores.{nothing, FirstOfSuite};

use crate::line::Line;
use crate::store::Store;
use crate::suite::Suite;
use refusals::Refusal;

/// The rule to serve the suites in turn.
#[derive(Drop)]
pub struct InTurn {
    turn: Suite,
}

/// A line over handed bytes that serves the suites in turn.
pub type Turn<'a> = Store<'a, InTurn>;

impl<'a> Turn<'a> {
    ghost use Rattle.lines.specs.Views.{handed, contents, line_of, turn_of};

    /// An empty line over these bytes, whatever they hold. The turn is with suite 1.
    pub fn new(bytes: &'a mut [u8]) -> Self
        ensures line { line_of result ≡ empty_line (places_in bytes.old) }
        ensures memory { (handed result).ghost_name ≡ bytes.entry.ghost_name }
        ensures beyond { rest (handed result).now ≡ rest bytes.old }
        ensures turn { turn_of result ≡ 1 }
    {
        Store::over(
            bytes,
            InTurn {
                turn: Suite { number: 1 },
            },
        )
    }

    // Which of the waiting messages is next: of the suites that have one, the first from the turn upwards and round is
    // served, and its first message goes.
    fn pick(&self) -> usize
        requires { 0 < self.now.waiting }
        ensures bound { result < self.now.waiting }
        ensures first { FirstOfSuite (contents self.now).queue result }
        ensures suite { (slice_index_or (contents self.now).queue result nothing).suite ≡ turn_picks (line_of self.now).waiting (turn_of self.now) }
        ensures passed { (d : ℕ) → d < steps_to (turn_of self.now) (slice_index_or (contents self.now).queue result nothing).suite → (line_of self.now).waiting (suite_after (turn_of self.now) d) ≡ [] }
    {
        (0..self.waiting())
            .min_by_key(
                |k: &usize| -> usize
                    requires { k.now < self.now.waiting }
                    ensures { result ≡ steps_to (turn_of self.entry.now) (slice_index_or (contents self.entry.now).queue k.now nothing).suite }
                { self.rule.turn.steps_to(self.suite(*k)) },
            )
            .unwrap()
    }
}

#[tactic(auto, using(crate::proofs::Meanings::lawful_store, crate::proofs::Keeping::keeps_offer, crate::proofs::Keeping::keeps_settle))]
impl<'a> Line for Turn<'a> {
    ghost use Rattle.lines.specs.Views.{handed, contents, line_of, turn_of};

    ghost state = { λ l. line_of l };

    ghost lawful = { λ l. lawful_line _ _ _ l.good };

    fn offer(&mut self, suite: usize, message: &[u8]) -> Result<(), Refusal>
        ensures answer { result ≡ offer_answer (line_of self.old) suite message.now }
        ensures line { line_of self.new ≡ after_offer result (line_of self.old) suite message.now }
        ensures same { OnErr result (self.new ≡ self.old) }
        ensures kept { KeepsAgreed (line_of self.old) (line_of self.new) }
        ensures law { Lawful (line_of self.new) }
        ensures turn { turn_of self.new ≡ turn_of self.old }
        ensures memory { (handed self.new).ghost_name ≡ (handed self.old).ghost_name }
        ensures beyond { rest (handed self.new).now ≡ rest (handed self.old).now }
    {
        self.put(suite, message)
    }

    fn settle(&mut self) -> Result<(), Refusal>
        ensures answer { result ≡ settle_answer (line_of self.old) }
        ensures choice { Settles result (line_of self.old) (line_of self.new) }
        ensures same { OnErr result (self.new ≡ self.old) }
        ensures kept { KeepsAgreed (line_of self.old) (line_of self.new) }
        ensures law { Lawful (line_of self.new) }
        ensures order { ByTurn result (turn_of self.old) (turn_of self.new) (line_of self.old) (line_of self.new) }
        ensures memory { (handed self.new).ghost_name ≡ (handed self.old).ghost_name }
        ensures beyond { rest (handed self.new).now ≡ rest (handed self.old).now }
    {
        self.check_settle()?;
        let k = self.pick();
        let served = self.suite(k);
        self.settle_at(k);
        self.rule.turn = served.next();
        Ok(())
    }

    fn count(&self) -> Result<usize, Refusal> {
        self.count_agreed()
    }

    fn fetch(&self, number: usize, buffer: &mut [u8]) -> Result<usize, Refusal> {
        self.fetch_agreed(number, buffer)
    }
}
