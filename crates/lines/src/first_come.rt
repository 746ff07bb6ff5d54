// The first-come line: it settles messages in the order in which they were offered.
ghost use Rattle.std.specs.Prelude.{◌≡◌, OnErr};
ghost use Rattle.lines.specs.Lines.{empty_line, Lawful, offer_answer, after_offer, settle_answer, Settles, KeepsAgreed};
ghost use Rattle.lines.specs.Orders.{queue_after_offer, arrivals_after_offer, FirstComeOrder};
ghost use Rattle.lines.specs.Places.{places_in, rest};
ghost use Rattle.lines.specs.StoreLaws.{lawful_line};
ghost use Rattle.lines.specs.Stores.{empty};

use crate::line::Line;
use crate::store::Store;
use refusals::Refusal;

/// The rule to settle in the order of offering.
#[derive(Drop)]
pub struct InOrder;

/// A line over handed bytes that settles in the order of offering.
pub type FirstCome<'a> = Store<'a, InOrder>;

impl<'a> FirstCome<'a> {
    ghost use Rattle.lines.specs.Views.{handed, contents, line_of};

    /// An empty line over these bytes, whatever they hold.
    pub fn new(bytes: &'a mut [u8]) -> Self
        ensures line { line_of result ≡ empty_line (places_in bytes.old) }
        ensures contents { contents result ≡ empty bytes.old }
        ensures memory { (handed result).ghost_name ≡ bytes.entry.ghost_name }
        ensures beyond { rest (handed result).now ≡ rest bytes.old }
    {
        Store::over(bytes, InOrder)
    }
}

#[tactic(auto, using(crate::proofs::Meanings::lawful_store, crate::proofs::Keeping::keeps_offer, crate::proofs::Keeping::keeps_settle))]
impl<'a> Line for FirstCome<'a> {
    ghost use Rattle.lines.specs.Views.{handed, contents, line_of, arrivals_of};

    ghost state = { λ l. line_of l };

    ghost lawful = { λ l. lawful_line _ _ _ l.good };

    fn offer(&mut self, suite: usize, message: &[u8]) -> Result<(), Refusal>
        ensures answer { result ≡ offer_answer (line_of self.old) suite message.now }
        ensures line { line_of self.new ≡ after_offer result (line_of self.old) suite message.now }
        ensures same { OnErr result (self.new ≡ self.old) }
        ensures kept { KeepsAgreed (line_of self.old) (line_of self.new) }
        ensures law { Lawful (line_of self.new) }
        ensures order { (contents self.new).queue ≡ queue_after_offer result (contents self.old).queue suite message.now }
        ensures arrivals { arrivals_of self.new ≡ arrivals_after_offer result (arrivals_of self.old) message.now }
        ensures memory { (handed self.new).ghost_name ≡ (handed self.old).ghost_name }
        ensures beyond { rest (handed self.new).now ≡ rest (handed self.old).now }
    {
        self.put(suite, message)
    }

    fn settle(&mut self) -> Result<(), Refusal>
        ensures answer { result ≡ settle_answer (line_of self.old) }
        ensures choice { Settles result (line_of self.old) (line_of self.new) }
        ensures same { OnErr result (self.new ≡ self.old) }
        ensures kept { KeepsAgreed (line_of self.old) (line_of self.new) }
        ensures law { Lawful (line_of self.new) }
        ensures order { FirstComeOrder result (contents self.old).queue (contents self.new).queue (line_of self.old) (line_of self.new) }
        ensures arrivals { arrivals_of self.new ≡ arrivals_of self.old }
        ensures memory { (handed self.new).ghost_name ≡ (handed self.old).ghost_name }
        ensures beyond { rest (handed self.new).now ≡ rest (handed self.old).now }
    {
        self.check_settle()?;
        self.settle_first();
        Ok(())
    }

    fn count(&self) -> Result<usize, Refusal> {
        self.count_agreed()
    }

    fn fetch(&self, number: usize, buffer: &mut [u8]) -> Result<usize, Refusal> {
        self.fetch_agreed(number, buffer)
    }
}
