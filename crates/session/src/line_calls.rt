// The calls of a session that go by the line: settle, and take.
ghost use Rattle.std.specs.Prelude.{◌≡◌, ℕ, OnErr, ◌-◌, ◌*◌};
ghost use Rattle.session.specs.Shares.{check_suite};
ghost use Rattle.session.specs.Calls.{settle_call, AfterSettle, take_call, AfterTake};
ghost use Rattle.session.specs.Steps.{world};

use crate::place::Place;
use crate::ruling::Ruling;
use crate::suite::Seat;
use crate::whole::{Session, part_of};
use limits::PLACES;
use lines::line::Line;
use messages::parts::Write;
use refusals::Refusal;
use settings::kind::Setting;
use summaries::kind::Summary;

impl<T: Setting, S: Summary> Session<T, S> {
    /// Has the line agree one of the waiting messages. The line chooses which.
    pub fn settle<L: Line>(
        &self,
        places: &[Place<T>],
        writes: &[Write<T>],
        line: &mut L,
    ) -> Result<(), Refusal>
        ensures answer { result ≡ settle_call (world self.now places.now writes.now (L.Line.state line.old)) }
        ensures choice { (u : ℕ) × AfterSettle result u (world self.now places.now writes.now (L.Line.state line.old)) (world self.now places.now writes.now (L.Line.state line.new)) }
        ensures same { OnErr result (line.new ≡ line.old) }
    {
        self.check_sizes(places, writes, line)?;
        line.settle()
    }

    /// Has the suite rule on the next agreed message (its delivery and certification), and apply what it rules.
    pub fn take<L: Line>(
        &mut self,
        places: &mut [Place<T>],
        writes: &[Write<T>],
        line: &L,
        suite: usize,
    ) -> Result<Ruling, Refusal>
        ensures answer { result ≡ take_call S.Summary.kind T.Setting.kind (world self.old places.old writes.now (L.Line.state line.now)) suite }
        ensures choice { AfterTake S.Summary.kind T.Setting.kind result suite (world self.old places.old writes.now (L.Line.state line.now)) (world self.new places.new writes.now (L.Line.state line.now)) }
    {
        self.check_suite(places, writes, line, suite)?;
        let suites = self.suites.len();
        let its_places = part_of(suite, self.nodes.len() * PLACES);
        let seat = Seat {
            suite,
            nodes: self.nodes.as_slice(),
        };
        self.suites[suite - 1].take::<T, S, L>(seat, suites, &mut places[its_places], line)
    }
}
