// A desk: a session and what its calls are handed. It makes each call, and tells what it answered.

use crate::teller::Teller;
use limits::{LINE_PLACE, PLACES, SLOTS, WRITES};
use lines::first_come::FirstCome;
use messages::parts::Write;
use panel::committed::{Committed, End};
use panel::open_move::OpenMove;
use panel::sent_move::SentMove;
use refusals::Refusal;
use session::place::Place;
use session::ruling::Ruling;
use session::suite_slot::SuiteSlot;
use session::whole::Session;
use settings::colour::Colour;
use settings::kind::Setting;
use summaries::exact_list::ExactList;

const SUITES: usize = 2;

const NODES: [u64; 2] = [7, 9];

// the memory that so many suites and nodes need, and a line of two places
const SETTING_PLACES: usize = SUITES * NODES.len() * PLACES;

const WRITE_PLACES: usize = SUITES * SLOTS * WRITES;

pub(crate) const LINE_BYTES: usize = 2 * LINE_PLACE;

#[derive(Drop)]
pub(crate) struct Desk<'a, 'b> {
    session: Session<Colour, ExactList>,
    places: [Place<Colour>; SETTING_PLACES],
    writes: [Write<Colour>; WRITE_PLACES],
    line: FirstCome<'a>,
    teller: &'a mut Teller<'b>,
}

impl<'a, 'b> Desk<'a, 'b> {
    /// A session of two suites and the nodes 7 and 9, over memory that holds anything.
    pub fn new(memory: &'a mut [u8], teller: &'a mut Teller<'b>) -> Result<Desk<'a, 'b>, Refusal> {
        let setting = Colour::starting();
        let mut places = [Place { stamp: 0, setting }; SETTING_PLACES];
        let writes = [Write { node: 0, setting }; WRITE_PLACES];
        let line = FirstCome::new(memory);
        let session = Session::new(SUITES, &NODES, &mut places, &writes, &line)?;
        teller.tell("make", "done");
        Ok(Desk {
            session,
            places,
            writes,
            line,
            teller,
        })
    }

    pub fn begin(&mut self, suite: usize, slot: usize) -> Result<OpenMove, Refusal> {
        let (open, snapshot) = OpenMove::begin(
            &mut self.session,
            &self.places,
            &mut self.writes,
            &mut self.line,
            suite,
            slot,
        )?;
        self.teller.tell(
            format_args!("begin in slot {slot} of suite {suite}"),
            format_args!("snapshot {snapshot}"),
        );
        Ok(open)
    }

    pub fn read(&mut self, open: &OpenMove, node: u64) {
        let answer = open.read(
            &mut self.session,
            &self.places,
            &mut self.writes,
            &mut self.line,
            node,
        );
        self.teller.tell_answer(format_args!("read {node}"), answer);
    }

    pub fn write(&mut self, open: &OpenMove, node: u64, setting: Colour) {
        let answer = open.write(
            &mut self.session,
            &self.places,
            &mut self.writes,
            &mut self.line,
            node,
            setting,
        );
        self.teller.tell_answer(
            format_args!("write {node} {setting}"),
            answer.map(|()| "done"),
        );
    }

    /// Gives the move if it is sent. A move that is refused is abandoned.
    pub fn commit(&mut self, open: OpenMove) -> Option<SentMove> {
        match open.commit(
            &mut self.session,
            &self.places,
            &mut self.writes,
            &mut self.line,
        ) {
            Committed::Sent(sent) => {
                self.teller.tell("commit", "sent");
                return Some(sent);
            }
            Committed::Ended(End::ReadOnly(snapshot)) => {
                self.teller.tell("commit", format_args!("read {snapshot}"));
            }
            Committed::Ended(End::Clash(node)) => {
                self.teller.tell("commit", format_args!("clash {node}"));
            }
            Committed::Refused(open, why) => {
                self.teller
                    .tell("commit", format_args!("no {}", why.number()));
                self.abandon(open);
            }
        }
        None
    }

    pub fn abandon(&mut self, open: OpenMove) {
        let answer = open.abandon(
            &mut self.session,
            &self.places,
            &mut self.writes,
            &mut self.line,
        );
        self.teller.tell_answer("abandon", answer.map(|()| "done"));
    }

    pub fn settle(&mut self) {
        let answer = self
            .session
            .settle(&self.places, &mut self.writes, &mut self.line);
        self.teller.tell_answer("settle", answer.map(|()| "done"));
    }

    pub fn take(&mut self, suite: usize) {
        let call = format_args!("take at suite {suite}");
        match self
            .session
            .take(&mut self.places, &self.writes, &self.line, suite)
        {
            Ok(Ruling::Decided(outcome)) => self.teller.tell_outcome(call, outcome),
            Ok(Ruling::Void(fault)) => self.teller.tell(call, format_args!("void {fault}")),
            Err(why) => self.teller.tell(call, format_args!("no {}", why.number())),
        }
    }

    /// A move whose ruling is not given is noted.
    pub fn collect(&mut self, sent: SentMove) {
        match sent.collect(
            &mut self.session,
            &self.places,
            &mut self.writes,
            &mut self.line,
        ) {
            Ok(outcome) => self.teller.tell_outcome("collect", outcome),
            Err((sent, why)) => {
                self.teller
                    .tell("collect", format_args!("no {}", why.number()));
                let SuiteSlot { suite, slot } = sent.note();
                self.teller
                    .tell("noted", format_args!("slot {slot} of suite {suite}"));
            }
        }
    }
}
