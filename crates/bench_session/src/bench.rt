// A bench, and what it answers to each line.
ghost use Rattle.std.specs.Prelude.{◌≡◌, None, IfOk, OnErr};
ghost use Rattle.std.specs.Option.{option_map};
ghost use Rattle.bench_lines.specs.Commands.{asked};
ghost use Rattle.bench_session.specs.Standing.{standing, Stands, made_reply, Makes, Answers};
ghost use Rattle.lines.specs.Lines.{empty_line};
ghost use Rattle.lines.specs.Places.{places_in};
ghost use Rattle.lines.specs.Views.{line_of};

use bench_lines::command::Command;
use bench_lines::reply::{Reply, reply_to};
use history::perform::perform;
use limits::{NODES, PLACES, SLOTS, SUITES, WRITES};
use lines::first_come::FirstCome;
use lines::line::Line;
use messages::parts::Write;
use session::place::Place;
use session::whole::Session;
use settings::colour::Colour;
use settings::kind::Setting;
use std::alloc::{AllocError, Global};
use summaries::exact_list::ExactList;

/// A bench: a line of messages and, once it is made, a session over it and the session's memory.
#[derive(Drop)]
pub struct Bench<L: Line> {
    heap: Global,
    line: L,
    session: Option<Session<Colour, ExactList>>,
    places: Vec<Place<Colour>>,
    writes: Vec<Write<Colour>>,
    ghost history: { ∥ Stands session places.items writes.items (L.Line.state line) ∥₁ },
}

impl<'a> Bench<FirstCome<'a>> {
    /// A bench over a first-come line in these bytes, which is empty.
    pub fn new(heap: Global, bytes: &'a mut [u8]) -> Self
        ensures session { result.session ≡ None }
        ensures line { line_of result.line ≡ empty_line (places_in bytes.old) }
    {
        Bench {
            heap,
            line: FirstCome::new(bytes),
            session: None,
            places: Vec::new(heap),
            writes: Vec::new(heap),
        }
    }
}

impl<L: Line> Bench<L> {
    /// The answer to a line that asks for this, or to one that cannot be read. It fails only where there is no memory for a
    /// session.
    pub fn answer(&mut self, command: Option<Command>) -> Result<Reply, AllocError>
        ensures answers { IfOk result (λ reply. Answers
            (standing self.old.session self.old.places.items self.old.writes.items (L.Line.state self.old.line))
            (option_map asked command) reply
            (standing self.new.session self.new.places.items self.new.writes.items (L.Line.state self.new.line))) }
        ensures same { OnErr result (standing self.new.session self.new.places.items self.new.writes.items (L.Line.state self.new.line) ≡ standing self.old.session self.old.places.items self.old.writes.items (L.Line.state self.old.line)) }
    {
        match (command, &mut self.session) {
            (Some(Command::Make { suites, nodes }), None) => self.make(suites, nodes.as_slice()),
            (Some(Command::Perform(call)), Some(session)) => {
                let answer = perform(
                    session,
                    self.places.as_mut_slice(),
                    self.writes.as_mut_slice(),
                    &mut self.line,
                    call,
                );
                let Some(reply) = reply_to(answer) else {
                    unreachable!()
                };
                Ok(reply)
            }
            _ => Ok(Reply::Bad),
        }
    }

    // Makes the session.
    fn make(&mut self, suites: usize, nodes: &[u64]) -> Result<Reply, AllocError>
        requires { self.old.session ≡ None }
        ensures reply { IfOk result (λ reply. reply ≡ made_reply (L.Line.state self.old.line) suites nodes.now) }
        ensures makes { IfOk result (λ reply. Makes reply suites nodes.now
            (standing self.old.session self.old.places.items self.old.writes.items (L.Line.state self.old.line))
            (standing self.new.session self.new.places.items self.new.writes.items (L.Line.state self.new.line))) }
        ensures same { OnErr result (standing self.new.session self.new.places.items self.new.writes.items (L.Line.state self.new.line) ≡ standing self.old.session self.old.places.items self.old.writes.items (L.Line.state self.old.line)) }
    {
        let room = suites.min(SUITES);
        let setting = Colour::starting();
        let place = Place { stamp: 0, setting };
        let write = Write { node: 0, setting };
        let mut places = vec![in self.heap; place; room * nodes.len().min(NODES) * PLACES]?;
        let writes = vec![in self.heap; write; room * (SLOTS * WRITES)]?;
        match Session::new(
            suites,
            nodes,
            places.as_mut_slice(),
            writes.as_slice(),
            &self.line,
        ) {
            Ok(session) => {
                self.session = Some(session);
                self.places = places;
                self.writes = writes;
                Ok(Reply::Okay)
            }
            Err(refusal) => Ok(Reply::No(refusal)),
        }
    }
}
