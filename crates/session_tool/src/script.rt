// The script: standard input, line by line.
use crate::command::{Command, FORMS, Making};
use crate::kinds::{Order, SettingKind, SummaryKind};
use crate::reply::show;
use crate::value::{EitherKind, Value};
use history::call::Call;
use history::perform::perform;
use limits::{NODES, PLACES, SLOTS, SUITES, WRITES};
use lines::first_come::FirstCome;
use lines::line::Line;
use lines::turn::Turn;
use messages::parts::Write;
use session::place::Place;
use session::whole::Session;
use settings::colour::Colour;
use settings::kind::Setting;
use settings::link::Link;
use std::fmt::Display;
use std::io;
use std::io::BufReader;
use std::rt::Stdin;
use summaries::bloom::Bloom;
use summaries::exact_list::ExactList;
use summaries::kind::Summary;
use texts::{Commands, NoCommand};

#[derive(Drop)]
pub(crate) struct Script<'a> {
    rt: &'a HostRuntime,
    input: BufReader<Stdin>,
}

impl<'a> Script<'a> {
    pub(crate) fn new(rt: &'a HostRuntime) -> io::Result<Script<'a>> {
        let input = BufReader::new(rt.alloc(), rt.stdin())?;
        Ok(Script { rt, input })
    }

    /// Runs the script up to where a session is to be made, or to its end, while there is none.
    pub(crate) fn run_without(&mut self) -> io::Result<Option<Making>> {
        let rt = self.rt;
        self.run(|_: Call<EitherKind>| println!(rt; "error: no session"))
    }

    /// Makes a session, and runs the script on it.
    pub(crate) fn make(&mut self, making: Making) -> io::Result<Option<Making>> {
        match making.setting {
            SettingKind::Colours => self.make_of::<Colour>(making),
            SettingKind::Links => self.make_of::<Link>(making),
        }
    }

    fn make_of<T: Setting + Value + Display>(
        &mut self,
        making: Making,
    ) -> io::Result<Option<Making>> {
        match making.summary {
            SummaryKind::Exact => self.make_with::<T, ExactList>(making),
            SummaryKind::Filter => self.make_with::<T, Bloom>(making),
        }
    }

    fn make_with<T: Setting + Value + Display, S: Summary>(
        &mut self,
        making: Making,
    ) -> io::Result<Option<Making>> {
        let mut memory = vec![in self.rt.alloc(); 0; making.line_bytes]?;
        let bytes = memory.as_mut_slice();
        match making.order {
            Order::Offering => self.make_over::<T, S, _>(making, FirstCome::new(bytes)),
            Order::Turns => self.make_over::<T, S, _>(making, Turn::new(bytes)),
        }
    }

    // Makes the session over the line, and runs the script on it; on none, where it is refused.
    fn make_over<T: Setting + Value + Display, S: Summary, L: Line + Drop>(
        &mut self,
        making: Making,
        mut line: L,
    ) -> io::Result<Option<Making>> {
        let rt = self.rt;
        let (mut places, mut writes) = self.memories(&making)?;
        let made = Session::<T, S>::new(
            making.suites,
            making.nodes.as_slice(),
            places.as_mut_slice(),
            writes.as_slice(),
            &line,
        );
        let mut session = match made {
            Ok(session) => session,
            Err(refusal) => {
                println!(rt; "no {}", refusal.number())?;
                return self.run_without();
            }
        };
        println!(rt; "ok")?;
        self.run(|call| {
            let places = places.as_mut_slice();
            let writes = writes.as_mut_slice();
            show(rt, perform(&mut session, places, writes, &mut line, call))
        })
    }

    // The memories that so many suites and nodes need: 8 and 64, where there are more.
    fn memories<T: Setting>(&self, making: &Making) -> io::Result<(Vec<Place<T>>, Vec<Write<T>>)> {
        let suites = making.suites.min(SUITES);
        let nodes = making.nodes.len().min(NODES);
        let setting = T::starting();
        let place = Place { stamp: 0, setting };
        let write = Write { node: 0, setting };
        let places = vec![in self.rt.alloc(); place; suites * nodes * PLACES]?;
        let writes = vec![in self.rt.alloc(); write; suites * SLOTS * WRITES]?;
        Ok((places, writes))
    }

    // Runs the script up to where a session is to be made, or to its end.
    fn run<T: Value + Drop, F: FnMut(Call<T>) -> io::Result<()>>(
        &mut self,
        mut perform: F,
    ) -> io::Result<Option<Making>>
        requires { F.IsAlwaysCallable perform }
    {
        for command in Commands::new(self.rt.alloc(), &mut self.input, FORMS) {
            match command? {
                Ok(Command::Make(making)) => return Ok(Some(making)),
                Ok(Command::Perform(call)) => perform(call)?,
                Err(NoCommand::Blank) => {}
                Err(reason) => println!(self.rt; "error: {reason}")?,
            }
        }
        Ok(None)
    }
}
