// What the tool answers to its commands.
use crate::command::{Command, FORMS, SettingKind, SummaryKind};
use crate::draft::Draft;
use crate::notation::Notation;
use crate::session::Session;
use crate::stop::Stop;
use limits::MESSAGE;
use messages::compose::compose;
use messages::parts::{Header, Write};
use messages::read::{read, summary_of, write_of};
use std::io::BufRead;
use std::marker::PhantomData;
use summaries::kind::Summary;
use summaries::murmur2::murmur2;
use texts::{Commands, NoCommand, hex_text};

pub(crate) type Kinds = (SettingKind, SummaryKind);

/// The tool while its messages have settings `T` and summaries `S`.
#[derive(Drop)]
pub(crate) struct Tool<'a, T, S> {
    rt: &'a HostRuntime,
    session: &'a mut Option<Session>,
    draft: Option<Draft<T>>,
    kinds: PhantomData<S>,
}

impl<'a, T: Notation, S: Summary> Tool<'a, T, S> {
    pub(crate) fn new(rt: &'a HostRuntime, session: &'a mut Option<Session>) -> Tool<'a, T, S> {
        Tool {
            rt,
            session,
            draft: None,
            kinds: PhantomData,
        }
    }

    /// Answers lines up to one that chooses kinds, or to the end of the input.
    pub(crate) fn answer_lines<R: BufRead>(
        &mut self,
        input: &mut R,
    ) -> anyhow::Result<Option<Kinds>> {
        for command in Commands::new(self.rt.alloc(), input, FORMS) {
            match command? {
                Ok(command) => match self.answer(command) {
                    Ok(None) => {}
                    Ok(kinds) => return Ok(kinds),
                    Err(stop) => stop.show(self.rt)?,
                },
                Err(NoCommand::Blank) => {}
                Err(reason) => println!(self.rt; "error: {reason}")?,
            }
        }
        Ok(None)
    }

    // Answers a command, and gives the kinds that it chooses, if it chooses any.
    fn answer(&mut self, command: Command<T>) -> Result<Option<Kinds>, Stop> {
        match command {
            Command::Kind(setting, summary) => {
                self.say_ok()?;
                return Ok(Some((setting, summary)));
            }
            Command::Session(suites, stamp, nodes) => {
                *self.session = Some(Session::new(suites, stamp, nodes)?);
                self.say_ok()?;
            }
            Command::Move(origin) => {
                self.draft = Some(Draft::new(self.rt.alloc(), origin));
                self.say_ok()?;
            }
            Command::Read(node) => {
                self.draft.as_mut().ok_or(Stop::NoMove)?.read(node)?;
                self.say_ok()?;
            }
            Command::Write(write) => {
                self.draft.as_mut().ok_or(Stop::NoMove)?.write(write)?;
                self.say_ok()?;
            }
            Command::Send => {
                self.send()?;
                self.draft = None;
            }
            Command::Message(message) => self.show_message(message.as_slice(), self.session()?)?,
            Command::Pack(nodes) => self.pack(nodes.as_slice())?,
            Command::Names(summary, node) => self.names(summary.as_slice(), node)?,
            Command::Hash(seed, node) => println!(self.rt; "hash {}", murmur2(node, seed))?,
        }
        Ok(None)
    }

    fn session(&self) -> Result<&Session, Stop> {
        self.session.as_ref().ok_or(Stop::NoSession)
    }

    fn say_ok(&self) -> Result<(), Stop> {
        println!(self.rt; "ok")?;
        Ok(())
    }

    // Composes the message of the move, shows it, and reads it back.
    fn send(&self) -> Result<(), Stop> {
        let session = self.session()?;
        let draft = self.draft.as_ref().ok_or(Stop::NoMove)?;
        let mut buffer = [0; MESSAGE];
        let length = compose::<T, S>(
            draft.origin,
            draft.reads.as_slice(),
            draft.writes.as_slice(),
            &mut buffer,
        )?;
        let message = &buffer[0..length];
        println!(self.rt; "composed {length} bytes")?;
        self.show_bytes("message", message)?;
        self.show_message(message, session)
    }

    fn show_bytes(&self, word: &str, bytes: &[u8]) -> Result<(), Stop> {
        println!(self.rt; "{word} {}", hex_text(self.rt.alloc(), bytes)?)?;
        Ok(())
    }

    // Reads a message, and shows its fields or its fault.
    fn show_message(&self, message: &[u8], session: &Session) -> Result<(), Stop> {
        let nodes = session.nodes.as_slice();
        let Header { origin, writes } = match read::<T, S>(
            message,
            session.suites,
            session.stamp,
            nodes,
        ) {
            Ok(header) => header,
            Err(fault) => return Ok(println!(self.rt; "fault {fault}")?),
        };
        println!(self.rt; "length {}", message.len().saturating_sub(2))?;
        println!(self.rt; "version 1")?;
        println!(self.rt; "suite {}", origin.suite)?;
        println!(self.rt; "slot {}", origin.slot)?;
        println!(self.rt; "writes {writes}")?;
        println!(self.rt; "snapshot {}", origin.snapshot)?;
        let summary = summary_of::<S>(message);
        self.show_bytes("summary", summary)?;
        // the line is printed whole, as each print is a write of its own
        let mut names = String::from_str(self.rt.alloc(), "names")?;
        for node in nodes {
            if S::query(summary, *node) == Ok(true) {
                write!(names, " {node}")?;
            }
        }
        println!(self.rt; "{names}")?;
        for i in 0..writes {
            if let Some(Write { node, setting }) = write_of::<T, S>(message, usize::from(i)) {
                println!(self.rt; "write {node} {setting}")?;
            }
        }
        Ok(())
    }

    fn pack(&self, nodes: &[u64]) -> Result<(), Stop> {
        let mut region = vec![in self.rt.alloc(); 0; S::WIDTH]?;
        match S::pack(nodes, region.as_mut_slice()) {
            Ok(()) => self.show_bytes("summary", region.as_slice()),
            Err(_) => Err(Stop::TooManyNumbers),
        }
    }

    fn names(&self, summary: &[u8], node: u64) -> Result<(), Stop> {
        match S::query(summary, node) {
            Ok(true) => println!(self.rt; "named")?,
            Ok(false) => println!(self.rt; "not named")?,
            Err(_) => return Err(Stop::SummaryWidth),
        }
        Ok(())
    }
}
