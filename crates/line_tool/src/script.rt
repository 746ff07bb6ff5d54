// The script: standard input, line by line.
use crate::calls::Calls;
use crate::command::{Call, Command, FORMS, Making, Order};
use lines::first_come::FirstCome;
use lines::line::Line;
use lines::turn::Turn;
use std::io;
use std::io::BufReader;
use std::rt::Stdin;
use texts::{Commands, NoCommand};

#[derive(Drop)]
pub(crate) struct Script<'a> {
    rt: &'a HostRuntime,
    input: BufReader<Stdin>,
}

impl<'a> Script<'a> {
    pub(crate) fn new(rt: &'a HostRuntime) -> io::Result<Script<'a>> {
        let input = BufReader::new(rt.alloc(), rt.stdin())?;
        Ok(Script { rt, input })
    }

    /// Runs the script up to where a line is to be made, or to its end.
    pub(crate) fn run<F: FnMut(Call) -> io::Result<()>>(
        &mut self,
        mut perform: F,
    ) -> io::Result<Option<Making>>
        requires { F.IsAlwaysCallable perform }
    {
        for command in Commands::new(self.rt.alloc(), &mut self.input, FORMS) {
            match command? {
                Ok(Command::Make(making)) => return Ok(Some(making)),
                Ok(Command::Perform(call)) => perform(call)?,
                Err(NoCommand::Blank) => {}
                Err(reason) => println!(self.rt; "error: {reason}")?,
            }
        }
        Ok(None)
    }

    /// Makes a line, and runs the script on it.
    pub(crate) fn make(&mut self, making: Making) -> io::Result<Option<Making>> {
        let mut memory = vec![in self.rt.alloc(); making.fill; making.bytes]?;
        match making.order {
            Order::Offering => self.run_on(FirstCome::new(memory.as_mut_slice())),
            Order::Turns => self.run_on(Turn::new(memory.as_mut_slice())),
        }
    }

    fn run_on<L: Line + Drop>(&mut self, line: L) -> io::Result<Option<Making>> {
        println!(self.rt; "ok")?;
        let mut calls = Calls { rt: self.rt, line };
        self.run(|call| calls.perform(call))
    }
}
