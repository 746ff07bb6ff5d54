// Three moves at a grade of two suites and two nodes: one is sent, one abandoned, and one only reads.
#![tactic(auto)]

mod desk;
mod teller;

use desk::{Desk, LINE_BYTES};
use refusals::Refusal;
use settings::colour::Colour;
use std::io;
use teller::Teller;

// what a move writes at suite 1, and one at suite 2
const WARM: Colour = Colour {
    lift: 1,
    gamma: -1,
    gain: 0,
};

const COOL: Colour = Colour {
    lift: 5,
    gamma: 6,
    gain: 7,
};

// Suite 1 sends a move, and both suites rule on it; then suite 2 abandons a move, and has one that only reads.
fn grade(desk: &mut Desk<'_, '_>) -> Result<(), Refusal> {
    let open = desk.begin(1, 1)?;
    desk.read(&open, 7);
    desk.write(&open, 9, WARM);
    if let Some(sent) = desk.commit(open) {
        desk.settle();
        desk.take(1);
        desk.take(2);
        desk.collect(sent);
    }

    let open = desk.begin(2, 4)?;
    desk.write(&open, 7, COOL);
    desk.read(&open, 7);
    desk.abandon(open);

    let open = desk.begin(2, 4)?;
    desk.read(&open, 7);
    desk.read(&open, 9);
    if let Some(sent) = desk.commit(open) {
        desk.collect(sent);
    }
    Ok(())
}

fn run(teller: &mut Teller<'_>) -> Result<(), Refusal> {
    let mut memory = [0; LINE_BYTES];
    let mut desk = Desk::new(&mut memory, teller)?;
    grade(&mut desk)
}

fn main(rt: HostRuntime) -> io::Result<()> {
    let mut teller = Teller::new(&rt);
    if let Err(why) = run(&mut teller) {
        teller.tell("stopped", format_args!("no {}", why.number()));
    }
    teller.end()
}
