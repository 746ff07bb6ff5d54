// The bench: reads lines from standard input, and prints an answer to each before it waits for the next.
#![tactic(auto)]

use bench_lines::command::{MOST_BYTES, read_line};
use bench_session::bench::Bench;
use limits::LINE_PLACE;
use std::io;
use std::io::BufReader;
use texts::LineBuffer;

/// Messages that the bench's line may hold.
const PLACES: usize = 32;

fn run(rt: &HostRuntime) -> io::Result<()> {
    let heap = rt.alloc();
    let mut memory = vec![in heap; 0; PLACES * LINE_PLACE]?;
    let mut bench = Bench::new(heap, memory.as_mut_slice());
    let mut input = BufReader::new(heap, rt.stdin())?;
    let mut line = LineBuffer::new(heap, MOST_BYTES);
    // the input ends it
    for _ in 0..u64::MAX {
        if !line.read(&mut input)? {
            break;
        }
        let reply = bench.answer(read_line(heap, &line)?)?;
        println!(rt; "{reply}")?;
    }
    Ok(())
}

fn main(rt: HostRuntime) -> anyhow::Result<()> {
    Ok(run(&rt)?)
}
