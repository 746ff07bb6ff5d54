// The bench, for tests: one session after the other, each ended by a line of three dashes.
#![tactic(auto)]

use bench_lines::command::{MOST_BYTES, read_line};
use bench_session::bench::Bench;
use limits::LINE_PLACE;
use std::io;
use std::io::BufReader;
use std::rt::Stdin;
use texts::LineBuffer;

/// Messages that the bench's line may hold.
const PLACES: usize = 32;

/// Runs a bench up to the line that ends its session, and says whether there was one.
fn run_session(
    rt: &HostRuntime,
    input: &mut BufReader<Stdin>,
    line: &mut LineBuffer,
) -> io::Result<bool> {
    let heap = rt.alloc();
    let mut memory = vec![in heap; 0; PLACES * LINE_PLACE]?;
    let mut bench = Bench::new(heap, memory.as_mut_slice());
    // the input ends it
    for _ in 0..u64::MAX {
        if !line.read(input)? {
            break;
        }
        if line.whole() == Some(b"---") {
            println!(rt; "---")?;
            return Ok(true);
        }
        let reply = bench.answer(read_line(heap, line)?)?;
        println!(rt; "{reply}")?;
    }
    Ok(false)
}

fn run(rt: &HostRuntime) -> io::Result<()> {
    let mut input = BufReader::new(rt.alloc(), rt.stdin())?;
    let mut line = LineBuffer::new(rt.alloc(), MOST_BYTES);
    // the input ends it
    for _ in 0..u64::MAX {
        if !run_session(rt, &mut input, &mut line)? {
            break;
        }
    }
    Ok(())
}

fn main(rt: HostRuntime) -> anyhow::Result<()> {
    Ok(run(&rt)?)
}
