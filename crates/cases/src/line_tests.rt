// The lines as they run: which message each agrees first, and what a line leaves of its memory once it is gone.
use super::first_served::{first_come_serves, turn_serves};
use limits::{LINE_PLACE, MESSAGE};
use lines::first_come::FirstCome;
use lines::line::Line;
use lines::turn::Turn;
use refusals::Refusal;
use std::test::Fail;

const LONGEST: [u8; MESSAGE] = [0x77; MESSAGE];

// Calls on a full line of which one message is agreed at most: whether all are refused.
fn all_refused<L: Line>(line: &mut L) -> bool {
    let mut buffer = [0u8; MESSAGE];
    line.offer(1, &LONGEST).is_err()
        && line.offer(9, &LONGEST).is_err()
        && line.fetch(2, &mut buffer).is_err()
}

// Fills two places with the longest messages, and settles one of them; if asked to, with calls that are refused in
// between. Whether they were.
fn use_line<L: Line>(mut line: L, in_vain: bool) -> Result<bool, Refusal>
where
    L: Drop,
{
    let mut refused = in_vain && line.settle().is_err();
    line.offer(8, &LONGEST)?;
    line.offer(1, &LONGEST)?;
    refused = refused && all_refused(&mut line);
    line.settle()?;
    Ok(refused && all_refused(&mut line))
}

#[test]
fn each_line_serves_by_its_rule(rt: HostRuntime) {
    let mut memory = [0xabu8; 2338];
    let mut buffer = [0xeeu8; 4];
    assert_eq!(rt; first_come_serves(&mut memory, &mut buffer), Ok(1));
    assert_eq!(rt; buffer, [0x3a, 0xee, 0xee, 0xee]);
    assert_eq!(rt; turn_serves(&mut memory, &mut buffer), Ok(1));
    assert_eq!(rt; buffer, [0x1a, 0xee, 0xee, 0xee]);
}

// Two places and three bytes more.
#[test]
fn refused_calls_leave_no_trace(rt: HostRuntime) -> Result<(), Fail> {
    let mut memory = vec![in rt.alloc(); 0xabu8; 2 * LINE_PLACE + 3]?;
    let mut other = vec![in rt.alloc(); 0xabu8; 2 * LINE_PLACE + 3]?;
    assert_eq!(rt;
        use_line(FirstCome::new(memory.as_mut_slice()), true),
        Ok(true)
    );
    assert_eq!(rt;
        use_line(FirstCome::new(other.as_mut_slice()), false),
        Ok(false)
    );
    assert!(rt; memory.as_slice() == other.as_slice(), "first come");
    assert_eq!(rt; use_line(Turn::new(memory.as_mut_slice()), true), Ok(true));
    assert_eq!(rt; use_line(Turn::new(other.as_mut_slice()), false), Ok(false));
    assert!(rt; memory.as_slice() == other.as_slice(), "turn");
    assert_eq!(rt;
        &memory.as_slice()[2 * LINE_PLACE..],
        [0xab, 0xab, 0xab].as_slice()
    );
    Ok(())
}

// One byte less than a place: the line is made, and its calls are refused.
#[test]
fn one_byte_short_of_a_place(rt: HostRuntime) -> Result<(), Fail> {
    let mut memory = vec![in rt.alloc(); 0xabu8; LINE_PLACE - 1]?;
    assert_eq!(rt;
        use_line(FirstCome::new(memory.as_mut_slice()), true),
        Err(Refusal::MemorySize)
    );
    assert_eq!(rt;
        use_line(Turn::new(memory.as_mut_slice()), true),
        Err(Refusal::MemorySize)
    );
    assert!(rt; memory.as_slice().iter().all(|byte| *byte == 0xab));
    Ok(())
}
