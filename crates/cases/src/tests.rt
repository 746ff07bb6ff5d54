// Messages whose bytes or lengths are given in docs/MESSAGE.md.
use super::widest::{Blank, Touched};
use messages::compose::{Misfit, compose};
use messages::parts::{Origin, Write};
use settings::colour::Colour;
use std::test::Fail;
use summaries::exact_list::ExactList;

#[test]
fn first_message(rt: HostRuntime) -> Result<(), Fail> {
    let from = Origin {
        suite: 1,
        slot: 1,
        snapshot: 0,
    };
    let setting = Colour {
        lift: 1,
        gamma: -1,
        gain: 0,
    };
    let mut buffer = [0xaau8; limits::MESSAGE];
    let length = compose::<Colour, ExactList>(
        from,
        &[7],
        &[Write { node: 7, setting }],
        &mut buffer,
    )?;
    assert_eq!(rt; length, 287);
    assert_eq!(rt;
        &buffer[0..10],
        [1, 0x1d, 1, 1, 1, 1, 0, 0, 0, 0].as_slice()
    );
    assert_eq!(rt; buffer[286], 0);
    assert_eq!(rt; buffer[287], 0xaa, "the buffer's rest is kept");
    Ok(())
}

#[test]
fn longest_message(rt: HostRuntime) {
    let from = Origin {
        suite: 8,
        slot: 4,
        snapshot: u32::MAX,
    };
    let writes = [Write {
        node: u64::MAX,
        setting: Blank,
    }; limits::WRITES];
    let mut buffer = [0u8; limits::MESSAGE];
    assert_eq!(rt;
        compose::<Blank, Touched>(from, &[u64::MAX; limits::READS], &writes, &mut buffer),
        Ok(1162)
    );
    let short = &mut buffer[0..1161];
    assert_eq!(rt;
        compose::<Blank, Touched>(from, &[], &writes, short),
        Err(Misfit::Buffer),
        "one byte short"
    );
}
