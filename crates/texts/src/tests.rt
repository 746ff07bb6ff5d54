// Calls that need memory, which no contract can say is there.
use crate::{
    Commands, FromWords, LONGEST_LINE, LineBuffer, Misread, NoCommand, hex_bytes, integer,
};
use std::alloc::Global;
use std::test::Fail;

#[test]
fn lines_are_read(rt: HostRuntime) -> Result<(), Fail> {
    let mut line = LineBuffer::new(rt.alloc(), 4);
    let mut input = b"one\n\nfour\nfives\nlast".as_slice();
    let lines: [Option<&[u8]>; 5] = [Some(b"one"), Some(b""), Some(b"four"), None, Some(b"last")];
    for expected in lines {
        assert!(rt; line.read(&mut input)?);
        assert_eq!(rt; line.whole(), expected);
    }
    assert!(rt; !line.read(&mut input)?);
    assert!(rt; line.is_empty());
    Ok(())
}

#[test]
fn hexadecimal_digits_are_read(rt: HostRuntime) -> Result<(), Fail> {
    let bytes = hex_bytes(rt.alloc(), b"00fFA0")?;
    assert!(rt; bytes.is_some_and(|bytes| bytes.as_slice() == [0, 255, 160].as_slice()));
    assert!(rt; hex_bytes(rt.alloc(), b"abc")?.is_none());
    assert!(rt; hex_bytes(rt.alloc(), b"0g")?.is_none());
    Ok(())
}

#[derive(Clone, Copy, PartialEq, Eq, Debug)]
enum Step {
    Go(u8),
    Stop,
}

impl FromWords for Step {
    fn from_words(_heap: Global, words: &[&[u8]]) -> Result<Step, Misread> {
        match words {
            [b"go", steps] => Ok(Step::Go(integer(steps)?)),
            [b"stop"] => Ok(Step::Stop),
            _ => Err(Misread::Form),
        }
    }
}

#[test]
fn commands_are_read(rt: HostRuntime) -> Result<(), Fail> {
    let forms = ["go STEPS", "stop"];
    let input = b"go 255\n\n# on\nstop\ngo 256\ngo 1 2\nturn\n go 1\nstop".as_slice();
    let mut commands = Commands::new(rt.alloc(), input, &forms);
    let expected: [Result<Step, NoCommand>; 9] = [
        Ok(Step::Go(255)),
        Err(NoCommand::Blank),
        Err(NoCommand::Blank),
        Ok(Step::Stop),
        Err(NoCommand::Expected("go STEPS")),
        Err(NoCommand::Expected("go STEPS")),
        Err(NoCommand::Unknown),
        Err(NoCommand::Unknown),
        Ok(Step::Stop),
    ];
    for asked in expected {
        assert_eq!(rt; commands.next().transpose()?, Some(asked));
    }
    assert!(rt; commands.next().is_none());
    Ok(())
}

#[test]
fn long_lines_ask_for_nothing(rt: HostRuntime) -> Result<(), Fail> {
    let comment = [b'#'; LONGEST_LINE + 1];
    for (line, reason) in [
        (&comment[..LONGEST_LINE], NoCommand::Blank),
        (&comment[..], NoCommand::LongLine(LONGEST_LINE)),
    ] {
        let mut commands = Commands::<_, Step>::new(rt.alloc(), line, &["stop"]);
        assert_eq!(rt; commands.next().transpose()?, Some(Err(reason)));
    }
    Ok(())
}
