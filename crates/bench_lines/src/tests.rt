// Lines that are read, for which there must be memory, and replies that are printed.
use crate::command::{MOST_BYTES, read_command, read_line};
use crate::reply::{Reply, reply_to};
use history::call::Answer;
use messages::fault::{Cause, Fault, Layer};
use refusals::Refusal;
use session::ruling::{CommitAnswer, Outcome, Ruling};
use settings::colour::Colour;
use std::test::Fail;
use texts::LineBuffer;

#[test]
fn commands_are_read(rt: HostRuntime) -> Result<(), Fail> {
    let lines = [
        ("N 2 7 09", "N 2 7 9"),
        ("N 0", "N 0"),
        ("B 1 18446744073709551615", "B 1 18446744073709551615"),
        ("C 1 2", "C 1 2"),
        ("A 3 4", "A 3 4"),
        ("K 8 1", "K 8 1"),
        ("R 1 4 9", "R 1 4 9"),
        (
            "W 1 1 7 -2147483648 2147483647 -0",
            "W 1 1 7 -2147483648 2147483647 0",
        ),
        ("S", "S"),
        ("T 007", "T 7"),
    ];
    for (line, printed) in lines {
        let command = read_command(rt.alloc(), line.as_bytes())?.ok_or("bad")?;
        assert_eq!(rt; command.to_string(rt.alloc())?.as_str(), printed);
    }
    Ok(())
}

#[test]
fn other_lines_are_bad(rt: HostRuntime) -> Result<(), Fail> {
    let lines = [
        "",
        " ",
        "N",
        "N ",
        "N 2 7 ",
        "N 2  7",
        "N -1",
        "NN 2",
        "n 2",
        "B 1",
        "B 1 1 1",
        " B 1 1",
        "B 1 1\r",
        "B\t1 1",
        "B 1 18446744073709551616",
        "R 1 1",
        "W 1 1 7 1 1",
        "W 1 1 7 1 1 +1",
        "W 1 1 7 1 1 2147483648",
        "S 1",
        "S ",
        "T",
        "T x",
        "X 1 1",
    ];
    for line in lines {
        assert!(rt; read_command(rt.alloc(), line.as_bytes())?.is_none());
    }
    assert!(rt; read_command(rt.alloc(), &[b'T', b' ', 0xb2])?.is_none());
    Ok(())
}

#[test]
fn long_lines_are_bad(rt: HostRuntime) -> Result<(), Fail> {
    let mut line = LineBuffer::new(rt.alloc(), MOST_BYTES);
    for byte in b"N 1 " {
        line.push(*byte)?;
    }
    for _ in 4..MOST_BYTES {
        line.push(b'0')?;
    }
    let longest = read_line(rt.alloc(), &line)?.ok_or("bad")?;
    assert_eq!(rt; longest.to_string(rt.alloc())?.as_str(), "N 1 0");
    line.push(b'0')?;
    assert!(rt; read_line(rt.alloc(), &line)?.is_none());
    Ok(())
}

#[test]
fn replies_are_printed(rt: HostRuntime) -> Result<(), Fail> {
    let colour = Colour {
        lift: 1,
        gamma: -1,
        gain: 0,
    };
    let answers = [
        (Ok(Answer::Began(3)), "ok 3"),
        (Ok(Answer::Setting(colour)), "set 1 -1 0"),
        (Ok(Answer::Written), "ok"),
        (Ok(Answer::Committed(CommitAnswer::Sent)), "sent"),
        (Ok(Answer::Committed(CommitAnswer::ReadOnly(4))), "read 4"),
        (Ok(Answer::Committed(CommitAnswer::Clash(7))), "clash 7"),
        (Ok(Answer::Abandoned), "ok"),
        (Ok(Answer::Collected(Outcome::Commit(2))), "done 2"),
        (Ok(Answer::Settled), "ok"),
        (
            Ok(Answer::Taken(Ruling::Decided(Outcome::Clash(9)))),
            "clash 9",
        ),
        (Err(Refusal::SummarySize), "no 16"),
    ];
    for (answer, printed) in answers {
        let reply = reply_to(answer).ok_or("void")?;
        assert_eq!(rt; reply.to_string(rt.alloc())?.as_str(), printed);
    }
    let fault = Fault {
        layer: Layer::Frame,
        cause: Cause::Length,
        byte: 0,
    };
    assert_eq!(rt; reply_to(Ok(Answer::Taken(Ruling::Void(fault)))), None);
    assert_eq!(rt; Reply::Bad.to_string(rt.alloc())?.as_str(), "bad");
    Ok(())
}
