//! Lines of streams in memory, in any pieces, and what is sent to streams that fail.
use mt_lines::line::{Line, LineReader, ReadFault};
use mt_lines::memory::{Faltering, Faulty, Portions, Sink};
use mt_lines::stream::{Cut, Input, StreamFault, send};
use std::alloc::{AllocError, Global};
use std::test::Fail;

/// A word for an answer.
fn word(answer: Result<Line, ReadFault>) -> &'static [u8] {
    match answer {
        Ok(Line::Text) => b"text ",
        Ok(Line::TooLong) => b"too long",
        Ok(Line::Unended) => b"unended",
        Ok(Line::End) => b"end",
        Err(ReadFault::Device) => b"device",
        Err(ReadFault::Interrupted) => b"interrupted",
        Err(ReadFault::Endless) => b"endless",
        Err(ReadFault::NoMemory) => b"no memory",
    }
}

/// What this many calls answer, each with the bytes that the reader lends after it.
fn told<R: Input + Drop>(
    alloc: Global,
    reader: R,
    limit: u32,
    calls: usize,
) -> Result<Vec<u8>, AllocError> {
    let mut lines = LineReader::new(alloc, reader, limit)?;
    let mut told = Vec::new(alloc);
    for _calls in 0..calls {
        told.extend_from_slice(word(lines.next()))?;
        told.extend_from_slice(lines.line())?;
        told.push(b';')?;
    }
    Ok(told)
}

/// Whether a text has these lines when it comes in pieces of each size.
fn is_told(alloc: Global, text: &[u8], limit: u32, wanted: &[u8]) -> Result<bool, AllocError> {
    let mut same = true;
    for most in [1, 3, 1000] {
        let found = told(alloc, Portions::new(text, most), limit, 4)?;
        same = same && found.as_slice() == wanted;
    }
    Ok(same)
}

#[test]
fn reads_the_same_lines_in_any_pieces(rt: HostRuntime) -> Result<(), Fail> {
    let table: [(&[u8], u32, &[u8]); 6] = [
        (b"ab\n\ncd\n", 2, b"text ab;text ;text cd;end;"),
        (b"ab\nabc\nc\n", 2, b"text ab;too long;text c;end;"),
        (b"abc\n\nc", 2, b"too long;text ;unended;end;"),
        (b"ab\nabcd", 2, b"text ab;too long;end;end;"),
        (b"\na\n", 0, b"text ;too long;end;end;"),
        (b"", 2, b"end;end;end;end;"),
    ];
    for (text, limit, wanted) in table {
        let same = is_told(rt.alloc(), text, limit, wanted)?;
        assert!(rt; same, "{text:?}");
    }
    Ok(())
}

/// Whether a reader that fails this often in succession after its first read gives these lines.
fn is_kept(
    alloc: Global,
    fault: StreamFault,
    times: u32,
    wanted: &[u8],
) -> Result<bool, AllocError> {
    let reader = Faulty::new(b"ab\ncd\n", 3, 1, fault, times);
    let found = told(alloc, reader, 8_192, 3)?;
    Ok(found.as_slice() == wanted)
}

#[test]
fn keeps_a_fault(rt: HostRuntime) -> Result<(), Fail> {
    let table: [(StreamFault, u32, &[u8]); 3] = [
        (StreamFault::Failed, 1, b"text ab;device;device;"),
        (StreamFault::Interrupted, 999, b"text ab;text cd;end;"),
        (
            StreamFault::Interrupted,
            1_000,
            b"text ab;interrupted;interrupted;",
        ),
    ];
    for (fault, times, wanted) in table {
        let kept = is_kept(rt.alloc(), fault, times, wanted)?;
        assert!(rt; kept, "after {times} faults");
    }
    Ok(())
}

/// Whether a send to a writer that fails this often ends like this, and the next one succeeds.
fn is_sent_over(fault: StreamFault, times: u32, wanted: Result<(), Cut>) -> bool {
    let mut writer = Faltering::new(fault, times);
    let first = send(&mut writer, b"abc");
    let second = send(&mut writer, b"abc");
    first == wanted && second == Ok(())
}

#[test]
fn sends_over_interruptions(rt: HostRuntime) -> Result<(), Fail> {
    for (fault, times, wanted) in [
        (StreamFault::Interrupted, 999, Ok(())),
        (StreamFault::Interrupted, 1_000, Err(Cut { sent: 0 })),
        (StreamFault::Failed, 1, Err(Cut { sent: 0 })),
    ] {
        let good = is_sent_over(fault, times, wanted);
        assert!(rt; good, "{times} times");
    }
    Ok(())
}
