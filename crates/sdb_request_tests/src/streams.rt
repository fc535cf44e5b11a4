// Tests of sources, sinks, connections and clocks, in memory and over streams.
ghost use Rattle.std.specs.Prelude.{◌≡◌, ◌≤◌, true, IfOk};
ghost use Rattle.sdb_io.specs.Playback.{is_story};

use sdb_base::{Bytes, Numbers, OutOfMemory};
use sdb_io::{
    Clock, Failed, LinkEvent, LinkScript, LinkStep, Links, MemoryClock, MemoryLinks, MemorySink,
    MemorySource, ReadSource, Sink, Source, WriteSink, write_whole,
};
use std::io::{self, ErrorKind, Read, Write};
use std::process::Abort;
use std::test::Fail;

// Interrupted so many times first; then each call reads or writes one byte, and none at the end.
#[derive(Drop)]
struct Interrupted {
    times: u32,
    room: u32,
}

impl Interrupted {
    fn step(&mut self) -> io::Result<usize>
        ensures { IfOk result (λ n. n ≤ 1) }
    {
        if self.times > 0 {
            self.times -= 1;
            return Err(io::Error::from(ErrorKind::Interrupted));
        }
        if self.room == 0 {
            return Ok(0);
        }
        self.room -= 1;
        Ok(1)
    }
}

impl Read for Interrupted {
    fn read(&mut self, buf: &mut [u8]) -> io::Result<usize> {
        if buf.is_empty() {
            return Ok(0);
        }
        buf[0] = 7;
        self.step()
    }
}

impl Write for Interrupted {
    fn write(&mut self, buf: &[u8]) -> io::Result<usize> {
        if buf.is_empty() {
            return Ok(0);
        }
        self.step()
    }

    fn flush(&mut self) -> io::Result<()> {
        Ok(())
    }
}

fn numbers(rt: &impl AllocGlobal, from: &[u64]) -> Result<Numbers, OutOfMemory> {
    let mut numbers = Numbers::new(rt.alloc());
    for number in from {
        numbers.push(*number)?;
    }
    Ok(numbers)
}

// Reads at most two bytes for each of the answers, which the source has to give, and gives the bytes that came.
fn read<T: Source + Drop>(
    rt: &(impl Abort + AllocGlobal),
    mut source: T,
    answers: &[Result<usize, Failed>],
) -> Result<Bytes, OutOfMemory> {
    let mut came = Bytes::new(rt.alloc());
    let mut buf = [0u8; 2];
    for answer in answers {
        let count = source.read(&mut buf);
        assert_eq!(rt; count, *answer);
        if let Some(bytes) = buf.get(..count.unwrap_or(0)) {
            came.append(bytes)?;
        }
    }
    Ok(came)
}

// Writes the texts, and compares the answers.
fn write<T: Sink>(rt: &impl Abort, sink: &mut T, texts: &[(&str, Result<(), Failed>)]) {
    for (text, answer) in texts {
        assert_eq!(rt; write_whole(sink, text.as_bytes()), *answer, "{text}");
    }
}

#[test]
fn a_source_in_memory_fails_once_and_gives_its_bytes(rt: HostRuntime) -> Result<(), Fail> {
    for (fails, answers) in [
        ([9], [Ok(2), Ok(1), Ok(0), Ok(0)]),
        ([1], [Ok(2), Err(Failed), Ok(1), Ok(0)]),
    ] {
        let bytes = Bytes::from_slice(rt.alloc(), b"abc")?;
        let source = MemorySource::new(bytes, numbers(&rt, &fails)?);
        let came = read(&rt, source, &answers)?;
        assert_eq!(rt; came.as_slice(), b"abc".as_slice());
    }
    Ok(())
}

#[test]
fn an_interrupted_read_is_tried_again(rt: HostRuntime) -> Result<(), Fail> {
    for (times, answers) in [(3, [Ok(1), Ok(0)]), (u32::MAX, [Err(Failed), Err(Failed)])] {
        let source = ReadSource::new(Interrupted { times, room: 1 });
        read(&rt, source, &answers)?;
    }
    Ok(())
}

#[test]
fn a_sink_in_memory_takes_all_with_ample_memory(rt: HostRuntime) -> Result<(), Fail> {
    let mut sink = MemorySink::new(rt.alloc(), numbers(&rt, &[1])?);
    let texts = [("hello", Ok(())), (" lost", Err(Failed)), (" you", Ok(()))];
    write(&rt, &mut sink, &texts);
    assert_eq!(rt; sink.written(), b"hello you".as_slice());
    Ok(())
}

#[test]
fn a_write_is_repeated_until_all_is_taken(rt: HostRuntime) {
    for (times, answers) in [
        (2, [("hello", Ok(())), ("no byte is taken", Err(Failed))]),
        (u32::MAX, [("hello", Err(Failed)), ("more", Err(Failed))]),
    ] {
        let mut sink = WriteSink::new(Interrupted { times, room: 5 });
        write(&rt, &mut sink, &answers);
    }
}

// Two connections: the first gives six bytes, the second none; the first ends.
fn script(rt: &impl AllocGlobal) -> Result<LinkScript, OutOfMemory>
    ensures { IfOk result (λ made. is_story 0 made ≡ true) }
{
    let mut script = LinkScript::new(rt.alloc());
    script.push(LinkStep::Opened(1))?;
    script.push(LinkStep::Piece(1, Bytes::from_slice(rt.alloc(), b"abcdef")?))?;
    script.push(LinkStep::Opened(7))?;
    script.push(LinkStep::Ended(1))?;
    Ok(script)
}

// The connections of that script, whose calls of these numbers fail.
fn links(rt: &impl AllocGlobal, fails: &[u64]) -> Result<MemoryLinks, OutOfMemory> {
    Ok(MemoryLinks::new(rt.alloc(), script(rt)?, numbers(rt, fails)?))
}

// Compares the events that come next, and the bytes of each.
fn come(rt: &impl Abort, links: &mut MemoryLinks, events: &[(Result<LinkEvent, Failed>, &str)]) {
    let mut buf = [0u8; 4];
    for (event, bytes) in events {
        assert_eq!(rt; links.next(&mut buf), *event);
        assert!(rt; buf.starts_with(bytes.as_bytes()), "{bytes}");
    }
}

#[test]
fn events_in_memory_come_in_order_and_a_long_piece_in_parts(rt: HostRuntime) -> Result<(), Fail> {
    let mut links = links(&rt, &[])?;
    assert_eq!(rt; links.bind(8080), Ok(()));
    assert_eq!(rt; links.port(), Some(8080));
    let events = [
        (Ok(LinkEvent::Opened(1)), ""),
        (Ok(LinkEvent::Piece(1, 4)), "abcd"),
        (Ok(LinkEvent::Piece(1, 2)), "ef"),
        (Ok(LinkEvent::Opened(7)), ""),
        (Ok(LinkEvent::Ended(1)), ""),
        (Ok(LinkEvent::Closed), ""),
        (Ok(LinkEvent::Closed), ""),
    ];
    come(&rt, &mut links, &events);
    Ok(())
}

#[test]
fn calls_on_connections_fail_by_number_and_do_nothing_else(rt: HostRuntime) -> Result<(), Fail> {
    let mut links = links(&rt, &[0, 2, 4])?;
    assert_eq!(rt; links.bind(80), Err(Failed));
    assert_eq!(rt; links.port(), None);
    links.close(9);
    let events = [
        (Ok(LinkEvent::Opened(1)), ""),
        (Err(Failed), ""),
        (Ok(LinkEvent::Piece(1, 4)), "abcd"),
    ];
    come(&rt, &mut links, &events);
    assert_eq!(rt; links.send(1, b"lost"), Err(Failed));
    assert_eq!(rt; links.sent(1), b"".as_slice());
    Ok(())
}

#[test]
fn what_was_sent_is_kept_apart_and_outlives_the_closing(rt: HostRuntime) -> Result<(), Fail> {
    let mut links = links(&rt, &[])?;
    come(&rt, &mut links, &[(Ok(LinkEvent::Opened(1)), "")]);
    for (conn, bytes) in [(1, b"one".as_slice()), (7, b"seven"), (1, b" more")] {
        links.send(conn, bytes)?;
    }
    assert!(rt; !links.is_closed(1));
    links.close(1);
    links.close(7);
    assert!(rt; links.is_closed(1));
    assert!(rt; !links.is_closed(7), "it isn't open yet");
    assert_eq!(rt; links.sent(1), b"one more".as_slice());
    assert_eq!(rt; links.sent(7), b"seven".as_slice());
    come(&rt, &mut links, &[(Ok(LinkEvent::Piece(1, 4)), "abcd")]);
    Ok(())
}

#[test]
fn a_clock_in_memory_stays_at_its_last_moment(rt: HostRuntime) -> Result<(), Fail> {
    for (moments, told) in [([].as_slice(), [0, 0, 0]), ([5, 3].as_slice(), [5, 3, 3])] {
        let mut clock = MemoryClock::new(numbers(&rt, moments)?);
        for moment in told {
            assert_eq!(rt; clock.now(), moment);
        }
    }
    Ok(())
}
