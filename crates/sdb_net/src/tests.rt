// Tests of the bookkeeping of connections without any socket, and of the system's clock.
use crate::SystemClock;
use crate::connections::{Connections, MAX_OPEN, MAX_SOCKETS, NotKept};
use crate::pending::MAX_PENDING;
use sdb_io::Clock;
use std::test::Fail;

// The number under which a socket was opened, or 0.
fn add(connections: &mut Connections<u8>, socket: u8) -> u32 {
    if !connections.has_room() || connections.last() == u32::MAX {
        return 0;
    }
    connections.add(socket).unwrap_or(0)
}

#[test]
fn the_connection_that_has_been_idle_longest_is_found(rt: HostRuntime) {
    let mut connections = Connections::new(rt.alloc());
    assert_eq!(rt; connections.longest_idle(), None);
    for socket in [10, 20, 30] {
        add(&mut connections, socket);
    }
    assert_eq!(rt; connections.longest_idle(), Some(1));
    connections.came(1);
    connections.came(3);
    assert_eq!(rt; connections.longest_idle(), Some(2));
    connections.answered(1);
    connections.came(2);
    connections.answered(3);
    assert_eq!(rt; connections.longest_idle(), Some(1));
    connections.close(1);
    assert_eq!(rt; connections.longest_idle(), Some(3));
}

#[test]
fn what_is_left_and_thrown_away_is_kept_for_each_connection(rt: HostRuntime) -> Result<(), Fail> {
    let mut connections = Connections::new(rt.alloc());
    let first = add(&mut connections, 10);
    let second = add(&mut connections, 20);
    connections.keep(first, b"abc")?;
    connections.keep(second, b"xyz")?;
    connections.wrote(first, 2);
    connections.close(first);
    assert!(rt; !connections.is_open(first));
    let socket = connections.socket(first).ok_or("closed, and not done")?;
    assert_eq!(rt; socket.stream, 10);
    assert_eq!(rt; socket.pending.as_slice(), b"c".as_slice());
    let socket = connections.socket(second).ok_or("open")?;
    assert_eq!(rt; socket.pending.as_slice(), b"xyz".as_slice());
    connections.close(second);
    for (number, count, drained) in [(1, 5, 5), (2, 70, 70), (1, 6, 11), (3, 6, 0)] {
        assert_eq!(rt; connections.drain(number, count), drained);
    }
    connections.forget(first);
    assert!(rt; connections.socket(first).is_none());
    // Sixteen mebibytes may be left, and no more.
    let third = add(&mut connections, 30);
    let part = Vec::from_elem(rt.alloc(), 7u8, 1024 * 1024)?;
    for _ in 0..16 {
        connections.keep(third, part.as_slice())?;
    }
    assert_eq!(rt; connections.keep(third, b"!"), Err(NotKept));
    connections.wrote(third, 1);
    assert_eq!(rt; connections.keep(third, b"!"), Ok(()));
    assert_eq!(rt; connections.keep(third, b"!"), Err(NotKept));
    let socket = connections.socket(third).ok_or("open")?;
    assert_eq!(rt; socket.pending.len(), MAX_PENDING);
    assert_eq!(rt; socket.pending.as_slice().last(), Some(&b'!'));
    Ok(())
}

#[test]
fn sixty_four_are_open_and_a_hundred_and_twenty_eight_have_sockets(rt: HostRuntime) {
    let mut connections = Connections::new(rt.alloc());
    for _ in 0..MAX_OPEN {
        assert!(rt; connections.has_room());
        add(&mut connections, 1);
    }
    assert!(rt; connections.is_full());
    assert!(rt; !connections.has_room());
    assert_eq!(rt; connections.a_closed_one(), None);
    for number in 1..=64 {
        connections.close(number);
    }
    for _ in MAX_OPEN..MAX_SOCKETS {
        assert!(rt; connections.has_room());
        add(&mut connections, 1);
    }
    assert_eq!(rt; connections.last(), 128);
    connections.close(100);
    assert!(rt; !connections.is_full());
    assert!(rt; !connections.has_room(), "all places for sockets are taken");
    assert_eq!(rt; connections.a_closed_one(), Some(1));
    connections.forget(1);
    assert!(rt; connections.has_room());
    assert_eq!(rt; add(&mut connections, 1), 129);
}

// The first second of 2024, by RFC 3339 1704067200 seconds after the first of 1970.
#[test]
fn the_systems_clock_is_past_the_year_2023_and_goes_on(rt: HostRuntime) -> Result<(), Fail> {
    let mut clock = SystemClock::new(rt.clone()?);
    let moment = clock.now();
    assert!(rt; moment > 1_704_067_200);
    assert!(rt; clock.now() >= moment);
    Ok(())
}
