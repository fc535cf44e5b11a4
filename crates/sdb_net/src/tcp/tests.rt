// Tests of connections over real sockets, in one thread.
use super::*;
use std::io::{self, ErrorKind, Read, Write};
use std::net::{Ipv4Addr, Shutdown, SocketAddr, TcpStream as Client};
use std::process::Abort;
use std::test::Fail;

const MIB: usize = 1024 * 1024;

// A bound port, with the buffer of its pieces.
#[derive(Drop)]
struct Port {
    links: TcpLinks<HostRuntime>,
    buf: [u8; 4096],
}

impl Port {
    fn bound(rt: &HostRuntime) -> Result<Port, Fail> {
        let mut links = TcpLinks::new(rt.clone()?, rt.alloc());
        links.bind(0)?;
        Ok(Port {
            links,
            buf: [0u8; 4096],
        })
    }

    // A client of this port, whose reads and writes don't wait.
    fn client(&self, rt: &impl Net<Stream = Client>) -> io::Result<Client> {
        let port = self.links.port().unwrap_or(0);
        let client = Client::connect(rt, SocketAddr::from((Ipv4Addr::LOCALHOST, port)))?;
        client.set_nonblocking(true)?;
        Ok(client)
    }

    // A client whose connection is the next that opens, under this number.
    fn open<R: Abort + Net<Stream = Client>>(
        &mut self,
        rt: &R,
        number: u32,
    ) -> Result<Client, Fail> {
        let client = self.client(rt)?;
        self.gives(rt, LinkEvent::Opened(number))?;
        Ok(client)
    }

    fn gives(&mut self, rt: &impl Abort, wanted: LinkEvent) -> Result<(), Fail> {
        assert_eq!(rt; self.links.next(&mut self.buf)?, wanted);
        Ok(())
    }

    // A piece with these bytes.
    fn gives_bytes(&mut self, rt: &impl Abort, number: u32, wanted: &[u8]) -> Result<(), Fail> {
        let event = self.links.next(&mut self.buf)?;
        assert_eq!(rt; event, LinkEvent::Piece(number, wanted.len()));
        assert_eq!(rt; self.buf.get(..wanted.len()), Some(wanted));
        Ok(())
    }

    // The client asks one byte, which comes.
    fn takes_one(&mut self, rt: &impl Abort, client: &mut Client, number: u32) -> Result<(), Fail> {
        client.write_all(b"?")?;
        self.gives(rt, LinkEvent::Piece(number, 1))
    }
}

// The client reads these bytes next, or the end of its connection where there are none.
fn reads(rt: &impl Abort, client: &mut Client, wanted: &[u8]) -> Result<(), Fail> {
    let mut buf = [0u8; 32];
    client.set_nonblocking(false)?;
    let count = client.read(&mut buf)?;
    assert_eq!(rt; buf.get(..count), Some(wanted));
    Ok(())
}

// How many bytes the client reads before it would wait, or its peer has ended.
fn read_all(client: &mut Client, buf: &mut [u8]) -> io::Result<usize> {
    let mut count: usize = 0;
    for _ in 0..1_000_000 {
        match client.read(buf) {
            Ok(0) => return Ok(count),
            Ok(n) => count = count.saturating_add(n),
            Err(e) if e.kind() == ErrorKind::WouldBlock => return Ok(count),
            Err(e) => return Err(e),
        }
    }
    Ok(count)
}

#[test]
fn clients_are_answered_and_have_their_turns(rt: HostRuntime) -> Result<(), Fail> {
    let mut port = Port::bound(&rt)?;
    let mut first = port.open(&rt, 1)?;
    let mut second = port.open(&rt, 2)?;
    second.write_all(b"question two")?;
    port.gives_bytes(&rt, 2, b"question two")?;
    first.write_all(b"one")?;
    port.gives_bytes(&rt, 1, b"one")?;
    port.links.send(2, b"answer two")?;
    port.links.send(1, b"answer one")?;
    port.links.close(1);
    port.links.close(2);
    reads(&rt, &mut first, b"answer one")?;
    reads(&rt, &mut first, b"")?;
    reads(&rt, &mut second, b"answer two")?;
    drop(port.open(&rt, 3)?);
    port.gives(&rt, LinkEvent::Ended(3))?;
    // A long piece comes in parts, and another connection has its turn between them.
    let mut long = port.open(&rt, 4)?;
    let mut other = port.open(&rt, 5)?;
    port.takes_one(&rt, &mut long, 4)?;
    port.takes_one(&rt, &mut other, 5)?;
    long.write_all(&[b'a'; 4096])?;
    long.write_all(&[b'b'; 4096])?;
    long.write_all(b"XYZ")?;
    other.write_all(b"?")?;
    port.gives_bytes(&rt, 4, &[b'a'; 4096])?;
    port.gives_bytes(&rt, 5, b"?")?;
    port.gives_bytes(&rt, 4, &[b'b'; 4096])?;
    drop(long);
    port.gives_bytes(&rt, 4, b"XYZ")?;
    port.gives(&rt, LinkEvent::Ended(4))
}

#[test]
fn the_idle_make_room_for_further_connections(rt: HostRuntime) -> Result<(), Fail> {
    let mut port = Port::bound(&rt)?;
    let mut clients = Vec::new(rt.alloc());
    for number in 1..=64 {
        let mut one = port.open(&rt, number)?;
        if number < 3 {
            port.takes_one(&rt, &mut one, number)?;
        }
        clients.push(one)?;
    }
    let mut further = port.client(&rt)?;
    port.gives(&rt, LinkEvent::Ended(3))?;
    port.gives(&rt, LinkEvent::Opened(65))?;
    port.takes_one(&rt, &mut further, 65)?;
    // While none is idle, the next one waits.
    let mut number: u32 = 0;
    for one in clients.iter_mut() {
        number = number.saturating_add(1);
        if number != 3 {
            port.takes_one(&rt, one, number)?;
        }
    }
    let mut waiting = port.client(&rt)?;
    waiting.write_all(b"?")?;
    if let Some(last) = clients.last_mut() {
        port.takes_one(&rt, last, 64)?;
    }
    port.links.send(7, b"answer")?;
    port.gives(&rt, LinkEvent::Ended(7))?;
    port.gives(&rt, LinkEvent::Opened(66))?;
    port.gives(&rt, LinkEvent::Piece(66, 1))
}

#[test]
fn long_answers_go_on_while_others_are_served_but_have_a_limit(
    rt: HostRuntime,
) -> Result<(), Fail> {
    let mut port = Port::bound(&rt)?;
    let mut slow = port.open(&rt, 1)?;
    let mut other = port.open(&rt, 2)?;
    let part = Vec::from_elem(rt.alloc(), 7u8, MIB)?;
    for _ in 0..14 {
        port.links.send(1, part.as_slice())?;
    }
    port.links.close(1);
    // The client has ended, and reads on.
    slow.shutdown(Shutdown::Write)?;
    let mut room = Vec::from_elem(rt.alloc(), 0u8, 65536)?;
    let mut count: usize = 0;
    for _ in 0..10_000 {
        if count >= 14 * MIB {
            break;
        }
        count = count.saturating_add(read_all(&mut slow, room.as_mut_slice())?);
        port.takes_one(&rt, &mut other, 2)?;
    }
    assert_eq!(rt; count, 14 * MIB);
    reads(&rt, &mut slow, b"")?;
    // More than sixteen mebibytes that are not taken fail.
    let _slower = port.open(&rt, 3)?;
    let mut taken: usize = 0;
    for _ in 0..200 {
        if port.links.send(3, part.as_slice()).is_err() {
            break;
        }
        taken = taken.saturating_add(1);
    }
    assert!(rt; taken >= 16);
    assert!(rt; taken < 200);
    Ok(())
}

#[test]
fn a_closed_connection_may_send_on_but_not_without_end(rt: HostRuntime) -> Result<(), Fail> {
    let mut port = Port::bound(&rt)?;
    let mut first = port.open(&rt, 1)?;
    first.write_all(&[7; 5000])?;
    port.gives(&rt, LinkEvent::Piece(1, 4096))?;
    port.links.send(1, b"answer")?;
    port.links.close(1);
    assert_eq!(rt; port.links.send(1, b"late"), Err(Failed), "it is closed");
    first.write_all(b"and still more")?;
    let mut other = port.open(&rt, 2)?;
    port.takes_one(&rt, &mut other, 2)?;
    first.write_all(b"and more again")?;
    reads(&rt, &mut first, b"answer")?;
    reads(&rt, &mut first, b"")?;
    // One that sends without end is cut off.
    let mut endless = port.open(&rt, 3)?;
    port.links.close(3);
    let mut written: usize = 0;
    let mut is_cut_off = false;
    for _ in 0..2000 {
        match endless.write(&[7u8; 65536]) {
            Ok(n) => written = written.saturating_add(n),
            Err(e) if e.kind() == ErrorKind::WouldBlock => {}
            Err(_) => {
                is_cut_off = true;
                break;
            }
        }
        port.takes_one(&rt, &mut other, 2)?;
    }
    assert!(rt; is_cut_off);
    assert!(rt; written > 2 * MIB);
    Ok(())
}

#[test]
fn a_port_is_bound_once_and_serves_to_the_last_number(rt: HostRuntime) -> Result<(), Fail> {
    let mut port = Port::bound(&rt)?;
    assert_eq!(rt; port.links.bind(0), Err(Failed));
    let number = port.links.port().ok_or("bound")?;
    let mut links = TcpLinks::new(rt.clone()?, rt.alloc());
    assert_eq!(rt;
        links.next(&mut [0]),
        Ok(LinkEvent::Closed),
        "nothing is bound"
    );
    assert_eq!(rt; links.bind(number), Err(Failed), "the port is taken");
    assert_eq!(rt; links.port(), None);
    drop(port);
    assert_eq!(rt; links.bind(number), Ok(()));
    let mut port = Port {
        links,
        buf: [0u8; 4096],
    };
    // A send to a peer that has gone fails, and its connection ends.
    drop(port.open(&rt, 1)?);
    assert_eq!(rt;
        port.links.send(1, b"into the void"),
        Ok(()),
        "the system took it"
    );
    let mut has_failed = false;
    for _ in 0..100 {
        has_failed = port.links.send(1, b"again").is_err();
        if has_failed {
            break;
        }
    }
    assert!(rt; has_failed, "the peer has answered with a reset");
    port.gives(&rt, LinkEvent::Ended(1))?;
    // After the last number nothing comes.
    port.links.connections = Connections::numbered_after(rt.alloc(), u32::MAX - 1);
    let _last = port.open(&rt, u32::MAX)?;
    let _further = port.client(&rt)?;
    port.gives(&rt, LinkEvent::Closed)?;
    port.gives(&rt, LinkEvent::Closed)
}
