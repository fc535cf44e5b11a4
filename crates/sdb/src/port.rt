// Connections whose port is told.
use sdb_io::{Failed, LinkEvent, Links};
use std::io::Eprint;

// Connections whose port is told on standard error in one line once it is bound, so that a script can wait for it.
#[derive(Drop)]
pub(crate) struct ToldPort<R, L> {
    rt: R,
    links: L,
}

impl<R, L> ToldPort<R, L> {
    pub(crate) fn new(rt: R, links: L) -> ToldPort<R, L> {
        ToldPort { rt, links }
    }
}

impl<R: Eprint, L: Links> Links for ToldPort<R, L> {
    ghost state = { λ it. L.state it.links };

    fn bind(&mut self, port: u16) -> Result<(), Failed> {
        match self.links.bind(port) {
            Ok(()) => {
                // A fault of standard error has nowhere else to go.
                let _ = eprintln!(self.rt; "sdb: serving on 127.0.0.1:{port}");
                Ok(())
            }
            Err(failed) => Err(failed),
        }
    }

    fn next(&mut self, buf: &mut [u8]) -> Result<LinkEvent, Failed> {
        self.links.next(buf)
    }

    fn send(&mut self, conn: u32, bytes: &[u8]) -> Result<(), Failed> {
        self.links.send(conn, bytes)
    }

    fn close(&mut self, conn: u32) {
        self.links.close(conn);
    }
}
