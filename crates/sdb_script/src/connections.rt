// The connections that are open.
ghost use Rattle.std.specs.Prelude.{◌≡◌, IsTrue, OnOk, OnErr};
ghost use Rattle.sdb_script.specs.Connections.{none_opened, after_event};
ghost use Rattle.sdb_script.specs.Events as event;
ghost use Rattle.sdb_script.specs.Lines.{may_follow as follows};

use crate::line::Line;
use sdb_base::OutOfMemory;
use std::alloc::Global;
use std::collections::BTreeSet;
use std::marker::Model;

// Which connections are open, and the greatest number that one had.
#[derive(Debug, Drop)]
pub(crate) struct Connections {
    greatest: u32,
    open_numbers: BTreeSet<u32>,
}

impl Model for Connections {
    ghost use Rattle.sdb_script.specs.Connections.{Connections};

    ghost Value = { Connections };

    ghost view = { λ it. record { greatest = it.greatest; open_numbers = it.open_numbers.keys } };
}

impl Connections {
    // No connection was opened. It takes no memory.
    pub(crate) fn new(alloc: Global) -> Connections
        ensures { result ≡ none_opened }
    {
        Connections {
            greatest: 0,
            open_numbers: BTreeSet::new(alloc),
        }
    }

    // Whether a record with this line may stand after the events so far.
    pub(crate) fn may_follow(&self, line: Line) -> bool
        ensures { result ≡ follows self.now line }
    {
        match line {
            Line::Opened(conn) => self.greatest < conn,
            Line::Piece(conn, _, _) | Line::Ended(conn) => self.open_numbers.contains(&conn),
            Line::Commit | Line::Work => true,
        }
    }

    // Takes note of a connection that is opened.
    pub(crate) fn note_opened(&mut self, conn: u32) -> Result<(), OutOfMemory>
        ensures ok { OnOk result (self.new ≡ after_event self.old (event.Opened conn)) }
        ensures err { OnErr result (self.new ≡ self.old) }
    {
        self.open_numbers.insert(conn)?;
        self.greatest = conn;
        Ok(())
    }

    // Takes note of a connection that ended.
    pub(crate) fn note_ended(&mut self, conn: u32)
        ensures { self.new ≡ after_event self.old (event.Ended conn) }
    {
        self.open_numbers.remove(&conn);
    }
}
