// A domain that is open to edits.
ghost use Rattle.std.specs.Prelude.{◌≡◌, OnOk, OnErr};
ghost use Rattle.sdb_pairs.specs.Changes.{edited};
ghost use Rattle.sdb_domain.specs.Weights.{domain_weight};
ghost use Rattle.sdb_domain.specs.Held.{items_kept, IsClean};

use crate::domain::Domain;
use crate::held::{Held, RowWas};
use sdb_base::{OutOfMemory, Text};
use sdb_pairs::Ops;
use std::alloc::Global;
use std::marker::Model;

// What is kept of a domain, with the edits since it was opened, the newest last. Each tells whether it emptied
// its row, and the names that it counted; so closing looks at those and at nothing else.
#[derive(Drop)]
pub(crate) struct Opened {
    held: Held,
    log: Vec<RowWas>,
}

impl Model for Opened {
    ghost use Rattle.sdb_domain.specs.Undo.{Opening, IsCovered};

    ghost Value = { Opening };

    ghost view = { λ it. record { kept = it.held; log = it.log.items } };

    ghost invariant = { λ it. IsCovered (record { kept = it.held; log = it.log.items }) };
}

impl Opened {
    ghost use Rattle.sdb_domain.specs.Undo.{opening_of, last_undone, CanUndoLast};
    ghost use Rattle.sdb_domain.specs.Held.{nothing_kept};

    // A domain without items.
    pub(crate) fn new(alloc: Global) -> Opened
        ensures { result ≡ opening_of nothing_kept }
    {
        Opened::of(alloc, Held::new(alloc))
    }

    pub(crate) fn of(alloc: Global, held: Held) -> Opened
        requires { IsClean held }
        ensures { result ≡ opening_of held }
    {
        Opened {
            held,
            log: Vec::new(alloc),
        }
    }

    // Applies the operations to the item of that name.
    pub(crate) fn edit(&mut self, alloc: Global, name: &Text, ops: &Ops) -> Result<(), OutOfMemory>
        ensures ok { OnOk result (items_kept self.new.kept ≡ edited (items_kept self.old.kept) name.now ops.now) }
        ensures back { OnOk result (last_undone self.new ≡ self.old) }
        ensures can { OnOk result (CanUndoLast self.new) }
        ensures err { OnErr result (self.new ≡ self.old) }
    {
        self.log.reserve(1)?;
        let was = self.held.edit(alloc, name, ops)?;
        self.log.push(was)?;
        Ok(())
    }

    // Takes the newest edit back.
    pub(crate) fn undo(&mut self)
        requires { CanUndoLast self.old }
        ensures { self.new ≡ last_undone self.old }
    {
        if let Some(was) = self.log.pop() {
            self.held.undo(was);
        }
    }

    pub(crate) fn weight(&self) -> u64
        ensures { result ≡ domain_weight (items_kept self.now.kept) }
    {
        self.held.weight()
    }

    // Sweeps what the edits left hidden.
    pub(crate) fn close(self) -> Domain
        ensures { result ≡ items_kept self.kept }
    {
        let Opened { mut held, log } = self;
        for was in &log {
            held.sweep(was);
        }
        Domain::of(held)
    }
}
