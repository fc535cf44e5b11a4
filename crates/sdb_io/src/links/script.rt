// Events of connections as a list.
ghost use Rattle.std.specs.Prelude.{◌≡◌, ◌<◌, ◌++◌, ◌∷◌, [], length, slice_get, OnOk, OnErr, Some};

use sdb_base::{Bytes, OutOfMemory};
use std::alloc::Global;
use std::marker::Model;

/// A step of what comes on connections, with the bytes of a Piece.
#[derive(Debug, Drop)]
pub enum LinkStep {
    /// A connection is opened.
    Opened(u32),
    /// These bytes come on a connection.
    Piece(u32, Bytes),
    /// A connection ends.
    Ended(u32),
    /// Nothing comes at this step.
    Closed,
}

/// Steps in order.
#[derive(Debug, Drop)]
pub struct LinkScript {
    pub(crate) steps: Vec<LinkStep>,
}

impl Model for LinkScript {
    ghost use Rattle.std.specs.Prelude.{List, map};
    ghost use Rattle.sdb_io.specs.Links.{Step};
    ghost use Rattle.sdb_io.specs.Playback.{step_of};

    ghost Value = { List Step };

    ghost view = { λ s. map step_of s.steps.items };
}

impl LinkScript {
    ghost use Rattle.sdb_io.specs.Playback.{step_of};

    /// No steps. It takes no memory, and later calls use this allocator.
    pub fn new(alloc: Global) -> LinkScript
        ensures { result ≡ [] }
    {
        LinkScript {
            steps: Vec::new(alloc),
        }
    }

    pub fn len(&self) -> usize
        ensures { result ≡ length self.now }
    {
        self.steps.len()
    }

    /// The step at `place`, counted from 0.
    pub fn at(&self, place: usize) -> &LinkStep
        requires { place < length self.now }
        ensures { slice_get self.now place ≡ Some (step_of result.now) }
    {
        &self.steps[place]
    }

    /// Puts a step at the end.
    pub fn push(&mut self, step: LinkStep) -> Result<(), OutOfMemory>
        ensures ok { OnOk result (self.new ≡ self.old ++ step_of step ∷ []) }
        ensures err { OnErr result (self.new ≡ self.old) }
    {
        self.steps.push(step)?;
        Ok(())
    }
}
