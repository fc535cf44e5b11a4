//! The core's step, as a server makes it.
ghost use Rattle.std.specs.Prelude.{◌≡◌, ℕ, true, List, IsTrue};
ghost use Rattle.sdb_arrivals.specs.Story.{NotAStore, Step, answer_of, event_of};
ghost use Rattle.sdb_core.specs.Causes.{CanCome, HasCause, is_of_connection};
ghost use Rattle.sdb_core.specs.Ledgers.{Opening};
ghost use Rattle.sdb_core.specs.Told.{StandsFor};
ghost use Rattle.sdb_disk.specs.Disk.{Elapses};
ghost use Rattle.sdb_serve.specs.Stepping.{Counts, Stepped};
ghost use Rattle.sdb_store.specs.Kept.{Ready};
ghost use Rattle.sdb_store.specs.Opened.{IsBadFile};

use sdb_arrivals::{CoreFault, Event};
use sdb_base::Steps;
use sdb_core::Core;
use sdb_disk::Disk;

// Counts the items that requests look at.
struct Looked;

// Steps the core.
pub(crate) fn step<D: Disk>(
    core: &mut Core,
    event: Event<'_>,
    disk: &mut D,
) -> Result<(), CoreFault>
    requires ready { Ready core.old.store (D.state disk.old) }
    requires can { CanCome (event_of event) core.old.table }
    ensures ready { Ready core.new.store (D.state disk.new) }
    ensures told { (D.state disk.new).told ≡ (D.state disk.old).told }
    ensures time { Elapses (D.state disk.old) (D.state disk.new) }
    ensures disk { is_of_connection (event_of event.entry) ≡ true → disk.new ≡ disk.old }
    ensures bad { (file : ℕ) → answer_of result ≡ NotAStore file → IsBadFile file (D.state disk.new) }
    ensures counts { Counts (event_of event.entry) core.old.table core.new.table }
    ensures cause { HasCause (event_of event.entry) (answer_of result) core.old core.new (D.state disk.old) (D.state disk.new) }
    ensures story { IsTrue (D.state disk.old).told → (o : Opening) (story : List Step) → StandsFor core.old (D.state disk.old) o story
        → Stepped (event_of event.entry) (answer_of result) core.old core.new (D.state disk.old) (D.state disk.new) o story }
{
    core.step(event, disk, &mut Steps::<Looked>::new())
}
