//! Answers on their way to connections.
ghost use Rattle.std.specs.Prelude.{◌≡◌, ◌≤◌, ℕ, Bool, [], ◌∷◌, true, false, IsTrue, OnOk, OnErr};
ghost use Rattle.sdb_arrivals.specs.Queues.{sent_of};
ghost use Rattle.sdb_base.specs.Causes.{HasCause};
ghost use Rattle.sdb_serve.specs.Sending.{AllTo, SendsAll, SendsOne, lost_on};
ghost use Rattle.sdb_serve.specs.Stepping.{emptied};

use sdb_base::Out;
use sdb_core::Core;
use sdb_io::{Failed, Links};

// Sends the released answers in order. None is sent to a connection on which a send failed: the one that is
// given so far, or the one that this gives.
pub(crate) fn send_all<L: Links>(core: &mut Core, links: &mut L, lost: Option<u32>) -> Option<u32>
    ensures core { core.new ≡ emptied core.old }
    ensures told { (L.state links.new).told ≡ (L.state links.old).told }
    ensures last { (L.state links.new).last ≡ (L.state links.old).last }
    ensures later { (L.state links.old).faults ≤ (L.state links.new).faults }
    ensures none { core.old.line.out ≡ [] → (result ≡ lost) × (L.state links.new ≡ L.state links.old) }
    ensures sends { (k : ℕ) (gone : Bool) → AllTo k core.old.line.out → lost ≡ lost_on k gone
        → SendsAll k core.old.line.out gone result (L.state links.old) (L.state links.new) }
{
    let mut lost = lost;
    while let Some(out) = core.take_out() {
        lost = send_unless_lost(links, &out, lost);
    }
    lost
}

// Sends an answer, but none to the connection that is lost. One on which the send fails is lost then.
fn send_unless_lost<L: Links>(links: &mut L, out: &Out, lost: Option<u32>) -> Option<u32>
    ensures told { (L.state links.new).told ≡ (L.state links.old).told }
    ensures last { (L.state links.new).last ≡ (L.state links.old).last }
    ensures later { (L.state links.old).faults ≤ (L.state links.new).faults }
    ensures sends { (gone : Bool) → lost ≡ lost_on out.now.conn gone
        → SendsAll out.now.conn (sent_of out.now ∷ []) gone result (L.state links.old) (L.state links.new) }
{
    if lost == Some(out.conn) {
        return lost;
    }
    match send(links, out) {
        Ok(()) => lost,
        Err(Failed) => Some(out.conn),
    }
}

// Sends an answer, and closes its connection where the answer says so or the send failed.
fn send<L: Links>(links: &mut L, out: &Out) -> Result<(), Failed>
    ensures told { (L.state links.new).told ≡ (L.state links.old).told }
    ensures last { (L.state links.new).last ≡ (L.state links.old).last }
    ensures cause { HasCause (L.state links.old).faults (L.state links.new).faults result }
    ensures ok { OnOk result (IsTrue (L.state links.old).told → SendsOne (sent_of out.now) false (L.state links.old) (L.state links.new)) }
    ensures err { OnErr result (IsTrue (L.state links.old).told → SendsOne (sent_of out.now) true (L.state links.old) (L.state links.new)) }
{
    match links.send(out.conn, out.bytes.as_slice()) {
        Ok(()) => {
            if out.close {
                links.close(out.conn);
            }
            Ok(())
        }
        Err(Failed) => {
            links.close(out.conn);
            Err(Failed)
        }
    }
}
