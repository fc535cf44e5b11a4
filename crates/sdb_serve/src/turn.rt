//! One turn of a server: the next event of the connections, and all that is due after it.
ghost use Rattle.std.specs.Prelude.{◌≡◌, ◌+◌, ◌<◌, ◌≤◌, ◌^◌, ℕ, Bool, List, true, length, IsTrue, IfSome, OnOk, OnErr, IfErr, None, Err, Option, option_map, take};
ghost use Rattle.sdb_arrivals.specs.Story as story;
ghost use Rattle.sdb_arrivals.specs.Story.{Step, answer_of};
ghost use Rattle.sdb_base.specs.Causes.{Rose};
ghost use Rattle.sdb_core.specs.Ledgers.{Opening, in_hand, ledger};
ghost use Rattle.sdb_core.specs.Told.{StandsFor};
ghost use Rattle.sdb_disk.specs.Disk.{Elapses};
ghost use Rattle.sdb_io.specs.Clock.{moment_of, moments_after};
ghost use Rattle.sdb_io.specs.Links.{State};
ghost use Rattle.sdb_io.specs.declared.links.LinkEvent.TheVariants as given;
ghost use Rattle.sdb_serve.specs.Acts.{Act, IsOfCore, IsOfServer, after_done, after_event, after_taken, after_work, committing, phase, resting, story_of, to_commit};
ghost use Rattle.sdb_serve.specs.Serving.{Begun, Committed, CommitIsDue, Gave, InTurn, IsQuiet, LeadsTo, MayEnd, goes_on, Refuses, Serving, Steady, SteadyLinks, Turned, Went};
ghost use Rattle.sdb_store.specs.Kept.{Ready};
ghost use Rattle.sdb_status.specs.declared.status.Status.{Status};
ghost use Rattle.sdb_store.specs.Opened.{IsBadFile};

use crate::send::send_all;
use crate::stepping::step;
use sdb_arrivals::{CoreFault, Event, few_arrivals};
use sdb_core::Core;
use sdb_disk::Disk;
use sdb_io::{Clock, LinkEvent, Links};
use sdb_status::Status;

/// One turn: the next event of the connections, and all that is due after it. It says whether more may come.
pub(crate) fn turn<L: Links, D: Disk, C: Clock>(
    core: &mut Core,
    links: &mut L,
    disk: &mut D,
    clock: &mut C,
    buffer: &mut [u8],
) -> Result<bool, Status>
    requires ready { Ready core.old.store (D.state disk.old) }
    requires opened { core.old.table.last_opened ≤ (L.state links.old).last }
    requires bytes { core.old.table.bytes_taken + 65536 < 2 ^ 48 }
    requires room { length buffer.old ≡ 65536 }
    ensures ready { Ready core.new.store (D.state disk.new) }
    ensures opened { core.new.table.last_opened ≤ (L.state links.new).last }
    ensures taken { core.new.table.bytes_taken ≤ core.old.table.bytes_taken + 65536 }
    ensures told { (D.state disk.new).told ≡ (D.state disk.old).told }
    ensures time { Elapses (D.state disk.old) (D.state disk.new) }
    ensures later { (L.state links.old).faults ≤ (L.state links.new).faults }
    ensures bad { (file : ℕ) → result ≡ Err (Status.NotAStore file) → IsBadFile file (D.state disk.new) }
    ensures of_server { IfErr result IsOfServer }
    ensures fault { result ≡ Err Status.LinkFault → Rose (L.state links.old).faults (L.state links.new).faults }
    ensures story { IsTrue (D.state disk.old).told → (o : Opening) (start : State) (first : Begun) (acts : List Act)
        → Serving o start first acts core.old (D.state disk.old) (L.state links.old) (C.to_come clock.old) → phase acts ≡ resting → IsQuiet o acts
        → Turned o start first acts result core.new (D.state disk.new) (L.state links.new) (C.to_come clock.new) }
{
    let Ok(event) = links.next(buffer) else {
        return Err(Status::LinkFault);
    };
    match event {
        LinkEvent::Opened(conn) => goes_on(open(core, links, disk, conn)),
        LinkEvent::Piece(conn, count) => {
            let moment = clock.now();
            goes_on(piece(core, links, disk, conn, moment, &buffer[..count]))
        }
        LinkEvent::Ended(conn) => goes_on(end(core, disk, conn)),
        LinkEvent::Closed => Ok(false),
    }
}

// More may come after an event, where it didn't end the server.
fn goes_on(went: Result<(), Status>) -> Result<bool, Status>
    ensures is { result ≡ goes_on went }
    ensures err { (status : Status) → result ≡ Err status → went ≡ Err status }
    ensures of_server { IfErr went IsOfCore → IfErr result IsOfServer }
{
    match went {
        Ok(()) => Ok(true),
        Err(status) => Err(status),
    }
}

// A connection was opened. It is closed at once where 64 are live.
pub(crate) fn open<L: Links, D: Disk>(
    core: &mut Core,
    links: &mut L,
    disk: &mut D,
    conn: u32,
) -> Result<(), Status>
    requires ready { Ready core.old.store (D.state disk.old) }
    requires opens { core.old.table.last_opened < conn }
    ensures ready { Ready core.new.store (D.state disk.new) }
    ensures last { core.new.table.last_opened ≤ conn }
    ensures taken { core.new.table.bytes_taken ≤ core.old.table.bytes_taken }
    ensures told { (D.state disk.new).told ≡ (D.state disk.old).told }
    ensures time { Elapses (D.state disk.old) (D.state disk.new) }
    ensures links { SteadyLinks (L.state links.old) (L.state links.new) }
    ensures links_alone { result ≡ Err Status.LinkFault → ⊥ }
    ensures bad { (file : ℕ) → result ≡ Err (Status.NotAStore file) → IsBadFile file (D.state disk.new) }
    ensures of_core { IfErr result IsOfCore }
    ensures story { IsTrue (D.state disk.old).told → (o : Opening) (start before : State) (first : Begun) (moments : Option (List ℕ)) (acts : List Act) (buf : List ℕ)
        → Serving o start first acts core.old (D.state disk.old) before moments → phase acts ≡ resting → IsQuiet o acts
        → Gave (given.Opened conn) buf before (L.state links.old)
        → Went resting 1 o start first acts result core.new (D.state disk.new) (L.state links.new) moments }
{
    let answer = step(core, Event::Opened(conn), disk);
    refuse_full(links, conn, &answer);
    unless_over(answer)
}

// Closes a connection that was opened where 64 are live.
fn refuse_full<L: Links>(links: &mut L, conn: u32, answer: &Result<(), CoreFault>)
    ensures links { SteadyLinks (L.state links.old) (L.state links.new) }
    ensures refuses { IsTrue (L.state links.old).told → Refuses (answer_of answer.now) conn (L.state links.old) (L.state links.new) }
{
    if let Err(CoreFault::Full) = answer {
        links.close(conn);
    }
}

// A connection ended.
pub(crate) fn end<D: Disk>(core: &mut Core, disk: &mut D, conn: u32) -> Result<(), Status>
    requires ready { Ready core.old.store (D.state disk.old) }
    ensures steady { Steady 0 core.old core.new (D.state disk.new) }
    ensures told { (D.state disk.new).told ≡ (D.state disk.old).told }
    ensures time { Elapses (D.state disk.old) (D.state disk.new) }
    ensures links_alone { result ≡ Err Status.LinkFault → ⊥ }
    ensures bad { (file : ℕ) → result ≡ Err (Status.NotAStore file) → IsBadFile file (D.state disk.new) }
    ensures of_core { IfErr result IsOfCore }
    ensures story { IsTrue (D.state disk.old).told → (o : Opening) (start before now : State) (first : Begun) (moments : Option (List ℕ)) (acts : List Act) (buf : List ℕ)
        → Serving o start first acts core.old (D.state disk.old) before moments → phase acts ≡ resting → IsQuiet o acts
        → Gave (given.Ended conn) buf before now
        → Went resting 1 o start first acts result core.new (D.state disk.new) now moments }
{
    let answer = step(core, Event::Ended(conn), disk);
    unless_over(answer)
}

// A piece came on a connection: it is executed, committed and answered, and a turn of background work is made.
pub(crate) fn piece<L: Links, D: Disk>(
    core: &mut Core,
    links: &mut L,
    disk: &mut D,
    conn: u32,
    moment: u64,
    bytes: &[u8],
) -> Result<(), Status>
    requires ready { Ready core.old.store (D.state disk.old) }
    requires bytes { core.old.table.bytes_taken + length bytes.now < 2 ^ 48 }
    ensures steady { Steady (length bytes.now) core.old core.new (D.state disk.new) }
    ensures told { (D.state disk.new).told ≡ (D.state disk.old).told }
    ensures time { Elapses (D.state disk.old) (D.state disk.new) }
    ensures links { SteadyLinks (L.state links.old) (L.state links.new) }
    ensures links_alone { result ≡ Err Status.LinkFault → ⊥ }
    ensures bad { (file : ℕ) → result ≡ Err (Status.NotAStore file) → IsBadFile file (D.state disk.new) }
    ensures of_core { IfErr result IsOfCore }
    ensures story { IsTrue (D.state disk.old).told → (o : Opening) (start before : State) (first : Begun) (read moments : Option (List ℕ)) (acts : List Act) (buf : List ℕ)
        → Serving o start first acts core.old (D.state disk.old) before read → phase acts ≡ resting → IsQuiet o acts
        → Gave (given.Piece conn (length bytes.now)) buf before (L.state links.old) → length buf ≡ 65536 → take (length bytes.now) buf ≡ bytes.now
        → IfSome read (λ known. moment ≡ moment_of known) → moments ≡ option_map moments_after read
        → Went resting 1 o start first acts result core.new (D.state disk.new) (L.state links.new) moments }
{
    // So what came can be committed before the Commits are counted out.
    few_arrivals();
    let answer = step(core, Event::Piece(conn, moment, bytes), disk);
    match unless_over(answer) {
        Ok(()) => finish(core, links, disk),
        Err(status) => Err(status),
    }
}

// All that is due after a piece: Commits, and a turn of background work.
fn finish<L: Links, D: Disk>(core: &mut Core, links: &mut L, disk: &mut D) -> Result<(), Status>
    requires ready { Ready core.old.store (D.state disk.old) }
    ensures steady { Steady 0 core.old core.new (D.state disk.new) }
    ensures told { (D.state disk.new).told ≡ (D.state disk.old).told }
    ensures time { Elapses (D.state disk.old) (D.state disk.new) }
    ensures links { SteadyLinks (L.state links.old) (L.state links.new) }
    ensures links_alone { result ≡ Err Status.LinkFault → ⊥ }
    ensures bad { (file : ℕ) → result ≡ Err (Status.NotAStore file) → IsBadFile file (D.state disk.new) }
    ensures of_core { IfErr result IsOfCore }
    ensures story { IsTrue (D.state disk.old).told → (o : Opening) (start : State) (first : Begun) (moments : Option (List ℕ)) (acts : List Act) (c : ℕ)
        → Serving o start first acts core.old (D.state disk.old) (L.state links.old) moments → InTurn c None o acts → phase acts ≡ to_commit → length (in_hand (ledger o (story_of acts))) < 2 ^ 48
        → Went resting 0 o start first acts result core.new (D.state disk.new) (L.state links.new) moments }
{
    match commit_all(core, links, disk) {
        Ok(()) => work(core, disk),
        Err(status) => Err(status),
    }
}

// A turn of background work.
fn work<D: Disk>(core: &mut Core, disk: &mut D) -> Result<(), Status>
    requires ready { Ready core.old.store (D.state disk.old) }
    ensures steady { Steady 0 core.old core.new (D.state disk.new) }
    ensures told { (D.state disk.new).told ≡ (D.state disk.old).told }
    ensures time { Elapses (D.state disk.old) (D.state disk.new) }
    ensures links_alone { result ≡ Err Status.LinkFault → ⊥ }
    ensures bad { (file : ℕ) → result ≡ Err (Status.NotAStore file) → IsBadFile file (D.state disk.new) }
    ensures of_core { IfErr result IsOfCore }
    ensures story { IsTrue (D.state disk.old).told → (o : Opening) (start now : State) (first : Begun) (moments : Option (List ℕ)) (acts : List Act)
        → Serving o start first acts core.old (D.state disk.old) now moments → phase acts ≡ committing → IsQuiet o acts
        → Went resting 0 o start first acts result core.new (D.state disk.new) now moments }
{
    let answer = step(core, Event::Work, disk);
    unless_no_store(answer)
}

// Commits, until nothing is held and nothing waits.
fn commit_all<L: Links, D: Disk>(core: &mut Core, links: &mut L, disk: &mut D) -> Result<(), Status>
    requires ready { Ready core.old.store (D.state disk.old) }
    ensures steady { Steady 0 core.old core.new (D.state disk.new) }
    ensures told { (D.state disk.new).told ≡ (D.state disk.old).told }
    ensures time { Elapses (D.state disk.old) (D.state disk.new) }
    ensures links { SteadyLinks (L.state links.old) (L.state links.new) }
    ensures links_alone { result ≡ Err Status.LinkFault → ⊥ }
    ensures bad { (file : ℕ) → result ≡ Err (Status.NotAStore file) → IsBadFile file (D.state disk.new) }
    ensures of_core { IfErr result IsOfCore }
    ensures story { IsTrue (D.state disk.old).told → (o : Opening) (start : State) (first : Begun) (moments : Option (List ℕ)) (acts : List Act) (c : ℕ)
        → Serving o start first acts core.old (D.state disk.old) (L.state links.old) moments → InTurn c None o acts → phase acts ≡ to_commit → length (in_hand (ledger o (story_of acts))) < 2 ^ 48
        → Went committing 0 o start first acts result core.new (D.state disk.new) (L.state links.new) moments }
{
    let mut lost = match commit(core, links, disk, None) {
        Ok(lost) => lost,
        Err(status) => return Err(status),
    };
    // Each Commit leaves less to do, so nothing waits long before so many are made.
    for _made in 0..u64::MAX {
        if !core.is_waiting() {
            return Ok(());
        }
        lost = match commit(core, links, disk, lost) {
            Ok(lost) => lost,
            Err(status) => return Err(status),
        };
    }
    Ok(())
}

// Commits, and sends what is released, but to a connection that is lost. It gives the one that is lost then.
fn commit<L: Links, D: Disk>(
    core: &mut Core,
    links: &mut L,
    disk: &mut D,
    lost: Option<u32>,
) -> Result<Option<u32>, Status>
    requires ready { Ready core.old.store (D.state disk.old) }
    ensures steady { Steady 0 core.old core.new (D.state disk.new) }
    ensures told { (D.state disk.new).told ≡ (D.state disk.old).told }
    ensures time { Elapses (D.state disk.old) (D.state disk.new) }
    ensures links { SteadyLinks (L.state links.old) (L.state links.new) }
    ensures links_alone { result ≡ Err Status.LinkFault → ⊥ }
    ensures bad { (file : ℕ) → result ≡ Err (Status.NotAStore file) → IsBadFile file (D.state disk.new) }
    ensures of_core { IfErr result IsOfCore }
    ensures story { IsTrue (D.state disk.old).told → (o : Opening) (start : State) (first : Begun) (moments : Option (List ℕ)) (acts : List Act) (c : ℕ)
        → Serving o start first acts core.old (D.state disk.old) (L.state links.old) moments → InTurn c lost o acts → CommitIsDue o acts
        → Committed o start first acts c result core.new (D.state disk.new) (L.state links.new) moments }
{
    let answer = step(core, Event::Commit, disk);
    let now = send_all(core, links, lost);
    end_lost(core, disk, lost, now);
    match unless_no_store(answer) {
        Ok(()) => Ok(now),
        Err(status) => Err(status),
    }
}

// Ends the connection that is lost now, where it wasn't before.
fn end_lost<D: Disk>(core: &mut Core, disk: &mut D, before: Option<u32>, now: Option<u32>)
    requires ready { Ready core.old.store (D.state disk.old) }
    ensures steady { Steady 0 core.old core.new (D.state disk.new) }
    ensures told { (D.state disk.new).told ≡ (D.state disk.old).told }
    ensures faults { (D.state disk.old).faults ≤ (D.state disk.new).faults }
    ensures disk { disk.new ≡ disk.old }
    ensures story { IsTrue (D.state disk.old).told → (o : Opening) (story : List Step) → StandsFor core.old (D.state disk.old) o story
        → MayEnd before now core.old core.new (D.state disk.new) o story }
{
    if now == before {
        return;
    }
    if let Some(conn) = now {
        // An end is always done.
        let _ = step(core, Event::Ended(conn), disk);
    }
}

// Whether a server goes on after an event that came.
fn unless_over(answer: Result<(), CoreFault>) -> Result<(), Status>
    ensures links_alone { result ≡ Err Status.LinkFault → ⊥ }
    ensures file { (file : ℕ) → result ≡ Err (Status.NotAStore file) → answer_of answer ≡ story.NotAStore file }
    ensures of_core { IfErr result IsOfCore }
    ensures leads { (event : story.Event) → LeadsTo (after_event event) result (after_taken (answer_of answer) event) }
{
    match answer {
        Ok(()) => Ok(()),
        Err(CoreFault::Full) => Ok(()),
        Err(CoreFault::Disk) => Ok(()),
        Err(CoreFault::NotAStore(file)) => Err(Status::NotAStore(file)),
        Err(CoreFault::OutOfMemory) => Err(Status::OutOfMemory),
    }
}

// Whether it goes on after a Commit or a Work.
fn unless_no_store(answer: Result<(), CoreFault>) -> Result<(), Status>
    ensures links_alone { result ≡ Err Status.LinkFault → ⊥ }
    ensures file { (file : ℕ) → result ≡ Err (Status.NotAStore file) → answer_of answer ≡ story.NotAStore file }
    ensures of_core { IfErr result IsOfCore }
    ensures leads { (event : story.Event) → LeadsTo (after_work event) result (after_done (answer_of answer) event) }
{
    match answer {
        Ok(()) => Ok(()),
        Err(CoreFault::Full) => Ok(()),
        Err(CoreFault::Disk) => Ok(()),
        Err(CoreFault::NotAStore(file)) => Err(Status::NotAStore(file)),
        Err(CoreFault::OutOfMemory) => Ok(()),
    }
}
