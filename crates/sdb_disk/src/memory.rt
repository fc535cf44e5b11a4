// A disk in memory, and what a crash leaves of it.
ghost use Rattle.std.specs.Prelude.{◌≡◌, ◌<◌, ◌≤◌, ◌≢◌, ◌⊎◌, ◌+◌, ◌-◌, ◌^◌, ℕ, List, reverse, min, length, take, drop, IsTrue, IsErr, IfOk, OnOk, OnErr, is_ok, if◌then◌else◌, ◌↔◌, [], None, IfSome, slice_index};
ghost use Rattle.std.specs.Io.{ReadsAtMost};
ghost use Rattle.sdb_base.specs.Causes.{HasCause};
ghost use Rattle.sdb_disk.specs.Disk.{State, Files, Image, Settled, SameFiles, Writes, Cuts, Syncs, Passes};
ghost use Rattle.sdb_disk.specs.Past.{contents, counted};

use crate::edits::{content, cut_file, read_content, sync_file, write_file};
use crate::fault::raise;
use crate::lost::lose_all;
use crate::{Disk, DiskFault};
use sdb_base::{Bytes, Numbers};
use std::alloc::Global;

const MAX_LEN: u64 = 1 << 62;

/// Four files in memory, which fail where they are told to. The disk keeps a record of its calls, because
/// what is known of it speaks of the past.
#[derive(Debug, Drop)]
pub struct MemoryDisk {
    alloc: Global,
    files: [Vec<u8>; 4],
    calls: Vec<Call>,
    fails: Numbers,
    stop: Option<u64>,
    number: u64,
    faults: u64,
    ghost small: { (k : ℕ) → length (contents files k) ≤ 2 ^ 62 },
}

// A call that was made, with the bytes that it replaced or cut off.
#[derive(Debug, Drop)]
pub(crate) enum Call {
    Write {
        file: u8,
        at: usize,
        count: usize,
        was: Vec<u8>,
    },
    Cut {
        file: u8,
        len: usize,
        was: Vec<u8>,
    },
    Sync {
        file: u8,
    },
}

impl MemoryDisk {
    ghost use Rattle.sdb_disk.specs.Memory.{Plan, memory_state, plan_of, refuses};
    ghost use Rattle.sdb_disk.specs.Crash.{IsUnsynced, bytes_at};

    /// Four empty files. The calls, numbered from 0, whose numbers are in `fails` fail and do nothing, and
    /// from number `stop` on every call fails.
    pub fn new(alloc: Global, fails: Numbers, stop: Option<u64>) -> MemoryDisk
        ensures empty { (k : ℕ) → (memory_state result).seen k ≡ [] }
        ensures settled { Settled (memory_state result) }
        ensures synced { (k j : ℕ) → IsUnsynced result k j → ⊥ }
        ensures faults { (memory_state result).faults ≡ 0 }
        ensures syncs { (memory_state result).syncs ≡ 0 }
        ensures plan { plan_of result ≡ record { fails = fails; stop = stop; number = 0 } }
    {
        let files = [
            Vec::new(alloc),
            Vec::new(alloc),
            Vec::new(alloc),
            Vec::new(alloc),
        ];
        settled_disk(alloc, files, fails, stop)
    }

    /// The given files, all of it on the disk. No call fails but for want of memory.
    pub fn with_files(alloc: Global, files: [Bytes; 4]) -> MemoryDisk
        requires { (k : ℕ) → length (bytes_at files k) ≤ 2 ^ 62 }
        ensures files { (k : ℕ) → (memory_state result).seen k ≡ bytes_at files k }
        ensures settled { Settled (memory_state result) }
        ensures synced { (k j : ℕ) → IsUnsynced result k j → ⊥ }
        ensures faults { (memory_state result).faults ≡ 0 }
        ensures syncs { (memory_state result).syncs ≡ 0 }
        ensures plan { plan_of result ≡ record { fails = []; stop = None; number = 0 } }
    {
        let [c0, c1, j0, j1] = files;
        let files = [c0.into_vec(), c1.into_vec(), j0.into_vec(), j1.into_vec()];
        settled_disk(alloc, files, Numbers::new(alloc), None)
    }

    /// The disk after a crash: each range that was written since its file's last sync holds the byte, or what
    /// was written where there is none. No call of it fails but for want of memory.
    pub fn crash(self, fill: Option<u8>) -> MemoryDisk
        ensures outcome { Image (memory_state self) (memory_state result).seen }
        ensures lengths { (k : ℕ) → length ((memory_state result).seen k) ≡ length ((memory_state self).seen k) }
        ensures kept { fill ≡ None → (k : ℕ) → (memory_state result).seen k ≡ (memory_state self).seen k }
        ensures filled { IfSome fill (λ byte. (k j : ℕ) → j < length ((memory_state self).seen k) → IsUnsynced self k j
            → slice_index ((memory_state result).seen k) j ≡ byte) }
        ensures outside { (k j : ℕ) → (IsUnsynced self k j → ⊥)
            → slice_index ((memory_state result).seen k) j ≡ slice_index ((memory_state self).seen k) j }

        ensures settled { Settled (memory_state result) }
        ensures synced { (k j : ℕ) → IsUnsynced result k j → ⊥ }
        ensures faults { (memory_state result).faults ≡ 0 }
        ensures syncs { (memory_state result).syncs ≡ 0 }
        ensures plan { plan_of result ≡ record { fails = []; stop = None; number = 0 } }
    {
        let MemoryDisk {
            alloc,
            files,
            calls,
            fails: _fails,
            stop: _stop,
            number: _number,
            faults: _faults,
        } = self;
        let files = lose_all(files, calls.as_slice(), fill);
        settled_disk(alloc, files, Numbers::new(alloc), None)
    }

    // The next call fails by plan.
    fn refuses(&self) -> bool
        ensures { result ≡ refuses (plan_of self.now) }
    {
        self.fails.as_slice().contains(&self.number)
            || self.stop.is_some_and(|stop| stop <= self.number)
    }
}

// A disk of these files, all of it synced.
fn settled_disk(alloc: Global, files: [Vec<u8>; 4], fails: Numbers, stop: Option<u64>) -> MemoryDisk
    requires { (k : ℕ) → length (contents files k) ≤ 2 ^ 62 }
    ensures files { result.files ≡ files }
    ensures calls { result.calls.items ≡ [] }
    ensures fails { result.fails ≡ fails }
    ensures stop { result.stop ≡ stop }
    ensures number { result.number ≡ 0 }
    ensures faults { result.faults ≡ 0 }
{
    MemoryDisk {
        alloc,
        files,
        calls: Vec::new(alloc),
        fails,
        stop,
        number: 0,
        faults: 0,
    }
}

impl Disk for MemoryDisk {
    ghost use Rattle.sdb_disk.specs.Memory.{memory_state, plan_of, refuses, next_call};
    ghost use Rattle.sdb_disk.specs.Crash.{IsUnsynced};
    ghost use Rattle.sdb_disk.specs.MemoryLaws.{may_stay, lengths, counts_now, only_now};

    ghost state = { memory_state };

    ghost may_stay = { λ d k told. may_stay (contents d.files) (reverse d.calls.items) k };

    ghost lengths = { λ d k c left. lengths (contents d.files) (reverse d.calls.items) k c left };

    ghost counts_now = { λ d t c le image. counts_now (contents d.files) (reverse d.calls.items) t c le image };

    ghost only_now = { λ d c left. only_now (contents d.files) (reverse d.calls.items) c left };

    fn len(&mut self, file: u8) -> Result<u64, DiskFault>
        requires { file < 4 }

        ensures length { IfOk result (λ n. IsTrue (memory_state self.old).told → n ≡ length ((memory_state self.old).seen file)) }
        ensures bound { IfOk result (λ n. n ≤ 2 ^ 62) }
        ensures same { SameFiles (memory_state self.old) (memory_state self.new) }
        ensures time { Passes (memory_state self.old) (memory_state self.new) }
        ensures cause { HasCause (memory_state self.old).faults (memory_state self.new).faults result }
        ensures syncs { (memory_state self.new).syncs ≡ (memory_state self.old).syncs }

        ensures refused { IsErr result ↔ IsTrue (refuses (plan_of self.old)) }
        ensures plan { plan_of self.new ≡ next_call (plan_of self.old) }
        ensures faults { (memory_state self.new).faults ≡ (if is_ok result then (memory_state self.old).faults else counted (memory_state self.old).faults) }
    {
        let refused = self.refuses();
        self.number = self.number.saturating_add(1);
        if refused {
            return Err(raise(&mut self.faults));
        }
        Ok(content(&self.files, file).len() as u64)
    }

    fn read(&mut self, file: u8, at: u64, buf: &mut [u8]) -> Result<usize, DiskFault>
        requires { file < 4 }

        ensures bound { ReadsAtMost result buf.new }
        ensures count { IfOk result (λ n. IsTrue (memory_state self.old).told
            → n ≡ min (length buf.old) (length ((memory_state self.old).seen file) - at)) }
        ensures bytes { IfOk result (λ n. IsTrue (memory_state self.old).told
            → take n buf.new ≡ take n (drop at ((memory_state self.old).seen file))) }
        ensures same { SameFiles (memory_state self.old) (memory_state self.new) }
        ensures time { Passes (memory_state self.old) (memory_state self.new) }
        ensures cause { HasCause (memory_state self.old).faults (memory_state self.new).faults result }
        ensures syncs { (memory_state self.new).syncs ≡ (memory_state self.old).syncs }

        ensures refused { IsErr result ↔ IsTrue (refuses (plan_of self.old)) }
        ensures plan { plan_of self.new ≡ next_call (plan_of self.old) }
        ensures faults { (memory_state self.new).faults ≡ (if is_ok result then (memory_state self.old).faults else counted (memory_state self.old).faults) }
    {
        let refused = self.refuses();
        self.number = self.number.saturating_add(1);
        if refused {
            return Err(raise(&mut self.faults));
        }
        Ok(read_content(content(&self.files, file), at, buf))
    }

    fn write(&mut self, file: u8, at: u64, bytes: &[u8]) -> Result<(), DiskFault>
        requires file { file < 4 }
        requires within { IsTrue (memory_state self.old).told → at ≤ length ((memory_state self.old).seen file) }

        ensures fits { OnOk result (at + length bytes.now ≤ 2 ^ 62) }
        ensures change { Writes file at bytes.now result (memory_state self.old) (memory_state self.new) }
        ensures time { Passes (memory_state self.old) (memory_state self.new) }
        ensures cause { HasCause (memory_state self.old).faults (memory_state self.new).faults result }
        ensures syncs { (memory_state self.new).syncs ≡ (memory_state self.old).syncs }

        ensures refused { IsTrue (refuses (plan_of self.old)) → IsErr result }
        ensures stays { OnErr result ((memory_state self.new).seen ≡ (memory_state self.old).seen) }
        ensures same_marks { OnErr result ((k j : ℕ) → IsUnsynced self.new k j ↔ IsUnsynced self.old k j) }
        ensures marks { OnOk result ((k j : ℕ) → IsUnsynced self.new k j
            ↔ (((k ≡ file) × (at ≤ j) × (j < at + length bytes.now)) ⊎ IsUnsynced self.old k j)) }
        ensures plan { plan_of self.new ≡ next_call (plan_of self.old) }
        ensures faults { (memory_state self.new).faults ≡ (if is_ok result then (memory_state self.old).faults else counted (memory_state self.old).faults) }
    {
        let refused = self.refuses();
        self.number = self.number.saturating_add(1);
        if refused || bytes.len() as u64 > MAX_LEN.saturating_sub(at) {
            return Err(raise(&mut self.faults));
        }
        match write_file(
            self.alloc,
            &mut self.files,
            &mut self.calls,
            file,
            at as usize,
            bytes,
        ) {
            Ok(()) => Ok(()),
            Err(_) => Err(raise(&mut self.faults)),
        }
    }

    fn cut(&mut self, file: u8, len: u64) -> Result<(), DiskFault>
        requires file { file < 4 }
        requires within { IsTrue (memory_state self.old).told → len ≤ length ((memory_state self.old).seen file) }

        ensures change { Cuts file len result (memory_state self.old) (memory_state self.new) }
        ensures time { Passes (memory_state self.old) (memory_state self.new) }
        ensures cause { HasCause (memory_state self.old).faults (memory_state self.new).faults result }
        ensures syncs { (memory_state self.new).syncs ≡ (memory_state self.old).syncs }

        ensures refused { IsTrue (refuses (plan_of self.old)) → IsErr result }
        ensures stays { OnErr result ((memory_state self.new).seen ≡ (memory_state self.old).seen) }
        ensures same_marks { OnErr result ((k j : ℕ) → IsUnsynced self.new k j ↔ IsUnsynced self.old k j) }
        ensures marks { OnOk result ((k j : ℕ) → IsUnsynced self.new k j ↔ IsUnsynced self.old k j) }
        ensures plan { plan_of self.new ≡ next_call (plan_of self.old) }
        ensures faults { (memory_state self.new).faults ≡ (if is_ok result then (memory_state self.old).faults else counted (memory_state self.old).faults) }
    {
        let refused = self.refuses();
        self.number = self.number.saturating_add(1);
        if refused {
            return Err(raise(&mut self.faults));
        }
        match cut_file(
            self.alloc,
            &mut self.files,
            &mut self.calls,
            file,
            len as usize,
        ) {
            Ok(()) => Ok(()),
            Err(_) => Err(raise(&mut self.faults)),
        }
    }

    fn sync(&mut self, file: u8) -> Result<(), DiskFault>
        requires { file < 4 }

        ensures change { Syncs file result (memory_state self.old) (memory_state self.new) }
        ensures time { Passes (memory_state self.old) (memory_state self.new) }
        ensures cause { HasCause (memory_state self.old).faults (memory_state self.new).faults result }
        ensures no_fewer { (memory_state self.old).syncs ≤ (memory_state self.new).syncs }
        ensures one_more { (memory_state self.new).syncs ≤ (memory_state self.old).syncs + 1 }

        ensures refused { IsTrue (refuses (plan_of self.old)) → IsErr result }
        ensures stays { OnErr result ((memory_state self.new).seen ≡ (memory_state self.old).seen) }
        ensures same_marks { OnErr result ((k j : ℕ) → IsUnsynced self.new k j ↔ IsUnsynced self.old k j) }
        ensures marks { OnOk result ((k j : ℕ) → IsUnsynced self.new k j ↔ ((k ≢ file) × IsUnsynced self.old k j)) }
        ensures plan { plan_of self.new ≡ next_call (plan_of self.old) }
        ensures faults { (memory_state self.new).faults ≡ (if is_ok result then (memory_state self.old).faults else counted (memory_state self.old).faults) }
    {
        let refused = self.refuses();
        self.number = self.number.saturating_add(1);
        if refused {
            return Err(raise(&mut self.faults));
        }
        match sync_file(&mut self.calls, file) {
            Ok(()) => Ok(()),
            Err(_) => Err(raise(&mut self.faults)),
        }
    }
}
