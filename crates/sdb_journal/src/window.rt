// Bytes of a file from a place on. They are read in pieces, and each byte is read once.
ghost use Rattle.std.specs.Prelude.{◌≡◌, ◌<◌, ◌≤◌, ◌+◌, ◌-◌, ◌^◌, ◌++◌, [], true, false, length, take, drop, IsTrue, IfOk, OnOk, vec_len};
ghost use Rattle.sdb_journal.specs.Looks.{Looks, OnRefusal, HasOpenCause};

use sdb_disk::{Disk, OpenFault};
use std::alloc::Global;

// How many bytes are read at a time, where so many are left.
const PIECE: u64 = 65536;

// The bytes of a file ahead of a place in it, as far as they were read, and how many are left behind them.
#[derive(Debug, Drop)]
pub(crate) struct Window {
    bytes: Vec<u8>,
    start: usize,
    place: u64,
    left: u64,
    ghost within: { start ≤ vec_len bytes },
    ghost bounded: { place + (vec_len bytes - start) + left ≤ 2 ^ 62 },
}

impl Window {
    ghost use Rattle.sdb_journal.specs.Windows.{ahead, Shows};

    // At a place of which so many bytes are left. Nothing is read yet.
    pub(crate) fn new(alloc: Global, place: u64, left: u64) -> Window
        requires { place + left ≤ 2 ^ 62 }
        ensures ahead { ahead result ≡ [] }
        ensures place { result.place ≡ place }
        ensures left { result.left ≡ left }
    {
        Window {
            bytes: Vec::new(alloc),
            start: 0,
            place,
            left,
        }
    }

    // The place in the file.
    pub(crate) fn place(&self) -> u64
        ensures place { result ≡ self.now.place }
        ensures bound { result ≤ 2 ^ 62 }
    {
        self.place
    }

    pub(crate) fn as_slice(&self) -> &[u8]
        ensures { result.now ≡ ahead self.now }
    {
        let end = self.bytes.len();
        &self.bytes[self.start..end]
    }

    // Goes so many bytes further.
    pub(crate) fn pass(&mut self, count: usize)
        requires { count ≤ length (ahead self.old) }
        ensures ahead { ahead self.new ≡ drop count (ahead self.old) }
        ensures place { self.new.place ≡ self.old.place + count }
        ensures left { self.new.left ≡ self.old.left }
    {
        self.start += count;
        self.place += count as u64;
    }

    // Whether so many bytes stand ahead in the file. Those that are needed for it are read.
    pub(crate) fn reaches<D: Disk>(
        &mut self,
        file: u8,
        need: usize,
        disk: &mut D,
    ) -> Result<bool, OpenFault>
        requires file { file < 4 }
        requires need { need ≤ 2 ^ 62 }
        requires shows { IsTrue (D.state disk.old).told → Shows (ahead self.old) self.old.place self.old.left ((D.state disk.old).seen file) }

        ensures shows { IfOk result (λ there. IsTrue (D.state disk.old).told → Shows (ahead self.new) self.new.place self.new.left ((D.state disk.old).seen file)) }
        ensures place { IfOk result (λ there. self.new.place ≡ self.old.place) }
        ensures there { IfOk result (λ there. there ≡ true → need ≤ length (ahead self.new)) }
        ensures short { IfOk result (λ there. there ≡ false → IsTrue (D.state disk.old).told → length (drop self.old.place ((D.state disk.old).seen file)) < need) }
        ensures no_more { IfOk result (λ there. length (ahead self.new) + self.new.left ≤ length (ahead self.old) + self.old.left) }
        ensures refused { OnRefusal result (λ k. ⊥) }
        ensures cause { HasOpenCause (D.state disk.old).faults (D.state disk.new).faults result }
        ensures looks { Looks (D.state disk.old) (D.state disk.new) }
    {
        let held = self.bytes.len() - self.start;
        if need <= held {
            return Ok(true);
        }
        let lacking = (need - held) as u64;
        if lacking > self.left {
            return Ok(false);
        }
        let more = lacking.max(PIECE).min(self.left);
        match self.read(file, more, disk) {
            Ok(()) => Ok(need <= self.bytes.len() - self.start),
            Err(fault) => Err(fault),
        }
    }

    // Reads so many bytes more, of those that are left.
    fn read<D: Disk>(&mut self, file: u8, more: u64, disk: &mut D) -> Result<(), OpenFault>
        requires file { file < 4 }
        requires more { more ≤ self.old.left }
        requires shows { IsTrue (D.state disk.old).told → Shows (ahead self.old) self.old.place self.old.left ((D.state disk.old).seen file) }

        ensures shows { OnOk result (IsTrue (D.state disk.old).told → Shows (ahead self.new) self.new.place self.new.left ((D.state disk.old).seen file)) }
        ensures all { OnOk result (IsTrue (D.state disk.old).told → length (ahead self.new) ≡ length (ahead self.old) + more) }
        ensures place { self.new.place ≡ self.old.place }
        ensures no_more { length (ahead self.new) + self.new.left ≤ length (ahead self.old) + self.old.left }
        ensures refused { OnRefusal result (λ k. ⊥) }
        ensures cause { HasOpenCause (D.state disk.old).faults (D.state disk.new).faults result }
        ensures looks { Looks (D.state disk.old) (D.state disk.new) }
    {
        let at = self.place + (self.bytes.len() - self.start) as u64;
        remove_front(&mut self.bytes, self.start);
        self.start = 0;
        self.left -= more;
        match read_behind(&mut self.bytes, more as usize, file, at, disk) {
            Ok(()) => Ok(()),
            Err(fault) => Err(fault),
        }
    }
}

fn remove_front(bytes: &mut Vec<u8>, count: usize)
    requires { count ≤ vec_len bytes.old }
    ensures items { bytes.new.items ≡ drop count bytes.old.items }
    ensures len { vec_len bytes.new ≡ vec_len bytes.old - count }
{
    let len = bytes.len();
    bytes.copy_within(count..len, 0);
    bytes.truncate(len - count);
}

// Puts so many bytes of the file behind those that are there.
fn read_behind<D: Disk>(
    bytes: &mut Vec<u8>,
    more: usize,
    file: u8,
    at: u64,
    disk: &mut D,
) -> Result<(), OpenFault>
    requires file { file < 4 }
    requires most { vec_len bytes.old + more ≤ 2 ^ 62 }

    ensures read { OnOk result (IsTrue (D.state disk.old).told → more ≤ length ((D.state disk.old).seen file) - at
        → bytes.new.items ≡ bytes.old.items ++ take more (drop at ((D.state disk.old).seen file))) }
    ensures size { vec_len bytes.new ≤ vec_len bytes.old + more }
    ensures refused { OnRefusal result (λ k. ⊥) }
    ensures cause { HasOpenCause (D.state disk.old).faults (D.state disk.new).faults result }
    ensures looks { Looks (D.state disk.old) (D.state disk.new) }
{
    let kept = bytes.len();
    if bytes.resize(kept + more, 0).is_err() {
        return Err(OpenFault::OutOfMemory);
    }
    match read_from(bytes.as_mut_slice(), kept, file, at, disk) {
        Ok(count) => {
            bytes.truncate(kept + count);
            Ok(())
        }
        Err(fault) => Err(fault),
    }
}

// Fills the buffer behind the bytes that are kept.
fn read_from<D: Disk>(
    buf: &mut [u8],
    kept: usize,
    file: u8,
    at: u64,
    disk: &mut D,
) -> Result<usize, OpenFault>
    requires file { file < 4 }
    requires kept { kept ≤ length buf.old }

    ensures count { IfOk result (λ n. kept + n ≤ length buf.old) }
    ensures all { IfOk result (λ n. IsTrue (D.state disk.old).told → length buf.old - kept ≤ length ((D.state disk.old).seen file) - at → kept + n ≡ length buf.old) }
    ensures read { IfOk result (λ n. IsTrue (D.state disk.old).told → take (kept + n) buf.new ≡ take kept buf.old ++ take n (drop at ((D.state disk.old).seen file))) }
    ensures refused { OnRefusal result (λ k. ⊥) }
    ensures cause { HasOpenCause (D.state disk.old).faults (D.state disk.new).faults result }
    ensures looks { Looks (D.state disk.old) (D.state disk.new) }
{
    match disk.read(file, at, &mut buf[kept..]) {
        Ok(count) => Ok(count),
        Err(_) => Err(OpenFault::Disk),
    }
}
