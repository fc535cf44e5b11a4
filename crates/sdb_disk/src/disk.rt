// The disk as everything above it sees it.
ghost use Rattle.std.specs.Prelude.{◌≡◌, ◌<◌, ◌≤◌, ◌+◌, ◌-◌, ◌^◌, ℕ, List, min, length, take, drop, IsTrue, IfOk, OnOk};
ghost use Rattle.std.specs.Io.{ReadsAtMost};
ghost use Rattle.sdb_base.specs.Causes.{HasCause};
ghost use Rattle.sdb_disk.specs.Disk.{State, Files, Image, SameFiles, Writes, Cuts, Syncs, Passes};

use crate::DiskFault;

/// Four files, by number: 0 and 1 are checkpoints, 2 and 3 are journals. A file has at most 2^62 bytes.
pub trait Disk {
    /// What is known of the disk.
    ghost state: { Self → State };

    /// The file's length.
    fn len(&mut self, file: u8) -> Result<u64, DiskFault>
        requires { file < 4 }
        ensures length { IfOk result (λ n. IsTrue (state self.old).told → n ≡ length ((state self.old).seen file)) }
        ensures bound { IfOk result (λ n. n ≤ 2 ^ 62) }
        ensures same { SameFiles (state self.old) (state self.new) }
        ensures time { Passes (state self.old) (state self.new) }
        ensures cause { HasCause (state self.old).faults (state self.new).faults result }
        ensures syncs { (state self.new).syncs ≡ (state self.old).syncs };

    /// Fills the buffer from the place `at` up to the file's end, and gives the number of bytes.
    fn read(&mut self, file: u8, at: u64, buf: &mut [u8]) -> Result<usize, DiskFault>
        requires { file < 4 }
        ensures bound { ReadsAtMost result buf.new }
        ensures count { IfOk result (λ n. IsTrue (state self.old).told
            → n ≡ min (length buf.old) (length ((state self.old).seen file) - at)) }
        ensures bytes { IfOk result (λ n. IsTrue (state self.old).told
            → take n buf.new ≡ take n (drop at ((state self.old).seen file))) }
        ensures same { SameFiles (state self.old) (state self.new) }
        ensures time { Passes (state self.old) (state self.new) }
        ensures cause { HasCause (state self.old).faults (state self.new).faults result }
        ensures syncs { (state self.new).syncs ≡ (state self.old).syncs };

    /// Writes over what is there and past the end. Until a sync a crash may leave any bytes in the range.
    fn write(&mut self, file: u8, at: u64, bytes: &[u8]) -> Result<(), DiskFault>
        requires file { file < 4 }
        requires within { IsTrue (state self.old).told → at ≤ length ((state self.old).seen file) }
        ensures fits { OnOk result (at + length bytes.now ≤ 2 ^ 62) }
        ensures change { Writes file at bytes.now result (state self.old) (state self.new) }
        ensures time { Passes (state self.old) (state self.new) }
        ensures cause { HasCause (state self.old).faults (state self.new).faults result }
        ensures syncs { (state self.new).syncs ≡ (state self.old).syncs };

    /// Cuts the file to a length. Until a sync a crash may leave what stood behind it, with any bytes.
    fn cut(&mut self, file: u8, len: u64) -> Result<(), DiskFault>
        requires file { file < 4 }
        requires within { IsTrue (state self.old).told → len ≤ length ((state self.old).seen file) }
        ensures change { Cuts file len result (state self.old) (state self.new) }
        ensures time { Passes (state self.old) (state self.new) }
        ensures cause { HasCause (state self.old).faults (state self.new).faults result }
        ensures syncs { (state self.new).syncs ≡ (state self.old).syncs };

    /// After it a crash leaves of the file what a read gives.
    fn sync(&mut self, file: u8) -> Result<(), DiskFault>
        requires { file < 4 }
        ensures change { Syncs file result (state self.old) (state self.new) }
        ensures time { Passes (state self.old) (state self.new) }
        ensures cause { HasCause (state self.old).faults (state self.new).faults result }
        ensures no_fewer { (state self.old).syncs ≤ (state self.new).syncs }
        ensures one_more { (state self.new).syncs ≤ (state self.old).syncs + 1 };

    /// What a read gives is something that a crash may leave.
    ghost may_stay: { (d : Self) (k : ℕ) → IsTrue (state d).told → (state d).may_leave k ((state d).seen k) };

    /// What a crash may leave of a file is as long as the file was at some time since its last sync.
    ghost lengths: { (d : Self) (k : ℕ) (c : List ℕ) → (state d).may_leave k c
        → ((state d).least k ≤ length c) × (length c ≤ (state d).greatest k) };

    /// This moment is one of those since an earlier one.
    ghost counts_now: { (d : Self) (t : ℕ) (c : Files) → t ≤ (state d).moment → Image (state d) c → (state d).left_since t c };

    /// Since this moment there is no other.
    ghost only_now: { (d : Self) (c : Files) → (state d).left_since (state d).moment c → Image (state d) c };
}
