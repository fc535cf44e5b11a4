// Changes of the files in memory, each with its record. Where there is no memory nothing is changed.
ghost use Rattle.std.specs.Prelude.{◌≡◌, ◌<◌, ◌≤◌, ◌++◌, [], ◌∷◌, ℕ, Vec, vec_len, length, take, drop, min, ◌-◌, IfOk, OnOk, OnErr};
ghost use Rattle.std.specs.declared.alloc.Global.{Global};
ghost use Rattle.sdb_disk.specs.Disk.{overlaid};
ghost use Rattle.sdb_disk.specs.Past.{contents, Overwrites, CutsOff};

use crate::memory::Call;
use std::alloc::{AllocError, Global};

// The content of a file.
pub(crate) fn content(files: &[Vec<u8>; 4], file: u8) -> &[u8]
    requires { file < 4 }
    ensures { result.now ≡ contents files.now file }
{
    files[file as usize].as_slice()
}

// Puts the bytes at their place, and makes the content longer where they pass its end.
fn overlay(content: &mut Vec<u8>, at: usize, bytes: &[u8]) -> Result<(), AllocError>
    requires { at ≤ vec_len content.old }
    ensures ok { OnOk result (content.new.items ≡ overlaid content.old.items at bytes.now) }
    ensures err { OnErr result (content.new.items ≡ content.old.items) }
{
    let inside = bytes.len().min(content.len() - at);
    content.extend_from_slice(&bytes[inside..])?;
    content[at..at + inside].copy_from_slice(&bytes[..inside]);
    Ok(())
}

// The bytes of the content that a write of `count` bytes replaces.
fn replaced(alloc: Global, content: &[u8], at: usize, count: usize) -> Result<Vec<u8>, AllocError>
    requires { at ≤ length content.now }
    ensures { IfOk result (λ was. was.items ≡ take count (drop at content.now)) }
{
    let inside = count.min(content.len() - at);
    content[at..at + inside].to_vec(alloc)
}

// Writes the bytes into a file.
pub(crate) fn write_file(
    alloc: Global,
    files: &mut [Vec<u8>; 4],
    calls: &mut Vec<Call>,
    file: u8,
    at: usize,
    bytes: &[u8],
) -> Result<(), AllocError>
    requires file { file < 4 }
    requires within { at ≤ length (contents files.old file) }
    ensures ok { OnOk result ((was : Vec ℕ Global)
        × (calls.new.items ≡ calls.old.items ++ Call.Write file at (length bytes.now) was ∷ [])
        × Overwrites file at bytes.now was (contents files.old) (contents files.new)) }
    ensures same_calls { OnErr result (calls.new.items ≡ calls.old.items) }
    ensures same_files { OnErr result (contents files.new ≡ contents files.old) }
{
    let place = file as usize;
    let count = bytes.len();
    let was = replaced(alloc, &files[place], at, count)?;
    calls.reserve(1)?;
    overlay(&mut files[place], at, bytes)?;
    calls
        .push(Call::Write {
            file,
            at,
            count,
            was,
        })
        .unwrap();
    Ok(())
}

// Cuts a file to a length.
pub(crate) fn cut_file(
    alloc: Global,
    files: &mut [Vec<u8>; 4],
    calls: &mut Vec<Call>,
    file: u8,
    len: usize,
) -> Result<(), AllocError>
    requires file { file < 4 }
    requires within { len ≤ length (contents files.old file) }
    ensures ok { OnOk result ((was : Vec ℕ Global)
        × (calls.new.items ≡ calls.old.items ++ Call.Cut file len was ∷ [])
        × CutsOff file len was (contents files.old) (contents files.new)) }
    ensures same_calls { OnErr result (calls.new.items ≡ calls.old.items) }
    ensures same_files { OnErr result (contents files.new ≡ contents files.old) }
{
    let place = file as usize;
    let content = files[place].as_slice();
    let was = replaced(alloc, content, len, content.len() - len)?;
    calls.push(Call::Cut { file, len, was })?;
    files[place].truncate(len);
    Ok(())
}

// Notes that a file was synced.
pub(crate) fn sync_file(calls: &mut Vec<Call>, file: u8) -> Result<(), AllocError>
    ensures ok { OnOk result (calls.new.items ≡ calls.old.items ++ Call.Sync file ∷ []) }
    ensures err { OnErr result (calls.new.items ≡ calls.old.items) }
{
    calls.push(Call::Sync { file })?;
    Ok(())
}

// Fills the buffer from the place `at` up to the content's end, and gives the number of bytes.
pub(crate) fn read_content(content: &[u8], at: u64, buf: &mut [u8]) -> usize
    ensures count { result ≡ min (length buf.old) (length content.now - at) }
    ensures bytes { take result buf.new ≡ take result (drop at content.now) }
{
    if at >= content.len() as u64 {
        return 0;
    }
    let rest = &content[at as usize..];
    let count = buf.len().min(rest.len());
    buf[..count].copy_from_slice(&rest[..count]);
    count
}
