// What a crash leaves of one file in memory.
ghost use Rattle.std.specs.Prelude.{◌≡◌, ◌<◌, ◌≤◌, ℕ, length, reverse};
ghost use Rattle.sdb_disk.specs.Past.{contents};
ghost use Rattle.sdb_disk.specs.Crash.{range_filled, is_sync_of, lost_in, lost, crashed};

use crate::memory::Call;

// The files after a crash.
pub(crate) fn lose_all(files: [Vec<u8>; 4], calls: &[Call], fill: Option<u8>) -> [Vec<u8>; 4]
    ensures { (k : ℕ) → contents result k ≡ crashed fill k (reverse calls.now) (contents files k) }
{
    let [c0, c1, j0, j1] = files;
    [
        lose(c0, 0, calls, fill),
        lose(c1, 1, calls, fill),
        lose(j0, 2, calls, fill),
        lose(j1, 3, calls, fill),
    ]
}

// The content of a file after a crash. Each range that was written since the file's last sync holds the
// byte, where there is one.
fn lose(mut content: Vec<u8>, file: u8, calls: &[Call], fill: Option<u8>) -> Vec<u8>
    ensures { result.items ≡ crashed fill file (reverse calls.now) content.items }
{
    let Some(byte) = fill else {
        return content;
    };
    let mut rest = calls;
    'calls: while let [earlier @ .., last] = rest {
        if is_sync_of(last, file) {
            break;
        }
        lose_write(&mut content, file, last, byte);
        rest = earlier;
    }
    content
}

fn is_sync_of(call: &Call, file: u8) -> bool
    ensures { result ≡ is_sync_of call.now file }
{
    match call {
        Call::Sync { file: synced } => file == *synced,
        _ => false,
    }
}

// Fills what the call wrote, where it wrote into the file.
fn lose_write(content: &mut Vec<u8>, file: u8, call: &Call, byte: u8)
    ensures { content.new.items ≡ lost_in call.now file byte content.old.items }
{
    match call {
        Call::Write {
            file: written,
            at,
            count,
            was: _,
        } if file == *written => fill_range(content, *at, *count, byte),
        _ => {}
    }
}

// Fills a range, as far as the content goes.
fn fill_range(content: &mut Vec<u8>, at: usize, count: usize, byte: u8)
    ensures { content.new.items ≡ range_filled content.old.items at count byte }
{
    if at >= content.len() {
        return;
    }
    let inside = count.min(content.len() - at);
    content[at..at + inside].fill(byte);
}
