// The keys file of the working folder as a source.
ghost use Rattle.std.specs.Io.{ReadsAtMost};
ghost use Rattle.std.specs.Prelude.{◌<◌, None, length};

use sdb_io::{Failed, ReadSource, Source};
use std::fs::File;
use std::rt::Files;

const NAME: &str = "sdb.keys";

// The file `sdb.keys` of the working folder, which is opened when it is read first. Where it can't be opened, reading it
// fails. It tells nothing of its content.
#[derive(Drop)]
pub(crate) struct KeysFile<R> {
    rt: R,
    opened: Option<ReadSource<File>>,
    faults: u64,
}

impl<R> KeysFile<R> {
    pub(crate) fn new(rt: R) -> KeysFile<R> {
        KeysFile {
            rt,
            opened: None,
            faults: 0,
        }
    }
}

impl<R: Files<File = File>> Source for KeysFile<R> {
    ghost left = { λ s. None };

    ghost faults = { λ s. s.faults };

    fn read(&mut self, buf: &mut [u8]) -> Result<usize, Failed> {
        let result = read_opened(&self.rt, &mut self.opened, buf);
        if result.is_err() {
            self.faults = self.faults.saturating_add(1);
        }
        result
    }
}

fn read_opened<R: Files<File = File>>(
    rt: &R,
    opened: &mut Option<ReadSource<File>>,
    buf: &mut [u8],
) -> Result<usize, Failed>
    requires { 0 < length buf.old }
    ensures { ReadsAtMost result buf.new }
{
    if opened.is_none() {
        let Ok(file) = File::open(rt, NAME) else {
            return Err(Failed);
        };
        *opened = Some(ReadSource::new(file));
    }
    match opened {
        Some(source) => source.read(buf),
        None => Err(Failed),
    }
}
