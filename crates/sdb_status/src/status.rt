// The statuses of a run.
ghost use Rattle.std.specs.Prelude.{Some};
ghost use Rattle.sdb_status.specs.Statuses.{line_of};

use std::fmt;

/// How a run ended. It is printed as the line on standard error, without the line's end; nothing is said where
/// all went well.
#[derive(Clone, Copy, Debug, PartialEq, Eq)]
pub enum Status {
    /// All input is answered.
    Done,
    /// The words are no command.
    Usage,
    /// The keys or the input failed.
    ReadFault,
    /// There was not enough memory.
    OutOfMemory,
    /// The output failed.
    WriteFault,
    /// The disk failed when the store was opened.
    DiskFault,
    /// This line of the keys, counted from 1, is wrong.
    BadKeys(u64),
    /// The record of the script that begins at this byte, counted from 0, is wrong, or the script ends in it.
    BadScript(u64),
    /// The files stand for no accounts. It names the first bad one.
    NotAStore(u8),
    /// The network failed.
    LinkFault,
    /// The keys have more than 65,536 bytes, or the input has 2^40 bytes or more.
    InputTooLong,
}

impl fmt::Display for Status {
    ghost output = { λ status. Some (line_of status) };

    fn fmt<W: fmt::Write>(&self, f: &mut fmt::Formatter<W>) -> fmt::Result {
        f.write_str(self.words())?;
        match self.place() {
            Some(place) => write!(f, "{place}"),
            None => Ok(()),
        }
    }
}

impl Status {
    ghost use Rattle.std.specs.Prelude.{◌≡◌};
    ghost use Rattle.sdb_status.specs.Statuses.{number_of, place_of, words_of};

    /// The exit status of the program.
    pub fn number(self) -> u8
        ensures { result ≡ number_of self }
    {
        match self {
            Status::Done => 0,
            Status::Usage => 1,
            Status::ReadFault => 2,
            Status::OutOfMemory => 3,
            Status::WriteFault => 4,
            Status::DiskFault => 5,
            Status::BadKeys(_) => 6,
            Status::BadScript(_) => 7,
            Status::NotAStore(_) => 8,
            Status::LinkFault => 9,
            Status::InputTooLong => 10,
        }
    }

    // The words of the line.
    #[tactic(auto, unfolding(crate::specs::Statuses::words_of))]
    fn words(self) -> &'static str
        ensures { result.now ≡ words_of self }
    {
        match self {
            Status::Done => "",
            Status::Usage => "sdb: usage: sdb bare | replay | serve PORT TURNS | check | bench N",
            Status::ReadFault => "sdb: reading failed",
            Status::OutOfMemory => "sdb: out of memory",
            Status::WriteFault => "sdb: writing failed",
            Status::DiskFault => "sdb: disk failed",
            Status::BadKeys(_) => "sdb: bad keys at line ",
            Status::BadScript(_) => "sdb: bad script at byte ",
            Status::NotAStore(_) => "sdb: not a store: file ",
            Status::LinkFault => "sdb: network failed",
            Status::InputTooLong => "sdb: input too long",
        }
    }

    // The place that the line ends with.
    fn place(self) -> Option<u64>
        ensures { result ≡ place_of self }
    {
        match self {
            Status::BadKeys(place) | Status::BadScript(place) => Some(place),
            Status::NotAStore(file) => Some(u64::from(file)),
            _ => None,
        }
    }
}
