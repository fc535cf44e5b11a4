// The top call: words, keys, input, output, links, disk and clock to a status.
ghost use Rattle.std.specs.Prelude.{◌≡◌, ◌^◌, ◌<◌, ◌≤◌, ◌⊎◌, ◌↔◌, ℕ, List, length, IsTrue, Some};
ghost use Rattle.std.specs.Io.KnownBytes.{Consumes, IsAtEnd, Keeps};
ghost use Rattle.sdb_base.specs.Causes.{Rose};
ghost use Rattle.sdb_bench.specs.Measures.{Reports, ReportsFront};
ghost use Rattle.sdb_check.specs.Checks.{IsAnswer, IsRefusal, Lists, ListsFront};
ghost use Rattle.sdb_cli.specs.Commands.{asks, IsOther};
ghost use Rattle.sdb_cli.specs.Plain.{Plain, PlainWhole};
ghost use Rattle.sdb_cli.specs.Runs.{Writes, WritesFront};
ghost use Rattle.sdb_disk.specs.Disk.{LeavesOnly};
ghost use Rattle.sdb_pairs.specs.Accounts.{DomainEntries};
ghost use Rattle.sdb_record.specs.Stands.{IsFirstBad};
ghost use Rattle.sdb_replay.specs.Complete.{IsWell};
ghost use Rattle.sdb_replay.specs.Endings.{EachStands, Ends};
ghost use Rattle.sdb_serve.specs.Hosting.{Attends};
ghost use Rattle.sdb_store.specs.Opened.{IsBadFile, StandsAsBefore};
ghost use Rattle.sdb_words.specs.declared.command.Command.TheVariants as command;

use crate::bare::bare;
use sdb_base::Words;
use sdb_bench::bench;
use sdb_check::check;
use sdb_disk::Disk;
use sdb_io::{Clock, Links, Sink, Source};
use sdb_replay::replay;
use sdb_serve::serve;
use sdb_status::Status;
use sdb_words::{Command, read_command};
use std::alloc::Global;

// The input may have fewer bytes than this.
const MOST_INPUT: u64 = 1_099_511_627_776;

/// Runs the command that the words name, those after the program's name.
///
/// `bare` answers the lines of `input`, each a request of account 1 over domains that begin empty, with
/// one body and an LF each on `output`. Lines end at LF; the last one needs none where it isn't empty. A line that meets
/// want of memory is answered OutOfMemory and changes nothing.
///
/// `replay` reads the keys file that `keys` gives, opens the store on the disk, and carries out the script of `input`:
/// connections that open and end, their bytes, commits, and turns of background work. The answers that are released
/// are written on `output`, in order.
///
/// `serve` reads the keys and opens the store alike, binds the port, and serves the connections of `links`: each piece
/// that comes is executed at the moment of `clock`, committed and answered. It ends after so many events, or where
/// nothing comes any more.
///
/// `check` opens the store and writes what it holds: the line `sequence N`, and a line of account, domain, number of
/// items and number of pairs for each domain.
///
/// `bench` carries out the workload of a size over a store in memory, and then writes how many requests it has, how many
/// answers came, how many items and pairs are there at the end, and the SHA-256 of what a replay of it would write.
pub fn run<S: Source, T: Source, K: Sink, L: Links, D: Disk, C: Clock>(
    alloc: Global,
    words: &Words,
    keys: &mut S,
    input: &mut T,
    output: &mut K,
    links: &mut L,
    disk: &mut D,
    clock: &mut C,
) -> Status
    // Words that are no command touch nothing and are Usage, and no others are.
    ensures usage { result ≡ Status.Usage → IsOther words.now }
    ensures others { IsOther words.now → result ≡ Status.Usage }
    ensures untouched { IsOther words.now → (keys.new ≡ keys.old) × (input.new ≡ input.old) × (output.new ≡ output.old)
        × (links.new ≡ links.old) × (disk.new ≡ disk.old) × (clock.new ≡ clock.old) }

    // `replay`: the headline.
    ensures replay { asks words.now ≡ Some command.Replay → Ends result (S.left keys.old) (S.left keys.new) (D.state disk.old) (D.state disk.new)
        (T.left input.old) (T.left input.new) (K.written output.old) (K.written output.new) }
    // Bad keys are told before anything else is touched.
    ensures bad_keys { (line : ℕ) → result ≡ Status.BadKeys line → (input.new ≡ input.old) × (output.new ≡ output.old)
        × (links.new ≡ links.old) × (disk.new ≡ disk.old) × (clock.new ≡ clock.old) }
    // Keys and script that are well formed, files that stand for accounts and no fault are enough, but for memory.
    ensures complete { asks words.now ≡ Some command.Replay → IsWell (S.left keys.old) (T.left input.old) (D.state disk.old)
        → (Rose (S.faults keys.old) (S.faults keys.new) → ⊥) → (Rose (T.faults input.old) (T.faults input.new) → ⊥)
        → (Rose (K.faults output.old) (K.faults output.new) → ⊥) → (Rose (D.state disk.old).faults (D.state disk.new).faults → ⊥)
        → (result ≡ Status.Done) ⊎ (result ≡ Status.OutOfMemory) }
    // A file that is told to be bad is the first bad one of those that are left, whatever the command.
    ensures bad_file { (file : ℕ) → result ≡ Status.NotAStore file → IsBadFile file (D.state disk.new) }
    // Files that stood for accounts are never refused.
    ensures sure { IsTrue (D.state disk.old).told → (accounts : DomainEntries) (number : ℕ) → EachStands (D.state disk.old) accounts number
        → (file : ℕ) → result ≡ Status.NotAStore file → ⊥ }

    // `serve`: the headline on the network. It reads nothing of the input and writes nothing on the output.
    ensures serve { (port turns : ℕ) → asks words.now ≡ Some (command.Serve port turns) → Attends result port turns (S.left keys.old) (S.left keys.new)
        (D.state disk.old) (D.state disk.new) (L.state links.old) (L.state links.new) (C.to_come clock.old) (C.to_come clock.new) }
    ensures serve_alone { (port turns : ℕ) → asks words.now ≡ Some (command.Serve port turns) → (input.new ≡ input.old) × (output.new ≡ output.old) }
    // No other command touches the links or the clock.
    ensures no_links { ((port turns : ℕ) → asks words.now ≡ Some (command.Serve port turns) → ⊥) → (links.new ≡ links.old) × (clock.new ≡ clock.old) }

    // `check`: what the files stand for is written, or where the output fails a front of it, and with every other status
    // nothing. A refusal names the first bad file, and whatever a crash leaves stands for what the files stood for.
    ensures check_done { asks words.now ≡ Some command.Check → result ≡ Status.Done → Lists (D.state disk.old) (K.written output.old) (K.written output.new) }
    ensures check_front { asks words.now ≡ Some command.Check → result ≡ Status.WriteFault → ListsFront (D.state disk.old) (K.written output.old) (K.written output.new) }
    ensures check_nothing { asks words.now ≡ Some command.Check → IsRefusal result → Keeps (K.written output.old) (K.written output.new) }
    ensures check_bad { asks words.now ≡ Some command.Check → (k : ℕ) → result ≡ Status.NotAStore k
        → (k < 4) × (IsTrue (D.state disk.old).told → IsFirstBad k (D.state disk.old).seen) }
    ensures check_images { asks words.now ≡ Some command.Check → IsTrue (D.state disk.old).told → LeavesOnly (D.state disk.old) (D.state disk.new) (StandsAsBefore (D.state disk.old)) }
    ensures check_answer { asks words.now ≡ Some command.Check → IsAnswer result }
    ensures check_alone { asks words.now ≡ Some command.Check → (keys.new ≡ keys.old) × (input.new ≡ input.old) }

    // `bench`: the five lines of the whole workload are written, or where the output fails a front of them, and where memory
    // is lacking nothing.
    ensures bench_done { (size : ℕ) → asks words.now ≡ Some (command.Bench size) → result ≡ Status.Done → Reports size (K.written output.old) (K.written output.new) }
    ensures bench_front { (size : ℕ) → asks words.now ≡ Some (command.Bench size) → result ≡ Status.WriteFault → ReportsFront size (K.written output.old) (K.written output.new) }
    ensures bench_nothing { (size : ℕ) → asks words.now ≡ Some (command.Bench size) → result ≡ Status.OutOfMemory → Keeps (K.written output.old) (K.written output.new) }
    ensures bench_answer { (size : ℕ) → asks words.now ≡ Some (command.Bench size) → (result ≡ Status.Done) ⊎ (result ≡ Status.WriteFault) ⊎ (result ≡ Status.OutOfMemory) }
    ensures bench_alone { (size : ℕ) → asks words.now ≡ Some (command.Bench size) → (keys.new ≡ keys.old) × (input.new ≡ input.old) × (disk.new ≡ disk.old) }

    // `bare`: with Done all lines of the input are answered.
    ensures done { asks words.now ≡ Some command.Bare → result ≡ Status.Done → ((given : List ℕ) × Consumes (T.left input.old) (T.left input.new) given × IsAtEnd (T.left input.new)
        × (length given < 2 ^ 40) × Writes (K.written output.old) (K.written output.new) (Plain given)) }
    // The input failed; the whole lines that it gave are answered.
    ensures read_whole { asks words.now ≡ Some command.Bare → result ≡ Status.ReadFault → ((given : List ℕ) × Consumes (T.left input.old) (T.left input.new) given
        × (length given < 2 ^ 40) × Writes (K.written output.old) (K.written output.new) (PlainWhole given)) }
    // The input gave 2^40 bytes; the whole lines among them are answered.
    ensures too_long { asks words.now ≡ Some command.Bare → result ≡ Status.InputTooLong → ((given : List ℕ) × Consumes (T.left input.old) (T.left input.new) given
        × (length given ≡ 2 ^ 40) × Writes (K.written output.old) (K.written output.new) (PlainWhole given)) }
    // Otherwise a front of the answers is written.
    ensures front { asks words.now ≡ Some command.Bare → (result ≡ Status.WriteFault) ⊎ (result ≡ Status.OutOfMemory) → ((given : List ℕ) × Consumes (T.left input.old) (T.left input.new) given
        × (length given ≤ 2 ^ 40) × (WritesFront (K.written output.old) (K.written output.new) (PlainWhole given)
        ⊎ (IsAtEnd (T.left input.new) × WritesFront (K.written output.old) (K.written output.new) (Plain given)))) }
    ensures bare { asks words.now ≡ Some command.Bare → (keys.new ≡ keys.old) × (disk.new ≡ disk.old) }

    // Each fault has its cause.
    ensures read_fault { result ≡ Status.ReadFault → Rose (S.faults keys.old) (S.faults keys.new) ⊎ Rose (T.faults input.old) (T.faults input.new) }
    ensures write_fault { result ≡ Status.WriteFault → Rose (K.faults output.old) (K.faults output.new) }
    ensures disk_fault { result ≡ Status.DiskFault → Rose (D.state disk.old).faults (D.state disk.new).faults }
    ensures link_fault { result ≡ Status.LinkFault → Rose (L.state links.old).faults (L.state links.new).faults }
{
    match read_command(alloc, words) {
        Ok(Some(Command::Bare)) => bare(alloc, MOST_INPUT, input, output),
        Ok(Some(Command::Replay)) => replay(alloc, keys, input, output, disk),
        Ok(Some(Command::Serve(port, turns))) => {
            serve(alloc, keys, links, disk, clock, port, turns)
        }
        Ok(Some(Command::Check)) => check(alloc, output, disk),
        Ok(Some(Command::Bench(size))) => bench(alloc, size, output),
        Ok(None) => Status::Usage,
        Err(_) => Status::OutOfMemory,
    }
}
