// What clap says of a list of words.
ghost use Rattle.std.specs.Prelude.{◌≡◌, IfOk, is_some, true, map, None, Ok};
ghost use Rattle.clap.specs.Words.{app_of, takes};
ghost use Rattle.sdb_words.specs.Program.{program};

use crate::command::Command;
use clap::error::ErrorKind;
use sdb_base::OutOfMemory;
use std::alloc::{AllocError, Global};

// The command that the line names, once clap has taken the line. It takes each line of a command, wherever
// there is memory.
pub(crate) fn once_taken(
    alloc: Global,
    command: Option<Command>,
    line: &[&str],
) -> Result<Option<Command>, OutOfMemory>
    requires { is_some command ≡ true → takes program (map (λ word. word.now) line.now) ≡ true }
    ensures taken { IfOk result (λ taken. taken ≡ command) }
    ensures none { command ≡ None → result ≡ Ok None }
{
    let Some(named) = command else {
        return Ok(None);
    };
    match commands(alloc)?.try_get_matches_from(line) {
        Ok(_) => Ok(Some(named)),
        Err(error) => match error.kind() {
            ErrorKind::OutOfMemory => Err(OutOfMemory),
            _ => unreachable!(),
        },
    }
}

// The program with its five commands.
fn commands<'a>(alloc: Global) -> Result<clap::Command<'a>, AllocError>
    ensures { IfOk result (λ command. app_of command ≡ program) }
{
    let size = clap::Arg::new(alloc, "N").required(true);
    let port = clap::Arg::new(alloc, "PORT").required(true);
    let turns = clap::Arg::new(alloc, "TURNS").required(true);
    let serve = clap::Command::new(alloc, "serve").arg(port)?.arg(turns)?;
    let bench = clap::Command::new(alloc, "bench").arg(size)?;
    clap::Command::new(alloc, "sdb")
        .subcommand(clap::Command::new(alloc, "bare"))?
        .subcommand(clap::Command::new(alloc, "replay"))?
        .subcommand(serve)?
        .subcommand(clap::Command::new(alloc, "check"))?
        .subcommand(bench)
}
