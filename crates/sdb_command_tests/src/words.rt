// Words that name a command, and words that don't.
use sdb_base::{Text, Words};
use sdb_words::{Command, read_command};
use std::alloc::Global;
use std::test::Fail;

fn read(alloc: Global, line: &[&str]) -> Result<Option<Command>, Fail> {
    let mut words = Words::new(alloc);
    for word in line {
        words.push(Text::from_str(alloc, word)?)?;
    }
    Ok(read_command(alloc, &words)?)
}

// With memory, clap takes each list.
#[test]
fn five_lists_are_commands(rt: HostRuntime) -> Result<(), Fail> {
    let alloc = rt.alloc();
    for (line, command) in [
        (["bare"].as_slice(), Command::Bare),
        (&["replay"], Command::Replay),
        (
            &["serve", "65535", "4294967295"],
            Command::Serve(65535, 4_294_967_295),
        ),
        (&["check"], Command::Check),
        (&["bench", "100"], Command::Bench(100)),
    ] {
        assert_eq!(rt; read(alloc, line)?, Some(command));
    }
    Ok(())
}
