// The script that measures a server.
ghost use Rattle.std.specs.Prelude.{◌≡◌, ◌^◌, ◌≤◌, ◌<◌, ◌++◌, IfOk, OnOk};
ghost use Rattle.sdb_script.specs.Spelled.{script_of, spelled};
ghost use Rattle.sdb_script.specs.Workload as load;
ghost use Rattle.sdb_script.specs.Workload.{after_turn, asked, preparation, turns};

use crate::draws::Draws;
use crate::operation::{Entry, Operation, Place, Turn};
use crate::request::request_of;
use crate::written::{append_commit, append_opened, append_piece, append_work};
use sdb_base::{Bytes, OutOfMemory};
use std::alloc::Global;

// 2010-01-01T00:00:00Z.
const MOMENT: u64 = 1_262_304_000;

/// The script of size `n`, from 1 to 100: four connections, four domains, and a hundred times n
/// requests that are drawn from the seed n. Each is signed with the key `BENCHKEY` and the secret
/// `BENCHSECRET`, and comes at 2010-01-01T00:00:00Z.
pub fn generate(alloc: Global, n: u64) -> Result<Bytes, OutOfMemory>
    requires some { 1 ≤ n }
    requires most { n ≤ 100 }
    ensures { IfOk result (λ script. script.bytes ≡ load.workload n) }
{
    let mut script = Bytes::new(alloc);
    append_preparation(alloc, &mut script)?;
    append_turns(alloc, &mut script, 100 * n, n)?;
    append_commit(&mut script)?;
    Ok(script)
}

// Four connections, four domains, and a commit.
#[tactic(auto, using(std::proofs::Common::append_assoc))]
fn append_preparation(alloc: Global, script: &mut Bytes) -> Result<(), OutOfMemory>
    ensures { OnOk result (script.new.bytes ≡ script.old.bytes ++ script_of preparation) }
{
    append_opened(script, 1)?;
    append_opened(script, 2)?;
    append_opened(script, 3)?;
    append_opened(script, 4)?;
    append_request(alloc, script, 1, Operation::Create(0))?;
    append_request(alloc, script, 1, Operation::Create(1))?;
    append_request(alloc, script, 1, Operation::Create(2))?;
    append_request(alloc, script, 1, Operation::Create(3))?;
    append_commit(script)
}

fn append_request(
    alloc: Global,
    script: &mut Bytes,
    conn: u32,
    operation: Operation,
) -> Result<(), OutOfMemory>
    ensures { OnOk result (script.new.bytes ≡ script.old.bytes ++ spelled (asked conn operation)) }
{
    let request = request_of(alloc, operation)?;
    append_piece(script, conn, MOMENT, request.as_slice())
}

// So many turns, drawn from a seed.
fn append_turns(alloc: Global, script: &mut Bytes, many: u64, seed: u64) -> Result<(), OutOfMemory>
    requires { many < 2 ^ 63 }
    ensures { OnOk result (script.new.bytes ≡ script.old.bytes ++ script_of (turns many 0 seed)) }
{
    let mut draws = Draws { state: seed };
    for before in 0..many {
        let turn = draw_turn(&mut draws);
        append_request(alloc, script, turn.conn, turn.operation)?;
        append_after(script, before + 1)?;
    }
    Ok(())
}

// After each eighth turn a commit and a turn of background work.
fn append_after(script: &mut Bytes, number: u64) -> Result<(), OutOfMemory>
    ensures { OnOk result (script.new.bytes ≡ script.old.bytes ++ script_of (after_turn number)) }
{
    if number % 8 != 0 {
        return Ok(());
    }
    append_commit(script)?;
    append_work(script)
}

#[tactic(auto, unfolding(crate::specs::Workload::turn_of))]
fn draw_turn(draws: &mut Draws) -> Turn
    ensures { (result, draws.new.state) ≡ load.turn_of draws.old.state }
{
    let conn = 1 + draws.draw(4) as u32;
    let domain = draws.draw(4);
    let item = draws.draw(1000);
    let place = Place { domain, item };
    let kind = draws.draw(10);
    draw_kind(draws, kind, conn, place)
}

#[tactic(auto, unfolding(crate::specs::Workload::turn_of_kind))]
fn draw_kind(draws: &mut Draws, kind: u64, conn: u32, place: Place) -> Turn
    ensures { (result, draws.new.state) ≡ load.turn_of_kind kind conn place draws.old.state }
{
    match kind {
        0..=5 => draw_put(draws, conn, place),
        6 => Turn {
            conn,
            operation: Operation::Delete(place),
        },
        7 => Turn {
            conn,
            operation: Operation::Get(place),
        },
        _ => draw_select(draws, conn, place),
    }
}

#[tactic(auto, unfolding(crate::specs::Workload::put_turn))]
fn draw_put(draws: &mut Draws, conn: u32, place: Place) -> Turn
    ensures { (result, draws.new.state) ≡ load.put_turn conn place draws.old.state }
{
    let entry = draw_entry(draws);
    let replace = draws.draw(2) == 1;
    Turn {
        conn,
        operation: Operation::Put(place, entry, replace),
    }
}

#[tactic(auto, unfolding(crate::specs::Workload::select_turn))]
fn draw_select(draws: &mut Draws, conn: u32, place: Place) -> Turn
    ensures { (result, draws.new.state) ≡ load.select_turn conn place draws.old.state }
{
    Turn {
        conn,
        operation: Operation::Select(place.domain, draw_entry(draws)),
    }
}

fn draw_entry(draws: &mut Draws) -> Entry
    ensures { (result, draws.new.state) ≡ load.entry_of draws.old.state }
{
    let attribute = draws.draw(5);
    let value = draws.draw(100_000);
    Entry { attribute, value }
}
