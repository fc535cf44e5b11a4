// The laws of scripts.
ghost use Rattle.std.specs.Prelude.{◌≡◌, ℕ, ◌+◌, ◌^◌, ◌<◌, ◌≤◌, List, ◌∷◌, ◌++◌, drop, take, length, Option, None};
ghost use Rattle.sdb_script.specs.Connections.{Connections, after_event, none_opened};
ghost use Rattle.sdb_script.specs.Events.{Event};
ghost use Rattle.sdb_script.specs.Fronts.{front, Whole, Wrong};
ghost use Rattle.sdb_script.specs.Lawful.{MayCome, MayComeInTurn};
ghost use Rattle.sdb_script.specs.Scripts.{IsScript, Tells};
ghost use Rattle.sdb_script.specs.Spelled.{script_of, spelled};
ghost use Rattle.sdb_script.specs.Workload.{happens_in, workload};

/// A text has one reading as a script, whatever came before it.
pub fn one_reading()
    ensures events { (known : Connections) (at : ℕ) (bytes : List ℕ) (events others : List Event) (wrong other : Option ℕ)
        → Tells known at bytes events wrong → Tells known at bytes others other → events ≡ others }
    ensures wrong { (known : Connections) (at : ℕ) (bytes : List ℕ) (events others : List Event) (wrong other : Option ℕ)
        → Tells known at bytes events wrong → Tells known at bytes others other → wrong ≡ other }
    ensures one { (bytes : List ℕ) → (events : List Event) × (wrong : Option ℕ) × IsScript bytes events wrong }
{}

/// What is judged stays judged, whatever bytes follow.
pub fn judged_records_stay()
    ensures whole { (known : Connections) (bytes more : List ℕ) (event : Event) (size : ℕ)
        → front known bytes ≡ Whole event size → front known (bytes ++ more) ≡ Whole event size }
    ensures wrong { (known : Connections) (bytes more : List ℕ) → front known bytes ≡ Wrong → front known (bytes ++ more) ≡ Wrong }
{}

/// What a script tells is told event by event: the record at the front of the bytes that came so far, and
/// then what the bytes after it tell, whatever is still to come.
pub fn events_come_one_by_one()
    ensures { (known : Connections) (at : ℕ) (held more : List ℕ) (event : Event) (size : ℕ) (events : List Event) (wrong : Option ℕ)
        → front known held ≡ Whole event size
        → Tells (after_event known event) (at + size) (drop size held ++ more) events wrong
        → Tells known at (held ++ more) (event ∷ events) wrong }
{}

/// A record is read exactly where it is spelled: what is spelled is read back, whatever bytes follow, and what
/// is read may come and is spelled so.
pub fn records_are_spelled()
    ensures read_back { (known : Connections) (event : Event) (rest : List ℕ)
        → MayCome known event → front known (spelled event ++ rest) ≡ Whole event (length (spelled event)) }
    ensures may_come { (known : Connections) (bytes : List ℕ) (event : Event) (size : ℕ)
        → front known bytes ≡ Whole event size → MayCome known event }
    ensures spelled { (known : Connections) (bytes : List ℕ) (event : Event) (size : ℕ)
        → front known bytes ≡ Whole event size → take size bytes ≡ spelled event }
{}

/// A text tells events to its end exactly where they may come one after the other and it is their records.
pub fn scripts_are_spelled()
    ensures told { (events : List Event) → MayComeInTurn none_opened events → IsScript (script_of events) events None }
    ensures may_come { (bytes : List ℕ) (events : List Event) → IsScript bytes events None → MayComeInTurn none_opened events }
    ensures spelled { (bytes : List ℕ) (events : List Event) → IsScript bytes events None → bytes ≡ script_of events }
{}

/// The workload of each size is a script of what happens in it, and fits into an input.
pub fn workloads_are_scripts()
    ensures script { (n : ℕ) → IsScript (workload n) (happens_in n) None }
    ensures fits { (n : ℕ) → n ≤ 100 → length (workload n) < 2 ^ 40 }
{}
