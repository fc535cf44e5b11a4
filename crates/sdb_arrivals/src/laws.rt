//! The laws of connections and framing.

ghost use Rattle.std.specs.Prelude.{◌≡◌, ◌↔◌, ℕ, ◌≤◌, List, [], ◌∷◌, length};
ghost use Rattle.sdb_arrivals.specs.Alike.{AlikeAreSame};
ghost use Rattle.sdb_arrivals.specs.Connects.{Connects};
ghost use Rattle.sdb_arrivals.specs.Framing.{AreFramed, AreMessages, AreNumbered, Brings, Count, bytes_taken, live, of};
ghost use Rattle.sdb_arrivals.specs.declared.read.Read.{Read};
ghost use Rattle.sdb_arrivals.specs.Reading.{IsRead};
ghost use Rattle.sdb_arrivals.specs.Story.{Answer, Framed, Full, Opened, Step, brought, framed_in};
ghost use Rattle.sdb_arrivals.specs.Tables.{Connections, Turns, no_connections};
ghost use Rattle.sdb_keys.specs.declared.keys.Key.{Key};

/// The table of connections stands for the connections of every story: it begins so, and what an event makes
/// of it goes on so, whatever is released meanwhile. What the event brings is what the story tells.
pub fn connections_follow_the_story()
    ensures first { (released : Count) → Connects released no_connections [] }
    ensures next { (released : Count) (t next : Connections) (s : Step) (story : List Step)
        → Connects released t story → released story ≤ released (s ∷ story)
        → Turns s.event s.answer (released story) (brought s) t next
        → Connects released next (s ∷ story) × Brings s.event s.answer (brought s) story }
{}

/// An Opened is answered Full exactly where 64 connections are live.
pub fn full_exactly_where_64_are_live()
    ensures { (released : Count) (t next : Connections) (c : ℕ) (answer : Answer) (story : List Step)
        → Connects released t story → Turns (Opened c) answer (released story) [] t next
        → (answer ≡ Full) ↔ (64 ≤ length (live released story)) }
{}

/// The arrivals of a connection are numbered from 1, in their order.
pub fn arrivals_are_numbered()
    ensures { (story : List Step) → AreFramed story → (conn : ℕ) → AreNumbered 0 (of conn (framed_in story)) }
{}

/// A connection has at most as many arrivals as bytes came.
pub fn few_arrivals()
    ensures { (story : List Step) (conn : ℕ) → AreMessages story → length (of conn (framed_in story)) ≤ bytes_taken story }
{}

/// Of a request one thing is read at most, under the same keys.
pub fn one_read()
    ensures { (keys : List Key) (w : Framed) (a b : Read) → IsRead keys w a → IsRead keys w b → a ≡ b }
{}

/// What arrives is a function of what happens, of its answers and of the keys: where the same happened in two stories
/// and was answered alike, the same requests came in each step, and the same was read of them.
pub fn the_same_arrives_in_stories_alike()
    ensures { AlikeAreSame }
{}
