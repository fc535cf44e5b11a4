// The events of a script.
use sdb_base::Bytes;

/// What happens next.
#[derive(Debug, Drop)]
pub enum ScriptEvent {
    /// The connection of this number, from 1, is opened.
    Opened(u32),
    /// On this connection, at this Unix second, these 1 to 65,536 bytes come.
    Piece(u32, u64, Bytes),
    /// The client ends this connection.
    Ended(u32),
    /// What was asked for so far is made durable, and its answers are released.
    Commit,
    /// One turn of background work.
    Work,
    /// The script is at its end.
    End,
}
