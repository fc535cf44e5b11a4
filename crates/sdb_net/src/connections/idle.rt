// Which connections can go where there is no room for one more.
ghost use Rattle.std.specs.Prelude.{◌≡◌, ℕ, IsSome, IfSome, IfNone};
ghost use Rattle.sdb_net.specs.Idle.{earlier_of};

use super::Connections;

impl<S> Connections<S> {
    ghost use Rattle.sdb_net.specs.Connections.{socket_at, idle_at, IsIdlest, NoneIsIdle, IsClosed};

    /// The open connection that has been idle longest.
    pub(crate) fn longest_idle(&self) -> Option<u32>
        ensures some { IfSome result (IsIdlest self.now) }
        ensures none { IfNone result (NoneIsIdle self.now) }
    {
        let mut longest = None;
        for (number, since) in self.opened.iter() {
            longest = earlier(*number, *since, longest);
        }
        match longest {
            Some((number, _)) => Some(number),
            None => None,
        }
    }

    /// A closed connection that isn't done.
    pub(crate) fn a_closed_one(&self) -> Option<u32>
        ensures some { IfSome result (IsClosed self.now) }
        ensures none { IfNone result ((k : ℕ) → IsSome (socket_at self.now k) → IsSome (idle_at self.now k)) }
    {
        for number in self.sockets.keys() {
            if !self.is_open(*number) {
                return Some(*number);
            }
        }
        None
    }
}

// The earlier of a connection that is idle since some moment and of the one that was found so far.
fn earlier(number: u32, since: Option<u64>, found: Option<(u32, u64)>) -> Option<(u32, u64)>
    ensures { result ≡ earlier_of number since found }
{
    match (since, found) {
        (Some(since), Some((_, least))) if least <= since => found,
        (Some(since), _) => Some((number, since)),
        (None, _) => found,
    }
}
