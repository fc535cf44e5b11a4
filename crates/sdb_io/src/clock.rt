// Where moments come from.
ghost use Rattle.std.specs.Prelude.{◌≡◌, ℕ, List, IfSome, option_map};
ghost use Rattle.std.specs.declared.option.Option.{Option};
ghost use Rattle.sdb_io.specs.Clock.{moment_of, moments_after};

mod memory;

pub use memory::MemoryClock;

/// A clock that can't fail.
pub trait Clock {
    /// The moments still to be given, or `None` where that isn't known. The last one is given again and
    /// again, and 0 where there is none.
    ghost to_come: { Self → Option (List ℕ) };

    /// The seconds since 1970-01-01T00:00:00Z, leap seconds not counted.
    fn now(&mut self) -> u64
        ensures moment { IfSome (to_come self.old) (λ moments. result ≡ moment_of moments) }
        ensures after { to_come self.new ≡ option_map moments_after (to_come self.old) };
}
