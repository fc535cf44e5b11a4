// A counter that only proofs see.
ghost use Rattle.std.specs.Prelude.{◌≡◌, ◌+◌, ℕ};
ghost use Rattle.std.specs.Coded.{coded_ℕ};
ghost use base.Fml.{ftrue};

use std::marker::{Model, PhantomData};

/// A counter of steps, which contracts see as a number. It takes no bytes, so it never overflows. `L`
/// only names what is counted.
#[derive(Drop)]
pub struct Steps<L> {
    count: Count,
    of: PhantomData<L>,
}

impl<L> Model for Steps<L> {
    ghost use Rattle.std.specs.Prelude.{ℕ};

    ghost Value = { ℕ };

    ghost view = { λ it. it.count.n };
}

impl<L> Steps<L> {
    /// A counter at 0.
    pub fn new() -> Steps<L>
        ensures { result ≡ 0 }
    {
        Steps {
            count: Count::none(),
            of: PhantomData,
        }
    }

    /// Counts one step.
    pub fn tick(&mut self)
        ensures { self.new ≡ self.old + 1 }
    {
        self.count = self.count.next();
    }
}

// A number that exists only in proofs.
#[derive(Drop)]
struct Count {
    ghost n: { ℕ } by { coded_ℕ },
}

impl Model for Count {
    ghost also_owns = { λ _. ftrue };
}

impl Count {
    fn none() -> Count
        ensures { result.n ≡ 0 }
    {
        Count {}
    }

    fn next(&self) -> Count
        ensures { result.n ≡ self.now.n + 1 }
    {
        Count {}
    }
}
