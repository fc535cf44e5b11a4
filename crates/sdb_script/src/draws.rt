// Numbers drawn from a seed.
ghost use Rattle.std.specs.Prelude.{◌≡◌, ◌<◌};
ghost use Rattle.sdb_script.specs.Draws.{below, next_state};

const MULTIPLIER: u64 = 6_364_136_223_846_793_005;

const INCREMENT: u64 = 1_442_695_040_888_963_407;

// A linear congruential generator modulo 2^64, which gives the upper half of its state.
#[derive(Clone, Copy, Debug, PartialEq, Eq)]
pub(crate) struct Draws {
    pub(crate) state: u64,
}

impl Draws {
    // The next number, below `many`.
    #[tactic(auto, unfolding(crate::specs::Draws::below))]
    pub(crate) fn draw(&mut self, many: u64) -> u64
        requires { 0 < many }
        ensures number { result ≡ below many self.new.state }
        ensures state { self.new.state ≡ next_state self.old.state }
        ensures small { result < many }
    {
        self.state = following(self.state);
        (self.state >> 32) % many
    }
}

fn following(state: u64) -> u64
    ensures { result ≡ next_state state }
{
    state.wrapping_mul(MULTIPLIER).wrapping_add(INCREMENT)
}
