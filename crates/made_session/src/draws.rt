ghost use Rattle.std.specs.Prelude.{◌≡◌, ◌≤◌, ◌<◌, ◌%◌};
ghost use Rattle.made_session.specs.Draws.{seeded, moved};

use std::marker::Model;

/// Draws numbers one after another, the same ones from the same seed. Contracts see its state.
#[derive(Drop)]
pub(crate) struct Draws {
    state: u64,
}

impl Model for Draws {
    ghost use Rattle.std.specs.Prelude.{ℕ, ◌<◌};

    ghost Value = { ℕ };

    ghost view = { λ d. d.state };

    ghost invariant = { λ d. d.state < 2147483647 };
}

impl Draws {
    /// The draws of a seed.
    pub(crate) fn new(seed: u64) -> Draws
        ensures { result ≡ seeded seed }
    {
        Draws {
            state: seed % 2_147_483_646 + 1,
        }
    }

    /// The next number below `count`.
    pub(crate) fn below(&mut self, count: u8) -> u8
        requires { 1 ≤ count }
        ensures value { result ≡ moved self.old % count }
        ensures state { self.new ≡ moved self.old }
        ensures below { result < count }
    {
        self.state = self.state * 48_271 % 2_147_483_647;
        (self.state % u64::from(count)) as u8
    }
}
