ghost use Rattle.std.specs.Prelude.{◌≤◌, ◌<◌};

/// Draws numbers one after another, the same ones from the same seed.
#[derive(Drop)]
pub struct Draws {
    state: u64,
}

impl Draws {
    /// The draws of a seed.
    pub fn new(seed: u64) -> Draws {
        Draws { state: seed }
    }

    /// The next number below `count`.
    pub fn below(&mut self, count: u64) -> u64
        requires { 1 ≤ count }
        ensures below { result < count }
    {
        self.state = self
            .state
            .wrapping_mul(6_364_136_223_846_793_005)
            .wrapping_add(1_442_695_040_888_963_407);
        (self.state >> 33) % count
    }
}
