//! Numbers by chance, the same ones for each seed.

ghost use Rattle.std.specs.Prelude.{◌<◌};

/// A linear congruential generator over 64 bits, with the multiplier of Knuth's MMIX, of which the upper half counts.
#[derive(Drop)]
pub struct Chance {
    state: u64,
}

impl Chance {
    /// The numbers of a seed.
    pub fn new(seed: u64) -> Chance {
        let mut chance = Chance { state: seed };
        let _ = chance.number();
        chance
    }

    /// A number of 32 bits.
    pub fn number(&mut self) -> u64 {
        self.state = self
            .state
            .wrapping_mul(6_364_136_223_846_793_005)
            .wrapping_add(1_442_695_040_888_963_407);
        self.state >> 32
    }

    /// A number below `bound`.
    pub fn below(&mut self, bound: u64) -> usize
        requires { 0 < bound }
        ensures { result < bound }
    {
        (self.number() % bound) as usize
    }

    /// A byte.
    pub fn byte(&mut self) -> u8 {
        (self.number() % 256) as u8
    }
}
