// Numbers that a seed decides.
ghost use Rattle.std.specs.Prelude.{◌<◌, ◌≤◌};

#[derive(Drop)]
pub struct Random {
    state: u32,
    is_tight: bool,
}

impl Random {
    pub fn new(seed: u32) -> Random {
        Random {
            state: seed,
            is_tight: seed % 4 == 0,
        }
    }

    // Whether the messages are to fill a cycle each, so that tables come to the brink: late, or unsettled.
    pub fn is_tight(&self) -> bool {
        self.is_tight
    }

    // A number below the bound, which is at most 65,536; 0 where the bound is 0.
    pub fn below(&mut self, bound: u32) -> u32
        ensures { 0 < bound → result < bound }
    {
        self.state = self
            .state
            .wrapping_mul(1_664_525)
            .wrapping_add(1_013_904_223);
        (self.state >> 16) % bound.max(1)
    }

    // Likewise, for a bound of at most 256.
    pub fn byte(&mut self, bound: u32) -> u8 {
        u8::try_from(self.below(bound)).unwrap_or(u8::MAX)
    }

    pub fn one_of<T: Copy, const COUNT: usize>(&mut self, choices: &[T; COUNT]) -> T
        requires some { 0 < COUNT }
        requires few { COUNT ≤ 65536 }
    {
        choices[self.below(COUNT as u32) as usize]
    }
}
