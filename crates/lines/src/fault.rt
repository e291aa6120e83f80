// A refusal with the line that it came from.
ghost use Rattle.std.specs.Prelude.{◌≡◌};

use bus::refusal::Refusal;

#[derive(Clone, Copy, PartialEq, Eq, Debug)]
pub struct Fault {
    pub line: u32,
    pub refusal: Refusal,
}

// The refusal is kept whole.
impl From<(u32, Refusal)> for Fault {
    ghost from_gives = { λ numbered fault. (fault.line ≡ numbered.0) × (fault.refusal ≡ numbered.1) };

    fn from(numbered: (u32, Refusal)) -> Fault {
        let (line, refusal) = numbered;
        Fault { line, refusal }
    }
}
