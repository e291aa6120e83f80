// The signs that a line is made of.
ghost use Rattle.std.specs.Prelude.{◌≡◌};
ghost use Rattle.lines.specs.Signs.{sign_of, ends_part};

#[derive(Clone, Copy)]
pub enum Sign {
    Letter,
    Digit,
    Space,
    Open,
    Close,
    // no sign of a line
    Other,
}

pub fn classify(sign: char) -> Sign
    ensures { result ≡ sign_of sign }
{
    match sign {
        'a'..='z' => Sign::Letter,
        '0'..='9' => Sign::Digit,
        ' ' => Sign::Space,
        '(' => Sign::Open,
        ')' => Sign::Close,
        _ => Sign::Other,
    }
}

impl Sign {
    // A word or a number goes up to a space or the closing bracket.
    pub fn ends_part(self) -> bool
        ensures { result ≡ ends_part self }
    {
        matches!(self, Sign::Space | Sign::Close)
    }
}
