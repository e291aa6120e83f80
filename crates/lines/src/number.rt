// Numbers of any length.
ghost use Rattle.std.specs.Prelude.{◌≡◌};
ghost use Rattle.lines.specs.Numbers.{number_read, needless};

// The number that these digits write, unless it has a needless leading zero or is above `most`. By hand: `str::parse`
// takes a `&str` and no bytes, and would let a plus sign and needless zeros pass.
pub fn read_number(digits: &[u8], most: u16) -> Option<u16>
    ensures { result ≡ number_read most digits.now }
{
    if has_needless_zero(digits) {
        return None;
    }
    let mut value: u32 = 0;
    for digit in digits {
        value = value * 10 + u32::from(digit.saturating_sub(b'0'));
        if value > u32::from(most) {
            return None;
        }
    }
    Some(value as u16)
}

fn has_needless_zero(digits: &[u8]) -> bool
    ensures { result ≡ needless digits.now }
{
    matches!(digits, [b'0', _, ..])
}
