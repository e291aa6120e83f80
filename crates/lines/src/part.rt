// The words and numbers of a line, one after another.
ghost use Rattle.std.specs.Prelude.{◌≡◌, ◌-◌, length, drop};
ghost use Rattle.std.specs.List.{position};
ghost use Rattle.std.specs.Iterator.{at_most};
ghost use Rattle.lines.specs.Signs.{is_end};
ghost use Rattle.lines.specs.Parts.{parts, left, last_place, Takes};

use crate::sign::classify;

#[derive(Clone, Copy)]
pub struct Part<'a> {
    // where its first sign stands
    pub place: usize,
    pub text: &'a [u8],
}

// What is left of a line. The whole line and a place in it, not a shorter slice: places count from the line's start.
#[derive(Clone, Copy)]
pub struct Rest<'a> {
    line: &'a [u8],
    at: usize,
}

fn ends_part(byte: u8) -> bool
    ensures { result ≡ is_end byte }
{
    classify(byte as char).ends_part()
}

// How many of these bytes the part has that begins with the first.
fn part_len(rest: &[u8]) -> Option<usize>
    ensures { result ≡ position is_end rest.now }
{
    rest.iter().position(|byte| ends_part(*byte))
}

impl<'a> Rest<'a> {
    // All that follows the opening bracket.
    pub fn of(line: &'a [u8]) -> Rest<'a>
        ensures value { left result ≡ parts 1 (drop 1 line.now) }
        ensures last { last_place result ≡ length line.now - 1 }
    {
        Rest { line, at: 1 }
    }

    // Where the line's last sign stands.
    pub fn last_place(&self) -> usize
        ensures { result ≡ last_place self.now }
    {
        self.line.len().saturating_sub(1)
    }
}

impl<'a> Iterator for Rest<'a> {
    type Item = Part<'a>;

    ghost next_gives = { Takes };

    ghost remaining = { λ rest. at_most (length (left rest)) };

    fn next(&mut self) -> Option<Part<'a>> {
        let rest = self.line.get(self.at..)?;
        let len = part_len(rest)?;
        let part = Part {
            place: self.at,
            text: &rest[..len],
        };
        self.at += len + 1;
        Some(part)
    }
}
