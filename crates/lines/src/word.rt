// The words of the forms, and the items that follow each.
ghost use Rattle.std.specs.Prelude.{◌≡◌};
ghost use Rattle.lines.specs.Forms.{word_text, words, policy_text, policies, kinds, takes, is_number};

use crate::name::Name;
use orders::selector::Selector;

#[derive(Clone, Copy)]
pub enum Word {
    Window,
    Policy,
    Drop,
    Next,
    Which,
    Frame,
    Add,
    Alter,
}

// What may stand at an item's position.
#[derive(Clone, Copy)]
pub enum Kind {
    // a number up to 255
    Byte,
    // a number up to 65,535
    HalfWord,
    PolicyName,
}

impl Name for Selector {
    ghost written = { policy_text };

    ghost every = { policies };

    fn text(self) -> &'static [u8] {
        match self {
            Selector::RateMonotonic => b"rm",
            Selector::DeadlineMonotonic => b"dm",
            Selector::FixedPriority => b"pr",
            Selector::EarliestDeadline => b"edf",
        }
    }

    fn all<'a>() -> &'a [Selector] {
        &[
            Selector::RateMonotonic,
            Selector::DeadlineMonotonic,
            Selector::FixedPriority,
            Selector::EarliestDeadline,
        ]
    }
}

impl Name for Word {
    ghost written = { word_text };

    ghost every = { words };

    fn text(self) -> &'static [u8] {
        match self {
            Word::Window => b"window",
            Word::Policy => b"policy",
            Word::Drop => b"drop",
            Word::Next => b"next",
            Word::Which => b"which",
            Word::Frame => b"frame",
            Word::Add => b"add",
            Word::Alter => b"alter",
        }
    }

    fn all<'a>() -> &'a [Word] {
        &[
            Word::Window,
            Word::Policy,
            Word::Drop,
            Word::Next,
            Word::Which,
            Word::Frame,
            Word::Add,
            Word::Alter,
        ]
    }
}

impl Word {
    // The items that follow the word, in their order.
    pub fn kinds(self) -> &'static [Kind]
        ensures { result.now ≡ kinds self }
    {
        match self {
            Word::Window | Word::Drop | Word::Next => &[Kind::Byte],
            Word::Policy => &[Kind::PolicyName],
            Word::Which => &[],
            Word::Frame => &[Kind::HalfWord, Kind::Byte],
            Word::Add | Word::Alter => &[Kind::Byte; 6],
        }
    }
}

impl Kind {
    // Whether the item is of this kind. How large a number is plays no part.
    pub fn takes(self, text: &[u8]) -> bool
        ensures { result ≡ takes self text.now }
    {
        match self {
            Kind::Byte | Kind::HalfWord => is_number(text),
            Kind::PolicyName => Selector::named(text).is_some(),
        }
    }
}

// A part that begins with a digit is a number.
fn is_number(text: &[u8]) -> bool
    ensures { result ≡ is_number text.now }
{
    matches!(text, [b'0'..=b'9', ..])
}
