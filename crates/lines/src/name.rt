// Values that a line names by a word. A trait of this crate, since `TryFrom` and `FromStr` are foreign, and a crate may
// not implement a foreign trait for a foreign type such as `Selector`.
ghost use Rattle.std.specs.Prelude.{◌≡◌, ℕ, List};
ghost use Rattle.std.specs.Str.{bytes_eq};
ghost use Rattle.lines.specs.Names.{named};

pub trait Name: Copy {
    ghost written: { Self → List ℕ };

    // All values, in the order in which they are looked for.
    ghost every: { List Self };

    fn text(self) -> &'static [u8]
        ensures { result.now ≡ written self };

    fn all<'a>() -> &'a [Self]
    where
        Self: 'a,
        ensures { result.now ≡ every };

    final fn is_written(self, text: &[u8]) -> bool
        ensures { result ≡ bytes_eq text.now (written self) }
    {
        text == self.text()
    }

    // The first that is written so.
    final fn named(text: &[u8]) -> Option<Self>
        ensures { result ≡ named written text.now every }
    {
        find(Self::all(), text)
    }
}

// The first of these that is written so.
pub fn find<N: Name>(all: &[N], text: &[u8]) -> Option<N>
    ensures { result ≡ named N.Name.written text.now all.now }
{
    all.iter().find(|name| name.is_written(text)).copied()
}
