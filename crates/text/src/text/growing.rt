// How a text is begun, grown, read and cleared. What does not fit is let go, so that no text takes more memory.
ghost use Rattle.std.specs.Prelude.{◌≡◌, ◌≤◌, [], ◌∷◌, decimal, length};
ghost use Rattle.text.specs.Texts.{grown};

use crate::text::Text;
use arrayvec::ArrayVec;

impl<const ROOM: usize> Text<ROOM> {
    pub fn new() -> Self
        ensures { result ≡ [] }
    {
        Text {
            bytes: ArrayVec::new(),
        }
    }

    pub fn bytes(&self) -> &[u8]
        ensures value { result.now ≡ self.now }
        ensures within { length result.now ≤ ROOM }
    {
        self.bytes.as_slice()
    }

    // An empty vector in its place: `clear` of the vector goes over every byte.
    pub fn clear(&mut self)
        ensures { self.new ≡ [] }
    {
        self.bytes = ArrayVec::new();
    }

    pub fn push(&mut self, byte: u8)
        ensures { self.new ≡ grown ROOM self.old (byte ∷ []) }
    {
        let _ = self.bytes.try_push(byte);
    }

    // Bytes as they are.
    pub fn push_all(&mut self, part: &[u8])
        ensures { self.new ≡ grown ROOM self.old part.now }
    {
        // The proof learns from a field that the text is no longer than its room.
        let _ = &self.bytes;
        for byte in part {
            self.push(*byte);
        }
    }

    // A number in decimal, its last digit after those of its tenth. By hand, since `write!` promises the digits only
    // where it succeeds, and no contract says that it does.
    pub fn push_number(&mut self, number: u64)
        ensures { self.new ≡ grown ROOM self.old (decimal number) }
    {
        if number >= 10 {
            self.push_number(number / 10);
        }
        self.push(b'0' + (number % 10) as u8);
    }
}
