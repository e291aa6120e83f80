// The line that is being read.
use text::text::Text;

// The first bytes of the line, one more than a line may have, so that a longer one is known. A number, since
// Rattle has no computed const argument such as `MOST_BYTES_IN_LINE + 1`.
pub type LineBuffer = Text<121>;
