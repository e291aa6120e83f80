// The shape of a line: an opening bracket, a word, items that each follow one space, a closing bracket.
ghost use Rattle.std.specs.Prelude.{◌≡◌, Ok};
ghost use Rattle.bus.specs.Refusals.{answered};
ghost use Rattle.lines.specs.declared.shape.Stage.TheVariants.{Opening};
ghost use Rattle.lines.specs.Shapes.{step, closed, misplaced};
ghost use Rattle.lines.specs.Reading.{unless, bad_sign};

use crate::sign::{Sign, classify};
use bus::refusal::Refusal;

// What the signs so far have led to.
#[derive(Clone, Copy)]
pub enum Stage {
    // nothing yet
    Opening,
    // the opening bracket
    WordDue,
    // a letter
    InWord,
    // a space
    ItemDue,
    // a digit
    InNumber,
    // the closing bracket
    Closed,
}

impl Stage {
    // The stage after one more sign, if a line can go on so.
    pub fn after(self, sign: Sign) -> Option<Stage>
        ensures { result ≡ step self sign }
    {
        match (self, sign) {
            (Stage::Opening, Sign::Open) => Some(Stage::WordDue),
            (Stage::WordDue | Stage::InWord | Stage::ItemDue, Sign::Letter) => Some(Stage::InWord),
            (Stage::ItemDue | Stage::InNumber, Sign::Digit) => Some(Stage::InNumber),
            (Stage::InWord | Stage::InNumber, Sign::Space) => Some(Stage::ItemDue),
            (Stage::InWord | Stage::InNumber, Sign::Close) => Some(Stage::Closed),
            _ => None,
        }
    }

    // Whether a line may end here.
    pub fn is_closed(self) -> bool
        ensures { result ≡ closed self }
    {
        matches!(self, Stage::Closed)
    }
}

// Declines the line at the first sign that cannot continue a form, or at its end if the form is not complete.
pub fn check_shape(line: &[u8]) -> Result<(), Refusal>
    ensures { answered result ≡ unless bad_sign (misplaced Opening 0 line.now) (Ok tt) }
{
    let mut stage = Stage::Opening;
    for (place, byte) in line.iter().enumerate() {
        let Some(next) = stage.after(classify(*byte as char)) else {
            return Err(Refusal::BadSign { place });
        };
        stage = next;
    }
    if !stage.is_closed() {
        return Err(Refusal::BadSign { place: line.len() });
    }
    Ok(())
}
