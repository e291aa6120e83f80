// Writes a row of the master's table as the line that would add it.
ghost use Rattle.std.specs.Prelude.{◌≡◌, Ok};
ghost use Rattle.engine.specs.Held.{slots};
ghost use Rattle.ftt.specs.Questions.{asked};
ghost use Rattle.lines.specs.declared.form.Form.TheVariants.{Add};
ghost use Rattle.lines.specs.Spelling.{spell};
ghost use Rattle.lines.specs.Writing.{add_numbers, Writes};

use crate::name::Name;
use crate::word::Word;
use bus::refusal::Refusal;
use engine::row::Figures;
use ftt::master::Master;
use text::text::Line;

// Row and figures stay two arguments below: the caller gives the one and the master the other, and a struct for these
// three steps would be no plainer.
// The numbers of the add form, in their order.
fn add_numbers(row: u8, figures: Figures) -> [u8; 6]
    ensures { result ≡ add_numbers row figures }
{
    [
        row,
        figures.duration,
        figures.period,
        figures.deadline,
        figures.phase,
        figures.priority,
    ]
}

fn add_text(row: u8, figures: Figures) -> Line
    ensures { result ≡ spell (Add row figures) }
{
    let mut text = Line::new();
    text.push(b'(');
    text.push_all(Word::Add.text());
    for number in add_numbers(row, figures) {
        text.push(b' ');
        text.push_number(u64::from(number));
    }
    text.push(b')');
    text
}

fn write_add(row: u8, figures: Figures, buffer: &mut [u8]) -> Result<usize, Refusal>
    ensures { Writes (Ok figures) row buffer.old buffer.new result }
{
    let text = add_text(row, figures);
    let bytes = text.bytes();
    let needed = bytes.len();
    if buffer.len() < needed {
        return Err(Refusal::BufferTooShort { needed });
    }
    buffer[0..needed].copy_from_slice(bytes);
    Ok(needed)
}

// Puts the row's add form at the start of the buffer and answers its length.
pub fn write_row<P>(master: &Master<P>, row: u8, buffer: &mut [u8]) -> Result<usize, Refusal>
    ensures { Writes (asked 32 (slots master.now.rows) row) row buffer.old buffer.new result }
{
    let figures = master.row(row)?;
    write_add(row, figures, buffer)
}
