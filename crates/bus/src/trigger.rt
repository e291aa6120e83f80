// The four bytes by which a trigger names the rows due, in the caller's frame buffer.
ghost use Rattle.std.specs.Prelude.{◌≡◌, ◌+◌, length, IfOk, OnOk, nat_le};
ghost use Rattle.bus.specs.Refusals.{answered};
ghost use Rattle.bus.specs.Triggers.{trigger_bytes, trigger_word, NamedIn, put_at, write_answer, written, read_answer};

use super::refusal::Refusal;
use super::rows::RowSet;

const TRIGGER_BYTES: usize = 4;

// Whether a trigger from the offset on lies inside so many bytes. No offset wraps. That `write_trigger` lends `put` the
// four bytes in mid-buffer is a fixed form of the project, so it asks first and takes no part by `get_mut`.
fn fits(length: usize, offset: usize) -> bool
    ensures { result ≡ nat_le (offset + 4) length }
{
    length >= TRIGGER_BYTES && offset <= length - TRIGGER_BYTES
}

// Fills a part of four bytes.
fn put(rows: RowSet, part: &mut [u8])
    requires { length part.old ≡ 4 }
    ensures { part.new ≡ trigger_bytes rows.word }
{
    part.copy_from_slice(&rows.word.to_le_bytes());
}

// Writes the trigger at an offset of the buffer, and leaves every other byte.
pub fn write_trigger(rows: RowSet, buffer: &mut [u8], offset: usize) -> Result<(), Refusal>
    ensures value { answered result ≡ write_answer buffer.old offset }
    ensures after { buffer.new ≡ written rows.word buffer.old offset }
    ensures places { OnOk result (NamedIn rows.word buffer.new offset) }
    ensures reads_back { OnOk result (trigger_word buffer.new offset ≡ rows.word) }
{
    if !fits(buffer.len(), offset) {
        return Err(Refusal::OffsetTooHigh);
    }
    put(rows, &mut buffer[offset..offset + TRIGGER_BYTES]);
    Ok(())
}

// Reads the trigger at an offset of the buffer.
pub fn read_trigger(buffer: &[u8], offset: usize) -> Result<RowSet, Refusal>
    ensures value { answered result ≡ read_answer buffer.now offset }
    ensures places { IfOk result (λ rows. NamedIn rows.word buffer.now offset) }
    ensures writes_back { IfOk result (λ rows. put_at offset (trigger_bytes rows.word) buffer.now ≡ buffer.now) }
{
    let bytes = buffer
        .get(offset..)
        .and_then(|rest| rest.first_chunk::<TRIGGER_BYTES>())
        .ok_or(Refusal::OffsetTooHigh)?;
    Ok(RowSet {
        word: u32::from_le_bytes(*bytes),
    })
}
