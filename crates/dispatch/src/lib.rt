// The plain calls of the dispatcher, a C program, on numbers and bytes; `dispatch_c` exports them.
// C has no `Result`, so an answer is one number.
#![tactic(auto)]

ghost use Rattle.std.specs.Prelude.{◌≡◌};
ghost use Rattle.bus.specs.Frames.{frame_answer};
ghost use Rattle.bus.specs.Triggers.{write_answer, written};
ghost use Rattle.dispatch.specs.Codes.{units_code, written_code};

use bus::frame::frame_units;
use bus::rows::RowSet;
use bus::trigger::write_trigger;

// Added to a refusal's number where the answer could be units.
const REFUSED: u32 = 1_000;

// The units of a frame with so many data bytes in a cycle of so many bit times, or 1,000 and the refusal's number.
pub fn tolnakse_frame_units(cycle_bits: u16, data_bytes: usize) -> u32
    ensures { result ≡ units_code (frame_answer cycle_bits data_bytes) }
{
    match frame_units(cycle_bits, data_bytes) {
        Ok(units) => u32::from(units),
        Err(refusal) => REFUSED + u32::from(refusal.number()),
    }
}

// Writes a trigger's four bytes at an offset of the buffer: 0, or the refusal's number and the buffer as it was.
pub fn tolnakse_write_trigger(word: u32, buffer: &mut [u8], offset: usize) -> u32
    ensures value { result ≡ written_code (write_answer buffer.old offset) }
    ensures after { buffer.new ≡ written word buffer.old offset }
{
    match write_trigger(RowSet { word }, buffer, offset) {
        Ok(()) => 0,
        Err(refusal) => u32::from(refusal.number()),
    }
}
