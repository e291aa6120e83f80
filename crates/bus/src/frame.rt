// How much of an elementary cycle a frame takes.
ghost use Rattle.std.specs.Prelude.{◌≡◌, IfOk};
ghost use Rattle.bus.specs.Frames.{frame_answer, frame_bits, Smallest};
ghost use Rattle.bus.specs.Refusals.{answered};

use super::refusal::Refusal;

// The window and every duration count in units: an elementary cycle has 255.
const UNITS_IN_CYCLE: u32 = 255;

// A frame's bit times without data, and those that each data byte adds.
const BARE_FRAME_BITS: u32 = 47;

const BITS_IN_BYTE: u32 = 8;

const MOST_DATA_BYTES: usize = 8;

// The units that a frame with `data_bytes` of data takes in a cycle of `cycle_bits` bit times.
pub fn frame_units(cycle_bits: u16, data_bytes: usize) -> Result<u8, Refusal>
    ensures value { answered result ≡ frame_answer cycle_bits data_bytes }
    ensures smallest { IfOk result (Smallest cycle_bits (frame_bits data_bytes)) }
{
    if data_bytes > MOST_DATA_BYTES {
        return Err(Refusal::TooManyDataBytes);
    }
    let frame_bits = BARE_FRAME_BITS + BITS_IN_BYTE * data_bytes as u32;
    let cycle_bits = u32::from(cycle_bits);
    if frame_bits > cycle_bits {
        return Err(Refusal::FrameTooLong);
    }
    Ok((UNITS_IN_CYCLE * frame_bits).div_ceil(cycle_bits) as u8)
}
