// What the dispatcher, a C program, links with: the calls of `dispatch` under their C names. c/tolnakse.h declares them.
#![tactic(auto)]

ghost use Rattle.std.specs.Prelude.{◌≡◌};
ghost use Rattle.bus.specs.Frames.{frame_answer};
ghost use Rattle.bus.specs.Triggers.{write_answer, written};
ghost use Rattle.dispatch.specs.Codes.{units_code, written_code};

#[unsafe(no_mangle)]
pub extern "C" fn tolnakse_frame_units(cycle_bits: u16, data_bytes: usize) -> u32
    ensures { result ≡ units_code (frame_answer cycle_bits data_bytes) }
{
    dispatch::tolnakse_frame_units(cycle_bits, data_bytes)
}

#[unsafe(no_mangle)]
pub extern "C" fn tolnakse_write_trigger(word: u32, buffer: &mut [u8], offset: usize) -> u32
    ensures value { result ≡ written_code (write_answer buffer.old offset) }
    ensures after { buffer.new ≡ written word buffer.old offset }
{
    dispatch::tolnakse_write_trigger(word, buffer, offset)
}
