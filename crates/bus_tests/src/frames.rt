use bus::frame::frame_units;
use bus::refusal::Refusal;

// The bit times of a frame: the shortest cycle that it fits into.
fn frame_bits(data_bytes: usize) -> u32 {
    (0..=u16::MAX)
        .find(|cycle_bits| frame_units(*cycle_bits, data_bytes).is_ok())
        .map_or(0, u32::from)
}

#[test]
fn lasts_as_published(rt: HostRuntime) {
    let empty = frame_bits(0);
    let one_byte = frame_bits(1);
    assert_eq!(rt; empty, 47, "47 µs at 1 Mbit/s, a bit each µs");
    assert_eq!(rt; u64::from(one_byte) * 1_000 / 500, 110, "µs at 500 kbit/s");
    assert_eq!(rt; u64::from(one_byte) * 1_000 / 125, 440, "µs at 125 kbit/s");
}

#[test]
fn units_in_a_cycle_of_2500_bit_times(rt: HostRuntime) {
    let units = [5u8, 6, 7, 8, 9, 9, 10, 11, 12];
    for (data_bytes, expected) in units.iter().enumerate() {
        assert_eq!(rt; frame_units(2_500, data_bytes), Ok(*expected));
    }
    assert_eq!(rt; frame_units(2_500, 9), Err(Refusal::TooManyDataBytes));
}

#[test]
fn borders_of_the_refusals(rt: HostRuntime) {
    assert_eq!(rt; frame_units(47, 0), Ok(255));
    assert_eq!(rt; frame_units(46, 0), Err(Refusal::FrameTooLong));
    assert_eq!(rt; frame_units(0, 0), Err(Refusal::FrameTooLong));
    assert_eq!(rt; frame_units(u16::MAX, 0), Ok(1));
    assert_eq!(rt; frame_units(0, usize::MAX), Err(Refusal::TooManyDataBytes));
}
