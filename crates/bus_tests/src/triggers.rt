use bus::refusal::Refusal;
use bus::rows::{ROWS, RowSet};
use bus::trigger::{read_trigger, write_trigger};

// Rows 0, 9 and 31.
const WORKED: RowSet = RowSet { word: 0x8000_0201 };

#[test]
fn writes_the_worked_trigger(rt: HostRuntime) {
    let mut frame = [0xeeu8; 8];
    assert_eq!(rt; write_trigger(WORKED, &mut frame, 2), Ok(()));
    assert_eq!(rt; frame, [0xee, 0xee, 0x01, 0x02, 0x00, 0x80, 0xee, 0xee]);
    assert_eq!(rt; read_trigger(&frame, 2), Ok(WORKED));
}

#[test]
fn refuses_what_does_not_fit(rt: HostRuntime) {
    let mut frame = [0xeeu8; 8];
    assert_eq!(rt;
        write_trigger(WORKED, &mut frame, 5),
        Err(Refusal::OffsetTooHigh)
    );
    assert_eq!(rt;
        write_trigger(WORKED, &mut frame, usize::MAX),
        Err(Refusal::OffsetTooHigh)
    );
    assert_eq!(rt; frame, [0xee; 8]);
    assert_eq!(rt; read_trigger(&frame, 5), Err(Refusal::OffsetTooHigh));
    assert_eq!(rt; read_trigger(&[], 0), Err(Refusal::OffsetTooHigh));
}

#[test]
fn names_rows(rt: HostRuntime) {
    assert!(rt; WORKED.contains(0) && WORKED.contains(9) && WORKED.contains(31));
    assert!(rt; !WORKED.contains(1) && !WORKED.contains(32) && !WORKED.contains(255));
    let mut rows = [false; ROWS];
    rows[0] = true;
    rows[9] = true;
    rows[31] = true;
    assert_eq!(rt; RowSet::from_rows(&rows), WORKED);
    assert_eq!(rt; WORKED.to_rows(), rows);
}

#[test]
fn goes_over_rows(rt: HostRuntime) {
    let mut rows = WORKED.into_iter();
    assert_eq!(rt; rows.next(), Some(0));
    assert_eq!(rt; rows.next(), Some(9));
    assert_eq!(rt; rows.next(), Some(31));
    assert_eq!(rt; rows.next(), None);
    assert_eq!(rt; RowSet { word: 0 }.into_iter().next(), None);
    assert_eq!(rt; RowSet { word: u32::MAX }.into_iter().nth(31), Some(31));
}
