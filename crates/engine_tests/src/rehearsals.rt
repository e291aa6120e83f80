use crate::messages::{table, waiting_for};
use bus::rows::ROWS;
use engine::rehearsal::rehearse;
use engine::round::round_of;
use engine::verdict::Verdict;
use orders::selector::Selector;

const RM: Selector = Selector::RateMonotonic;

const EDF: Selector = Selector::EarliestDeadline;

#[test]
fn a_full_window_by_two_orders(rt: HostRuntime) {
    let three = table(&[(10, 3), (10, 4), (10, 4)]);
    assert_eq!(rt; rehearse(&three, 10, &RM), Some(Verdict::Settled));
    let four = table(&[(10, 3), (10, 4), (10, 4), (10, 6)]);
    assert_eq!(rt;
        rehearse(&four, 10, &RM),
        Some(Verdict::Late { row: 3, cycle: 6 })
    );
    assert_eq!(rt; rehearse(&four, 10, &EDF), Some(Verdict::Settled));
}

#[test]
fn late_though_every_first_instance_is_in_time(rt: HostRuntime) {
    let rows = table(&[(5, 3), (10, 3), (2, 2), (5, 3)]);
    assert_eq!(rt;
        rehearse(&rows, 10, &RM),
        Some(Verdict::Late { row: 3, cycle: 6 })
    );
    let starved = table(&[(6, 1), (5, 4)]);
    assert_eq!(rt;
        rehearse(&starved, 10, &RM),
        Some(Verdict::Late { row: 1, cycle: 4 })
    );
}

#[test]
fn late_in_the_lead_in(rt: HostRuntime) {
    let mut rows = table(&[(10, 1)]);
    rows[1] = waiting_for(10, 2, 9);
    assert_eq!(rt;
        rehearse(&rows, 10, &RM),
        Some(Verdict::Late { row: 1, cycle: 11 })
    );
}

#[test]
fn seventeen_rows_do_not_settle(rt: HostRuntime) {
    let mut rows = [None; ROWS];
    for (wait, row) in (0..16).zip(&mut rows) {
        *row = waiting_for(6, 16, wait);
    }
    assert_eq!(rt; rehearse(&rows, 10, &EDF), Some(Verdict::Settled));
    rows[16] = waiting_for(6, 16, 0);
    assert_eq!(rt; rehearse(&rows, 10, &EDF), Some(Verdict::Unsettled));
}

#[test]
fn rounds_up_to_the_limit(rt: HostRuntime) {
    assert_eq!(rt; round_of(&table(&[])), Some(1));
    assert_eq!(rt; round_of(&table(&[(1, 144), (1, 35)])), Some(5_040));
    assert_eq!(rt; round_of(&table(&[(1, 127), (1, 40)])), None);
    assert_eq!(rt;
        rehearse(&table(&[(1, 144), (1, 35)]), 10, &RM),
        Some(Verdict::Settled)
    );
    assert_eq!(rt; rehearse(&table(&[(1, 127), (1, 40)]), 10, &RM), None);
}
