// Every refusal of a change, at its border.
use bus::refusal::{Field, Refusal};
use engine::row::Figures;
use ftt::change::Change;
use ftt::master::Master;
use ftt::watch::IdleWatch;
use orders::selector::Selector;

fn figures(duration: u8, period: u8, deadline: u8) -> Figures {
    Figures {
        duration,
        period,
        deadline,
        ..Figures::default()
    }
}

// What a master with one message of 10 units on row 31, and a window of 20, would answer.
fn answer(change: Change<Selector>) -> Result<(), Refusal> {
    let (mut master, watch) = Master::new(Selector::RateMonotonic);
    let _ = master.set_window(&watch, 20);
    let _ = master.add(&watch, 31, figures(10, 2, 2));
    master.trial(&change)
}

fn add(row: u8, figures: Figures) -> Result<(), Refusal> {
    answer(Change::Add { row, figures })
}

fn alter(row: u8, figures: Figures) -> Result<(), Refusal> {
    answer(Change::Alter { row, figures })
}

#[test]
fn rows(rt: HostRuntime) {
    assert_eq!(rt; add(30, figures(1, 1, 1)), Ok(()));
    assert_eq!(rt; add(31, figures(1, 1, 1)), Err(Refusal::RowUsed));
    assert_eq!(rt; add(32, figures(1, 1, 1)), Err(Refusal::RowAbove31));
    assert_eq!(rt; alter(30, figures(1, 1, 1)), Err(Refusal::RowEmpty));
    assert_eq!(rt; alter(31, figures(1, 1, 1)), Ok(()));
    assert_eq!(rt; alter(32, figures(1, 1, 1)), Err(Refusal::RowAbove31));
    assert_eq!(rt; answer(Change::Drop { row: 30 }), Err(Refusal::RowEmpty));
    assert_eq!(rt; answer(Change::Drop { row: 31 }), Ok(()));
    assert_eq!(rt; answer(Change::Drop { row: 32 }), Err(Refusal::RowAbove31));
}

#[test]
fn ranges(rt: HostRuntime) {
    let duration = Err(Refusal::OutOfRange {
        field: Field::Duration,
    });
    let period = Err(Refusal::OutOfRange {
        field: Field::Period,
    });
    let deadline = Err(Refusal::OutOfRange {
        field: Field::Deadline,
    });
    let window = Err(Refusal::OutOfRange {
        field: Field::Window,
    });
    assert_eq!(rt; add(0, figures(0, 0, 0)), duration, "the first is told");
    assert_eq!(rt; add(0, figures(1, 0, 0)), period);
    assert_eq!(rt; add(0, figures(1, 2, 0)), deadline);
    assert_eq!(rt; add(0, figures(1, 2, 3)), deadline);
    assert_eq!(rt; add(0, figures(1, 2, 2)), Ok(()));
    assert_eq!(rt; answer(Change::Window { window: 0 }), window);
}

#[test]
fn windows(rt: HostRuntime) {
    assert_eq!(rt;
        add(0, figures(21, 2, 2)),
        Err(Refusal::AboveWindow { row: 0 })
    );
    assert_eq!(rt; add(0, figures(20, 2, 2)), Ok(()));
    assert_eq!(rt; answer(Change::Window { window: 10 }), Ok(()));
    assert_eq!(rt;
        answer(Change::Window { window: 9 }),
        Err(Refusal::AboveWindow { row: 31 })
    );
}

#[test]
fn rehearsals(rt: HostRuntime) {
    assert_eq!(rt; add(0, figures(1, 255, 9)), Ok(()));
    assert_eq!(rt;
        add(0, figures(20, 1, 1)),
        Err(Refusal::Late { row: 31, cycle: 2 })
    );
}

#[test]
fn rounds(rt: HostRuntime) {
    let (mut master, watch) = Master::new(Selector::RateMonotonic);
    let first = master.add(&watch, 0, figures(1, 63, 1));
    let at_the_limit = master.add(&watch, 1, figures(1, 80, 1));
    let past_the_limit = master.add(&watch, 2, figures(1, 11, 1));
    let used = master.row(1);
    let empty = master.row(2);
    let none = master.row(32);
    assert_eq!(rt; first, Ok(()));
    assert_eq!(rt; at_the_limit, Ok(()));
    assert_eq!(rt; past_the_limit, Err(Refusal::RoundTooLong));
    assert_eq!(rt; used, Ok(figures(1, 80, 1)));
    assert_eq!(rt;
        empty,
        Err(Refusal::RowEmpty),
        "what was refused left nothing"
    );
    assert_eq!(rt; none, Err(Refusal::RowAbove31));
}

#[test]
fn plans(rt: HostRuntime) {
    let (master, watch) = Master::new(Selector::RateMonotonic);
    let mut none: [u32; 0] = [];
    let mut longest = [7; 256];
    let mut longer = [7; 257];
    let of_none = master.plan(&mut none);
    let of_longest = master.plan(&mut longest);
    let of_longer = master.plan(&mut longer);
    assert_eq!(rt; of_none, Err(Refusal::PlanLength));
    assert_eq!(rt; of_longest, Ok(()));
    assert_eq!(rt; longest[255], 0);
    assert_eq!(rt; of_longer, Err(Refusal::PlanLength));
    assert_eq!(rt; longer[256], 7, "a refused plan writes nothing");
}

// One unit more than half the window, released in cycle `phase` + 1 and every 16 cycles from then on.
fn staggered(phase: u8) -> Figures {
    Figures {
        duration: 6,
        period: 16,
        deadline: 16,
        phase,
        ..Figures::default()
    }
}

// Sixteen messages that take a cycle each.
fn fill(master: &mut Master<Selector>, watch: &IdleWatch) -> Result<(), Refusal> {
    master.set_window(watch, 10)?;
    for row in 0..16 {
        master.add(watch, row, staggered(row))?;
    }
    Ok(())
}

#[test]
fn a_full_bus_does_not_settle(rt: HostRuntime) {
    let (mut master, watch) = Master::new(Selector::EarliestDeadline);
    let filled = fill(&mut master, &watch);
    let one_more = master.add(&watch, 16, staggered(0));
    assert_eq!(rt; filled, Ok(()));
    assert_eq!(rt; one_more, Err(Refusal::Unsettled));
}
