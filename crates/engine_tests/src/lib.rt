// Small tables: their cycles and their rehearsals, run.
#![tactic(auto)]

#[cfg(test)]
mod messages;
#[cfg(test)]
mod rehearsals;

#[cfg(test)]
mod tests {
    use crate::messages::{fresh, table};
    use bus::rows::ROWS;
    use engine::cycle::run_cycle;
    use engine::row::Row;
    use orders::keyed::RateMonotonic;

    // The word of the coming cycle.
    fn word(rows: &mut [Option<Row>; ROWS], window: u8) -> u32 {
        run_cycle(rows, window, &RateMonotonic).schedule.word
    }

    #[test]
    fn none_is_passed_by_a_smaller_one(rt: HostRuntime) {
        let mut rows = table(&[(6, 2), (5, 4), (4, 4)]);
        assert_eq!(rt;
            word(&mut rows, 10),
            1,
            "row 2 would fit, and row 1 is before it"
        );
        assert_eq!(rt; word(&mut rows, 10), 6);
        assert_eq!(rt; word(&mut rows, 10), 1);
    }

    #[test]
    fn one_fills_the_window(rt: HostRuntime) {
        let mut rows = table(&[(10, 3), (10, 4), (10, 4)]);
        assert_eq!(rt; word(&mut rows, 10), 1);
        assert_eq!(rt; word(&mut rows, 10), 2);
        assert_eq!(rt; word(&mut rows, 10), 4);
    }

    #[test]
    fn every_row_in_one_cycle(rt: HostRuntime) {
        let mut rows = [fresh(6, 1); ROWS];
        let outcome = run_cycle(&mut rows, 255, &RateMonotonic);
        assert_eq!(rt; outcome.schedule.word, u32::MAX);
        assert_eq!(rt; outcome.late, None);
    }

    #[test]
    fn the_lowest_late_row_is_told(rt: HostRuntime) {
        let mut rows = [None; ROWS];
        rows[3] = fresh(10, 1);
        rows[7] = fresh(10, 2);
        rows[9] = fresh(10, 2);
        assert_eq!(rt; run_cycle(&mut rows, 10, &RateMonotonic).late, None);
        let outcome = run_cycle(&mut rows, 10, &RateMonotonic);
        assert_eq!(rt; outcome.schedule.word, 8);
        assert_eq!(rt; outcome.late, Some(7));
    }
}
