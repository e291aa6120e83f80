// Published tables, run: subsets of the SAE benchmark on elementary cycles of 5 ms with frames of 23 units, and a bus
// on which every row goes in every cycle.
#![tactic(auto)]

#[cfg(test)]
mod tests {
    use bus::refusal::Refusal;
    use engine::row::Figures;
    use ftt::master::Master;
    use ftt::watch::IdleWatch;
    use orders::keyed::RateMonotonic;
    use std::iter::repeat_n;

    // Messages with the same figures: units, and period and deadline in cycles.
    #[derive(Clone, Copy)]
    struct Group {
        messages: usize,
        duration: u8,
        period: u8,
        deadline: u8,
    }

    const FRAME_UNITS: u8 = 23;

    // The benchmark's types.
    const TYPE_A: Group = Group {
        messages: 8,
        duration: FRAME_UNITS,
        period: 1,
        deadline: 1,
    };

    const TYPE_B: Group = Group {
        messages: 2,
        duration: FRAME_UNITS,
        period: 2,
        deadline: 2,
    };

    const TYPE_D: Group = Group {
        messages: 8,
        duration: FRAME_UNITS,
        period: 10,
        deadline: 4,
    };

    const TYPE_E: Group = Group {
        messages: 6,
        duration: FRAME_UNITS,
        period: 20,
        deadline: 20,
    };

    const TYPE_F: Group = Group {
        messages: 6,
        duration: FRAME_UNITS,
        period: 200,
        deadline: 200,
    };

    const EVERY_ROW: Group = Group {
        messages: 32,
        duration: 6,
        period: 1,
        deadline: 1,
    };

    fn message(group: Group) -> Figures {
        Figures {
            duration: group.duration,
            period: group.period,
            deadline: group.deadline,
            ..Figures::default()
        }
    }

    // Adds the groups from row 0 on, and answers the first free row.
    fn fill(
        master: &mut Master<RateMonotonic>,
        watch: &IdleWatch,
        groups: &[Group],
    ) -> Result<u8, Refusal> {
        let messages = groups
            .iter()
            .flat_map(|group| repeat_n(message(*group), group.messages));
        let mut rows = 0..u8::MAX;
        for (figures, row) in messages.zip(&mut rows) {
            master.add(watch, row, figures)?;
        }
        Ok(rows.start)
    }

    // The answer to one more of the slowest messages in a window of so many units.
    fn one_more(window: u8, groups: &[Group]) -> Result<(), Refusal> {
        let (mut master, watch) = Master::new(RateMonotonic);
        master.set_window(&watch, window)?;
        let row = fill(&mut master, &watch, groups)?;
        master.add(&watch, row, message(TYPE_F))
    }

    #[test]
    fn a_full_window_has_no_room_for_a_slow_message(rt: HostRuntime) {
        assert_eq!(rt;
            one_more(184, &[TYPE_A]),
            Err(Refusal::Late { row: 8, cycle: 200 })
        );
    }

    #[test]
    fn nor_has_one_that_fills_every_second_cycle(rt: HostRuntime) {
        assert_eq!(rt;
            one_more(207, &[TYPE_A, TYPE_B]),
            Err(Refusal::Late {
                row: 10,
                cycle: 200,
            })
        );
    }

    // The first of so many cycles that schedules a row.
    fn first_cycle(
        master: &mut Master<RateMonotonic>,
        idle: IdleWatch,
        row: u8,
        most: u8,
    ) -> Option<u8> {
        let mut watch = idle;
        for cycle in 1..=most {
            let owed = master.next(watch);
            let schedule = owed.schedule();
            watch = owed.sent();
            if schedule.contains(row) {
                return Some(cycle);
            }
        }
        None
    }

    #[test]
    fn a_wider_window_takes_the_whole_benchmark_and_one_more(rt: HostRuntime) {
        let groups = [TYPE_A, TYPE_B, TYPE_D, TYPE_E, TYPE_F];
        let (mut master, watch) = Master::new(RateMonotonic);
        let window = master.set_window(&watch, 253);
        let row = fill(&mut master, &watch, &groups);
        let added = master.add(&watch, 30, message(TYPE_F));
        let first = first_cycle(&mut master, watch, 30, 20);
        assert_eq!(rt; window, Ok(()));
        assert_eq!(rt; row, Ok(30));
        assert_eq!(rt; added, Ok(()));
        assert_eq!(rt; first, Some(15));
    }

    #[test]
    fn thirty_two_messages_go_in_every_cycle(rt: HostRuntime) {
        let (mut master, idle) = Master::new(RateMonotonic);
        let filled = fill(&mut master, &idle, &[EVERY_ROW]);
        let mut watch = idle;
        // A flag: each turn takes the watch and hands on another, which `all` has no place for.
        let mut all_go = true;
        for _ in 0..100 {
            let owed = master.next(watch);
            all_go &= owed.schedule().word == u32::MAX;
            watch = owed.sent();
        }
        assert_eq!(rt; filled, Ok(32));
        assert!(rt; all_go);
    }
}
