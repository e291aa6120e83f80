// Masters at work: changes, cycles, questions and refusals, run.
#![tactic(auto)]

#[cfg(test)]
mod refusals;
#[cfg(test)]
mod watches;

#[cfg(test)]
mod tests {
    use bus::refusal::Refusal;
    use engine::row::Figures;
    use ftt::change::Change;
    use ftt::master::Master;
    use ftt::watch::IdleWatch;
    use orders::selector::Selector;

    const CYCLES: usize = 12;

    // A message due by its next release.
    fn message(duration: u8, period: u8) -> Figures {
        Figures {
            duration,
            period,
            deadline: period,
            ..Figures::default()
        }
    }

    // Three messages, each of which fills the window.
    fn fill(master: &mut Master<Selector>, watch: &IdleWatch) -> Result<(), Refusal> {
        master.set_window(watch, 10)?;
        master.add(watch, 0, message(10, 3))?;
        master.add(watch, 1, message(10, 4))?;
        master.add(watch, 2, message(10, 4))
    }

    // Runs cycles whose triggers are all sent, and keeps their words.
    fn run(master: &mut Master<Selector>, idle: IdleWatch, words: &mut [u32; CYCLES]) -> IdleWatch {
        let mut watch = idle;
        for word in words.iter_mut() {
            let owed = master.next(watch);
            *word = owed.schedule().word;
            watch = owed.sent();
        }
        watch
    }

    #[test]
    fn a_fourth_message_wants_another_policy(rt: HostRuntime) {
        let (mut master, watch) = Master::new(Selector::RateMonotonic);
        let filled = fill(&mut master, &watch);
        let late = master.add(&watch, 3, message(10, 6));
        let tried = master.trial(&Change::Policy {
            policy: Selector::EarliestDeadline,
        });
        let policy = master.set_policy(&watch, Selector::EarliestDeadline);
        let fourth = master.add(&watch, 3, message(10, 6));
        let mut planned = [0; CYCLES];
        let plan = master.plan(&mut planned);
        let mut words = [0; CYCLES];
        let watch = run(&mut master, watch, &mut words);
        assert_eq!(rt; filled, Ok(()));
        assert_eq!(rt; late, Err(Refusal::Late { row: 3, cycle: 6 }));
        assert_eq!(rt; tried, Ok(()));
        assert_eq!(rt; policy, Ok(()));
        assert_eq!(rt; fourth, Ok(()));
        assert_eq!(rt; plan, Ok(()));
        assert_eq!(rt; words, [1, 2, 4, 1, 8, 2, 4, 1, 2, 1, 4, 8]);
        assert_eq!(rt; planned, words);
    }

    #[test]
    fn a_declined_change_leaves_all_as_it_was(rt: HostRuntime) {
        let (mut one, first) = Master::new(Selector::RateMonotonic);
        let (mut other, second) = Master::new(Selector::RateMonotonic);
        let filled = fill(&mut one, &first);
        let filled_too = fill(&mut other, &second);
        let narrow = one.set_window(&first, 9);
        let late = one.add(&first, 3, message(10, 6));
        let still_alike = one.alike(&other);
        let first = one.next(first).sent();
        let alike_at_other_cycles = one.alike(&other);
        let dropped = one.drop_row(&first, 2);
        let alike_without_a_row = one.alike(&other);
        assert_eq!(rt; filled, Ok(()));
        assert_eq!(rt; filled_too, Ok(()));
        assert_eq!(rt; narrow, Err(Refusal::AboveWindow { row: 0 }));
        assert_eq!(rt; late, Err(Refusal::Late { row: 3, cycle: 6 }));
        assert!(rt; still_alike && alike_at_other_cycles);
        assert_eq!(rt; dropped, Ok(()));
        assert!(rt; !alike_without_a_row);
    }

    #[test]
    fn an_altered_message_begins_anew(rt: HostRuntime) {
        let (mut master, watch) = Master::new(Selector::RateMonotonic);
        let filled = fill(&mut master, &watch);
        let altered = master.alter(&watch, 2, message(10, 6));
        let figures = master.row(2);
        let watch = master.next(watch).sent();
        let owed = master.next(watch);
        let second = owed.schedule().word;
        let owed = master.next(owed.sent());
        let third = owed.schedule().word;
        let _idle = owed.sent();
        assert_eq!(rt; filled, Ok(()));
        assert_eq!(rt; altered, Ok(()));
        assert_eq!(rt; figures, Ok(message(10, 6)));
        assert_eq!(rt; second, 2);
        assert_eq!(rt; third, 4);
    }
}
