// Examples of the orders, run.
#![tactic(auto)]

#[cfg(test)]
mod own;

#[cfg(test)]
mod tests {
    use crate::own::{LongerFirst, LowerRow};
    use orders::instance::Instance;
    use orders::keyed::{DeadlineMonotonic, EarliestDeadline, FixedPriority, RateMonotonic};
    use orders::layers::{Pinned, Urgent};
    use orders::policy::Policy;
    use orders::selector::{Selector, UnknownCode};
    use std::process::Abort;
    use std::test::Fail;

    // Instances that are equal but for the row.
    fn alike(row: u8) -> Instance {
        Instance {
            row,
            duration: 2,
            period: 9,
            deadline: 8,
            priority: 7,
            left: 6,
        }
    }

    // One that is ahead of those by its period, its deadline, its priority or its cycles left.
    fn ahead(row: u8, by: Selector) -> Instance {
        let i = alike(row);
        match by {
            Selector::RateMonotonic => Instance { period: 5, ..i },
            Selector::DeadlineMonotonic => Instance { deadline: 5, ..i },
            Selector::FixedPriority => Instance { priority: 5, ..i },
            Selector::EarliestDeadline => Instance { left: 5, ..i },
        }
    }

    // The first goes before the second, and not the second before the first.
    fn goes<P: Policy>(policy: &P, first: Instance, second: Instance) -> bool {
        policy.goes_before(first, second) & !policy.goes_before(second, first)
    }

    // What is ahead goes before a lower row, and of equal ones the lower row goes first.
    fn orders_by<P: Policy>(rt: &impl Abort, policy: &P, by: Selector, label: u8) {
        assert!(rt; goes(policy, ahead(9, by), alike(1)) & goes(policy, alike(1), alike(9)));
        assert!(rt; !policy.goes_before(ahead(1, by), alike(1)));
        assert_eq!(rt; policy.label(), label);
    }

    #[test]
    fn each_order(rt: HostRuntime) {
        orders_by(&rt, &RateMonotonic, Selector::RateMonotonic, 0);
        orders_by(&rt, &DeadlineMonotonic, Selector::DeadlineMonotonic, 1);
        orders_by(&rt, &FixedPriority, Selector::FixedPriority, 2);
        orders_by(&rt, &EarliestDeadline, Selector::EarliestDeadline, 3);
    }

    // One with a key of its own, and one with an order of its own.
    #[test]
    fn own_policies(rt: HostRuntime) {
        let i = alike(9);
        let longer = Instance { duration: 5, ..i };
        assert!(rt; goes(&LongerFirst, longer, alike(1)) & goes(&LongerFirst, alike(1), i));
        assert!(rt; goes(&LowerRow, alike(1), longer) & goes(&LowerRow, longer, alike(10)));
        let pile = Pinned {
            row: 7,
            below: LowerRow,
        };
        assert!(rt; goes(&pile, alike(7), alike(1)) & goes(&pile, alike(1), alike(2)));
        assert_eq!(rt; LongerFirst.label(), 2);
        assert_eq!(rt; LowerRow.label(), 6);
    }

    #[test]
    fn each_code(rt: HostRuntime) -> Result<(), Fail> {
        for code in 0..4 {
            let selector = Selector::try_from(code)?;
            orders_by(&rt, &selector, selector, code);
        }
        for code in [4, 255] {
            assert_eq!(rt; Selector::try_from(code), Err(UnknownCode(code)));
        }
        Ok(())
    }

    #[test]
    fn urgent_up_to_the_limit(rt: HostRuntime) {
        let soon = ahead(9, Selector::EarliestDeadline);
        let at_limit = Urgent {
            limit: 5,
            below: FixedPriority,
        };
        assert!(rt; goes(&at_limit, soon, alike(1)) & goes(&at_limit, alike(1), alike(2)));
        let past_it = Urgent {
            limit: 4,
            below: FixedPriority,
        };
        assert!(rt; goes(&past_it, alike(1), soon));
        assert!(rt; !at_limit.goes_before(ahead(1, Selector::EarliestDeadline), alike(1)));
        assert_eq!(rt; at_limit.label(), 4);
    }

    #[test]
    fn pinned_up_to_the_last_row(rt: HostRuntime) {
        let last = Pinned {
            row: 31,
            below: RateMonotonic,
        };
        assert!(rt; goes(&last, alike(31), alike(1)) & goes(&last, alike(1), alike(2)));
        let none = Pinned {
            row: 32,
            below: RateMonotonic,
        };
        assert!(rt; goes(&none, alike(1), alike(32)));
        assert_eq!(rt; last.label(), 5);
    }

    #[test]
    fn layers_pile_up(rt: HostRuntime) {
        let soon = ahead(9, Selector::EarliestDeadline);
        let pile = Urgent {
            limit: 5,
            below: Pinned {
                row: 8,
                below: Selector::FixedPriority,
            },
        };
        assert!(rt;
            goes(&pile, soon, alike(8))
                & goes(&pile, alike(8), alike(1))
                & goes(&pile, alike(1), alike(7))
        );
        let taller = Pinned {
            row: 7,
            below: pile,
        };
        assert!(rt; goes(&taller, alike(7), soon) & goes(&taller, soon, alike(8)));
        assert_eq!(rt; pile.label(), 4);
        assert_eq!(rt; taller.label(), 5);
    }
}
