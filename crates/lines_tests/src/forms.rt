// Each form, read.
use engine::row::Figures;
use lines::form::Form;
use lines::reader::read_form;
use orders::selector::Selector;

#[test]
fn one_number(rt: HostRuntime) {
    assert_eq!(rt; read_form(b"(window 120)"), Ok(Form::Window(120)));
    assert_eq!(rt; read_form(b"(drop 0)"), Ok(Form::Drop(0)));
    assert_eq!(rt; read_form(b"(drop 31)"), Ok(Form::Drop(31)));
    assert_eq!(rt; read_form(b"(next 255)"), Ok(Form::Next(255)));
    assert_eq!(rt; read_form(b"(which)"), Ok(Form::Which));
}

#[test]
fn policies(rt: HostRuntime) {
    assert_eq!(rt;
        read_form(b"(policy rm)"),
        Ok(Form::Policy(Selector::RateMonotonic))
    );
    assert_eq!(rt;
        read_form(b"(policy dm)"),
        Ok(Form::Policy(Selector::DeadlineMonotonic))
    );
    assert_eq!(rt;
        read_form(b"(policy pr)"),
        Ok(Form::Policy(Selector::FixedPriority))
    );
    assert_eq!(rt;
        read_form(b"(policy edf)"),
        Ok(Form::Policy(Selector::EarliestDeadline))
    );
}

#[test]
fn frames(rt: HostRuntime) {
    assert_eq!(rt;
        read_form(b"(frame 2500 8)"),
        Ok(Form::Frame {
            cycle_bits: 2500,
            data_bytes: 8,
        })
    );
    assert_eq!(rt;
        read_form(b"(frame 65535 255)"),
        Ok(Form::Frame {
            cycle_bits: 65_535,
            data_bytes: 255,
        })
    );
    assert_eq!(rt;
        read_form(b"(frame 0 0)"),
        Ok(Form::Frame {
            cycle_bits: 0,
            data_bytes: 0,
        })
    );
}

#[test]
fn messages(rt: HostRuntime) {
    let figures = Figures {
        duration: 10,
        period: 3,
        deadline: 2,
        phase: 1,
        priority: 7,
    };
    assert_eq!(rt;
        read_form(b"(add 0 10 3 2 1 7)"),
        Ok(Form::Add { row: 0, figures })
    );
    assert_eq!(rt;
        read_form(b"(alter 31 10 3 2 1 7)"),
        Ok(Form::Alter { row: 31, figures })
    );
}
