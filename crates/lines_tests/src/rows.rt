// Rows written as text.
use bus::refusal::Refusal;
use engine::row::Figures;
use ftt::master::Master;
use lines::form::Form;
use lines::reader::read_form;
use lines::writer::write_row;
use orders::selector::Selector;
use std::test::Fail;

// Numbers of one, two and three digits.
const FIGURES: Figures = Figures {
    duration: 10,
    period: 100,
    deadline: 90,
    phase: 0,
    priority: 255,
};

// What stands in a buffer that was not written.
const OLD: u8 = b'#';

fn with_messages() -> Result<Master<Selector>, Refusal> {
    let (mut master, watch) = Master::new(Selector::RateMonotonic);
    master.add(&watch, 0, FIGURES)?;
    master.add(&watch, 31, FIGURES)?;
    Ok(master)
}

#[test]
fn bytes_beyond_the_text_stay(rt: HostRuntime) -> Result<(), Fail> {
    let master = with_messages()?;
    let mut buffer = [OLD; 28];
    assert_eq!(rt; write_row(&master, 31, &mut buffer), Ok(24));
    assert!(rt; buffer == *b"(add 31 10 100 90 0 255)####");
    Ok(())
}

#[test]
fn a_buffer_of_just_the_length(rt: HostRuntime) -> Result<(), Fail> {
    let master = with_messages()?;
    let mut buffer = [OLD; 23];
    assert_eq!(rt; write_row(&master, 0, &mut buffer), Ok(23));
    assert!(rt; buffer == *b"(add 0 10 100 90 0 255)");
    Ok(())
}

#[test]
fn a_buffer_one_byte_too_short(rt: HostRuntime) -> Result<(), Fail> {
    let master = with_messages()?;
    let mut buffer = [OLD; 23];
    assert_eq!(rt;
        write_row(&master, 31, &mut buffer),
        Err(Refusal::BufferTooShort { needed: 24 })
    );
    assert!(rt; buffer == [OLD; 23]);
    let mut none = [OLD; 0];
    assert_eq!(rt;
        write_row(&master, 0, &mut none),
        Err(Refusal::BufferTooShort { needed: 23 })
    );
    Ok(())
}

#[test]
fn rows_that_cannot_be_written(rt: HostRuntime) -> Result<(), Fail> {
    let master = with_messages()?;
    let mut buffer = [OLD; 8];
    assert_eq!(rt;
        write_row(&master, 32, &mut buffer),
        Err(Refusal::RowAbove31)
    );
    assert_eq!(rt; write_row(&master, 30, &mut buffer), Err(Refusal::RowEmpty));
    assert!(rt; buffer == [OLD; 8]);
    Ok(())
}

#[test]
fn what_is_written_can_be_read(rt: HostRuntime) -> Result<(), Fail> {
    let master = with_messages()?;
    let mut buffer = [OLD; 24];
    assert_eq!(rt; write_row(&master, 31, &mut buffer), Ok(24));
    assert_eq!(rt;
        read_form(&buffer),
        Ok(Form::Add {
            row: 31,
            figures: FIGURES,
        })
    );
    Ok(())
}
