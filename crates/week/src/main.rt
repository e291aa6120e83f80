// One working week of a cart's bus: the changes that the crew made, and the account of every message at its end.
#![tactic(auto)]

mod account;
mod crew;

use account::Book;
use crew::Crew;
use engine::row::Figures;
use orders::selector::Selector;
use std::io;

// The left gradiometer's reading.
const GRADIOMETER: u8 = 4;

fn figures(duration: u8, period: u8, deadline: u8, phase: u8) -> Figures {
    Figures {
        duration,
        period,
        deadline,
        phase,
        priority: 0,
    }
}

fn monday(rt: &HostRuntime, crew: &mut Crew) -> io::Result<()> {
    crew.window(rt, 40)?;
    crew.add(rt, GRADIOMETER, figures(12, 2, 2, 1))
}

// A resistance frame is hung beside it; a fourth row would make the wheel counter, row 7, late in the ninth cycle.
fn tuesday(rt: &HostRuntime, crew: &mut Crew) -> io::Result<()> {
    crew.add(rt, 5, figures(10, 3, 3, 1))?;
    crew.add(rt, 6, figures(8, 2, 2, 2))?;
    crew.add(rt, 7, figures(20, 4, 3, 2))?;
    crew.add(rt, 8, figures(20, 2, 2, 4))
}

// The cart slows.
fn wednesday(rt: &HostRuntime, crew: &mut Crew) -> io::Result<()> {
    crew.alter(rt, GRADIOMETER, figures(12, 4, 4, 0))?;
    crew.policy(rt, Selector::EarliestDeadline)
}

fn thursday(rt: &HostRuntime, crew: &mut Crew) -> io::Result<()> {
    crew.remove(rt, 5)?;
    crew.remove(rt, 6)?;
    crew.window(rt, 60)
}

fn friday(rt: &HostRuntime, book: &Book) -> io::Result<()> {
    for account in book.accounts() {
        let balance = account.balance(book.count);
        println!(rt; "  {balance}")?;
    }
    Ok(())
}

fn main(rt: HostRuntime) -> io::Result<()> {
    let mut crew = Crew::new();
    rt.println("Monday")?;
    monday(&rt, &mut crew)?;
    crew = crew.run(6, 0);
    rt.println("Tuesday")?;
    tuesday(&rt, &mut crew)?;
    crew = crew.run(9, 0);
    rt.println("Wednesday")?;
    wednesday(&rt, &mut crew)?;
    crew = crew.run(5, 0);
    rt.println("Thursday")?;
    crew = crew.run(2, 2);
    let lost = crew.lost_in_a_row();
    println!(rt; "  triggers lost in a row: {lost}")?;
    crew = crew.run(5, 0);
    thursday(&rt, &mut crew)?;
    crew = crew.run(8, 0);
    let count = crew.book.count;
    println!(rt; "Friday, after {count} cycles")?;
    friday(&rt, &crew.book)
}
