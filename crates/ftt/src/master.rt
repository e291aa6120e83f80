// The master: its table of messages, its window and its policy.
ghost use Rattle.std.specs.Prelude.{◌≡◌, ℕ, ◌≤◌, true};
ghost use Rattle.std.specs.Option.{ForSome};
ghost use Rattle.engine.specs.Rows.{sound};
ghost use Rattle.engine.specs.Held.{slots};

use bus::rows::ROWS;
use engine::row::Row;

mod changes;
mod checks;
mod cycles;
mod judge;
mod questions;

#[derive(Drop)]
pub struct Master<P> {
    rows: [Option<Row>; ROWS],
    // units of a cycle that are for the scheduled messages
    window: u8,
    policy: P,
    ghost sound: { (r : ℕ) → ForSome (slots rows r) (λ row. sound row ≡ true) },
    ghost open: { 1 ≤ window },
}
