// The checks that a change has to pass.
ghost use Rattle.std.specs.Prelude.{◌≡◌, ℕ, ◌<◌, not, [], ◌∷◌, Some, nat_lt, IfOk, IfSome};
ghost use Rattle.bus.specs.Refusals.{field_number, numbered, told};
ghost use Rattle.engine.specs.Cycle.{lowest, used_and};
ghost use Rattle.engine.specs.Held.{slots};
ghost use Rattle.rules.specs.Calls.{is_used, refused_if, row_exists, in_range, width_in_range, within_window, all_within_window, new_row, put, rehearsed};
ghost use Rattle.ftt.specs.Judged.{state_of, told_outcome};
ghost use Rattle.ftt.specs.Told.{refusal_of};

use bus::refusal::{Field, Refusal};
use bus::rows::ROWS;
use engine::rehearsal::rehearse;
use engine::row::{Figures, Row};
use engine::verdict::Verdict;
use orders::policy::Policy;

// What a row of the table holds.
pub(crate) fn slot(rows: &[Option<Row>; ROWS], row: u8) -> Result<Option<Row>, Refusal>
    ensures exists { refusal_of result ≡ row_exists 32 row }
    ensures held { IfOk result (λ held. held ≡ slots rows.now row) }
{
    rows.get(usize::from(row))
        .copied()
        .ok_or(Refusal::RowAbove31)
}

// A copy of the table with one row changed. `row < 32` is asked here and in `judge_message`, and a type for such an
// index would be no plainer: `slot` has just told it, of the call's own number.
pub(crate) fn with_row(
    rows: &[Option<Row>; ROWS],
    row: u8,
    slot: Option<Row>,
) -> [Option<Row>; ROWS]
    requires { row < 32 }
    ensures { slots result ≡ put row slot (slots rows.now) }
{
    let mut changed = *rows;
    changed[usize::from(row)] = slot;
    changed
}

// A new message waits for its phase, and no instance of it waits. A function and no `From`: not every row of such figures
// is new, and the name says that this one is.
pub(crate) fn new_row(figures: Figures) -> Row
    ensures { result ≡ new_row figures }
{
    Row {
        figures,
        wait: figures.phase,
        left: 0,
    }
}

fn refuse_if(fails: bool, refusal: Refusal) -> Result<(), Refusal>
    ensures { refusal_of result ≡ refused_if fails (told refusal) }
{
    if fails { Err(refusal) } else { Ok(()) }
}

pub(crate) fn check_free(slot: Option<Row>) -> Result<(), Refusal>
    ensures { refusal_of result ≡ refused_if (is_used slot) (numbered 2 []) }
{
    refuse_if(slot.is_some(), Refusal::RowUsed)
}

pub(crate) fn check_used(slot: Option<Row>) -> Result<(), Refusal>
    ensures { refusal_of result ≡ refused_if (not (is_used slot)) (numbered 3 []) }
{
    refuse_if(slot.is_none(), Refusal::RowEmpty)
}

fn check_range(fails: bool, field: Field) -> Result<(), Refusal>
    ensures { refusal_of result ≡ refused_if fails (numbered 4 (field_number field ∷ [])) }
{
    refuse_if(fails, Refusal::OutOfRange { field })
}

// The first figure that is out of range is told.
pub(crate) fn check_figures(figures: Figures) -> Result<(), Refusal>
    ensures { refusal_of result ≡ in_range figures }
{
    check_range(figures.duration == 0, Field::Duration)?;
    check_range(figures.period == 0, Field::Period)?;
    check_range(
        figures.deadline == 0 || figures.period < figures.deadline,
        Field::Deadline,
    )
}

pub(crate) fn check_width(window: u8) -> Result<(), Refusal>
    ensures { refusal_of result ≡ width_in_range window }
{
    check_range(window == 0, Field::Window)
}

pub(crate) fn check_duration(window: u8, row: u8, figures: Figures) -> Result<(), Refusal>
    ensures { refusal_of result ≡ within_window window row figures }
{
    refuse_if(window < figures.duration, Refusal::AboveWindow { row })
}

fn is_above(slot: Option<Row>, window: u8) -> bool
    ensures { result ≡ used_and (λ row. nat_lt window row.figures.duration) slot }
{
    slot.is_some_and(|row| window < row.figures.duration)
}

// The lowest row whose duration is above the window.
fn first_above(rows: &[Option<Row>; ROWS], window: u8) -> Option<usize>
    ensures first { result ≡ lowest 32 (λ r. used_and (λ row. nat_lt window row.figures.duration) (slots rows.now r)) }
    ensures in_table { IfSome result (λ r. r < 32) }
{
    rows.iter().position(|slot| is_above(*slot, window))
}

// That row is told.
pub(crate) fn check_durations(rows: &[Option<Row>; ROWS], window: u8) -> Result<(), Refusal>
    ensures { refusal_of result ≡ all_within_window 32 window (slots rows.now) }
{
    match first_above(rows, window) {
        None => Ok(()),
        Some(row) => Err(Refusal::AboveWindow { row: row as u8 }),
    }
}

// The rehearsal of a changed table. The three go apart: each caller puts another one in the place of the master's own.
#[tactic(auto, using(crate::proofs::Steps::rehearsed_by))]
pub(crate) fn check_rehearsal<P: Policy>(
    rows: &[Option<Row>; ROWS],
    window: u8,
    policy: &P,
) -> Result<(), Refusal>
    ensures { (lost : ℕ) → told_outcome (λ _. state_of rows.now window policy.now lost) result ≡ rehearsed P.Policy.goes 32 5040 (state_of rows.now window policy.now lost) }
{
    match rehearse(rows, window, policy).ok_or(Refusal::RoundTooLong)? {
        Verdict::Settled => Ok(()),
        Verdict::Late { row, cycle } => Err(Refusal::Late { row, cycle }),
        Verdict::Unsettled => Err(Refusal::Unsettled),
    }
}
