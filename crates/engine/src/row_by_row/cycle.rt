// One elementary cycle of the table, row by row.
ghost use Rattle.std.specs.Prelude.{◌≡◌, ℕ, ◌+◌, ◌*◌, ◌<◌, ◌≤◌, [], length, slice_index};
ghost use Rattle.std.specs.Option.{option_to_list};
ghost use Rattle.bus.specs.Rows.{member};
ghost use Rattle.engine.specs.Cycle.{cycle, late_row, lowest, release, scheduled, waiter, waiters, word};
ghost use Rattle.engine.specs.Load.{scheduled_units};
ghost use Rattle.engine.specs.Held.{slots, rules_of, rules_by, demand, CountedIn, Demands, closed_by, late_by, word_below};

use crate::cycle::Outcome;
use crate::line::{Line, duration};
use crate::row::Row;
use crate::rules::Rules;
use arrayvec::ArrayVec;
use bus::rows::{ROWS, RowSet};
use orders::instance::Instance;
use orders::policy::Policy;

// Runs one cycle on the rows.
pub fn run_cycle<P: Policy>(rows: &mut [Option<Row>; ROWS], window: u8, policy: &P) -> Outcome
    ensures after { slots rows.new ≡ cycle (rules_of (P.Policy.goes policy.now) window) (slots rows.old) }
    ensures word { result.schedule.word ≡ word (rules_of (P.Policy.goes policy.now) window) (slots rows.old) }
    ensures late { result.late ≡ late_row (rules_of (P.Policy.goes policy.now) window) (slots rows.old) }
    ensures within { scheduled_units (rules_of (P.Policy.goes policy.now) window) (slots rows.old) ≤ window }
{
    release(rows);
    let schedule = schedule(rows, &Rules { window, policy });
    let late = close(rows, schedule);
    Outcome { schedule, late }
}

// Every row whose wait is over releases an instance.
fn release(rows: &mut [Option<Row>; ROWS])
    ensures { slots rows.new ≡ release (slots rows.old) }
{
    for slot in rows.iter_mut() {
        if let Some(row) = *slot {
            *slot = Some(row.release());
        }
    }
}

// The rows whose instance waits and fits into the window behind all that go before it.
fn schedule<P: Policy>(rows: &[Option<Row>; ROWS], rules: &Rules<P>) -> RowSet
    ensures { result.word ≡ word_below 32 (scheduled (rules_by P.Policy.goes rules.now) (slots rows.now)) }
{
    let mut waiting = Line::new();
    let mut demands = ArrayVec::new();
    gather(rows, rules.policy, &mut waiting, &mut demands);
    let mut word = 0;
    for (k, demand) in demands.iter().enumerate() {
        if *demand <= u16::from(rules.window) {
            word |= 1 << waiting[k].row;
        }
    }
    RowSet { word }
}

// The waiting instances, in the order of the rows, and for each its duration and those of all that go before it.
fn gather<P: Policy>(
    rows: &[Option<Row>; ROWS],
    policy: &P,
    waiting: &mut Line,
    demands: &mut ArrayVec<u16, ROWS>,
)
    requires waiting { waiting.old.items ≡ [] }
    requires demands { demands.old.items ≡ [] }
    ensures waiting { waiting.new.items ≡ waiters 32 (slots rows.now) }
    ensures long { length demands.new.items ≡ length waiting.new.items }
    ensures demands { Demands (P.Policy.goes policy.now) (waiters 32 (slots rows.now)) demands.new.items }
{
    for (r, slot) in rows.iter().enumerate() {
        if let Some(new) = waiting_instance(*slot, r as u8) {
            let own = weigh(policy, waiting, new, demands);
            demands.push(own);
            waiting.push(new);
        }
    }
}

// What a row has waiting, if anything.
fn waiting_instance(slot: Option<Row>, row: u8) -> Option<Instance>
    ensures { option_to_list result ≡ waiter row slot }
{
    slot.filter(|used| used.waits())
        .map(|used| used.instance(row))
}

// Counts a further instance in the demands of those that it goes before, and answers its own among them.
fn weigh<P: Policy>(policy: &P, waiting: &[Instance], new: Instance, demands: &mut [u16]) -> u16
    requires room { length waiting.now < 32 }
    requires long { length demands.old ≡ length waiting.now }
    requires bound { (k : ℕ) → k < length demands.old → slice_index demands.old k ≤ 255 * length waiting.now }
    ensures own { result ≡ demand (P.Policy.goes policy.now) waiting.now new }
    ensures own_bound { result ≤ 255 * (length waiting.now + 1) }
    ensures long { length demands.new ≡ length demands.old }
    ensures bound { (k : ℕ) → k < length demands.new → slice_index demands.new k ≤ 255 * (length waiting.now + 1) }
    ensures others { CountedIn (P.Policy.goes policy.now) waiting.now new (length waiting.now) demands.old demands.new }
{
    let added = duration(new);
    let mut own = added;
    for (k, other) in waiting.iter().enumerate() {
        if policy.goes_before(*other, new) {
            own += duration(*other);
        } else {
            demands[k] += added;
        }
    }
    own
}

// The cycle's end: the scheduled instances are gone, and all else comes a cycle nearer. Answers the lowest late row.
fn close(rows: &mut [Option<Row>; ROWS], schedule: RowSet) -> Option<u8>
    ensures after { slots rows.new ≡ closed_by (member schedule.word) (slots rows.old) }
    ensures late { result ≡ lowest 32 (late_by (member schedule.word) (slots rows.old)) }
{
    let mut late = None;
    for (r, slot) in rows.iter_mut().enumerate() {
        if let Some(row) = *slot {
            let scheduled = schedule.contains(r as u8);
            late = late.or(row.misses(scheduled).then_some(r as u8));
            *slot = Some(row.close(scheduled));
        }
    }
    late
}
