// The rehearsal of a table on a copy, from the counters that it has.
ghost use Rattle.std.specs.Prelude.{◌≡◌, ℕ, ◌+◌, ◌^◌, ◌<◌, Some};
ghost use Rattle.std.specs.Option.{unwrap_or};
ghost use Rattle.engine.specs.Cycle.{Slots};
ghost use Rattle.engine.specs.Held.{slots, rules_of, rules_by};
ghost use Rattle.engine.specs.Rehearsal.{lead_in, round, stretch, rounds, verdict};
ghost use Rattle.engine.specs.Verdicts.{Foretells};
ghost use Rattle.engine.specs.declared.verdict.Verdict.{Verdict as Decided};

use crate::columns::Columns;
use crate::round::{has_settled, lead_in, round_of};
use crate::row::Row;
use crate::rules::Rules;
use crate::running::Running;
use crate::verdict::Verdict;
use bus::rows::ROWS;
use orders::instance::Cycles;
use orders::policy::Policy;

// A table that has not settled after so many rounds is not waited for any longer.
const MOST_ROUNDS: u32 = 4;

// Runs so many cycles, the first of which has the number `coming`; a late row ends them.
fn run_stretch<T: Running, P: Policy>(
    table: &mut T,
    rules: &Rules<P>,
    cycles: u32,
    coming: u32,
) -> Option<Verdict>
    requires { coming + cycles < 2 ^ 32 }
    ensures { (t : Slots) → T.shows table.old t → (u : Slots) × T.shows table.new u × ((next : Slots → Decided) → stretch (rules_by P.Policy.goes rules.now) cycles coming next t ≡ unwrap_or result (next u)) }
{
    for done in 0..cycles {
        if let Some(row) = table.run(rules).late {
            return Some(Verdict::Late {
                row,
                cycle: coming + done,
            });
        }
    }
    None
}

// Runs rounds until the table has settled, at most four.
fn run_rounds<T: Running, P: Policy>(
    table: &mut T,
    rules: &Rules<P>,
    round: u32,
    first: u32,
) -> Verdict
    requires { (round < 2 ^ 16) × (first < 2 ^ 20) }
    ensures { (t : Slots) → T.shows table.old t → result ≡ rounds (rules_by P.Policy.goes rules.now) round 4 first t }
{
    let mut coming = first;
    for _done in 0..MOST_ROUNDS {
        let start = table.waiting();
        if let Some(late) = run_stretch(table, rules, round, coming) {
            return late;
        }
        if has_settled(start, table.waiting()) {
            return Verdict::Settled;
        }
        coming += round;
    }
    Verdict::Unsettled
}

// The verdict on a table with this lead-in and this round.
fn judge<T: Running, P: Policy>(
    table: &mut T,
    rules: &Rules<P>,
    lead: Cycles,
    round: u16,
) -> Verdict
    ensures { (t : Slots) → T.shows table.old t → lead ≡ lead_in 32 t → result ≡ verdict (rules_by P.Policy.goes rules.now) round t }
{
    let lead = u32::from(lead);
    match run_stretch(table, rules, lead, 1) {
        Some(late) => late,
        None => run_rounds(table, rules, u32::from(round), 1 + lead),
    }
}

// The verdict on these rows, whose round has so many cycles, by a table that holds them.
pub(crate) fn rehearse_on<T: Running, P: Policy>(
    table: &mut T,
    rows: &[Option<Row>; ROWS],
    rules: &Rules<P>,
    cycles: u16,
) -> Verdict
    requires held { T.shows table.old (slots rows.now) }
    requires rounds { Some cycles ≡ round 5040 32 (slots rows.now) }
    ensures { Foretells (rules_by P.Policy.goes rules.now) (slots rows.now) (Some result) }
{
    judge(table, rules, lead_in(rows), cycles)
}

// The verdict on a table; none where its round is too long to rehearse. The table itself is left as it is.
pub fn rehearse<P: Policy>(rows: &[Option<Row>; ROWS], window: u8, policy: &P) -> Option<Verdict>
    ensures { Foretells (rules_of (P.Policy.goes policy.now) window) (slots rows.now) result }
{
    let round = round_of(rows)?;
    let mut columns = Columns::of(rows);
    Some(rehearse_on(&mut columns, rows, &Rules { window, policy }, round))
}
