// A session: a master over the selector, told what to do by lines.
ghost use Rattle.std.specs.Prelude.{◌≡◌, ℕ};
ghost use Rattle.bus.specs.Refusals.{answered, told};
ghost use Rattle.rules.specs.Calls.{fresh};
ghost use Rattle.rules.specs.Calls.Call.{next as next_call};
ghost use Rattle.rules.specs.Calls.Report.{sent as was_sent};
ghost use Rattle.ftt.specs.Told.{told_answer};
ghost use Rattle.bus.specs.Frames.{frame_answer};
ghost use Rattle.orders.specs.declared.selector.Selector.TheVariants.{RateMonotonic};
ghost use Rattle.session.specs.Replies.Said.{refused as told_refused};
ghost use Rattle.session.specs.Replies.{answers, by_answer, by_units, form_said, form_after, leaves, line_said, line_after, read_said, read_after, said, said_answer, standing_of, taken, told_reply};
ghost use Rattle.session.specs.Sessions.{EverySession};

use crate::answer::Answer;
use crate::reply::Reply;
use bus::frame::frame_units;
use bus::refusal::Refusal;
use ftt::master::Master;
use ftt::watch::IdleWatch;
use lines::fault::Fault;
use lines::form::Form;
use lines::reader::read_form;
use orders::policy::Policy;
use orders::selector::Selector;

// A longer line is at fault whatever it says.
pub const MOST_BYTES_IN_LINE: usize = 120;

#[derive(Drop)]
pub struct Session {
    master: Master<Selector>,
    watch: IdleWatch,
}

// What a change was answered.
fn changed(answer: Result<(), Refusal>) -> Result<Reply, Refusal>
    ensures { (line : ℕ) → told_reply line result ≡ by_answer line (told_answer answer) }
{
    answer.map(|()| Reply::Line(Answer::Made))
}

// What a frame takes.
fn units(cycle_bits: u16, data_bytes: u8) -> Result<Reply, Refusal>
    ensures { (line : ℕ) → told_reply line result ≡ by_units line (frame_answer cycle_bits data_bytes) }
{
    frame_units(cycle_bits, usize::from(data_bytes)).map(|units| Reply::Line(Answer::Units(units)))
}

// The refusal, with the number of the line that it came from.
fn refused(number: u32, refusal: Refusal) -> Reply
    ensures { said result ≡ told_refused number (told refusal) }
{
    Reply::Line(Answer::Refused(Fault::from((number, refusal))))
}

fn read_line(line: &[u8]) -> Result<Form, Refusal>
    ensures { answered result ≡ taken line.now }
{
    if line.len() > MOST_BYTES_IN_LINE {
        return Err(Refusal::BadSign {
            place: MOST_BYTES_IN_LINE,
        });
    }
    read_form(line)
}

impl Session {
    // A fresh master that starts rate monotonic. What it promises holds of every list of lines that can follow.
    pub fn new() -> Session
        ensures made { standing_of result ≡ fresh RateMonotonic }
        ensures promise { EverySession }
    {
        let (master, watch) = Master::new(Selector::RateMonotonic);
        Session { master, watch }
    }

    // Does what a form says.
    fn obey(&mut self, form: Form) -> Result<Reply, Refusal>
        ensures value { (line : ℕ) → told_reply line result ≡ form_said (standing_of self.old) line form }
        ensures after { standing_of self.new ≡ form_after (standing_of self.old) form }
    {
        match form {
            Form::Window(width) => changed(self.master.set_window(&self.watch, width)),
            Form::Policy(policy) => changed(self.master.set_policy(&self.watch, policy)),
            Form::Drop(row) => changed(self.master.drop_row(&self.watch, row)),
            Form::Next(cycles) => Ok(Reply::Cycles(cycles)),
            Form::Which => Ok(Reply::Line(Answer::Label(self.master.policy().label()))),
            Form::Frame {
                cycle_bits,
                data_bytes,
            } => units(cycle_bits, data_bytes),
            Form::Add { row, figures } => changed(self.master.add(&self.watch, row, figures)),
            Form::Alter { row, figures } => changed(self.master.alter(&self.watch, row, figures)),
        }
    }

    // Does what a line says.
    fn take(&mut self, line: &[u8]) -> Result<Reply, Refusal>
        ensures value { (number : ℕ) → told_reply number result ≡ read_said (standing_of self.old) number (taken line.now) }
        ensures after { standing_of self.new ≡ read_after (standing_of self.old) (taken line.now) }
    {
        let form = read_line(line)?;
        self.obey(form)
    }

    // Answers the line with this number.
    pub fn answer(&mut self, line: &[u8], number: u32) -> Reply
        ensures value { said result ≡ line_said (standing_of self.old) number line.now }
        ensures after { standing_of self.new ≡ line_after (standing_of self.old) line.now }
    {
        if line.is_empty() {
            return Reply::Nothing;
        }
        self.take(line)
            .unwrap_or_else(|refusal| refused(number, refusal))
    }

    // Runs one cycle; its trigger counts as sent.
    pub fn cycle(self) -> (Session, Answer)
        ensures value { said_answer result.1 ≡ by_answer 0 (answers (standing_of self) (next_call was_sent)) }
        ensures after { standing_of result.0 ≡ leaves (standing_of self) (next_call was_sent) }
    {
        let Session { mut master, watch } = self;
        let owed = master.next(watch);
        let schedule = owed.schedule();
        let session = Session {
            master,
            watch: owed.sent(),
        };
        (session, Answer::Send(schedule))
    }
}
