// Reads a line: its shape first, then its items, then its numbers.
ghost use Rattle.std.specs.Prelude.{◌≡◌, ◌∷◌, ◌<◌, ◌≤◌, true, length, is_some, None, Ok};
ghost use Rattle.bus.specs.Refusals.{answered};
ghost use Rattle.lines.specs.Parts.{left, last_place};
ghost use Rattle.lines.specs.Forms.{kinds, front, behind, policy_named, policy, misfit};
ghost use Rattle.lines.specs.Reading.{bad_item, unless, word_read, items_read, Numbered, Figured};
ghost use Rattle.lines.specs.Laws.{Reads};

use crate::form::Form;
use crate::name::Name;
use crate::number::read_number;
use crate::part::Rest;
use crate::shape::check_shape;
use crate::word::Word;
use bus::refusal::Refusal;
use engine::row::Figures;
use orders::selector::Selector;

impl Rest<'_> {
    // The form's word.
    fn word(&mut self) -> Result<Word, Refusal>
        ensures value { answered result ≡ word_read (left self.old) }
        ensures after { left self.new ≡ behind (left self.old) }
        ensures same { self.new.line ≡ self.old.line }
    {
        self.next()
            .and_then(|part| Word::named(part.text))
            .ok_or(Refusal::BadItem { place: 1 })
    }

    // The next item as a number up to `most`.
    fn number(&mut self, most: u16) -> Result<u16, Refusal>
        requires { 0 < length (left self.old) }
        ensures value { Numbered most (left self.old) result }
        ensures after { left self.old ≡ front (left self.old) ∷ left self.new }
    {
        let item = self.next().unwrap();
        read_number(item.text, most).ok_or(Refusal::BadNumber { place: item.place })
    }

    fn byte(&mut self) -> Result<u8, Refusal>
        requires { 0 < length (left self.old) }
        ensures value { Numbered 255 (left self.old) result }
        ensures after { left self.old ≡ front (left self.old) ∷ left self.new }
    {
        Ok(self.number(u16::from(u8::MAX))? as u8)
    }

    // The policy that the next item names.
    fn policy(&mut self) -> Selector
        requires { is_some (policy_named (front (left self.old)).text) ≡ true }
        ensures { result ≡ policy (left self.old) }
    {
        Selector::named(self.next().unwrap().text).unwrap()
    }

    // The figures of a message, from its duration to its priority.
    fn figures(&mut self) -> Result<Figures, Refusal>
        requires { 5 ≤ length (left self.old) }
        ensures { Figured (left self.old) result }
    {
        Ok(Figures {
            duration: self.byte()?,
            period: self.byte()?,
            deadline: self.byte()?,
            phase: self.byte()?,
            priority: self.byte()?,
        })
    }
}

// Declines the first item that the form has not, and a line with too few.
fn check_items(word: Word, mut rest: Rest) -> Result<(), Refusal>
    ensures { answered result ≡ unless bad_item (misfit (last_place rest.entry) (kinds word) (left rest.entry)) (Ok tt) }
{
    let kinds = word.kinds();
    for kind in kinds {
        let Some(item) = rest.next() else {
            return Err(Refusal::BadItem {
                place: rest.last_place(),
            });
        };
        if !kind.takes(item.text) {
            return Err(Refusal::BadItem { place: item.place });
        }
    }
    match rest.next() {
        Some(surplus) => Err(Refusal::BadItem {
            place: surplus.place,
        }),
        None => Ok(()),
    }
}

fn read_items(word: Word, mut rest: Rest) -> Result<Form, Refusal>
    requires { misfit (last_place rest) (kinds word) (left rest) ≡ None }
    ensures { answered result ≡ items_read word (left rest.entry) }
{
    let form = match word {
        Word::Window => Form::Window(rest.byte()?),
        Word::Policy => Form::Policy(rest.policy()),
        Word::Drop => Form::Drop(rest.byte()?),
        Word::Next => Form::Next(rest.byte()?),
        Word::Which => Form::Which,
        Word::Frame => Form::Frame {
            cycle_bits: rest.number(u16::MAX)?,
            data_bytes: rest.byte()?,
        },
        Word::Add => Form::Add {
            row: rest.byte()?,
            figures: rest.figures()?,
        },
        Word::Alter => Form::Alter {
            row: rest.byte()?,
            figures: rest.figures()?,
        },
    };
    Ok(form)
}

// What the line says, or its first fault.
pub fn read_form(line: &[u8]) -> Result<Form, Refusal>
    ensures { Reads line.now result }
{
    check_shape(line)?;
    let mut rest = Rest::of(line);
    let word = rest.word()?;
    check_items(word, rest)?;
    read_items(word, rest)
}
