// An answer to a line, and the line that is printed for it.
ghost use Rattle.std.specs.Prelude.{◌≡◌, ◌<◌, ◌≤◌, Some, length};
ghost use Rattle.session.specs.Printed.{IsShort, Says, ended, hex_byte, hex_digit, printed, refused, sent, worded};

use bus::refusal::Refusal;
use bus::rows::RowSet;
use lines::fault::Fault;
use std::{fmt, str};
use text::text::Line;

#[derive(Clone, Copy)]
pub enum Answer {
    // the change is made
    Made,
    // a frame's duration
    Units(u8),
    // the policy's label
    Label(u8),
    // the trigger of a cycle
    Send(RowSet),
    // the line is at fault, or what it asks for is declined
    Refused(Fault),
}

impl fmt::Display for Answer {
    ghost output = { λ a. Some (printed a) };

    fn fmt<W: fmt::Write>(&self, f: &mut fmt::Formatter<W>) -> fmt::Result {
        let text = self.text();
        f.write_str(str::from_utf8(text.bytes()).unwrap())
    }
}

impl Answer {
    // What the answer says. Made by hand for `Display` too: `write!` promises its text only where it succeeds, and the
    // line must always stand.
    fn text(self) -> Line
        ensures { Says result (printed self) }
    {
        match self {
            Answer::Made => worded(&[], b"(ok)"),
            Answer::Units(units) => worded(&[(b"(units ", u64::from(units))], b")"),
            Answer::Label(label) => worded(&[(b"(label ", u64::from(label))], b")"),
            Answer::Send(rows) => send(rows),
            Answer::Refused(fault) => refuse(fault),
        }
    }

    // The answer as a line, with its end.
    pub fn line(self) -> Line
        ensures value { result ≡ ended (printed self) }
        ensures short { length result ≤ 128 }
    {
        let mut line = self.text();
        line.push(b'\n');
        line
    }
}

// Numbers, each behind its words, and the last words.
fn worded(numbered: &[(&[u8], u64)], end: &[u8]) -> Line
    requires { IsShort numbered.now end.now }
    ensures { Says result (worded numbered.now end.now) }
{
    let mut text = Line::new();
    for (words, number) in numbered {
        text.push_all(words);
        text.push_number(*number);
    }
    text.push_all(end);
    text
}

fn hex_digit(value: u8) -> u8
    requires { value < 16 }
    ensures { result ≡ hex_digit value }
{
    if value < 10 {
        b'0' + value
    } else {
        b'a' + (value - 10)
    }
}

fn hex_byte(byte: u8) -> [u8; 2]
    ensures { result ≡ hex_byte byte }
{
    [hex_digit(byte / 16), hex_digit(byte % 16)]
}

// A trigger's four bytes, two hexadecimal digits each.
fn send(rows: RowSet) -> Line
    ensures { Says result (sent rows.word) }
{
    let mut text = Line::new();
    text.push_all(b"(send");
    for byte in rows.word.to_le_bytes() {
        text.push(b' ');
        text.push_all(&hex_byte(byte));
    }
    text.push(b')');
    text
}

// A fault of the text with its line and place, any other refusal with the values that the crew needs.
fn refuse(fault: Fault) -> Line
    ensures { Says result (refused fault.line fault.refusal) }
{
    let line = u64::from(fault.line);
    match fault.refusal {
        Refusal::BadSign { place } | Refusal::BadItem { place } | Refusal::BadNumber { place } =>
            worded(
                &[
                    (b"(fault ", u64::from(fault.refusal.number())),
                    (b" (line ", line),
                    (b") (place ", place as u64),
                ],
                b"))",
            ),
        Refusal::OutOfRange { field } => {
            worded(
                &[(b"(declined 4 (field ", u64::from(field.number()))],
                b"))",
            )
        }
        Refusal::AboveWindow { row } => worded(&[(b"(declined 5 (row ", u64::from(row))], b"))"),
        Refusal::Late { row, cycle } => worded(
            &[
                (b"(declined 7 (row ", u64::from(row)),
                (b") (cycle ", u64::from(cycle)),
            ],
            b"))",
        ),
        other => worded(&[(b"(declined ", u64::from(other.number()))], b")"),
    }
}
