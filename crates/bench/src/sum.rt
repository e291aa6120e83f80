// A checksum over all that is answered, so that nothing that is counted can be left out, and two programs can be
// compared.
use bus::refusal::Refusal;
use bus::rows::RowSet;
use engine::row::Figures;
use session::answer::Answer;

// Not a `Hasher`: that ends in 64 bits, and this checksum has 32, as the plain implementation's, which it has to equal.
#[derive(Drop)]
pub struct Sum {
    value: u32,
}

impl Sum {
    pub fn new() -> Sum {
        Sum {
            value: 2_166_136_261,
        }
    }

    pub fn value(&self) -> u32 {
        self.value
    }

    pub fn add(&mut self, number: u32) {
        self.value = (self.value ^ number).wrapping_mul(16_777_619);
    }

    pub fn add_bytes(&mut self, bytes: &[u8]) {
        for byte in bytes {
            self.add(u32::from(*byte));
        }
    }
}

// What is answered, added number by number.
pub trait Summed {
    fn add_to(&self, sum: &mut Sum);
}

impl Summed for () {
    fn add_to(&self, sum: &mut Sum) {
        sum.add(0);
    }
}

impl Summed for u8 {
    fn add_to(&self, sum: &mut Sum) {
        sum.add(u32::from(*self));
    }
}

impl Summed for RowSet {
    fn add_to(&self, sum: &mut Sum) {
        sum.add(self.word);
    }
}

impl Summed for Figures {
    fn add_to(&self, sum: &mut Sum) {
        self.duration.add_to(sum);
        self.period.add_to(sum);
        self.deadline.add_to(sum);
        self.phase.add_to(sum);
        self.priority.add_to(sum);
    }
}

// The refusal's number, and its values.
impl Summed for Refusal {
    fn add_to(&self, sum: &mut Sum) {
        self.number().add_to(sum);
        match self {
            Refusal::OutOfRange { field } => field.number().add_to(sum),
            Refusal::AboveWindow { row } => row.add_to(sum),
            Refusal::Late { row, cycle } => {
                row.add_to(sum);
                sum.add(*cycle);
            }
            _ => {}
        }
    }
}

// The line that is printed.
impl Summed for Answer {
    fn add_to(&self, sum: &mut Sum) {
        sum.add_bytes(self.line().bytes());
    }
}

impl<T: Summed> Summed for Result<T, Refusal> {
    fn add_to(&self, sum: &mut Sum) {
        match self {
            Ok(value) => value.add_to(sum),
            Err(refusal) => refusal.add_to(sum),
        }
    }
}
