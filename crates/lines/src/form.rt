// What a line can say.
use engine::row::Figures;
use orders::selector::Selector;

#[derive(Clone, Copy, PartialEq, Eq, Debug)]
pub enum Form {
    Window(u8),
    Policy(Selector),
    Drop(u8),
    Next(u8),
    Which,
    Frame { cycle_bits: u16, data_bytes: u8 },
    Add { row: u8, figures: Figures },
    Alter { row: u8, figures: Figures },
}
