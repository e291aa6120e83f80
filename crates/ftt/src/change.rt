// A change of the master, as a value that a trial can be made of.
use engine::row::Figures;

#[derive(Drop)]
pub enum Change<P> {
    Add { row: u8, figures: Figures },
    Alter { row: u8, figures: Figures },
    Drop { row: u8 },
    Window { window: u8 },
    Policy { policy: P },
}
