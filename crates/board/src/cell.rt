ghost use Rattle.std.specs.Prelude.{◌≡◌, ℕ, length, replicate};

use super::Board;
use refusal::Refusal;

// Sixty-four contents of its own, all empty when new.
#[derive(Drop)]
pub struct CellBoard {
    cells: [u16; 64],
    ghost whole: { length cells ≡ 64 },
}

impl CellBoard {
    pub fn new() -> CellBoard
        ensures { result.cells ≡ replicate 64 0 }
    {
        CellBoard { cells: [0; 64] }
    }
}

impl Board for CellBoard {
    ghost contents = { λ b. b.cells };

    ghost kept = { λ _ _. Unit {0} };

    ghost steady = { record { same = λ _. tt; on = λ _ _ _ _ _. tt } };

    fn count(&self) -> u16 {
        self.cells.len() as u16 // 64, so that no conversion can fail
    }

    fn look(&self, register: u16) -> Result<u16, Refusal> {
        self.cells
            .get(usize::from(register))
            .copied()
            .ok_or(Refusal::NoSuchRegister)
    }

    fn read(&mut self, register: u16) -> Result<u16, Refusal> {
        self.look(register)
    }

    fn write(&mut self, register: u16, content: u16) -> Result<(), Refusal> {
        // `get_mut` would test and lend at once, but what is written through it to an array is lost to the proof.
        self.look(register)?;
        self.cells[usize::from(register)] = content;
        Ok(())
    }
}
