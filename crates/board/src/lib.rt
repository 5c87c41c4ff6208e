#![tactic(auto)]

ghost use Rattle.std.specs.Prelude.{◌≡◌, ℕ, List, length};
ghost use Rattle.board.specs.Board.{Reads, Steady, Writes};

use refusal::Refusal;

pub mod card;
pub mod cell;

// A board of registers. What is above a board knows it by the list of its contents alone;
// content 0 means that the register is empty.
pub trait Board {
    ghost contents: { Self → List ℕ };

    // What holds between a board and what calls make of it, besides its contents:
    // a board over lent memory says here that the memory which holds no register stays as it is.
    ghost kept: { Self → Self → Type 0 };

    ghost steady: { Steady kept };

    // How many registers there are.
    fn count(&self) -> u16
        ensures { result ≡ length (contents self.now) };

    // What a register holds, as somebody sees it who stands outside: no register operation.
    fn look(&self, register: u16) -> Result<u16, Refusal>
        ensures { Reads (contents self.now) register result };

    // The register operations take the board by `&mut`, both, so that a board can count them.
    fn read(&mut self, register: u16) -> Result<u16, Refusal>
        ensures answer { Reads (contents self.old) register result }
        ensures same { contents self.new ≡ contents self.old }
        ensures beyond { kept self.old self.new };

    fn write(&mut self, register: u16, content: u16) -> Result<(), Refusal>
        ensures after { Writes (contents self.old) register content result (contents self.new) }
        ensures beyond { kept self.old self.new };
}
