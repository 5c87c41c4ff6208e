ghost use Rattle.std.specs.Prelude.{◌≡◌, ℕ, refl};
ghost use Rattle.std.proofs.Common.{◌∙◌};
ghost use Rattle.board.specs.Board.{Writes};
ghost use Rattle.board.specs.Cards.{Beyond, beyond_on, beyond_same, bytes_after, contents_of, Placed};

use super::Board;
use refusal::Refusal;

// A register card: each content in two bytes of the caller's memory, high byte first.
// It has as many registers as there are pairs of bytes, at most 64, and touches no byte after them.
#[derive(Drop)]
pub struct CardBoard<'a> {
    bytes: &'a mut [u8],
}

impl<'a> CardBoard<'a> {
    // A board over the bytes as they are: nothing is cleared.
    pub fn new(bytes: &'a mut [u8]) -> CardBoard<'a>
        ensures { result.bytes ≡ bytes.entry }
    {
        CardBoard { bytes }
    }

    // Where the first of a register's two bytes stands.
    #[tactic(auto, using(crate::proofs::CardLists::on_contents))]
    fn place(&self, register: u16) -> Result<usize, Refusal>
        ensures { Placed self.now.bytes.now register result }
    {
        if register < self.count() {
            Ok(2 * usize::from(register))
        } else {
            Err(Refusal::NoSuchRegister)
        }
    }
}

impl<'a> Board for CardBoard<'a> {
    ghost contents = { λ b. contents_of b.bytes.now };

    // The caller's memory is the same memory still, and its bytes after the registers are as they were.
    ghost kept = { λ a b. (b.bytes.ghost_name ≡ a.bytes.ghost_name) × Beyond a.bytes.now b.bytes.now };

    ghost steady = { record { same = λ x. (refl, beyond_same x.bytes.now); on = λ x y z p q. (q.0 ∙ p.0, beyond_on x.bytes.now y.bytes.now z.bytes.now p.1 q.1) } };

    #[tactic(auto, using(crate::proofs::CardLists::on_contents))]
    fn count(&self) -> u16 {
        (self.bytes.len() / 2).min(64) as u16 // 64 at the most, so that no conversion can fail
    }

    fn look(&self, register: u16) -> Result<u16, Refusal> {
        let at = self.place(register)?;
        Ok(u16::from_be_bytes([self.bytes[at], self.bytes[at + 1]]))
    }

    fn read(&mut self, register: u16) -> Result<u16, Refusal> {
        self.look(register)
    }

    fn write(&mut self, register: u16, content: u16) -> Result<(), Refusal>
        ensures after { Writes (contents_of self.old.bytes.now) register content result (contents_of self.new.bytes.now) }
        ensures beyond { (self.new.bytes.ghost_name ≡ self.old.bytes.ghost_name) × Beyond self.old.bytes.now self.new.bytes.now }
        ensures bytes { self.new.bytes.now ≡ bytes_after self.old.bytes.now register content result }
    {
        let at = self.place(register)?;
        let [high, low] = content.to_be_bytes();
        self.bytes[at] = high;
        self.bytes[at + 1] = low;
        Ok(())
    }
}
