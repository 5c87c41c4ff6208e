ghost use Rattle.std.specs.Prelude.{◌≡◌, ℕ, ◌<◌, length, nat_le};
ghost use Rattle.schedule.specs.Reading.{Shows, Takes};

use super::command::Command;
use refusal::Refusal;

// Reads a schedule from its first byte on, one command after another.
#[derive(Drop)]
pub struct Reader<'a> {
    // The whole of it, and not what is left, since a run tells how far it came.
    schedule: &'a [u8],
    position: usize,
}

impl<'a> Reader<'a> {
    pub fn new(schedule: &'a [u8]) -> Self
        ensures { (result.schedule ≡ schedule.entry) × (result.position ≡ 0) }
    {
        Reader {
            schedule,
            position: 0,
        }
    }

    // How many bytes of the schedule have been read.
    pub fn position(&self) -> usize
        ensures { result ≡ self.now.position }
    {
        self.position
    }

    pub fn is_done(&self) -> bool
        ensures { result ≡ nat_le (length self.now.schedule.now) self.now.position }
    {
        self.schedule.len() <= self.position
    }

    // The next command, or none at the end. A refusal reads nothing: the reader stays before the letter. That the schedule is the
    // same is said of two states of a reader, so it cannot be a fact of the type.
    pub fn next(&mut self) -> Result<Option<Command<'a>>, Refusal>
        ensures shows { Shows self.old.schedule.now self.old.position result self.new.position }
        ensures same { self.new.schedule ≡ self.old.schedule }
    {
        let Some(letter) = self.schedule.get(self.position) else {
            return Ok(None);
        };
        let command = match letter {
            b'N' => Command::New(self.operands(3)?),
            b'E' => Command::Enter(self.operands(2)?),
            b'S' => Command::Step(self.operands(2)?),
            b'L' => Command::Stop(self.operands(1)?),
            _ => return Err(Refusal::UnknownLetter),
        };
        Ok(Some(command))
    }

    // Reads the letter here and so many operands after it, if they are all there.
    fn operands(&mut self, count: usize) -> Result<&'a [u8], Refusal>
        requires { self.old.position < length self.old.schedule.now }
        ensures takes { Takes self.old.schedule.now self.old.position count result self.new.position }
        ensures same { self.new.schedule ≡ self.old.schedule }
    {
        let first = self.position + 1;
        let operands = self.schedule[first..]
            .get(..count)
            .ok_or(Refusal::OperandsMissing)?;
        self.position = first + count;
        Ok(operands)
    }
}
