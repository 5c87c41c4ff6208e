ghost use Rattle.std.specs.Prelude.{◌≡◌};
ghost use Rattle.listing.specs.Lines.{access_word, outcome_word};

use deciding::record::{Access, Outcome};

// What a line is made of: words of the listing, and numbers.
#[derive(Clone, Copy)]
pub enum Word {
    Pile,
    Stations,
    Limit,
    Registers,
    Enter,
    Mark,
    Step,
    Read,
    Write,
    Adopt,
    Commit,
    Stop,
    Refused,
    Number(u16),
}

impl From<u8> for Word {
    ghost use Rattle.listing.specs.declared.word.Word.TheVariants.{Number};

    ghost from_gives = { λ number word. word ≡ Number number };

    fn from(number: u8) -> Word {
        Word::Number(u16::from(number))
    }
}

impl From<u16> for Word {
    ghost use Rattle.listing.specs.declared.word.Word.TheVariants.{Number};

    ghost from_gives = { λ number word. word ≡ Number number };

    fn from(number: u16) -> Word {
        Word::Number(number)
    }
}

impl From<Access> for Word {
    ghost from_gives = { λ access word. word ≡ access_word access };

    fn from(access: Access) -> Word {
        match access {
            Access::Read => Word::Read,
            Access::Write => Word::Write,
        }
    }
}

impl From<Outcome> for Word {
    ghost from_gives = { λ outcome word. word ≡ outcome_word outcome };

    fn from(outcome: Outcome) -> Word {
        match outcome {
            Outcome::Adopt(_) => Word::Adopt,
            Outcome::Commit(_) => Word::Commit,
        }
    }
}
