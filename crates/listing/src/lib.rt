#![tactic(auto)]

ghost use Rattle.std.specs.Prelude.{◌≡◌, ℕ, ◌+◌, ◌-◌, ◌≤◌, length, nat_le};
ghost use Rattle.listing.specs.Over.{Extends};
ghost use Rattle.listing.specs.Puts.{Appends, Puts, Stands};
ghost use Rattle.listing.specs.Words.{line_of, spelled};

use deciding::record::{Operation, Outcome};
use itoa::Buffer;
use line::Line;
use refusal::Refusal;
use word::Word;

pub mod line;
mod word;

// How many bytes have to be free for a line to be put. No line is longer.
pub const ROOM: usize = 48;

// Puts one line, and answers where it ends: for callers that keep their bytes in a struct of their own. What is put through a
// `Listing` that such a struct lends its bytes to is lost to a proof.
pub fn put(listing: &mut [u8], at: usize, line: Line) -> Result<usize, Refusal>
    ensures { Puts listing.old at line result listing.new }
{
    let mut listing = Listing::new(listing, at);
    listing.put(line)?;
    Ok(listing.end())
}

// A listing as it is written: the caller's bytes, and where the next line goes.
#[derive(Drop)]
pub struct Listing<'a> {
    bytes: &'a mut [u8],
    end: usize,
}

impl<'a> Listing<'a> {
    // A listing over the bytes as they are, whose next line goes where `end` says. Past the last byte nothing is free.
    pub fn new(bytes: &'a mut [u8], end: usize) -> Listing<'a>
        ensures { (result.bytes ≡ bytes.entry) × (result.end ≡ end) }
    {
        Listing { bytes, end }
    }

    // Where the lines put so far end, and the next begins.
    pub fn end(&self) -> usize
        ensures { result ≡ self.now.end }
    {
        self.end
    }

    // Are so many bytes free that any line can be put?
    pub fn has_room(&self) -> bool
        ensures { result ≡ nat_le 48 (length self.now.bytes.now - self.now.end) }
    {
        self.bytes.len().saturating_sub(self.end) >= ROOM
    }

    // Puts a line.
    // Every line asks for the same room, so that when a listing is full does not hang on what there is to tell.
    pub fn put(&mut self, line: Line) -> Result<(), Refusal>
        ensures appends { Appends self.old.bytes.now self.old.end line result self.new.end self.new.bytes.now }
        ensures same { self.new.bytes.ghost_name ≡ self.old.bytes.ghost_name }
    {
        if !self.has_room() {
            return Err(Refusal::ListingFull);
        }
        self.put_line(line);
        Ok(())
    }

    // Lines are spelled by hand: what `Display::fmt` promises, it promises only where it answers `Ok`, and no clause says
    // that it does, but a line for which there is room has to be put.
    #[tactic(auto, using(crate::proofs::Fits::short), unfolding(crate::specs::Lines::text))]
    fn put_line(&mut self, line: Line)
        requires { self.old.end + 48 ≤ length self.old.bytes.now }
        ensures stands { Stands self.old.bytes.now self.old.end line self.new.end self.new.bytes.now }
        ensures same { self.new.bytes.ghost_name ≡ self.old.bytes.ghost_name }
    {
        match line {
            Line::Pile {
                pile,
                stations,
                limit,
                registers,
            } => self.put_words(&[
                Word::Pile,
                Word::from(u8::from(pile)),
                Word::Stations,
                Word::from(stations),
                Word::Limit,
                Word::from(limit),
                Word::Registers,
                Word::from(registers),
            ]),
            Line::Entered { station, mark } => self.put_words(&[
                Word::Enter,
                Word::from(station),
                Word::Mark,
                Word::from(mark),
            ]),
            Line::Stepped {
                station,
                operation,
                outcome,
            } => self.put_step(station, operation, outcome),
            Line::Stopped { station } => self.put_words(&[Word::Stop, Word::from(station)]),
            Line::Refused(refusal) => {
                self.put_words(&[Word::Refused, Word::from(u8::from(refusal))])
            }
        }
    }

    #[tactic(auto, using(crate::proofs::Fits::short), unfolding(crate::specs::Lines::text))]
    fn put_step(&mut self, station: u8, operation: Operation, outcome: Option<Outcome>)
        requires { self.old.end + 48 ≤ length self.old.bytes.now }
        ensures stands { Stands self.old.bytes.now self.old.end (Line.Stepped station operation outcome)
            self.new.end self.new.bytes.now }
        ensures same { self.new.bytes.ghost_name ≡ self.old.bytes.ghost_name }
    {
        let station = Word::from(station);
        let access = Word::from(operation.access);
        let register = Word::from(operation.register);
        let content = Word::from(operation.content);
        match outcome {
            None => self.put_words(&[Word::Step, station, access, register, content]),
            Some(outcome) => self.put_words(&[
                Word::Step,
                station,
                access,
                register,
                content,
                Word::from(outcome),
                Word::from(outcome.mark()),
            ]),
        }
    }

    // Single spaces between the words, and 0Ah after the last.
    #[tactic(auto, using(crate::proofs::Extends::line_long))]
    fn put_words(&mut self, words: &[Word])
        requires { self.old.end + length (line_of words.now) ≤ length self.old.bytes.now }
        ensures extends { Extends self.old.bytes.now self.old.end (line_of words.now)
            self.new.end self.new.bytes.now }
        ensures same { self.new.bytes.ghost_name ≡ self.old.bytes.ghost_name }
    {
        let mut words = words;
        while let Some((word, rest)) = words.split_first() {
            self.put_word(*word);
            let after = if rest.is_empty() { b'\n' } else { b' ' };
            self.put_bytes(&[after]);
            words = rest;
        }
    }

    fn put_word(&mut self, word: Word)
        requires { self.old.end + length (spelled word) ≤ length self.old.bytes.now }
        ensures extends { Extends self.old.bytes.now self.old.end (spelled word)
            self.new.end self.new.bytes.now }
        ensures same { self.new.bytes.ghost_name ≡ self.old.bytes.ghost_name }
    {
        match word {
            Word::Pile => self.put_bytes(b"pile"),
            Word::Stations => self.put_bytes(b"stations"),
            Word::Limit => self.put_bytes(b"limit"),
            Word::Registers => self.put_bytes(b"registers"),
            Word::Enter => self.put_bytes(b"enter"),
            Word::Mark => self.put_bytes(b"mark"),
            Word::Step => self.put_bytes(b"step"),
            Word::Read => self.put_bytes(b"read"),
            Word::Write => self.put_bytes(b"write"),
            Word::Adopt => self.put_bytes(b"adopt"),
            Word::Commit => self.put_bytes(b"commit"),
            Word::Stop => self.put_bytes(b"stop"),
            Word::Refused => self.put_bytes(b"refused"),
            Word::Number(number) => self.put_bytes(Buffer::new().format(number).as_bytes()),
        }
    }

    #[tactic(auto, unfolding(crate::specs::Over::over))]
    fn put_bytes(&mut self, bytes: &[u8])
        requires { self.old.end + length bytes.now ≤ length self.old.bytes.now }
        ensures extends { Extends self.old.bytes.now self.old.end bytes.now self.new.end self.new.bytes.now }
        ensures same { self.new.bytes.ghost_name ≡ self.old.bytes.ghost_name }
    {
        let end = self.end + bytes.len();
        self.bytes[self.end..end].copy_from_slice(bytes);
        self.end = end;
    }
}
