ghost use Rattle.std.specs.Prelude.{◌≡◌, ◌<◌};
ghost use Rattle.conciliators.specs.Adopting.{EmptyOrMark};
ghost use Rattle.conciliators.specs.Coin.{by_coin, coin_conciliator};
ghost use Rattle.conciliators.specs.CoinKept.{coin_kept};
ghost use Rattle.conciliators.specs.Doublings.{doublings_to, SmallestPower};

use deciding::record::Outcome;
use machine::marks::{content_for, mark_of};
use machine::protocol::{Proposer, Protocol};
use machine::status::Plan;
use refusal::Refusal;

// The coin conciliator of so many stations, on register 0 alone. A station that finds it empty tries to write its mark
// there: the chance is about 1 in n at first, doubles from try to try, and is certain in the end.
#[derive(Clone, Copy)]
pub struct Coin {
    pub stations: u8,
}

#[derive(Clone, Copy)]
pub enum CoinPhase {
    // It reads. If the register is empty, the coin decides whether it writes or tries again.
    Try { number: u8 },
    Write,
    // It reads what it is to adopt, since another station may have written after it.
    Confirm,
}

// The smallest k with 2 to the k at least n.
fn doublings(n: u8) -> u8
    ensures value { result ≡ doublings_to n }
    ensures smallest { SmallestPower n result }
{
    (0..8).find(|&k| n <= 1 << k).unwrap_or(8)
}

impl Coin {
    // Where a try leads that found the register empty. From try 8 on every coin is low enough; where there are no stations
    // none tries, and the answer does not matter.
    #[tactic(auto, using(crate::proofs::Powers::low_from_8))]
    fn after_empty(&self, number: u8, coin: u8) -> CoinPhase
        ensures { 0 < self.now.stations → result ≡ by_coin self.now.stations number coin }
    {
        if self.stations == 0 || number >= 8 || coin % self.stations < 1 << number {
            return CoinPhase::Write;
        }
        CoinPhase::Try { number: number + 1 }
    }
}

impl Protocol for Coin {
    type Phase = CoinPhase;

    ghost rules = { coin_conciliator };

    ghost meets = { EmptyOrMark };

    ghost kept = { coin_kept };

    fn stations(&self) -> u8 {
        self.stations
    }

    fn limit(&self) -> u16 {
        u16::from(doublings(self.stations)) + 3
    }

    fn registers(&self) -> u16 {
        1
    }

    fn ratifying(&self) -> bool {
        false
    }

    fn question(&self) -> Result<(), Refusal> {
        Ok(()) // it asks nothing of its own
    }

    fn begin(&self) -> CoinPhase {
        CoinPhase::Try { number: 0 }
    }

    fn plan(&self, proposer: Proposer, phase: &CoinPhase) -> Plan {
        match *phase {
            CoinPhase::Try { .. } | CoinPhase::Confirm => Plan::Read(0),
            CoinPhase::Write => Plan::Write(0, content_for(proposer.proposal)),
        }
    }

    fn advance(
        &self,
        _proposer: Proposer,
        phase: &mut CoinPhase,
        content: u16,
        coin: u8,
    ) -> Option<Outcome> {
        match *phase {
            CoinPhase::Try { number } => {
                if content != 0 {
                    return Some(Outcome::Adopt(mark_of(content)));
                }
                *phase = self.after_empty(number, coin);
            }
            CoinPhase::Write => *phase = CoinPhase::Confirm,
            CoinPhase::Confirm => return Some(Outcome::Adopt(mark_of(content))),
        }
        None
    }
}
