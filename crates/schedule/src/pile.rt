ghost use Rattle.std.specs.Prelude.{◌≡◌};
ghost use Rattle.schedule.specs.Piles.{number_of_pile, pile_numbered, Names};

use refusal::Refusal;

// A pile is what the laboratory puts to a trial: one deciding machine, or several that a station goes through one after
// another, together with the boards of registers that they work on. A schedule asks for a pile by its number.
// The cases are named by the machines, in the order in which a station meets them.
#[derive(Clone, Copy, PartialEq, Eq, Debug)]
pub enum Pile {
    Collect = 1,
    Quorum = 2,
    CoinCollect = 3,
    LeaderQuorum = 4,
    CollectCoinQuorum = 5,
    QuorumLeaderCoinCollect = 6,
}

impl From<Pile> for u8 {
    ghost from_gives = { λ pile number. number ≡ number_of_pile pile };

    fn from(pile: Pile) -> u8 {
        pile as u8
    }
}

// The pile of a number.
impl TryFrom<u8> for Pile {
    type Error = Refusal;

    ghost try_from_gives = { λ number named. (named ≡ pile_numbered number) × Names number named };

    fn try_from(number: u8) -> Result<Pile, Refusal> {
        match number {
            1 => Ok(Pile::Collect),
            2 => Ok(Pile::Quorum),
            3 => Ok(Pile::CoinCollect),
            4 => Ok(Pile::LeaderQuorum),
            5 => Ok(Pile::CollectCoinQuorum),
            6 => Ok(Pile::QuorumLeaderCoinCollect),
            _ => Err(Refusal::UnknownPile),
        }
    }
}
