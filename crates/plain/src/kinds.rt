// The kinds of a plain chain's levels.
ghost use Rattle.std.specs.Prelude.{◌≡◌};
ghost use Rattle.plain.specs.Kinds.{kind_size, kind_distance, kind_numbered};

use refusal::Refusal;

#[derive(Clone, Copy, PartialEq, Eq, Debug)]
pub enum Kind {
    // Every word.
    Every,
    // The symbols add to 0.
    ZeroSum,
    // One symbol repeated.
    Repeated,
}

impl TryFrom<u8> for Kind {
    type Error = Refusal;

    ghost try_from_gives = { λ number r. r ≡ kind_numbered number };

    fn try_from(number: u8) -> Result<Kind, Refusal> {
        match number {
            0 => Ok(Kind::Every),
            1 => Ok(Kind::ZeroSum),
            2 => Ok(Kind::Repeated),
            _ => Err(Refusal::LevelShape),
        }
    }
}

impl Kind {
    pub(crate) fn size(self, m: usize) -> usize
        ensures { result ≡ kind_size m self }
    {
        match self {
            Kind::Every => m,
            Kind::ZeroSum => m.saturating_sub(1),
            Kind::Repeated => 1,
        }
    }

    pub(crate) fn distance(self, m: usize) -> usize
        ensures { result ≡ kind_distance m self }
    {
        match self {
            Kind::Every => 1,
            Kind::ZeroSum => 2,
            Kind::Repeated => m,
        }
    }
}
