// The refusals of the link: one case for each cause, with the number by which the outside knows it.
#![tactic(auto)]

ghost use Rattle.std.specs.Prelude.{◌≡◌, Some};
ghost use Rattle.refusal.specs.Numbers.{refusal_number, number_or_0};
ghost use Rattle.refusal.specs.Printed.{printed_refusal};

use std::fmt;

// Why a call was turned away. A refused call leaves its buffers as they were, except where a case says otherwise.
#[derive(Clone, Copy, PartialEq, Eq, Debug)]
pub enum Refusal {
    // 1: a field's argument is not below q, or 0 has no inverse; a chain's level, length or symbol is wrong.
    BadArgument,
    // 2: no field GF(p) is made for this p.
    UnsupportedPrime,
    // 3: no word of the level is near enough (correct), or the block is none (strip).
    NoLevelWord,
    // 4: the chain's length m is out of range.
    ChainLength,
    // 5: the chain has not 1 to 4 levels.
    LevelCount,
    // 6: a level's size or kind is out of range, or the levels break the rule of their order.
    LevelShape,
    // 7: the matrix has a wrong number of columns or of entries.
    MatrixShape,
    // 8: a matrix entry is not below q.
    MatrixEntry,
    // 9: the matrix is not non-singular by columns.
    SingularMatrix,
    // 10: the code's message length is not the book's.
    ForeignCode,
    // 11: a message, word or output has the wrong length.
    WrongLength,
    // 12: a message or word has a symbol that is not below q.
    BadSymbol,
    // 13: the scratch is too short.
    ShortScratch,
    // 14: the book is full.
    FullBook,
    // 15: no codeword lies within the radius; the scratch may have changed. Carries the number of choices tried.
    NoCodeword(u32),
    // 16: the index is not below the book's count.
    NoEntry,
}

impl Refusal {
    pub fn number(&self) -> u8
        ensures { result ≡ refusal_number self.now }
    {
        match self {
            Refusal::BadArgument => 1,
            Refusal::UnsupportedPrime => 2,
            Refusal::NoLevelWord => 3,
            Refusal::ChainLength => 4,
            Refusal::LevelCount => 5,
            Refusal::LevelShape => 6,
            Refusal::MatrixShape => 7,
            Refusal::MatrixEntry => 8,
            Refusal::SingularMatrix => 9,
            Refusal::ForeignCode => 10,
            Refusal::WrongLength => 11,
            Refusal::BadSymbol => 12,
            Refusal::ShortScratch => 13,
            Refusal::FullBook => 14,
            Refusal::NoCodeword(_) => 15,
            Refusal::NoEntry => 16,
        }
    }

    // The number of a flaw or of a call's refusal, 0 where there is none.
    pub fn number_or_0(refusal: Option<Refusal>) -> u8
        ensures { result ≡ number_or_0 refusal }
    {
        refusal.map_or(0, |r| r.number())
    }
}

// As the console prints it.
impl fmt::Display for Refusal {
    ghost output = { λ r. Some (printed_refusal r) };

    fn fmt<W: fmt::Write>(&self, f: &mut fmt::Formatter<W>) -> fmt::Result {
        let number = self.number();
        write!(f, "refused {number}")?;
        if let Refusal::NoCodeword(tries) = self {
            write!(f, " tries {tries}")?;
        }
        Ok(())
    }
}
