// The Reed-Solomon chain over any field: words are the values of polynomials at the points 0 to m − 1.
#![tactic(auto)]

ghost use Rattle.std.specs.Prelude.{◌≡◌};
ghost use Rattle.chain.specs.Held.{held};
ghost use Rattle.reed_solomon.specs.Code.{reed_solomon};
ghost use Rattle.reed_solomon.specs.Lawfulness.{chain_lawful};

use chain::{Chain, LevelNumbers, SCRATCH_BYTES};
use field::{Field, are_symbols};
use refusal::Refusal;

mod decoder;
mod equations;
mod levels;
mod polynomials;
mod received;
mod solver;

use polynomials::write_word;
use received::Received;

// Words of m symbols; level i has messages of as many symbols as the i-th size. The flaw is found at each call: a field of the
// struct that is known to hold it would ask `F: Field` of whoever names the type.
#[derive(Clone, Copy, PartialEq, Eq, Debug)]
pub struct ReedSolomon<F> {
    field: F,
    m: usize,
    sizes: LevelNumbers,
}

impl<F: Field> ReedSolomon<F> {
    // Never refused: whether the numbers are fit is told by the chain's flaw.
    pub fn new(field: F, m: usize, sizes: &[u8]) -> ReedSolomon<F>
        ensures { reed_solomon (F.Field.meaning result.field) result.m (held result.sizes) ≡ reed_solomon (F.Field.meaning field) m sizes.now }
    {
        ReedSolomon {
            field,
            m,
            sizes: LevelNumbers::of(sizes),
        }
    }
}

impl<F: Field> Chain for ReedSolomon<F> {
    type Over = F;

    ghost meaning = { λ c. reed_solomon (F.Field.meaning c.field) c.m (held c.sizes) };

    ghost lawful = { λ c. chain_lawful (F.Field.meaning c.field) (F.Field.lawful c.field) c.m (held c.sizes) };

    fn flaw(&self) -> Option<Refusal> {
        self.find_flaw()
    }

    fn field(&self) -> &F {
        &self.field
    }

    fn length(&self) -> usize {
        self.checked().map_or(0, |chain| chain.m)
    }

    fn levels(&self) -> usize {
        self.checked()
            .map_or(0, |chain| chain.sizes.as_slice().len())
    }

    fn size(&self, level: usize) -> Result<usize, Refusal> {
        match self.checked() {
            Ok(chain) => chain.size_at(level),
            Err(_) => Ok(0),
        }
    }

    fn distance(&self, level: usize) -> Result<usize, Refusal> {
        match self.checked() {
            Ok(chain) => Ok(chain.m - chain.size_at(level)? + 1),
            Err(_) => Ok(0),
        }
    }

    fn encode(&self, level: usize, message: &[u8], out: &mut [u8]) -> Result<(), Refusal> {
        self.checked()?;
        let k = self.size_at(level)?;
        if message.len() != k || !are_symbols(&self.field, message) || out.len() != self.m {
            return Err(Refusal::BadArgument);
        }
        write_word(&self.field, message, out);
        Ok(())
    }

    fn correct(&self, level: usize, block: &mut [u8], scratch: &mut [u8]) -> Result<(), Refusal> {
        self.checked()?;
        let k = self.size_at(level)?;
        if block.len() != self.m || !are_symbols(&self.field, block) {
            return Err(Refusal::BadArgument);
        }
        if scratch.len() < SCRATCH_BYTES {
            return Err(Refusal::ShortScratch);
        }
        let mut buffer = [0; 32];
        let word = &mut buffer[..self.m];
        let received = Received {
            field: &self.field,
            symbols: block,
        };
        let Some(()) = received.nearest_word(k, scratch, word) else {
            return Err(Refusal::NoLevelWord);
        };
        block.copy_from_slice(word);
        Ok(())
    }

    fn strip(&self, level: usize, block: &[u8], out: &mut [u8]) -> Result<(), Refusal> {
        self.checked()?;
        let k = self.size_at(level)?;
        if block.len() != self.m || !are_symbols(&self.field, block) || out.len() != k {
            return Err(Refusal::BadArgument);
        }
        let received = Received {
            field: &self.field,
            symbols: block,
        };
        received.read_message(out).ok_or(Refusal::NoLevelWord)
    }
}
