// The plain chain's calls.
ghost use Rattle.std.specs.Prelude.{◌≡◌};
ghost use Rattle.chain.specs.Held.{held};
ghost use Rattle.plain.specs.Kinds.{plain, kind_told};
ghost use Rattle.plain.specs.Lawful.{is_lawful};

use crate::{Kind, Plain};
use chain::{Chain, SCRATCH_BYTES};
use field::{Field, are_symbols};
use refusal::Refusal;

impl<F: Field> Plain<F> {
    // The kind of a level that is there.
    fn kind_at(&self, level: usize) -> Result<Kind, Refusal>
        ensures { result ≡ kind_told (held self.now.kinds) level }
    {
        Kind::try_from(self.kinds.at(level).ok_or(Refusal::BadArgument)?)
    }
}

impl<F: Field> Chain for Plain<F> {
    type Over = F;

    ghost meaning = { λ c. plain (F.Field.meaning c.field) c.m (held c.kinds) };

    ghost lawful = { λ c. is_lawful (F.Field.lawful c.field) c.m (held c.kinds) };

    fn flaw(&self) -> Option<Refusal> {
        self.find_flaw()
    }

    fn field(&self) -> &F {
        &self.field
    }

    fn length(&self) -> usize {
        self.checked().map_or(0, |chain| chain.m)
    }

    fn levels(&self) -> usize {
        self.checked()
            .map_or(0, |chain| chain.kinds.as_slice().len())
    }

    // This and the next differ in what they ask of the kind: one function for both would take that as a closure, and say no less.
    fn size(&self, level: usize) -> Result<usize, Refusal> {
        match self.checked() {
            Ok(chain) => Ok(chain.kind_at(level)?.size(chain.m)),
            Err(_) => Ok(0),
        }
    }

    fn distance(&self, level: usize) -> Result<usize, Refusal> {
        match self.checked() {
            Ok(chain) => Ok(chain.kind_at(level)?.distance(chain.m)),
            Err(_) => Ok(0),
        }
    }

    fn encode(&self, level: usize, message: &[u8], out: &mut [u8]) -> Result<(), Refusal> {
        self.checked()?;
        let kind = self.kind_at(level)?;
        if message.len() != kind.size(self.m)
            || !are_symbols(&self.field, message)
            || out.len() != self.m
        {
            return Err(Refusal::BadArgument);
        }
        kind.write_word(&self.field, message, out);
        Ok(())
    }

    fn correct(&self, level: usize, block: &mut [u8], scratch: &mut [u8]) -> Result<(), Refusal> {
        self.checked()?;
        let kind = self.kind_at(level)?;
        if block.len() != self.m || !are_symbols(&self.field, block) {
            return Err(Refusal::BadArgument);
        }
        if scratch.len() < SCRATCH_BYTES {
            return Err(Refusal::ShortScratch);
        }
        kind.correct(&self.field, block)
    }

    fn strip(&self, level: usize, block: &[u8], out: &mut [u8]) -> Result<(), Refusal> {
        self.checked()?;
        let kind = self.kind_at(level)?;
        if block.len() != self.m
            || !are_symbols(&self.field, block)
            || out.len() != kind.size(self.m)
        {
            return Err(Refusal::BadArgument);
        }
        kind.strip(&self.field, block, out)
    }
}
