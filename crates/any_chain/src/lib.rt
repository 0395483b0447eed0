// A chain of either kind that the link has, chosen when the program runs.
#![tactic(auto)]

ghost use Rattle.std.specs.Prelude.{◌≡◌};
ghost use Rattle.any_field.specs.Kinds.{meant};
ghost use Rattle.plain.specs.Kinds.{plain as plain_of};
ghost use Rattle.reed_solomon.specs.Code.{reed_solomon as reed_solomon_of};
ghost use Rattle.chain.specs.Held.{held};
ghost use Rattle.any_chain.specs.Kinds.{chain_meant};
ghost use Rattle.any_field.specs.Inside.{meant_field};
ghost use Rattle.plain.specs.Lawful.{is_lawful};
ghost use Rattle.reed_solomon.specs.Lawfulness.{chain_lawful};
ghost use Rattle.any_chain.specs.declared.AnyChain.TheVariants.{Plain, ReedSolomon};

use any_field::AnyField;
use chain::Chain;
use plain::Plain;
use reed_solomon::ReedSolomon;
use refusal::Refusal;

// The two kinds are closed, so an enum serves, and needs no heap as a trait object would.
#[derive(Clone, Copy, PartialEq, Eq, Debug)]
pub enum AnyChain {
    Plain(Plain<AnyField>),
    ReedSolomon(ReedSolomon<AnyField>),
}

impl AnyChain {
    pub fn plain(field: AnyField, m: usize, kinds: &[u8]) -> AnyChain
        ensures { chain_meant result ≡ plain_of (meant field) m kinds.now }
    {
        AnyChain::Plain(Plain::new(field, m, kinds))
    }

    pub fn reed_solomon(field: AnyField, m: usize, sizes: &[u8]) -> AnyChain
        ensures { chain_meant result ≡ reed_solomon_of (meant field) m sizes.now }
    {
        AnyChain::ReedSolomon(ReedSolomon::new(field, m, sizes))
    }
}

// The same call of the chain inside, whichever kind it is.
macro_rules! inside {
    ($any:expr, $chain:ident => $call:expr) => {
        match $any {
            AnyChain::Plain($chain) => $call,
            AnyChain::ReedSolomon($chain) => $call,
        }
    };
}

impl Chain for AnyChain {
    type Over = AnyField;

    ghost meaning = { chain_meant };

    // the laws are those of the chain inside
    ghost lawful = { elim [
      | Plain c ↦ is_lawful (meant_field c.field) c.m (held c.kinds)
      | ReedSolomon c ↦ chain_lawful (meant c.field) (meant_field c.field) c.m (held c.sizes)
    ] };

    fn flaw(&self) -> Option<Refusal> {
        inside!(self, c => c.flaw())
    }

    fn field(&self) -> &AnyField {
        inside!(self, c => c.field())
    }

    fn length(&self) -> usize {
        inside!(self, c => c.length())
    }

    fn levels(&self) -> usize {
        inside!(self, c => c.levels())
    }

    fn size(&self, level: usize) -> Result<usize, Refusal> {
        inside!(self, c => c.size(level))
    }

    fn distance(&self, level: usize) -> Result<usize, Refusal> {
        inside!(self, c => c.distance(level))
    }

    fn encode(&self, level: usize, message: &[u8], out: &mut [u8]) -> Result<(), Refusal> {
        inside!(self, c => c.encode(level, message, out))
    }

    fn correct(&self, level: usize, block: &mut [u8], scratch: &mut [u8]) -> Result<(), Refusal> {
        inside!(self, c => c.correct(level, block, scratch))
    }

    fn strip(&self, level: usize, block: &[u8], out: &mut [u8]) -> Result<(), Refusal> {
        inside!(self, c => c.strip(level, block, out))
    }
}

#[cfg(test)]
mod tests {
    use crate::AnyChain;
    use any_field::AnyField;
    use chain::Chain;
    use std::test::Fail;

    // That the sum fits is found from what a chain tells: no more than 32 symbols, and 4 levels.
    fn symbols_and_levels(chain: &AnyChain) -> usize {
        chain.length() + chain.levels()
    }

    #[test]
    fn added_up(rt: HostRuntime) -> Result<(), Fail> {
        let Ok(field) = AnyField::of_order(16) else {
            assert!(rt; false);
            return Ok(());
        };
        assert!(rt; symbols_and_levels(&AnyChain::plain(field, 16, &[0, 1, 2])) == 19);
        assert!(rt; symbols_and_levels(&AnyChain::reed_solomon(field, 17, &[3])) == 0);
        Ok(())
    }
}
