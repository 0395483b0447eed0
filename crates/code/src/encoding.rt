// The codeword of a message.
ghost use Rattle.std.specs.Prelude.{◌≡◌, ◌*◌, length, None};
ghost use Rattle.field.specs.Words.{plus_scaled};
ghost use Rattle.chain.specs.Meaning.{Level, Word};
ghost use Rattle.code.specs.Answers.{Encodes};
ghost use Rattle.code.specs.Held.{meant, held};
ghost use Rattle.code.specs.Meaning.{entry_at};
ghost use Rattle.code.specs.Numbers.{code_flaw, k_of, n_of, codeword, joined_to, piece};

use crate::Code;
use crate::numbers::{size_of, total_size};
use chain::Chain;
use field::are_symbols;
use refusal::Refusal;

// The word of a level's message. What is known of the chain stands in the clauses, as in the numbers: there is one caller.
fn write_word<C: Chain>(chain: &C, level: usize, message: &[u8], out: &mut [u8])
    requires sound { (C.Chain.meaning chain.now).flaw ≡ None }
    requires level { Level (C.Chain.meaning chain.now) level }
    requires word { Word (C.Chain.meaning chain.now).field ((C.Chain.meaning chain.now).size level) message.now }
    requires long { length out.old ≡ (C.Chain.meaning chain.now).m }
    ensures { out.new ≡ (C.Chain.meaning chain.now).encoding level message.now }
{
    let _ = chain.encode(level, message, out);
}

impl<C: Chain> Code<C> {
    // Adds to each block the word of a level's part of the message, times the entry of the level's row.
    fn add_level(&self, level: usize, part: &[u8], out: &mut [u8])
        requires sound { code_flaw (meant C.Chain.meaning self.now) ≡ None }
        requires level { Level (C.Chain.meaning self.now.chain) level }
        requires part { Word (C.Chain.meaning self.now.chain).field ((C.Chain.meaning self.now.chain).size level) part.now }
        requires before { Word (C.Chain.meaning self.now.chain).field (n_of (meant C.Chain.meaning self.now)) out.old }
        ensures { out.new ≡ joined_to (λ j. plus_scaled (C.Chain.meaning self.now.chain).field (entry_at (held self.now.matrix) level j) (piece (C.Chain.meaning self.now.chain).m out.old j) ((C.Chain.meaning self.now.chain).encoding level part.now)) self.now.l }
    {
        // No word is longer, and nothing is allocated.
        let mut buffer = [0; 32];
        let word = &mut buffer[..self.chain.length()];
        write_word(&self.chain, level, part, word);
        self.matrix.add_row(self.chain.field(), level, word, out);
    }

    // Writes the codeword, level by level.
    fn write_codeword(&self, message: &[u8], out: &mut [u8])
        requires sound { code_flaw (meant C.Chain.meaning self.now) ≡ None }
        requires word { Word (C.Chain.meaning self.now.chain).field (k_of (meant C.Chain.meaning self.now)) message.now }
        requires long { length out.old ≡ n_of (meant C.Chain.meaning self.now) }
        ensures { out.new ≡ codeword (meant C.Chain.meaning self.now) message.now }
    {
        out.fill(0);
        let mut rest = message;
        for level in 1..=self.chain.levels() {
            let (part, later) = rest.split_at(size_of(&self.chain, level));
            self.add_level(level, part, out);
            rest = later;
        }
    }

    // Writes the codeword of a message of k symbols into n places.
    pub fn encode(&self, message: &[u8], out: &mut [u8]) -> Result<(), Refusal>
        ensures { Encodes (meant C.Chain.meaning self.now) message.now out.old result out.new }
    {
        self.checked()?;
        if message.len() != total_size(&self.chain) || out.len() != self.chain.length() * self.l {
            return Err(Refusal::WrongLength);
        }
        if !are_symbols(self.chain.field(), message) {
            return Err(Refusal::BadSymbol);
        }
        self.write_codeword(message, out);
        Ok(())
    }
}
