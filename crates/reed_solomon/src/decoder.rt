// Reading the message of a received word, and finding the word nearest to it.
//
// The scratch and the unknowns are slices that are written, and a struct round them would have to say what it lends at each call.
// So the facts about them stand in the clauses.
ghost use Rattle.std.specs.Prelude.{◌≡◌, ◌+◌, ◌-◌, ◌/◌, ◌≤◌, length};
ghost use Rattle.algebra.specs.Symbols.{Symbols};
ghost use Rattle.reed_solomon.specs.Decoding.{Read, LocatedOrFar, Nearest};

use crate::polynomials::write_word;
use crate::received::Received;
use field::{Field, distance};

impl<'a, F: Field> Received<'a, F> {
    // Writes the polynomial of as many coefficients as `out` has places whose word is this one. The answer None says that there
    // is none. The system stands in `rows`, and its solution in `message`.
    fn read_with(&self, rows: &mut [u8], message: &mut [u8], out: &mut [u8]) -> Option<()>
        requires few { length message.old ≤ 32 }
        requires long { length message.old ≡ length out.old }
        requires room { 1056 ≤ length rows.old }
        requires unknowns { Symbols (F.Field.meaning self.now.field.now) message.old }
        ensures { Read (F.Field.meaning self.now.field.now) self.now.symbols.now out.old result out.new }
    {
        let one = [1];
        self.find_message(&one, rows, message)?;
        out.copy_from_slice(message);
        Some(())
    }

    pub(crate) fn read_message(&self, out: &mut [u8]) -> Option<()>
        requires few { length out.old ≤ 32 }
        ensures { Read (F.Field.meaning self.now.field.now) self.now.symbols.now out.old result out.new }
    {
        let mut rows = [0; 1056];
        let mut message = [0; 32];
        let k = out.len();
        self.read_with(&mut rows, &mut message[..k], out)
    }

    // Finds E: whatever polynomial of k coefficients has its word within t of this one agrees with it where E is not 0. The
    // answer None says that there is none. Without errors to look for, E is 1.
    fn locate(&self, k: usize, t: usize, scratch: &mut [u8], xs: &mut [u8]) -> Option<()>
        requires long { length xs.old ≡ t + (k + t) }
        requires few { length xs.old ≤ length self.now.symbols.now }
        requires room { 1056 ≤ length scratch.old }
        requires unknowns { Symbols (F.Field.meaning self.now.field.now) xs.old }
        ensures { LocatedOrFar (F.Field.meaning self.now.field.now) k t self.now.symbols.now result xs.new }
    {
        if t == 0 {
            return Some(());
        }
        self.find_locator(t, scratch, xs)
    }

    // Writes the word of a polynomial of k coefficients that differs from this one in at most half of m − k places, k being the
    // length of `message`. The answer None says that there is none. Works in the other slices.
    fn find_word(
        &self,
        scratch: &mut [u8],
        locator: &mut [u8],
        message: &mut [u8],
        word: &mut [u8],
    ) -> Option<()>
        requires some { 1 ≤ length message.old }
        requires few { length message.old ≤ length self.now.symbols.now }
        requires word { length word.old ≡ length self.now.symbols.now }
        requires locator { length locator.old ≡ (length self.now.symbols.now - length message.old) / 2 + (length message.old + (length self.now.symbols.now - length message.old) / 2) }
        requires room { 1056 ≤ length scratch.old }
        requires unknowns { Symbols (F.Field.meaning self.now.field.now) locator.old }
        requires coefficients { Symbols (F.Field.meaning self.now.field.now) message.old }
        ensures { Nearest (F.Field.meaning self.now.field.now) (length message.old) ((length self.now.symbols.now - length message.old) / 2) self.now.symbols.now result word.new }
    {
        let k = message.len();
        let t = (self.symbols.len() - k) / 2;
        self.locate(k, t, scratch, locator)?;
        locator[t] = 1;
        self.find_message(&locator[..t + 1], scratch, message)?;
        write_word(self.field, message, word);
        if distance(word, self.symbols) > t {
            return None;
        }
        Some(())
    }

    pub(crate) fn nearest_word(&self, k: usize, scratch: &mut [u8], word: &mut [u8]) -> Option<()>
        requires some { 1 ≤ k }
        requires few { k ≤ length self.now.symbols.now }
        requires word { length word.old ≡ length self.now.symbols.now }
        requires room { 1056 ≤ length scratch.old }
        ensures { Nearest (F.Field.meaning self.now.field.now) k ((length self.now.symbols.now - k) / 2) self.now.symbols.now result word.new }
    {
        let t = (self.symbols.len() - k) / 2;
        let mut locator = [0; 32];
        let mut message = [0; 32];
        self.find_word(
            scratch,
            &mut locator[..t + (k + t)],
            &mut message[..k],
            word,
        )
    }
}
