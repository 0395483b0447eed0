// The making of a code, and its flaw.
ghost use Rattle.std.specs.Prelude.{◌≡◌, ◌*◌, ◌&&◌, length, MatchResult, None, Some, ◌==◌, nat_le};
ghost use Rattle.chain.specs.Answers.{told};
ghost use Rattle.code.specs.Held.{meant, held};
ghost use Rattle.code.specs.Meaning.{joining, entry_at};
ghost use Rattle.code.specs.Numbers.{code_flaw, is_shaped};

use crate::Code;
use crate::matrix::Matrix;
use chain::Chain;
use refusal::Refusal;

impl<C: Chain> Code<C> {
    // The entries stand row by row.
    pub fn new(chain: C, l: usize, entries: &[u8]) -> Code<C>
        ensures meaning { meant C.Chain.meaning result ≡ joining (C.Chain.meaning chain) l entries.now }
        ensures kept { result.chain ≡ chain }
        ensures shape { (C.Chain.meaning chain).flaw ≡ None → is_shaped (meant C.Chain.meaning result) ≡ (nat_le (C.Chain.meaning chain).s l && nat_le l 8 && length entries.now == (C.Chain.meaning chain).s * l) }
    {
        let matrix = Matrix::of(chain.levels(), l, entries);
        Code { chain, l, matrix }
    }

    pub fn chain(&self) -> &C
        ensures { result.now ≡ self.now.chain }
    {
        &self.chain
    }

    pub fn field(&self) -> &C::Over
        ensures { C.Over.Field.meaning result.now ≡ (C.Chain.meaning self.now.chain).field }
    {
        self.chain.field()
    }

    // The entry of the matrix in a row and a column, counted from 1; 0 where there is none.
    pub fn entry(&self, row: usize, column: usize) -> u8
        ensures { result ≡ told (code_flaw (meant C.Chain.meaning self.now)) (entry_at (held self.now.matrix) row column) }
    {
        self.checked()
            .map_or(0, |code| code.matrix.entry(row, column))
    }

    // Whether l is from s to 8 and the matrix has s rows of l entries.
    fn has_shape(&self) -> bool
        requires { (C.Chain.meaning self.now.chain).flaw ≡ None }
        ensures { result ≡ is_shaped (meant C.Chain.meaning self.now) }
    {
        is_fitting(
            self.chain.levels(),
            self.l,
            self.matrix.height(),
            self.matrix.width(),
        )
    }

    // Why the code cannot be used, if it cannot.
    pub fn flaw(&self) -> Option<Refusal>
        ensures { result ≡ code_flaw (meant C.Chain.meaning self.now) }
    {
        self.chain.flaw().or_else(|| self.matrix_flaw())
    }

    // The code, if it has no flaw.
    pub(crate) fn checked(&self) -> Result<&Self, Refusal>
        ensures { MatchResult result (λ code. (code.now ≡ self.now) × (code_flaw (meant C.Chain.meaning self.now) ≡ None)) (λ flaw. code_flaw (meant C.Chain.meaning self.now) ≡ Some flaw) }
    {
        // The arms say what the flaw is, which a closure handed to `map_or` would not know.
        match self.flaw() {
            None => Ok(self),
            Some(flaw) => Err(flaw),
        }
    }

    // The first flaw of the matrix.
    fn matrix_flaw(&self) -> Option<Refusal>
        requires { (C.Chain.meaning self.now.chain).flaw ≡ None }
        ensures { result ≡ code_flaw (meant C.Chain.meaning self.now) }
    {
        let f = self.chain.field();
        if !self.has_shape() {
            Some(Refusal::MatrixShape)
        } else if !self.matrix.is_of(f) {
            Some(Refusal::MatrixEntry)
        } else if !self.matrix.is_nonsingular(f) {
            Some(Refusal::SingularMatrix)
        } else {
            None
        }
    }
}

// Whether l is from s to 8, and the height and the width are s and l.
fn is_fitting(s: usize, l: usize, height: usize, width: usize) -> bool
    ensures { result ≡ (nat_le s l && nat_le l 8 && height == s && width == l) }
{
    s <= l && l <= 8 && height == s && width == l
}
