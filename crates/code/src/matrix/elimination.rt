// The test whether a matrix is non-singular by columns, by elimination on copies of it.
//
// That its entries are symbols stands in the clauses: a matrix knows no field, and a struct of both would be made anew at each step.
ghost use Rattle.std.specs.Prelude.{◌≡◌, ℕ, ◌-◌, ◌<◌, ◌≤◌, true, false, T, [], ◌++◌, length, replicate, ◌≢◌, slice_index, slice_index_or};
ghost use Rattle.field.specs.Words.{symbols};
ghost use Rattle.code.specs.Columns.{nonsingular};
ghost use Rattle.code.specs.Elimination.{cleared_row, reduced_rows, passes, Rows};
ghost use Rattle.code.specs.Held.{held};

use crate::matrix::Matrix;
use field::{Field, add_scaled, invert, multiply, negate};

impl Matrix {
    // Whether it is non-singular by columns.
    pub(crate) fn is_nonsingular<F: Field>(&self, f: &F) -> bool
        requires { Rows (F.Field.meaning f.now) self.now.width (held self.now) }
        ensures { result ≡ nonsingular (F.Field.meaning f.now) self.now.height self.now.width (held self.now) }
    {
        self.passes(f, none_taken(self.width))
    }

    // Whether the test passes with every column that is not taken as the first pivot.
    fn passes<F: Field>(&self, f: &F, taken: [bool; 8]) -> bool
        requires rows { Rows (F.Field.meaning f.now) self.now.width (held self.now) }
        requires free { (j : ℕ) → j < 8 → slice_index_or taken j false ≡ false → j < self.now.width }
        requires long { length taken ≡ 8 }
        ensures { result ≡ passes (F.Field.meaning f.now) (held self.now) taken }
    {
        if self.height == 0 {
            return true;
        }
        let top = self.row(0);
        // No `all`: a closure that leads back to its function needs all these clauses again.
        for (p, is_taken) in taken.iter().enumerate() {
            if !*is_taken {
                if top[p] == 0 {
                    return false;
                }
                let mut also = taken;
                also[p] = true;
                if !self.reduced(f, p).passes(f, also) {
                    return false;
                }
            }
        }
        true
    }

    // Without its first row, which clears the others by the pivot in column p.
    fn reduced<F: Field>(&self, f: &F, p: usize) -> Matrix
        requires pivot { p < self.now.width }
        requires some { 0 < self.now.height }
        requires lead { slice_index (slice_index_or (held self.now) 0 []) p ≢ 0 }
        requires rows { Rows (F.Field.meaning f.now) self.now.width (held self.now) }
        ensures rows { held result ≡ reduced_rows (F.Field.meaning f.now) p (held self.now) }
        ensures width { result.width ≡ self.now.width }
        ensures height { result.height ≡ self.now.height - 1 }
    {
        let mut rows = self.rows;
        // By index, since a `zip` of the places with the rows leaves open what they hold.
        for i in 0..self.height - 1 {
            let mut row = self.rows[i + 1];
            clear_row(f, p, self.row(0), &mut row[..self.width]);
            rows[i] = row;
        }
        Matrix {
            rows,
            height: self.height - 1,
            width: self.width,
        }
    }
}

// Clears a row in column p by the top row.
fn clear_row<F: Field>(f: &F, p: usize, top: &[u8], row: &mut [u8])
    requires pivot { p < length top.now }
    requires lead { slice_index top.now p ≢ 0 }
    requires tops { T (symbols (F.Field.meaning f.now).q top.now) }
    requires rows { T (symbols (F.Field.meaning f.now).q row.old) }
    requires long { length row.old ≡ length top.now }
    ensures { row.new ≡ cleared_row (F.Field.meaning f.now) p top.now row.old }
{
    let factor = negate(f, multiply(f, row[p], invert(f, top[p])));
    let _ = add_scaled(f, row, factor, top);
}

// No column is taken, but those past the width.
fn none_taken(width: usize) -> [bool; 8]
    requires { width ≤ 8 }
    ensures { result ≡ replicate width false ++ replicate (8 - width) true }
{
    let mut taken = [true; 8];
    taken[..width].fill(false);
    taken
}
