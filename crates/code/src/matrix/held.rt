// Making and reading a matrix.
ghost use Rattle.std.specs.Prelude.{◌≡◌, ℕ, ◌*◌, ◌<◌, ◌≤◌, T, [], length, slice_index_or, take};
ghost use Rattle.std.specs.List.{list_all};
ghost use Rattle.code.specs.Held.{held};
ghost use Rattle.code.specs.Meaning.{matrix_of, entry_at};
ghost use Rattle.field.specs.Words.{symbols, plus_scaled};
ghost use Rattle.code.specs.Numbers.{joined_to, piece};
ghost use Rattle.algebra.specs.Matrices.{every};

use crate::matrix::Matrix;
use field::{Field, add_scaled, are_symbols};

impl Matrix {
    // Holds the entries, which stand row by row; no rows if there are too many, or not as many as that asks for. No `From`, which
    // takes one value, and no `TryFrom`, since making a code is never refused.
    pub fn of(height: usize, width: usize, entries: &[u8]) -> Matrix
        ensures { held result ≡ matrix_of height width entries.now }
    {
        let mut rows = [[0; 8]; 4];
        if height > 4 || width > 8 || entries.len() != height * width {
            return Matrix {
                rows,
                height: 0,
                width: 0,
            };
        }
        // By index, since a width of 0 cuts no chunks.
        for i in 0..height {
            let mut row = [0; 8];
            row[..width].copy_from_slice(&entries[i * width..][..width]);
            rows[i] = row;
        }
        Matrix {
            rows,
            height,
            width,
        }
    }

    // A row, counted from 0; an empty one where there is none.
    pub(crate) fn row(&self, i: usize) -> &[u8]
        ensures { result.now ≡ slice_index_or (held self.now) i [] }
    {
        if i < self.height {
            &self.rows[i][..self.width]
        } else {
            &[]
        }
    }

    // The entry in a row and a column, counted from 1; 0 where there is none.
    pub fn entry(&self, row: usize, column: usize) -> u8
        ensures { result ≡ entry_at (held self.now) row column }
    {
        self.row(row.saturating_sub(1))
            .get(column.saturating_sub(1))
            .copied()
            .unwrap_or(0)
    }

    pub(crate) fn height(&self) -> usize
        ensures { result ≡ self.now.height }
    {
        self.height
    }

    pub(crate) fn width(&self) -> usize
        ensures { result ≡ self.now.width }
    {
        self.width
    }

    // Whether all entries are symbols of the field.
    pub(crate) fn is_of<F: Field>(&self, f: &F) -> bool
        ensures { result ≡ every (symbols (F.Field.meaning f.now).q) (held self.now) }
    {
        are_words(f, self.width, &self.rows[..self.height])
    }

    // Adds to each block of `out` the word times the entry of the row in that block's column.
    pub(crate) fn add_row<F: Field>(&self, f: &F, row: usize, word: &[u8], out: &mut [u8])
        requires entries { (j : ℕ) → entry_at (held self.now) row j < (F.Field.meaning f.now).q }
        requires word { T (symbols (F.Field.meaning f.now).q word.now) }
        requires before { T (symbols (F.Field.meaning f.now).q out.old) }
        requires long { length out.old ≡ self.now.width * length word.now }
        ensures { out.new ≡ joined_to (λ j. plus_scaled (F.Field.meaning f.now) (entry_at (held self.now) row j) (piece (length word.now) out.old j) word.now) self.now.width }
    {
        let m = word.len();
        // By index, since `chunks_exact_mut` leaves open what `out` holds.
        for j in 0..self.width {
            let entry = self.entry(row, j + 1);
            let _ = add_scaled(f, &mut out[j * m..j * m + m], entry, word);
        }
    }
}

// Whether the first entries of each row are symbols of the field.
fn are_words<F: Field>(f: &F, width: usize, rows: &[[u8; 8]]) -> bool
    requires { width ≤ 8 }
    ensures { result ≡ list_all (λ row. symbols (F.Field.meaning f.now).q (take width row)) rows.now }
{
    rows.iter().all(|row| are_symbols(f, &row[..width]))
}
