// Linear equations over any field, solved in place. A row holds the coefficients and then the right-hand side.
//
// The rows are passed over by recursion, since a loop over `chunks_exact_mut` leaves open what they hold after it. Their number
// goes beside them, since only a division of the lengths at each step would tell it. What a row holds stands in the clauses, since the rows
// are written.
ghost use Rattle.std.specs.Prelude.{◌≡◌, ◌+◌, ◌*◌, ◌<◌, true, false, ◌∷◌, map, length, drop, ◌≢◌, slice_index, zip};
ghost use Rattle.std.specs.List.{AllByRecursion, fold};
ghost use Rattle.field.specs.Words.{sum_or_0, product_or_0};
ghost use Rattle.field.specs.Meaning.{inverse_of, opposite_of};
ghost use Rattle.algebra.specs.Symbols.{numbers, Symbols};
ghost use Rattle.algebra.specs.Vectors.{dot as dot_of};
ghost use Rattle.algebra.specs.Systems.{cleared};
ghost use Rattle.reed_solomon.specs.Rows.{rows_from, Exchanged, Outcome};

use field::{Field, add, add_multiple, invert, multiply, negate};

// Exchanges `first` for the first row whose entry in column c is not 0, itself among them; says whether there is one. The
// entry stands in `first` then, so an `Option` of it would say it twice.
fn bring(first: &mut [u8], others: &mut [u8], count: usize, c: usize) -> bool
    requires column { c < length first.old }
    requires long { length others.old ≡ count * length first.old }
    ensures rows { Exchanged (first.old ∷ rows_from 0 (length first.old) count others.old) (first.new ∷ rows_from 0 (length first.old) count others.new) }
    ensures found { result ≡ true → slice_index first.new c ≢ 0 }
    ensures missing { result ≡ false → AllByRecursion (λ row. slice_index row c ≡ 0) (first.old ∷ rows_from 0 (length first.old) count others.old) }
{
    if first[c] != 0 {
        return true;
    }
    if count == 0 {
        return false;
    }
    let w = first.len();
    if others[c] != 0 {
        first.swap_with_slice(&mut others[..w]);
        return true;
    }
    bring(first, &mut others[w..], count - 1, c)
}

// The sum of the products of the entries, as far as both go.
fn dot<F: Field>(f: &F, a: &[u8], xs: &[u8]) -> u8
    ensures { result ≡ fold (λ s p. sum_or_0 (F.Field.meaning f.now) s (product_or_0 (F.Field.meaning f.now) p.0 p.1)) 0 (zip a.now xs.now) }
{
    a.iter()
        .zip(xs)
        .fold(0, |sum, (a, x)| add(f, sum, multiply(f, *a, *x)))
}

// Adds the multiple of the pivot row that makes the entry in column c 0.
fn clear_row<F: Field>(f: &F, pivot: &[u8], inverse: u8, row: &mut [u8], c: usize)
    requires column { c < length pivot.now }
    requires long { length row.old ≡ length pivot.now }
    requires inverse { inverse ≡ inverse_of (F.Field.meaning f.now) (slice_index pivot.now c) }
    requires pivot { Symbols (F.Field.meaning f.now) (drop c pivot.now) }
    requires row { Symbols (F.Field.meaning f.now) (drop c row.old) }
    ensures { drop c row.new ≡ cleared (numbers (F.Field.meaning f.now)) (drop c pivot.now) (drop c row.old) }
{
    // Nothing to clear.
    if row[c] == 0 {
        return;
    }
    let factor = negate(f, multiply(f, row[c], inverse));
    add_multiple(f, &mut row[c..], factor, &pivot[c..]);
}

// Clears column c in every row.
fn clear<F: Field>(f: &F, pivot: &[u8], inverse: u8, rows: &mut [u8], count: usize, c: usize)
    requires column { c < length pivot.now }
    requires long { length rows.old ≡ count * length pivot.now }
    requires inverse { inverse ≡ inverse_of (F.Field.meaning f.now) (slice_index pivot.now c) }
    requires pivot { Symbols (F.Field.meaning f.now) (drop c pivot.now) }
    requires rows { AllByRecursion (Symbols (F.Field.meaning f.now)) (rows_from c (length pivot.now) count rows.old) }
    ensures { rows_from c (length pivot.now) count rows.new ≡ map (cleared (numbers (F.Field.meaning f.now)) (drop c pivot.now)) (rows_from c (length pivot.now) count rows.old) }
{
    if count == 0 {
        return;
    }
    let w = pivot.len();
    clear_row(f, pivot, inverse, &mut rows[..w], c);
    clear(f, pivot, inverse, &mut rows[w..], count - 1, c);
}

// The unknown of the pivot, from the entries after the pivot and the unknowns after it.
fn pivot_unknown<F: Field>(f: &F, inverse: u8, row: &[u8], xs: &[u8]) -> u8
    requires inverse { inverse < (F.Field.meaning f.now).q }
    requires long { length row.now ≡ length xs.now + 1 }
    requires row { Symbols (F.Field.meaning f.now) row.now }
    requires unknowns { Symbols (F.Field.meaning f.now) xs.now }
    ensures { result ≡ (F.Field.meaning f.now).product inverse ((F.Field.meaning f.now).sum (slice_index row.now (length xs.now)) (opposite_of (F.Field.meaning f.now) (dot_of (numbers (F.Field.meaning f.now)) row.now xs.now))) }
{
    multiply(
        f,
        inverse,
        add(f, row[xs.len()], negate(f, dot(f, row, xs))),
    )
}

// Solves the system of the row `first` and the other rows, each from column c on. A pivot in column c tells the first unknown
// from the others; a column without one leaves it free, as it stands in xs. What becomes of the rows is open.
pub(crate) fn solve_from<F: Field>(
    f: &F,
    first: &mut [u8],
    others: &mut [u8],
    count: usize,
    c: usize,
    xs: &mut [u8],
) -> Option<()>
    requires width { length first.old ≡ c + length xs.old + 1 }
    requires long { length others.old ≡ count * length first.old }
    requires row { Symbols (F.Field.meaning f.now) (drop c first.old) }
    requires rows { AllByRecursion (Symbols (F.Field.meaning f.now)) (rows_from c (length first.old) count others.old) }
    requires unknowns { Symbols (F.Field.meaning f.now) xs.old }
    ensures { Outcome (F.Field.meaning f.now) (drop c first.old ∷ rows_from c (length first.old) count others.old) (length xs.old) result xs.new }
{
    let found = bring(first, others, count, c);
    if xs.is_empty() {
        return (!found).then_some(());
    }
    if !found {
        return solve_from(f, first, others, count, c + 1, &mut xs[1..]);
    }
    let inverse = invert(f, first[c]);
    clear(f, first, inverse, others, count, c);
    if count > 0 {
        let (row, rest) = others.split_at_mut(first.len());
        solve_from(f, row, rest, count - 1, c + 1, &mut xs[1..])?;
    }
    xs[0] = pivot_unknown(f, inverse, &first[c + 1..], &xs[1..]);
    Some(())
}
