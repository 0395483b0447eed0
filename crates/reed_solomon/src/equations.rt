// The two systems of the corrector, one equation for each point, and their solutions.
ghost use Rattle.std.specs.Prelude.{◌≡◌, ℕ, List, ◌+◌, ◌-◌, ◌*◌, ◌<◌, ◌≤◌, length};
ghost use Rattle.std.specs.List.{AllByRecursion};
ghost use Rattle.field.specs.Meaning.{Meaning};
ghost use Rattle.algebra.specs.Correction.{power, powers_from, locator_row, message_row, locator_rows, rows_of};
ghost use Rattle.algebra.specs.Polynomials.{value as value_of};
ghost use Rattle.algebra.specs.Symbols.{numbers, Symbols};
ghost use Rattle.reed_solomon.specs.Code.{points, points_from};
ghost use Rattle.reed_solomon.specs.Rows.{rows_from, Outcome, rows_with};

use crate::received::Received;
use crate::solver::solve_from;
use field::{Field, multiply, negate, value};

// A linear equation at each point x with the symbol y. A row holds the coefficients and then the right-hand side.
trait Equation {
    ghost unknowns: { Self → ℕ };

    // What makes the coefficients symbols.
    ghost fits: { Self → Meaning → Type 0 };

    ghost row_at: { Self → Meaning → ℕ → ℕ → List ℕ };

    // All four stay parameters, since it is called at one place.
    fn write_row<F: Field>(&self, f: &F, row: &mut [u8], x: u8, y: u8)
        requires fits { fits self.now (F.Field.meaning f.now) }
        requires long { length row.old ≡ unknowns self.now + 1 }
        requires point { x < (F.Field.meaning f.now).q }
        requires symbol { y < (F.Field.meaning f.now).q }
        ensures written { row.new ≡ row_at self.now (F.Field.meaning f.now) x y }
        ensures symbols { Symbols (F.Field.meaning f.now) row.new };
}

// y·E(x) = N(x), for E of degree t with leading coefficient 1 and N of n coefficients.
#[derive(Clone, Copy)]
struct LocatorEquation {
    t: usize,
    n: usize,
}

impl Equation for LocatorEquation {
    ghost unknowns = { λ e. e.t + e.n };

    ghost fits = { λ e F. e.t + e.n ≤ 32 };

    ghost row_at = { λ e F. locator_row (numbers F) e.t e.n };

    fn write_row<F: Field>(&self, f: &F, row: &mut [u8], x: u8, y: u8) {
        let degree = self.t;
        let end = degree + self.n;
        let top = write_powers(f, &mut row[..degree], y, x);
        write_powers(f, &mut row[degree..end], negate(f, 1), x);
        row[end] = negate(f, top);
    }
}

// e·f(x) = e·y, for f of k coefficients, e being the value at x of E, which has all its coefficients in `locator`.
#[derive(Clone, Copy)]
struct MessageEquation<'a> {
    k: usize,
    locator: &'a [u8],
}

impl<'a> Equation for MessageEquation<'a> {
    ghost unknowns = { λ e. e.k };

    ghost fits = { λ e F. Symbols F e.locator.now };

    ghost row_at = { λ e F x y. message_row (numbers F) e.k (value_of (numbers F) e.locator.now x) x y };

    fn write_row<F: Field>(&self, f: &F, row: &mut [u8], x: u8, y: u8) {
        let e = value(f, x, self.locator);
        write_powers(f, &mut row[..self.k], e, x);
        row[self.k] = multiply(f, e, y);
    }
}

// Writes a, a·x, a·x², .. and answers the next of them.
fn write_powers<F: Field>(f: &F, out: &mut [u8], a: u8, x: u8) -> u8
    requires first { a < (F.Field.meaning f.now).q }
    requires point { x < (F.Field.meaning f.now).q }
    ensures written { out.new ≡ powers_from (numbers (F.Field.meaning f.now)) a x (length out.old) }
    ensures next { result ≡ (F.Field.meaning f.now).product a (power (numbers (F.Field.meaning f.now)) x (length out.old)) }
{
    let mut p = a;
    for entry in out.iter_mut() {
        *entry = p;
        p = multiply(f, p, x);
    }
    p
}

// A row for each point from x on. By recursion, since a loop over `chunks_exact_mut` leaves open what the rows hold after it.
fn write_rows<F: Field, E: Equation>(
    f: &F,
    equation: &E,
    rows: &mut [u8],
    w: usize,
    x: u8,
    ys: &[u8],
)
    requires fits { E.fits equation.now (F.Field.meaning f.now) }
    requires width { w ≡ E.unknowns equation.now + 1 }
    requires long { length rows.old ≡ length ys.now * w }
    requires points { x + length ys.now ≤ (F.Field.meaning f.now).q }
    requires symbols { Symbols (F.Field.meaning f.now) ys.now }
    ensures symbols { AllByRecursion (Symbols (F.Field.meaning f.now)) (rows_from 0 w (length ys.now) rows.new) }
    ensures written { rows_from 0 w (length ys.now) rows.new ≡ rows_of (numbers (F.Field.meaning f.now)) (E.row_at equation.now (F.Field.meaning f.now)) (points_from x (length ys.now)) ys.now }
{
    if ys.is_empty() {
        return;
    }
    equation.write_row(f, &mut rows[..w], x, ys[0]);
    write_rows(f, equation, &mut rows[w..], w, x + 1, &ys[1..]);
}

// Solves a system of `count` rows, at least one.
fn solve<F: Field>(f: &F, rows: &mut [u8], count: usize, xs: &mut [u8]) -> Option<()>
    requires some { 1 ≤ count }
    requires long { length rows.old ≡ count * (length xs.old + 1) }
    requires rows { AllByRecursion (Symbols (F.Field.meaning f.now)) (rows_from 0 (length xs.old + 1) count rows.old) }
    requires unknowns { Symbols (F.Field.meaning f.now) xs.old }
    ensures { Outcome (F.Field.meaning f.now) (rows_from 0 (length xs.old + 1) count rows.old) (length xs.old) result xs.new }
{
    let (first, others) = rows.split_at_mut(xs.len() + 1);
    solve_from(f, first, others, count - 1, 0, xs)
}

impl<'a, F: Field> Received<'a, F> {
    // Solves an equation at the points of the word. The rows stand in the scratch.
    fn solve_at_points<E: Equation>(
        &self,
        equation: &E,
        scratch: &mut [u8],
        xs: &mut [u8],
    ) -> Option<()>
        requires fits { E.fits equation.now (F.Field.meaning self.now.field.now) }
        requires width { E.unknowns equation.now ≡ length xs.old }
        requires few { length xs.old ≤ 32 }
        requires room { 1056 ≤ length scratch.old }
        requires unknowns { Symbols (F.Field.meaning self.now.field.now) xs.old }
        ensures { Outcome (F.Field.meaning self.now.field.now) (rows_of (numbers (F.Field.meaning self.now.field.now)) (E.row_at equation.now (F.Field.meaning self.now.field.now)) (points (length self.now.symbols.now)) self.now.symbols.now) (length xs.old) result xs.new }
    {
        let w = xs.len() + 1;
        let rows = &mut scratch[..self.symbols.len() * w];
        write_rows(self.field, equation, rows, w, 0, self.symbols);
        solve(self.field, rows, self.symbols.len(), xs)
    }

    // Solves for E and N: first the t lower coefficients of E, then those of N.
    pub(crate) fn find_locator(&self, t: usize, scratch: &mut [u8], xs: &mut [u8]) -> Option<()>
        requires locator { t ≤ length xs.old }
        requires few { length xs.old ≤ 32 }
        requires room { 1056 ≤ length scratch.old }
        requires unknowns { Symbols (F.Field.meaning self.now.field.now) xs.old }
        ensures { Outcome (F.Field.meaning self.now.field.now) (locator_rows (numbers (F.Field.meaning self.now.field.now)) t (length xs.old - t) (points (length self.now.symbols.now)) self.now.symbols.now) (length xs.old) result xs.new }
    {
        let equation = LocatorEquation { t, n: xs.len() - t };
        self.solve_at_points(&equation, scratch, xs)
    }

    // Solves for f, for all coefficients of E.
    pub(crate) fn find_message(
        &self,
        locator: &[u8],
        scratch: &mut [u8],
        xs: &mut [u8],
    ) -> Option<()>
        requires few { length xs.old ≤ 32 }
        requires room { 1056 ≤ length scratch.old }
        requires locator { Symbols (F.Field.meaning self.now.field.now) locator.now }
        requires unknowns { Symbols (F.Field.meaning self.now.field.now) xs.old }
        ensures { Outcome (F.Field.meaning self.now.field.now) (rows_with (F.Field.meaning self.now.field.now) (length xs.old) locator.now (points (length self.now.symbols.now)) self.now.symbols.now) (length xs.old) result xs.new }
    {
        let equation = MessageEquation {
            k: xs.len(),
            locator,
        };
        self.solve_at_points(&equation, scratch, xs)
    }
}
