// Facts over any field, for the layers above: polynomials, distances, linear equations, matrices.
#![tactic(auto)]

ghost use Rattle.algebra.specs.Theorems.{RootsBounded, ValuesApart, NearestOnly, LocatorExists, LocatorAgrees, AgreeingOnly, TestDecides, FewZeroColumns};

use field::Field;

// Each function below does nothing: its contract is a theorem.

// A polynomial with no more coefficients than it has different zeros is zero.
pub fn roots_bounded<F: Field>(f: &F) -> u8
    ensures { RootsBounded (F.Field.meaning f.now) }
{
    0
}

// The words of two different polynomials of k coefficients at m different points differ in at least m − k + 1 places.
pub fn values_apart<F: Field>(f: &F) -> u8
    ensures { ValuesApart (F.Field.meaning f.now) }
{
    0
}

// Of a set of words with minimum distance d, at most one lies within (d − 1)/2 of a word.
pub fn nearest_only() -> u8
    ensures { NearestOnly }
{
    0
}

// A word of values with at most t errors has a locator; g agrees with the word wherever a locator is not 0; no other polynomial does.
pub fn correction_unique<F: Field>(f: &F) -> u8
    ensures exists { LocatorExists (F.Field.meaning f.now) }
    ensures agrees { LocatorAgrees (F.Field.meaning f.now) }
    ensures only { AgreeingOnly (F.Field.meaning f.now) }
{
    0
}

// The test by elimination decides whether a matrix is non-singular by columns, and such a matrix leaves few zeros in a combination of its rows.
pub fn columns_tested<F: Field>(f: &F) -> u8
    ensures decides { TestDecides (F.Field.meaning f.now) }
    ensures few { FewZeroColumns (F.Field.meaning f.now) }
{
    0
}
