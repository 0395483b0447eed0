// The lines of a parameter sheet for a chain and for a code, each after a newline.
//
// That a code has no flaw stands in the clauses of what `code_lines` calls once it has asked for it: a struct that kept the fact
// would be made there to be taken apart.
ghost use Rattle.std.specs.Prelude.{◌≡◌, ℕ, ◌≤◌, ◌++◌, List, IfOk, OnOk, None, string_bytes};
ghost use Rattle.chain.specs.Meaning.{Level};
ghost use Rattle.code.specs.Held.{meant};
ghost use Rattle.code.specs.Numbers.{code_flaw, joined_to};
ghost use Rattle.printing.specs.Sheets.{level_line, chain_lines as lines_of_chain, row_line, numbers_line, details as details_of, code_lines as lines_of_code};

use chain::{Chain, radius};
use code::Code;
use refusal::Refusal;
use std::alloc::{AllocError, Global};

// Adds the parts 1 to n to the text.
fn push_parts<F: Fn(usize) -> Result<String, AllocError>>(
    text: &mut String,
    n: usize,
    part: F,
) -> Result<(), AllocError>
    requires { (i : ℕ) → 1 ≤ i → i ≤ n → F.pre part i }
    ensures { (texts : ℕ → List ℕ) → ((i : ℕ) → 1 ≤ i → i ≤ n → (r : _) → F.post part i r → IfOk r (λ s. string_bytes s ≡ texts i)) → OnOk result (string_bytes text.new ≡ string_bytes text.old ++ joined_to texts n) }
{
    for i in 1..=n {
        let next = part(i)?;
        text.push_str(next.as_str())?;
    }
    Ok(())
}

fn level_line<C: Chain>(heap: Global, chain: &C, level: usize) -> Result<String, AllocError>
    requires sound { (C.Chain.meaning chain.now).flaw ≡ None }
    requires level { Level (C.Chain.meaning chain.now) level }
    ensures { IfOk result (λ s. string_bytes s ≡ level_line (C.Chain.meaning chain.now) level) }
{
    let k = chain.size(level).unwrap_or(0);
    let d = chain.distance(level).unwrap_or(0);
    let t = radius(chain, level).unwrap_or(0);
    format!(in heap; "\nlevel {level} k {k} d {d} t {t}")
}

// The numbers of a chain and of each level.
pub fn chain_lines<C: Chain>(heap: Global, chain: &C) -> Result<String, AllocError>
    ensures { IfOk result (λ s. string_bytes s ≡ lines_of_chain (C.Chain.meaning chain.now)) }
{
    let flaw = Refusal::number_or_0(chain.flaw());
    let m = chain.length();
    let s = chain.levels();
    let mut text = format!(in heap; "\nchain flaw {flaw} m {m} s {s}")?;
    push_parts(&mut text, s, |level| level_line(heap, chain, level))?;
    Ok(text)
}

// A row of the matrix.
fn row_line<C: Chain>(heap: Global, code: &Code<C>, row: usize) -> Result<String, AllocError>
    requires { code_flaw (meant C.Chain.meaning code.now) ≡ None }
    ensures { IfOk result (λ s. string_bytes s ≡ row_line (meant C.Chain.meaning code.now) row) }
{
    let mut text = String::from_str(heap, "\nrow")?;
    push_parts(&mut text, code.columns(), |column| {
        let entry = code.entry(row, column);
        format!(in heap; " {entry}")
    })?;
    Ok(text)
}

fn numbers_line<C: Chain>(heap: Global, code: &Code<C>) -> Result<String, AllocError>
    requires { code_flaw (meant C.Chain.meaning code.now) ≡ None }
    ensures { IfOk result (λ s. string_bytes s ≡ numbers_line (meant C.Chain.meaning code.now)) }
{
    let k = code.message_length();
    let n = code.word_length();
    let d = code.distance();
    let t = code.radius();
    let choices = code.choices();
    format!(in heap; "\nk {k} n {n} d {d} t {t} choices {choices}")
}

// The matrix and the numbers of a code without a flaw.
fn details<C: Chain>(heap: Global, code: &Code<C>) -> Result<String, AllocError>
    requires { code_flaw (meant C.Chain.meaning code.now) ≡ None }
    ensures { IfOk result (λ s. string_bytes s ≡ details_of (meant C.Chain.meaning code.now)) }
{
    let mut text = String::new(heap);
    push_parts(
        &mut text,
        code.chain().levels(),
        |row| row_line(heap, code, row),
    )?;
    let line = numbers_line(heap, code)?;
    text.push_str(line.as_str())?;
    Ok(text)
}

// The flaw of a code, printed as its number, and without one its matrix and its numbers.
pub fn code_lines<C: Chain>(heap: Global, code: &Code<C>) -> Result<String, AllocError>
    ensures { IfOk result (λ s. string_bytes s ≡ lines_of_code (meant C.Chain.meaning code.now)) }
{
    match code.flaw() {
        Some(flaw) => {
            let number = flaw.number();
            format!(in heap; "\ncode flaw {number}")
        }
        None => {
            let rest = details(heap, code)?;
            format!(in heap; "\ncode flaw 0{rest}")
        }
    }
}
