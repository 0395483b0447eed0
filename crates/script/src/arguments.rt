// The arguments of a command: numbers at first, then as many symbols as it takes.
ghost use Rattle.std.specs.Prelude.{◌≡◌, vec_items, IfErr, IfOk, Option};
ghost use Rattle.std.specs.Option.{ok_or};
ghost use Rattle.script.specs.declared.arguments.Unread.TheVariants.{NotUnderstood, Memory};
ghost use Rattle.script.specs.Words.{texts};
ghost use Rattle.script.specs.Numbers.{each, numbers};
ghost use Rattle.script.specs.Arguments.{Reads, first_and_rest, none, one, symbol, symbols, two, whole};

use crate::numbers::number_of;
use std::alloc::{AllocFailed, Global};

// Why no command was read.
#[derive(Clone, Copy, PartialEq, Eq, Debug)]
pub enum Unread {
    NotUnderstood,
    Memory,
}

impl<T: Drop> From<AllocFailed<T>> for Unread {
    ghost from_gives = { λ _ r. r ≡ Memory };

    fn from(_e: AllocFailed<T>) -> Unread {
        Unread::Memory
    }
}

// What each item reads as, if each is understood.
fn each_of<T, U: Drop, F: Fn(&T) -> Result<U, Unread>>(
    heap: Global,
    items: &[T],
    read: F,
) -> Result<Vec<U>, Unread>
    ghost reading: { T → Option U }
    requires callable { F.IsAlwaysCallable read }
    requires reads { (x : _) (r : _) → F.post read x r → r ≡ ok_or (reading x.now) NotUnderstood }
    ensures { Reads vec_items result (each reading items.now) }
{
    // A chain into `try_collect` was tried: the check leaves open where it fails.
    let mut found = Vec::new(heap);
    for item in items {
        found.push(read(item)?)?;
    }
    Ok(found)
}

pub(crate) fn numbers_of(heap: Global, words: &[&[u8]]) -> Result<Vec<u32>, Unread>
    ensures { Reads vec_items result (numbers (texts words.now)) }
{
    each_of(
        heap,
        words,
        |word| number_of(word).ok_or(Unread::NotUnderstood),
    )
}

fn symbol_of(number: u32) -> Result<u8, Unread>
    ensures { result ≡ ok_or (symbol number) NotUnderstood }
{
    u8::try_from(number).map_err(|_| Unread::NotUnderstood)
}

pub(crate) fn none_of(numbers: &[u32]) -> Result<(), Unread>
    ensures { result ≡ ok_or (none numbers.now) NotUnderstood }
{
    match numbers {
        [] => Ok(()),
        _ => Err(Unread::NotUnderstood),
    }
}

pub(crate) fn one_of(numbers: &[u32]) -> Result<u8, Unread>
    ensures { result ≡ ok_or (one numbers.now) NotUnderstood }
{
    symbol_of(whole_of(numbers)?)
}

pub(crate) fn two_of(numbers: &[u32]) -> Result<(u8, u8), Unread>
    ensures { result ≡ ok_or (two numbers.now) NotUnderstood }
{
    match numbers {
        [a, b] => Ok((symbol_of(*a)?, symbol_of(*b)?)),
        _ => Err(Unread::NotUnderstood),
    }
}

pub(crate) fn whole_of(numbers: &[u32]) -> Result<u32, Unread>
    ensures { result ≡ ok_or (whole numbers.now) NotUnderstood }
{
    match numbers {
        [n] => Ok(*n),
        _ => Err(Unread::NotUnderstood),
    }
}

pub(crate) fn symbols_of(heap: Global, numbers: &[u32]) -> Result<Vec<u8>, Unread>
    ensures { Reads vec_items result (symbols numbers.now) }
{
    each_of(heap, numbers, |number| symbol_of(*number))
}

// What is made of a symbol and those after it.
pub(crate) fn with_rest<C, F: FnOnce(u8, Vec<u8>) -> C>(
    heap: Global,
    numbers: &[u32],
    make: F,
) -> Result<C, Unread>
    requires { F.IsAlwaysCallable make }
    ensures ok { IfOk result
        (λ c. (a : _) × (v : _) × (Some (a, vec_items v) ≡ first_and_rest numbers.now) × F.post make a v c) }
    ensures err { IfErr result (λ e. e ≡ NotUnderstood → None ≡ first_and_rest numbers.now) }
{
    let (first, rest) = numbers.split_first().ok_or(Unread::NotUnderstood)?;
    Ok(make(symbol_of(*first)?, symbols_of(heap, rest)?))
}
