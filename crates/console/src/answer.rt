// What the console answers, and how it prints it.
ghost use Rattle.std.specs.Prelude.{◌≡◌, Some};
ghost use Rattle.console.specs.Printed.{printed, printed_failure, printed_missing};
ghost use Rattle.console.specs.Told.{unanswered};
ghost use Rattle.console.specs.declared.answer.Failure.TheVariants.{Refused};
ghost use Rattle.console.specs.declared.answer.Unanswered.TheVariants.{Failed, OutOfMemory};

use printing::Untold;
use refusal::Refusal;
use std::alloc::AllocError;
use std::fmt;

// A failure, and that a line is not understood, are answers: they are printed as the others are.
#[derive(Debug, PartialEq, Eq, Drop)]
pub enum Answer {
    Field(u8),
    Symbol(u8),
    // A chain or a code was made, with this flaw or none.
    Chain(Option<Refusal>),
    Code(Option<Refusal>),
    Scratch(u32),
    // Symbols, or the lines of a sheet.
    Text(String),
    Failed(Failure),
    NotUnderstood,
}

// Why a command that was understood has no answer of its own.
#[derive(Clone, Copy, Debug, PartialEq, Eq)]
pub enum Failure {
    NotYet(Missing),
    Refused(Refusal),
}

// What a command wants and no command has made.
#[derive(Clone, Copy, Debug, PartialEq, Eq)]
pub enum Missing {
    Field,
    Chain,
    Code,
}

impl From<Refusal> for Failure {
    ghost from_gives = { λ e r. r ≡ Refused e };

    fn from(e: Refusal) -> Failure {
        Failure::Refused(e)
    }
}

// Why a command that was understood was not carried out: a failure is answered, and lack of memory ends the session.
#[derive(Clone, Copy, Debug)]
pub enum Unanswered {
    Failed(Failure),
    OutOfMemory(AllocError),
}

impl From<Failure> for Unanswered {
    ghost from_gives = { λ e r. r ≡ Failed e };

    fn from(e: Failure) -> Unanswered {
        Unanswered::Failed(e)
    }
}

impl From<Refusal> for Unanswered {
    ghost from_gives = { λ e r. r ≡ Failed (Refused e) };

    fn from(e: Refusal) -> Unanswered {
        Unanswered::Failed(Failure::Refused(e))
    }
}

impl From<AllocError> for Unanswered {
    ghost from_gives = { λ e r. r ≡ OutOfMemory e };

    fn from(e: AllocError) -> Unanswered {
        Unanswered::OutOfMemory(e)
    }
}

impl From<Untold> for Unanswered {
    ghost from_gives = { λ e r. r ≡ unanswered e };

    fn from(e: Untold) -> Unanswered {
        match e {
            Untold::Refused(refusal) => Unanswered::Failed(Failure::Refused(refusal)),
            Untold::OutOfMemory(error) => Unanswered::OutOfMemory(error),
        }
    }
}

impl fmt::Display for Answer {
    ghost output = { λ a. Some (printed a) };

    fn fmt<W: fmt::Write>(&self, f: &mut fmt::Formatter<W>) -> fmt::Result {
        match self {
            Answer::Field(q) => write!(f, "field q {q}"),
            Answer::Symbol(a) => write!(f, "{a}"),
            Answer::Chain(flaw) => {
                let number = Refusal::number_or_0(*flaw);
                write!(f, "chain flaw {number}")
            }
            Answer::Code(flaw) => {
                let number = Refusal::number_or_0(*flaw);
                write!(f, "code flaw {number}")
            }
            Answer::Scratch(bytes) => write!(f, "scratch {bytes}"),
            Answer::Text(text) => write!(f, "{text}"),
            Answer::Failed(failure) => write!(f, "{failure}"),
            Answer::NotUnderstood => write!(f, "not understood"),
        }
    }
}

impl fmt::Display for Failure {
    ghost output = { λ f. Some (printed_failure f) };

    fn fmt<W: fmt::Write>(&self, f: &mut fmt::Formatter<W>) -> fmt::Result {
        match self {
            Failure::NotYet(missing) => write!(f, "no {missing} yet"),
            Failure::Refused(refusal) => write!(f, "{refusal}"),
        }
    }
}

impl fmt::Display for Missing {
    ghost output = { λ m. Some (printed_missing m) };

    fn fmt<W: fmt::Write>(&self, f: &mut fmt::Formatter<W>) -> fmt::Result {
        match self {
            Missing::Field => write!(f, "field"),
            Missing::Chain => write!(f, "chain"),
            Missing::Code => write!(f, "code"),
        }
    }
}
