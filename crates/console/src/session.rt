// What stands in a session, and how it answers a command.
ghost use Rattle.std.specs.Prelude.{◌≡◌, ℕ, List, IfOk, OnOk, string_bytes};
ghost use Rattle.std.specs.Option.{option_map, ok_or};
ghost use Rattle.field.specs.Meaning as fields;
ghost use Rattle.chain.specs.Meaning as chains;
ghost use Rattle.any_field.specs.Kinds.{of_order};
ghost use Rattle.any_chain.specs.Kinds.{chain_meant};
ghost use Rattle.code.specs.Meaning.{joining};
ghost use Rattle.code.specs.Numbers.{code_flaw};
ghost use Rattle.printing.specs.Told.{IfTold};
ghost use Rattle.script.specs.Commands.{view, sheet, encode, code};
ghost use Rattle.script.specs.Lines.{parsed};
ghost use Rattle.console.specs.Answers.{Answers, IfAnswered, MakesBy, Prints, after, chain_made, kept, made_of, on, standing_after, text_on, told};
ghost use Rattle.console.specs.Printed.{printed};
ghost use Rattle.console.specs.Standing.{standing, nothing};
ghost use Rattle.console.specs.declared.answer.Failure.TheVariants.{NotYet};
ghost use Rattle.console.specs.declared.answer.Missing.TheVariants.{Field as FieldMissing, Chain as ChainMissing, Code as CodeMissing};

use crate::answer::{Answer, Failure, Missing, Unanswered};
use any_chain::AnyChain;
use any_field::AnyField;
use chain::Chain;
use code::Code;
use field::Field;
use printing::Untold;
use script::{Command, Line, echo_of, parse};
use std::alloc::{AllocError, Global};

// What the commands so far have made.
#[derive(Drop)]
pub struct Session {
    field: Option<AnyField>,
    chain: Option<AnyChain>,
    code: Option<Code<AnyChain>>,
    // The length of the scratch that is handed to the calls.
    scratch: u32,
}

impl Session {
    pub fn new() -> Session
        ensures { standing result ≡ nothing }
    {
        Session {
            field: None,
            chain: None,
            code: None,
            scratch: 4096,
        }
    }

    // The line and its answer, as they are printed; nothing where the line is passed over.
    pub fn reply(&mut self, heap: Global, line: &[u8]) -> Result<Option<String>, AllocError>
        ensures prints { IfOk result (λ o. Prints (standing self.old) line.now (parsed line.now) (option_map string_bytes o)) }
        ensures leaves { OnOk result (standing self.new ≡ standing_after (standing self.old) (parsed line.now)) }
    {
        let answer = match parse(heap, line)? {
            Line::PassedOver => return Ok(None),
            Line::Understood(command) => self.answer(heap, command)?,
            Line::NotUnderstood => Answer::NotUnderstood,
        };
        let echo = echo_of(heap, line)?;
        Ok(Some(format!(in heap; "{echo}\n{answer}\n")?))
    }

    // A failure is an answer too.
    fn answer(&mut self, heap: Global, command: Command) -> Result<Answer, AllocError>
        ensures answers { IfOk result (λ a. Answers (standing self.old) (view command) a) }
        ensures leaves { OnOk result (standing self.new ≡ after (standing self.old) (view command)) }
    {
        match self.carry_out(heap, command) {
            Ok(answer) => Ok(answer),
            Err(Unanswered::Failed(failure)) => Ok(Answer::Failed(failure)),
            Err(Unanswered::OutOfMemory(error)) => Err(error),
        }
    }

    // A command that fails leaves what stood before.
    fn carry_out(&mut self, heap: Global, command: Command) -> Result<Answer, Unanswered>
        ensures answers { IfAnswered result (Answers (standing self.old) (view command)) }
        ensures leaves { IfAnswered result (λ _. standing self.new ≡ after (standing self.old) (view command)) }
    {
        match command {
            Command::Field(q) => Ok(self.make_field(q)?),
            Command::Sum(a, b) => Ok(Answer::Symbol(self.standing_field()?.sum(a, b)?)),
            Command::Product(a, b) => Ok(Answer::Symbol(self.standing_field()?.product(a, b)?)),
            Command::Opposite(a) => Ok(Answer::Symbol(self.standing_field()?.opposite(a)?)),
            Command::Inverse(a) => Ok(Answer::Symbol(self.standing_field()?.inverse(a)?)),
            Command::Sheet => self.sheet(heap),
            Command::ReedSolomon(m, sizes) => Ok(self.make_chain(
                AnyChain::reed_solomon,
                m,
                sizes.as_slice(),
            )?),
            Command::Plain(m, kinds) => Ok(self.make_chain(AnyChain::plain, m, kinds.as_slice())?),
            Command::EncodeLevel(level, message) => self.chain_text(
                |chain| printing::try_encode_level(
                    heap,
                    &chain,
                    usize::from(level),
                    message.as_slice(),
                ),
            ),
            Command::CorrectLevel(level, block) => {
                // `usize` has no `From<u32>`.
                let scratch = self.scratch as usize;
                self.chain_text(|chain| printing::try_correct_level(
                    heap,
                    &chain,
                    usize::from(level),
                    block.as_slice(),
                    scratch,
                ))
            }
            Command::StripLevel(level, block) => self.chain_text(|chain| printing::try_strip_level(
                heap,
                &chain,
                usize::from(level),
                block.as_slice(),
            )),
            Command::Code(l, entries) => Ok(self.make_code(l, entries.as_slice())?),
            Command::Encode(message) => self.encode(heap, message.as_slice()),
            Command::Scratch(bytes) => {
                self.scratch = bytes;
                Ok(Answer::Scratch(bytes))
            }
        }
    }

    // One function for each, since which field of the struct is meant is no parameter.
    fn standing_field(&self) -> Result<AnyField, Failure>
        ensures { result ≡ ok_or self.now.field (NotYet FieldMissing) }
    {
        self.field.ok_or(Failure::NotYet(Missing::Field))
    }

    fn standing_chain(&self) -> Result<AnyChain, Failure>
        ensures { result ≡ ok_or self.now.chain (NotYet ChainMissing) }
    {
        self.chain.ok_or(Failure::NotYet(Missing::Chain))
    }

    fn standing_code(&self) -> Result<Code<AnyChain>, Failure>
        ensures { result ≡ ok_or self.now.code (NotYet CodeMissing) }
    {
        self.code.ok_or(Failure::NotYet(Missing::Code))
    }

    fn make_field(&mut self, q: u8) -> Result<Answer, Failure>
        ensures answer { result ≡ told (λ F. Answer.Field F.q) (of_order q) }
        ensures leaves { standing self.new ≡ record (standing self.old) { field = kept (standing self.old).field (of_order q) } }
    {
        let field = AnyField::of_order(q)?;
        self.field = Some(field);
        Ok(Answer::Field(field.order()))
    }

    // The chain that is made over the standing field then stands.
    fn make_chain<F: FnOnce(AnyField, usize, &[u8]) -> AnyChain>(
        &mut self,
        make: F,
        m: u8,
        numbers: &[u8],
    ) -> Result<Answer, Failure>
        requires { F.IsAlwaysCallable make }
        ensures answer { (f : fields.Meaning → chains.Meaning) → MakesBy (F.post make) m numbers.now f → result ≡ chain_made (standing self.old).field f }
        ensures leaves { (f : fields.Meaning → chains.Meaning) → MakesBy (F.post make) m numbers.now f → standing self.new ≡ record (standing self.old) { chain = made_of (standing self.old).field f (standing self.old).chain } }
    {
        let chain = make(self.standing_field()?, usize::from(m), numbers);
        self.chain = Some(chain);
        Ok(Answer::Chain(chain.flaw()))
    }

    fn make_code(&mut self, l: u8, entries: &[u8]) -> Result<Answer, Failure>
        ensures answer { result ≡ on ChainMissing (standing self.old).chain (λ C. Ok (Answer.Code (code_flaw (joining C l entries.now)))) }
        ensures leaves { standing self.new ≡ after (standing self.old) (code l entries.now) }
    {
        let code = Code::new(self.standing_chain()?, usize::from(l), entries);
        self.code = Some(code);
        Ok(Answer::Code(code.flaw()))
    }

    // What a call of the standing chain shows.
    fn chain_text<F: FnOnce(AnyChain) -> Result<String, Untold>>(
        &self,
        call: F,
    ) -> Result<Answer, Unanswered>
        requires { F.IsAlwaysCallable call }
        ensures { (text : chains.Meaning → List ℕ) → ((x : AnyChain) (r : _) → F.post call x r → IfTold string_bytes r (λ t. t ≡ text (chain_meant x))) → IfAnswered result (λ a. printed a ≡ text_on ChainMissing (standing self.now).chain text) }
    {
        Ok(Answer::Text(call(self.standing_chain()?)?))
    }

    fn encode(&self, heap: Global, message: &[u8]) -> Result<Answer, Unanswered>
        ensures { IfAnswered result (Answers (standing self.now) (encode message.now)) }
    {
        let text = printing::try_encode(heap, &self.standing_code()?, message)?;
        Ok(Answer::Text(text))
    }

    // The parameters of what stands.
    fn sheet(&self, heap: Global) -> Result<Answer, Unanswered>
        ensures { IfAnswered result (Answers (standing self.now) sheet) }
    {
        let q = self.standing_field()?.order();
        let mut text = format!(in heap; "field q {q}")?;
        if let Some(chain) = self.chain {
            let lines = printing::chain_lines(heap, &chain)?;
            text.push_str(lines.as_str())?;
        }
        if let Some(code) = self.code {
            let lines = printing::code_lines(heap, &code)?;
            text.push_str(lines.as_str())?;
        }
        Ok(Answer::Text(text))
    }
}
