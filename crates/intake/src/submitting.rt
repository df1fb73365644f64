ghost use Rattle.std.specs.Prelude.{◌≡◌, ℕ, ◌+◌, ◌<◌, ◌≤◌, true, false, None, vec_len, MatchOption};
ghost use Rattle.rules.specs.First.{first_of};
ghost use Rattle.rules.specs.Matching.{mirror, pair_from, reference_used, is_matched, is_awaited, off_roster, off_sheet, instruction_causes, taken_in};
ghost use Rattle.refusal.specs.Answer.{Answers};
ghost use Rattle.intake.specs.Checks.{Checks};
ghost use Rattle.intake.specs.Rosters.{terms_of};
ghost use Rattle.intake.specs.Parties.{pair_of};
ghost use Rattle.intake.specs.Books.{instruction_of, book_of, roster_under, kept_for_queue, kept_for_rows, causes_against};

use crate::instruction::Instruction;
use crate::intake::Intake;
use crate::pair::Pair;
use refusal::{Cause, Layer, Refusal, refuse_if};
use rules::MOST_INSTRUCTIONS;

impl Intake {
    // Searched one by one: a map finds memory as it grows, and all of the intake's is found at the start.
    fn is_used(&self, i: &Instruction) -> bool
        ensures { result ≡ reference_used (book_of self.now) (instruction_of i.now) }
    {
        self.kept.iter().any(|kept| kept.is_named_as(i))
    }

    fn is_matched(&self, i: &Instruction) -> bool
        ensures { result ≡ is_matched (book_of self.now) (instruction_of i.now) }
    {
        self.pairs.iter().any(|pair| pair.is_of(i))
    }

    fn is_awaited(&self, i: &Instruction) -> bool
        ensures { result ≡ is_awaited (book_of self.now) (instruction_of i.now) }
    {
        self.kept
            .iter()
            .any(|kept| kept.mirrors(i) && !self.is_matched(kept))
    }

    fn is_off_roster(&self, i: &Instruction) -> bool
        ensures { result ≡ off_roster (vec_len self.now.roster.members) (instruction_of i.now) }
    {
        let members = self.roster.len();
        i.submitter >= members || i.counterparty >= members || i.submitter == i.counterparty
    }

    fn is_off_sheet(&self, i: &Instruction) -> bool
        ensures { result ≡ off_sheet (terms_of self.now.roster).currencies (instruction_of i.now) }
    {
        let currencies = self.roster.sheet.len();
        i.buys >= currencies || i.sells >= currencies
    }

    // Nothing, or the refusal of an instruction for the first cause that holds against it.
    fn check(&self, i: &Instruction) -> Result<(), Refusal>
        ensures { Checks (causes_against self.now i.now) result }
    {
        let refusal = |cause| Refusal::by(Layer::Intake, cause)
            .of(i.submitter)
            .in_currency(i.buys);
        refuse_if(self.kept.len() >= MOST_INSTRUCTIONS, refusal(Cause::Full))?;
        refuse_if(self.is_off_roster(i), refusal(Cause::Member))?;
        refuse_if(self.is_off_sheet(i), refusal(Cause::Currency))?;
        refuse_if(i.is_off_range(), refusal(Cause::Amount))?;
        refuse_if(
            i.reference == 0 || self.is_used(i),
            refusal(Cause::Reference),
        )?;
        refuse_if(i.buys == i.sells, refusal(Cause::SameCurrency))
    }

    // The pair that an instruction makes, or `None` if its mirror is not kept unmatched.
    fn pair_with(&self, i: &Instruction) -> Option<Pair>
        requires { first_of (causes_against self.now i.now) ≡ None }
        ensures { MatchOption result (is_awaited (book_of self.now) (instruction_of i.now) ≡ false) (λ p. (is_awaited (book_of self.now) (instruction_of i.now) ≡ true) × (pair_of p ≡ pair_from (terms_of self.now.roster).rate (vec_len self.now.pairs + 1) (mirror (instruction_of i.now)))) }
    {
        // No `then`: what `pair` asks of this instruction is not proved inside a closure.
        if !self.is_awaited(i) {
            return None;
        }
        let number = self.pairs.len() as u32 + 1;
        let first = i.mirror();
        Some(first.pair(number, self.roster.sheet.rate(first.buys)))
    }

    /// Takes in an instruction: it is kept, and makes a pair if its mirror is kept unmatched.
    ///
    /// Refused if the intake is full, a party is not on the roster or both are one, a currency is not on the sheet, an
    /// amount is out of range, the reference is 0 or used by this submitter, or both currencies are one.
    pub fn submit(&mut self, instruction: Instruction) -> Result<(), Refusal>
        ensures answer { Answers (causes_against self.old instruction)
            (book_of self.old)
            (taken_in (terms_of (roster_under self.old)) (book_of self.old) (instruction_of instruction))
            (book_of self.new) result }
        ensures roster { roster_under self.new ≡ roster_under self.old }
        ensures queue { kept_for_queue self.new ≡ kept_for_queue self.old }
        ensures rows { kept_for_rows self.new ≡ kept_for_rows self.old }
    {
        self.check(&instruction)?;
        let pair = self.pair_with(&instruction);
        self.kept.push_reserved(instruction);
        if let Some(pair) = pair {
            self.pairs.push_reserved(pair);
        }
        Ok(())
    }
}
