ghost use Rattle.std.specs.Prelude.{◌≡◌, true, false, IfOk, Some, None, MatchOption};
ghost use Rattle.rules.specs.Sheet.{is_code, code_taken, adding_causes, with_currency};
ghost use Rattle.rules.specs.Refusals as rules;
ghost use Rattle.refusal.specs.Meaning.{number_of, refusal_of};
ghost use Rattle.refusal.specs.Answer.{Answers};
ghost use Rattle.sheet.specs.Meaning.{sheet_of, given, Checked, no_currency};

use crate::currency::Currency;
use crate::sheet::Sheet;
use crate::text::same;
use refusal::{Cause, Layer, Refusal, refuse_if};
use rules::{CODE_SIZE, MOST_CURRENCIES, MOST_HAIRCUT, MOST_INSTALMENTS, MOST_RATE};
use std::alloc::{AllocError, Global};

// The three letters of a code, or `None` if it has not the form of one.
fn letters(code: &[u8]) -> Option<[u8; CODE_SIZE]>
    ensures { MatchOption result (is_code code.now ≡ false) (λ a. (is_code code.now ≡ true) × (a ≡ code.now)) }
{
    match code {
        [a, b, c] if a.is_ascii_uppercase() && b.is_ascii_uppercase() && c.is_ascii_uppercase() => {
            Some([*a, *b, *c])
        }
        _ => None,
    }
}

impl Currency {
    // The currency with this code, or `None` if a value is out of its range.
    fn in_range(code: [u8; CODE_SIZE], rate: u32, haircut: u16, instalments: u8) -> Option<Currency>
        ensures { Checked (given code rate haircut instalments) result }
    {
        let is_sound = (1..=MOST_RATE).contains(&rate)
            && haircut <= MOST_HAIRCUT
            && (1..=MOST_INSTALMENTS).contains(&instalments);
        // No `then`: that the currency is sound is not proved inside a closure.
        if !is_sound {
            return None;
        }
        Some(Currency {
            code,
            rate,
            haircut,
            instalments,
        })
    }
}

impl Sheet {
    /// An empty sheet, with memory for all that it may hold.
    pub fn begin(heap: Global) -> Result<Sheet, AllocError>
        ensures { IfOk result (λ s. sheet_of s ≡ record { currencies = 0; currency = λ _. no_currency }) }
    {
        Ok(Sheet {
            currencies: Vec::with_capacity(heap, MOST_CURRENCIES)?,
        })
    }

    fn is_taken(&self, code: [u8; CODE_SIZE]) -> bool
        ensures { result ≡ code_taken (sheet_of self.now) code }
    {
        self.currencies.iter().any(|x| same(&x.code, &code))
    }

    // The refusal of an addition: it names the number that the currency would have had.
    fn refusal(&self, cause: Cause) -> Refusal
        ensures { refusal_of result ≡ record { number = number_of cause; layer = rules.sheet; member = None; currency = Some (sheet_of self.now).currencies; place = 0 } }
    {
        Refusal::by(Layer::Sheet, cause).in_currency(self.len())
    }

    /// Adds a currency, which gets the next number.
    ///
    /// Refused if the sheet is full, the code has a wrong form or is taken, or a value is out of its range.
    pub fn add(
        &mut self,
        code: &[u8],
        rate: u32,
        haircut: u16,
        instalments: u8,
    ) -> Result<(), Refusal>
        ensures { Answers (adding_causes (sheet_of self.old) (given code.entry.now rate haircut instalments))
            (sheet_of self.old)
            (with_currency (sheet_of self.old) (given code.entry.now rate haircut instalments))
            (sheet_of self.new) result }
    {
        refuse_if(
            self.currencies.len() >= MOST_CURRENCIES,
            self.refusal(Cause::Full),
        )?;
        let code = letters(code).ok_or(self.refusal(Cause::Name))?;
        refuse_if(self.is_taken(code), self.refusal(Cause::Name))?;
        let currency = Currency::in_range(code, rate, haircut, instalments);
        let currency = currency.ok_or(self.refusal(Cause::Range))?;
        self.currencies.push_reserved(currency);
        Ok(())
    }
}
