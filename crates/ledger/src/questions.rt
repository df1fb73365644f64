ghost use Rattle.std.specs.Prelude.{◌≡◌, ℕ, false, List, map};
ghost use Rattle.std.specs.Option.{option_map};
ghost use Rattle.rules.specs.Questions.{numbered};
ghost use Rattle.accounts.specs.Meaning.{setting_within};
ghost use Rattle.intake.specs.Parties.{pair_of};
ghost use Rattle.ledger.specs.Meaning.{setting_by, books_within, queue_of};
ghost use Rattle.ledger.specs.Questions.{AccountAsked, DueAsked, PairAsked};

use crate::ledger::Ledger;
use crate::named::Named;
use accounts::Stop;
use intake::Pair;
use refusal::{Cause, Layer, Refusal};
use units::{Amount, Units};

impl Ledger {
    /// The account of a member in a currency.
    pub fn account(&self, member: u8, currency: u8) -> Result<Units, Refusal>
        ensures { AccountAsked (setting_within self.now.accounts) (books_within self.now) member currency result }
    {
        let p = self.position_of(Named { member, currency })?;
        Ok(p.account)
    }

    /// The amount due of a member in a currency at the present hour.
    pub fn amount_due(&self, member: u8, currency: u8) -> Result<Amount, Refusal>
        ensures { DueAsked (setting_by (λ p q. false) self.now) (books_within self.now) member currency result }
    {
        let call = Named { member, currency };
        let paid = self.position_of(call)?.paid_in;
        let required = self.required(member, currency);
        // The currency has a position, so it is on the sheet.
        let due = self
            .accounts
            .sheet
            .amount_due(currency, required, self.hour, paid)
            .unwrap();
        Ok(due)
    }

    // The waiting pair of a number.
    fn waiting_pair(&self, number: u32) -> Option<&Pair>
        ensures { option_map (λ p. pair_of p.now) result ≡ numbered number (queue_of self.now) }
    {
        self.waiting.iter().find(|p| p.number == number)
    }

    /// What stops the waiting pair of a number, if anything does.
    pub fn stopped_by(&self, number: u32) -> Result<Option<Stop>, Refusal>
        ensures { PairAsked (setting_within self.now.accounts) (books_within self.now) number result }
    {
        self.waiting_pair(number)
            .map(|p| self.accounts.stopped_by(p))
            .ok_or(Refusal::by(Layer::Session, Cause::NoPair))
    }
}
