ghost use Rattle.std.specs.Prelude.{◌≡◌, ℕ, ◌<◌, ◌≤◌, MatchOption};
ghost use Rattle.rules.specs.Bounds.{most_currencies, most_rate};
ghost use Rattle.rules.specs.Schedule.{due};
ghost use Rattle.sheet.specs.Meaning.{sheet_of, currency_of};

use crate::currency::Currency;
use crate::sheet::Sheet;
use units::Amount;

impl Currency {
    // The amount due at an hour, of a required amount of which some is paid in.
    fn due(&self, required: Amount, hour: u8, paid: Amount) -> Amount
        ensures { result.0 ≡ due required.0 hour self.now.instalments paid.0 }
    {
        // The product needs more than 64 bits; the quotient is at most the required amount.
        let part = u128::from(required.0) * u128::from(hour.min(self.instalments));
        let so_far = part.div_ceil(u128::from(self.instalments)) as u64;
        Amount(so_far).saturating_sub(paid)
    }
}

impl Sheet {
    /// How many currencies there are.
    pub fn len(&self) -> u8
        ensures count { result ≡ (sheet_of self.now).currencies }
        ensures bound { result ≤ most_currencies }
    {
        self.currencies.len() as u8
    }

    /// The currency of a number, or `None` if it is not on the sheet.
    pub fn currency(&self, c: u8) -> Option<Currency>
        ensures { MatchOption result ((sheet_of self.now).currencies ≤ c) (λ x. (c < (sheet_of self.now).currencies) × (currency_of x ≡ (sheet_of self.now).currency c)) }
    {
        self.currencies.get(usize::from(c)).copied()
    }

    /// The rate of a currency, or 0 if it is not on the sheet.
    pub fn rate(&self, c: u8) -> u32
        ensures value { result ≡ ((sheet_of self.now).currency c).rate }
        ensures bound { result ≤ most_rate }
    {
        self.currency(c).map_or(0, |x| x.rate)
    }

    /// The amount due in a currency at an hour, of a required amount of which some is paid in, or `None` if it is not on the sheet.
    pub fn amount_due(&self, c: u8, required: Amount, hour: u8, paid: Amount) -> Option<Amount>
        ensures { MatchOption result ((sheet_of self.now).currencies ≤ c) (λ a. (c < (sheet_of self.now).currencies) × (a.0 ≡ due required.0 hour ((sheet_of self.now).currency c).instalments paid.0)) }
    {
        self.currency(c).map(|x| x.due(required, hour, paid))
    }
}
