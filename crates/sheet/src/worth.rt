ghost use Rattle.std.specs.Prelude.{◌≡◌, ℕ, ◌+◌, ◌-◌, ◌*◌, ◌<◌, ◌≤◌, Bool, ℤ, pos, if◌then◌else◌};
ghost use Rattle.rules.specs.Bounds.{most_currencies};
ghost use Rattle.rules.specs.Sheet as rules;
ghost use Rattle.rules.specs.Sums.{total_ℤ};
ghost use Rattle.rules.specs.Worth.{adjusted, adjusted_one, short_marks, below_0};
ghost use Rattle.sheet.specs.Meaning.{sheet_of, currency_of};
ghost use Rattle.sheet.specs.Balances.{Within, most_balance, most_price, most_worth};

use crate::balances::{Balance, Balances};
use crate::currency::Currency;
use crate::sheet::Sheet;
use units::{Marks, Thousandths};

impl Balance {
    // How much the balance is below 0.
    fn short(self) -> u64
        ensures value { result ≡ below_0 self.units.0 }
        ensures bound { result ≤ most_balance }
    {
        self.units.0.min(0).unsigned_abs()
    }
}

impl Currency {
    // Thousandths of a mark for one unit: the rate, raised by the haircut where the unit is owed and cut by it where it is held.
    fn price(&self, owed: bool) -> u32
        ensures value { result ≡ self.now.rate * (if owed then 1000 + self.now.haircut else 1000 - self.now.haircut) }
        ensures bound { result ≤ most_price }
    {
        let haircut = u32::from(self.haircut);
        let factor = if owed { 1000 + haircut } else { 1000 - haircut };
        self.rate * factor
    }

    // What a balance is worth, in thousandths of a mark.
    fn worth(&self, balance: Balance) -> i64
        ensures value { result ≡ adjusted_one (currency_of self.now) balance.units.0 }
        ensures bound { Within result most_worth }
    {
        balance.units.0 * i64::from(self.price(balance.units.0 < 0))
    }

    // What a balance is short of, in marks.
    fn short_marks(&self, balance: Balance) -> i64
        ensures value { result ≡ pos (below_0 balance.units.0 * self.now.rate) }
        ensures bound { Within result most_worth }
    {
        (balance.short() * u64::from(self.rate)) as i64
    }
}

impl Sheet {
    // The sum of what each currency makes of the row's balance in it.
    fn sum<B: Balances, F: Fn(&Currency, Balance) -> i64>(&self, row: &B, of_one: F) -> i128
        requires calls { F.IsAlwaysCallable of_one }
        requires bound { (x : _) (b : Balance) (r : ℤ) → F.post of_one x b r → Within r most_worth }
        ensures value { (f : rules.Currency → ℤ → ℤ) → ((x : _) (b : Balance) (r : ℤ) → F.post of_one x b r → r ≡ f (currency_of x.now) b.units.0) → result ≡ total_ℤ (sheet_of self.now).currencies (λ c. f ((sheet_of self.now).currency c) (B.Balances.balance row.now c)) }
        ensures bound { Within result (most_currencies * most_worth) }
    {
        // A loop and no `sum`: no chain is known to bound a sum of signed numbers.
        let mut sum = 0;
        for (k, currency) in self.currencies.iter().enumerate() {
            sum += i128::from(of_one(currency, row.balance(k as u8)));
        }
        sum
    }

    /// The adjusted value of a row: a long balance is cut by its haircut, a short one is raised by it.
    pub fn adjusted_value<B: Balances>(&self, row: &B) -> Thousandths
        ensures { result.0 ≡ adjusted (sheet_of self.now) (B.Balances.balance row.now) }
    {
        Thousandths(self.sum(row, |currency, balance| currency.worth(balance)))
    }

    /// The short marks of a row: what its short balances come to at their rates.
    pub fn short_marks<B: Balances>(&self, row: &B) -> Marks
        ensures { result.0 ≡ short_marks (sheet_of self.now) (B.Balances.balance row.now) }
    {
        Marks(self.sum(row, |currency, balance| currency.short_marks(balance)) as u64)
    }
}
