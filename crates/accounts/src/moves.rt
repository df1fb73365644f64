ghost use Rattle.std.specs.Prelude.{◌≡◌, ◌↔◌, ℕ, ◌*◌, ◌<◌, ◌≤◌, true, false, ℤ, pos, ◌+ℤ◌, neg_ℤ, ◌≤ℤ◌, is_some, None, vec_len, ◌≢◌};
ghost use Rattle.rules.specs.Below.{with_at};
ghost use Rattle.rules.specs.Bounds.{most_currencies, most_members, most_sum, most_units};
ghost use Rattle.rules.specs.Pairs.{after_pair};
ghost use Rattle.rules.specs.Sums.{total};
ghost use Rattle.rules.specs.Tests.{stops};
ghost use Rattle.intake.specs.Parties.{pair_of};
ghost use Rattle.accounts.specs.Meaning.{setting_within, account, reserve_of, stopped};
ghost use Rattle.accounts.specs.Moves.{Moves, Placed};
ghost use Rattle.accounts.specs.Legs.{after_leg};

use crate::accounts::Accounts;
use crate::leg::Leg;
use crate::stop::Stop;
use intake::Pair;
use sheet::Balances;
use units::{Amount, Units};

impl Accounts {
    // Puts a member's account in a currency; what it has reserved, paid in and been paid out stays.
    fn put_account(&mut self, m: u8, c: u8, units: Units)
        requires placed { (m < vec_len self.old.members) × (c < most_currencies) }
        requires low { neg_ℤ (pos most_units) ≤ℤ units.0 }
        requires high { (units.0 +ℤ pos (reserve_of self.old m c)) ≤ℤ pos most_units }
        ensures { Moves self.old self.new (with_at (account self.old) m (with_at (account self.old m) c units.0)) }
    {
        let mut position = self.book.position(m, c);
        position.account = units;
        self.book.put(m, c, position);
    }

    // Moves a member's accounts by its leg.
    fn move_leg(&mut self, member: u8, leg: Leg)
        requires placed { (member < vec_len self.old.members) × ((leg.buys < most_currencies) × (leg.sells < most_currencies)) }
        requires two { leg.buys ≢ leg.sells }
        requires high { (after_leg (account self.old member) leg leg.buys +ℤ pos (reserve_of self.old member leg.buys)) ≤ℤ pos most_units }
        requires low { neg_ℤ (pos most_units) ≤ℤ after_leg (account self.old member) leg leg.sells }
        ensures { Moves self.old self.new (with_at (account self.old) member (after_leg (account self.old member) leg)) }
    {
        let row = self.after(member, leg);
        let bought = row.balance(leg.buys).units;
        let sold = row.balance(leg.sells).units;
        self.put_account(member, leg.buys, bought);
        self.put_account(member, leg.sells, sold);
    }

    // Moves both parties' accounts by both legs of a pair that nothing stops.
    fn move_pair(&mut self, p: &Pair)
        requires placed { Placed self.old p.now }
        requires passes { stops (setting_within self.old) (reserve_of self.old) (account self.old) (pair_of p.now) ≡ None }
        ensures { Moves self.old self.new (after_pair (account self.old) (pair_of p.now)) }
    {
        let leg = Leg::of(p);
        self.move_leg(p.first, leg);
        self.move_leg(p.second, leg.mirrored());
    }

    // Whether the parties of a pair are on the roster, and its currencies on the sheet.
    fn places(&self, p: &Pair) -> bool
        ensures { (result ≡ true) ↔ Placed self.now p.now }
    {
        let currencies = self.sheet.len();
        self.has_member(p.first)
            && self.has_member(p.second)
            && p.buys < currencies
            && p.sells < currencies
    }

    /// Settles a pair unless a test stops it, and then answers what does: both parties' accounts move by both legs.
    ///
    /// A pair whose parties or currencies are not here moves nothing.
    // An Option, as of `stopped_by`: that a pair is stopped is what the call tells, and no failure of it.
    pub fn try_settle(&mut self, p: &Pair) -> Option<Stop>
        ensures stop { stopped result ≡ stops (setting_within self.old) (reserve_of self.old) (account self.old) (pair_of p.now) }
        ensures moved { is_some result ≡ false → Placed self.old p.now → Moves self.old self.new (after_pair (account self.old) (pair_of p.now)) }
        ensures waits { is_some result ≡ true → self.new ≡ self.old }
        ensures away { (Placed self.old p.now → ⊥) → self.new ≡ self.old }
    {
        let stop = self.stopped_by(p);
        if stop.is_none() && self.places(p) {
            self.move_pair(p);
        }
        stop
    }

    /// All reservations in a currency.
    pub fn reserved_in(&self, c: u8) -> Amount
        ensures value { result.0 ≡ total (vec_len self.now.members) (λ m. reserve_of self.now m c) }
        ensures bound { result.0 ≤ most_members * most_sum }
    {
        let reserved: u64 = self
            .book
            .rows
            .iter()
            .map(|row| row.position(c).reserved.0)
            .sum();
        Amount(reserved)
    }
}
