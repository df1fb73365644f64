ghost use Rattle.std.specs.Prelude.{◌≡◌, ℕ, ◌<◌, ◌≤◌, ℤ, pos, ◌+ℤ◌, neg_ℤ, Some, None};
ghost use Rattle.std.specs.Result.{result_err};
ghost use Rattle.rules.specs.First.{first_of};
ghost use Rattle.rules.specs.Tests.{stops, fails_1, fails_2, fails_3, fails_4};
ghost use Rattle.intake.specs.Parties.{pair_of};
ghost use Rattle.accounts.specs.Meaning.{setting_within, account, reserve_of, stopped, stop_of, test_of};
ghost use Rattle.accounts.specs.Legs.{row_after, tests_on, Checks};

use crate::accounts::Accounts;
use crate::after::After;
use crate::leg::Leg;
use crate::stop::{Stop, Test};
use intake::Pair;
use refusal::refuse_if;
use rules::MOST_UNITS;
use sheet::Balances;
use units::{Amount, Thousandths, Units};

impl After<'_> {
    // Answers that a test on the row stops its member.
    fn stop(&self, test: Test, currency: Option<u8>) -> Stop
        ensures { stop_of result ≡ record { test = test_of test; member = self.now.member; currency = currency } }
    {
        Stop {
            test,
            member: self.member,
            currency,
        }
    }
}

impl Accounts {
    /// The row of a member as it would be after a leg.
    pub fn after(&self, member: u8, leg: Leg) -> After<'_>
        ensures { (result.book.now ≡ self.now.book) × (result.member ≡ member) × (result.leg ≡ leg) }
    {
        After {
            book: &self.book,
            member,
            leg,
        }
    }

    // Test 1: in the bought currency, account plus reservations is at most the ceiling.
    fn check_ceiling(&self, row: &After) -> Result<(), Stop>
        ensures { Checks (fails_1 (reserve_of self.now) (λ _. row_after row.now) row.now.member row.now.leg.buys) result }
    {
        let c = row.leg.buys;
        let held = row.balance(c).units + self.book.position(row.member, c).reserved;
        refuse_if(
            held > Units(0) + Amount(MOST_UNITS),
            row.stop(Test::Ceiling, Some(c)),
        )
    }

    // Test 2: in the sold currency, the account is not below minus the short limit.
    fn check_short_limit(&self, row: &After) -> Result<(), Stop>
        ensures { Checks (fails_2 (setting_within self.now) (λ _. row_after row.now) row.now.member row.now.leg.sells) result }
    {
        let c = row.leg.sells;
        refuse_if(
            row.balance(c).units < Units(0) - self.short_limit(row.member, c),
            row.stop(Test::ShortLimit, Some(c)),
        )
    }

    // Test 3: the short marks of the row are at most the aggregate limit.
    fn check_aggregate_limit(&self, row: &After) -> Result<(), Stop>
        ensures { Checks (fails_3 (setting_within self.now) (λ _. row_after row.now) row.now.member) result }
    {
        refuse_if(
            self.sheet.short_marks(row) > self.aggregate_limit(row.member),
            row.stop(Test::AggregateLimit, None),
        )
    }

    // Test 4: the adjusted value of the row is at least 0.
    fn check_adjusted_value(&self, row: &After) -> Result<(), Stop>
        ensures { Checks (fails_4 (setting_within self.now) (λ _. row_after row.now) row.now.member) result }
    {
        refuse_if(
            self.sheet.adjusted_value(row) < Thousandths(0),
            row.stop(Test::AdjustedValue, None),
        )
    }

    // The tests on the two rows, up to the first that fails.
    //
    // Test by test, and in each the first party before the second: the order is that of the rules.
    fn check(&self, first: &After, second: &After) -> Result<(), Stop>
        ensures { stopped (result_err result) ≡ first_of (tests_on (setting_within self.now) (reserve_of self.now) first.now second.now) }
    {
        self.check_ceiling(first)?;
        self.check_ceiling(second)?;
        self.check_short_limit(first)?;
        self.check_short_limit(second)?;
        self.check_aggregate_limit(first)?;
        self.check_aggregate_limit(second)?;
        self.check_adjusted_value(first)?;
        self.check_adjusted_value(second)
    }

    /// What stops a pair, if anything does: the first test that fails on the rows as they would be after both legs.
    pub fn stopped_by(&self, p: &Pair) -> Option<Stop>
        ensures { stopped result ≡ stops (setting_within self.now) (reserve_of self.now) (account self.now) (pair_of p.now) }
    {
        let leg = Leg::of(p);
        let first = self.after(p.first, leg);
        let second = self.after(p.second, leg.mirrored());
        self.check(&first, &second).err()
    }
}
