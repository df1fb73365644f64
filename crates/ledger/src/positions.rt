ghost use Rattle.std.specs.Prelude.{◌≡◌, ℕ, ◌+◌, ◌-◌, ◌<◌, ◌≤◌, ℤ, pos, ◌+ℤ◌, ◌≤ℤ◌, int_lt};
ghost use Rattle.rules.specs.Bounds.{most_units, most_sum};
ghost use Rattle.ledger.specs.Offers.{PaidIn, Reserved, PaidOut};

use book::Position;
use rules::MOST_UNITS;
use units::{Amount, Units};

// Functions, since `Position` is of crate book, which knows no call.

// Whether a pay-in would bring account plus reservations above the ceiling.
pub(crate) fn is_over_ceiling(p: &Position, amount: Amount) -> bool
    requires { amount.0 ≤ most_units }
    ensures { result ≡ int_lt (pos most_units) (p.now.account.0 +ℤ pos p.now.reserved.0 +ℤ pos amount.0) }
{
    p.account + p.reserved + amount > Units(0) + Amount(MOST_UNITS)
}

// The position after a pay-in that keeps within the ceilings.
pub(crate) fn paid_in(mut p: Position, amount: Amount) -> Position
    requires { ((p.account.0 +ℤ pos p.reserved.0 +ℤ pos amount.0) ≤ℤ pos most_units) × (p.paid_in.0 + amount.0 ≤ most_sum) }
    ensures { PaidIn p result amount.0 }
{
    p.account += amount;
    p.paid_in += amount;
    p
}

// The position after a reserve that its account and the day's sum allow.
pub(crate) fn reserved(mut p: Position, amount: Amount) -> Position
    requires { (pos amount.0 ≤ℤ p.account.0) × (p.paid_out.0 + p.reserved.0 + amount.0 ≤ most_sum) }
    ensures { Reserved p result amount.0 }
{
    p.account -= amount;
    p.reserved += amount;
    p
}

// The position after a payment of what is reserved.
pub(crate) fn paid_out(mut p: Position, amount: Amount) -> Position
    requires { amount.0 ≤ p.reserved.0 }
    ensures { PaidOut p result amount.0 }
{
    p.reserved -= amount;
    p.paid_out += amount;
    p
}
