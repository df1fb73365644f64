//! What is counted: units of a currency and marks, each in a type of its own, so that no sum takes both.
//!
//! Each sum and difference has an impl of its own: which bounds it needs is what tells them apart.
#![tactic(auto)]

ghost use Rattle.std.specs.Prelude.{◌≡◌, ℕ, ◌+◌, ◌-◌, ◌*◌, ◌^◌, ◌<◌, ◌≤◌, cond, min, ℤ, pos, ◌+ℤ◌, ◌-ℤ◌, FitsSigned};
ghost use Rattle.std.proofs.Common.{Fits};
ghost use Rattle.std.specs.Int.{w64, w128};

use std::ops::{Add, AddAssign, Sub, SubAssign};

/// Whole units of a currency: a balance, which is below 0 when it is short.
#[derive(Clone, Copy, Debug, Default, PartialEq, Eq, PartialOrd, Ord)]
pub struct Units(pub i64);

/// Whole units of a currency that are never short: an amount, a reservation, a sum of pay-ins.
#[derive(Clone, Copy, Debug, Default, PartialEq, Eq, PartialOrd, Ord)]
pub struct Amount(pub u64);

/// Whole marks.
#[derive(Clone, Copy, Debug, PartialEq, Eq, PartialOrd, Ord)]
pub struct Marks(pub u64);

/// Thousandths of a mark.
#[derive(Clone, Copy, Debug, PartialEq, Eq, PartialOrd, Ord)]
pub struct Thousandths(pub i128);

impl Amount {
    /// The amount if it counts, or 0.
    pub fn when(self, counts: bool) -> Amount
        ensures value { result.0 ≡ cond counts self.0 0 }
        ensures bound { result.0 ≤ self.0 }
    {
        if counts { self } else { Amount(0) }
    }

    /// Both amounts together, or the most that an amount is.
    pub fn saturating_add(self, other: Amount) -> Amount
        ensures { result.0 ≡ min (self.0 + other.0) (2 ^ 64 - 1) }
    {
        Amount(self.0.saturating_add(other.0))
    }

    /// What is left when the other amount is taken off, or 0.
    pub fn saturating_sub(self, other: Amount) -> Amount
        ensures { result.0 ≡ self.0 - other.0 }
    {
        Amount(self.0.saturating_sub(other.0))
    }
}

impl From<u32> for Amount {
    ghost from_gives = { λ n a. a.0 ≡ n };

    fn from(n: u32) -> Amount {
        Amount(u64::from(n))
    }
}

impl Add<Amount> for Units {
    type Output = Units;

    ghost can_add = { λ a b. (b.0 < 2 ^ 63) × FitsSigned w64 (a.0 +ℤ pos b.0) };

    ghost add_gives = { λ a b r. r.0 ≡ a.0 +ℤ pos b.0 };

    fn add(self, rhs: Amount) -> Units {
        Units(self.0 + rhs.0 as i64)
    }
}

impl Sub<Amount> for Units {
    type Output = Units;

    ghost can_sub = { λ a b. (b.0 < 2 ^ 63) × FitsSigned w64 (a.0 -ℤ pos b.0) };

    ghost sub_gives = { λ a b r. r.0 ≡ a.0 -ℤ pos b.0 };

    fn sub(self, rhs: Amount) -> Units {
        Units(self.0 - rhs.0 as i64)
    }
}

impl AddAssign<Amount> for Units {
    ghost can_add_assign = { λ a b. (b.0 < 2 ^ 63) × FitsSigned w64 (a.0 +ℤ pos b.0) };

    ghost add_assign_gives = { λ a b r. r.0 ≡ a.0 +ℤ pos b.0 };

    fn add_assign(&mut self, amount: Amount) {
        *self = *self + amount;
    }
}

impl SubAssign<Amount> for Units {
    ghost can_sub_assign = { λ a b. (b.0 < 2 ^ 63) × FitsSigned w64 (a.0 -ℤ pos b.0) };

    ghost sub_assign_gives = { λ a b r. r.0 ≡ a.0 -ℤ pos b.0 };

    fn sub_assign(&mut self, amount: Amount) {
        *self = *self - amount;
    }
}

impl Add<Amount> for Amount {
    type Output = Amount;

    ghost can_add = { λ a b. Fits w64 (a.0 + b.0) };

    ghost add_gives = { λ a b r. r.0 ≡ a.0 + b.0 };

    fn add(self, rhs: Amount) -> Amount {
        Amount(self.0 + rhs.0)
    }
}

impl Sub<Amount> for Amount {
    type Output = Amount;

    ghost can_sub = { λ a b. b.0 ≤ a.0 };

    ghost sub_gives = { λ a b r. r.0 ≡ a.0 - b.0 };

    fn sub(self, rhs: Amount) -> Amount {
        Amount(self.0 - rhs.0)
    }
}

impl AddAssign<Amount> for Amount {
    ghost can_add_assign = { λ a b. Fits w64 (a.0 + b.0) };

    ghost add_assign_gives = { λ a b r. r.0 ≡ a.0 + b.0 };

    fn add_assign(&mut self, rhs: Amount) {
        *self = *self + rhs;
    }
}

impl SubAssign<Amount> for Amount {
    ghost can_sub_assign = { λ a b. b.0 ≤ a.0 };

    ghost sub_assign_gives = { λ a b r. r.0 ≡ a.0 - b.0 };

    fn sub_assign(&mut self, rhs: Amount) {
        *self = *self - rhs;
    }
}

impl Add<Marks> for Marks {
    type Output = Marks;

    ghost can_add = { λ a b. Fits w64 (a.0 + b.0) };

    ghost add_gives = { λ a b r. r.0 ≡ a.0 + b.0 };

    fn add(self, rhs: Marks) -> Marks {
        Marks(self.0 + rhs.0)
    }
}

impl Add<Thousandths> for Thousandths {
    type Output = Thousandths;

    ghost can_add = { λ a b. FitsSigned w128 (a.0 +ℤ b.0) };

    ghost add_gives = { λ a b r. r.0 ≡ a.0 +ℤ b.0 };

    fn add(self, rhs: Thousandths) -> Thousandths {
        Thousandths(self.0 + rhs.0)
    }
}
