ghost use Rattle.std.specs.Prelude.{◌≡◌, ℕ, ◌*◌, ◌≤◌, nat_le, not, ◌&&◌};
ghost use Rattle.rules.specs.Bounds.{most_rate};
ghost use Rattle.rules.specs.Matching.{mirror, mirrors, same_name, of_pair, off_range, pair_from};
ghost use Rattle.intake.specs.Ranges.{Matched};
ghost use Rattle.intake.specs.Parties.{pair_of};
ghost use Rattle.intake.specs.Books.{instruction_of};

use crate::instruction::Instruction;
use crate::pair::Pair;
use rules::MOST_UNITS;
use units::{Amount, Marks};

impl Instruction {
    /// The same trade as the counterparty asks for it.
    pub fn mirror(&self) -> Instruction
        ensures { instruction_of result ≡ mirror (instruction_of self.now) }
    {
        Instruction {
            submitter: self.counterparty,
            counterparty: self.submitter,
            buys: self.sells,
            bought: self.sold,
            sells: self.buys,
            sold: self.bought,
            reference: self.reference,
        }
    }

    /// Whether this is the mirror of another instruction.
    pub fn mirrors(&self, other: &Instruction) -> bool
        ensures { result ≡ mirrors (instruction_of self.now) (instruction_of other.now) }
    {
        *self == other.mirror()
    }

    pub(crate) fn is_named_as(&self, other: &Instruction) -> bool
        ensures { result ≡ same_name (instruction_of self.now) (instruction_of other.now) }
    {
        self.submitter == other.submitter && self.reference == other.reference
    }

    pub(crate) fn is_off_range(&self) -> bool
        ensures { result ≡ off_range (instruction_of self.now) }
    {
        let is_off = |amount: Amount| !(1..=MOST_UNITS).contains(&amount.0);
        is_off(self.bought) || is_off(self.sold)
    }

    // The pair whose first party submitted this instruction.
    pub(crate) fn pair(&self, number: u32, rate: u32) -> Pair
        requires { (Matched self.now.submitter self.now.counterparty self.now.buys self.now.bought.0 self.now.sells self.now.sold.0) × (rate ≤ most_rate) }
        ensures { pair_of result ≡ pair_from (λ _. rate) number (instruction_of self.now) }
    {
        Pair {
            number,
            first: self.submitter,
            second: self.counterparty,
            buys: self.buys,
            bought: self.bought,
            sells: self.sells,
            sold: self.sold,
            reference: self.reference,
            weight: Marks(self.bought.0 * u64::from(rate)),
        }
    }
}

impl Pair {
    pub(crate) fn is_of(&self, i: &Instruction) -> bool
        ensures { result ≡ of_pair (pair_of self.now) (instruction_of i.now) }
    {
        self.has_party(i.submitter) && self.reference == i.reference
    }
}
