ghost use Rattle.std.specs.Prelude.{◌≡◌, ℕ, ◌<◌, ◌≤◌, MatchOption, nat_lt, vec_len, slice_index_or};
ghost use Rattle.rules.specs.Bounds.{most_units};
ghost use Rattle.intake.specs.Members.{no_member};
ghost use Rattle.intake.specs.Ranges.{no_amount};
ghost use Rattle.accounts.specs.Meaning.{setting_within};

use crate::accounts::Accounts;
use intake::Limits;
use units::{Amount, Marks};

// How short a member may be in a currency; 0 above number 23.
fn short_in(limits: &Limits, c: u8) -> Amount
    ensures value { result.0 ≡ (slice_index_or limits.now.short c no_amount).0 }
    ensures bound { result.0 ≤ most_units }
{
    limits
        .short
        .get(usize::from(c))
        .copied()
        .unwrap_or(Amount(0))
}

impl Accounts {
    /// Whether a member of the roster has the number.
    pub fn has_member(&self, m: u8) -> bool
        ensures { result ≡ nat_lt m (vec_len self.now.members) }
    {
        usize::from(m) < self.members.len()
    }

    // The limits of a member, where the roster has it.
    fn limits(&self, m: u8) -> Option<&Limits>
        ensures { MatchOption result (vec_len self.now.members ≤ m) (λ r. (m < vec_len self.now.members) × (r.now ≡ (slice_index_or self.now.members.items m no_member).limits)) }
    {
        self.members
            .get(usize::from(m))
            .map(|member| &member.limits)
    }

    /// How short a member may be in a currency; 0 off the roster and above number 23.
    pub fn short_limit(&self, m: u8, c: u8) -> Amount
        ensures value { result.0 ≡ ((setting_within self.now).roster.member m).short c }
        ensures bound { result.0 ≤ most_units }
    {
        self.limits(m).map_or(Amount(0), |x| short_in(x, c))
    }

    /// The aggregate limit of a member; 0 off the roster.
    pub fn aggregate_limit(&self, m: u8) -> Marks
        ensures { result.0 ≡ ((setting_within self.now).roster.member m).aggregate }
    {
        self.limits(m).map_or(Marks(0), |x| x.aggregate)
    }
}
