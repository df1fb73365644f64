//! What can be wrong with the records of a day.
ghost use Rattle.std.specs.Prelude.{◌≡◌, ◌-◌, true, false, ◌||◌, map, length, Some, None, ◌==◌, nat_lt, MatchResult};
ghost use Rattle.rules.specs.FileForm.{byte};
ghost use Rattle.dayfile.specs.Meaning.{currency_of};
ghost use Rattle.rules.specs.FileWriting.{writing_fault, some_of, has_too_many, code_wrong, name_wrong, shorts_wrong};
ghost use Rattle.rules.specs.declared.bounds.TheConstants.{LONGEST_NAME};
ghost use Rattle.daywriter.specs.Meaning.{member_of, day_of, fault_of, Found};

use crate::records::{DayRecords, Fault, NewMember};
use dayfile::{Counts, CurrencyRecord};
use refusal::refuse_if;
use rules::{CODE_SIZE, LONGEST_NAME};

impl DayRecords<'_> {
    /// The first thing that is wrong with the records, if no day file has them.
    pub fn fault(self) -> Option<Fault>
        ensures { Found (day_of self.entry) result }
    {
        self.check().err()
    }

    // Refused for the first thing that is wrong with the records.
    fn check(self) -> Result<(), Fault>
        ensures { MatchResult result (λ _. writing_fault (day_of self.entry) ≡ None) (λ fault. writing_fault (day_of self.entry) ≡ Some (fault_of fault)) }
    {
        refuse_if(self.has_too_many(), Fault::TooMany)?;
        refuse_if(has_wrong_code(self.currencies), Fault::Code)?;
        refuse_if(has_wrong_name(self.members), Fault::Name)?;
        refuse_if(
            has_wrong_shorts(self.members, self.currencies.len()),
            Fault::ShortLimits,
        )?;
        Ok(())
    }

    // Whether a count is above its most.
    fn has_too_many(self) -> bool
        ensures { result ≡ has_too_many (day_of self.entry) }
    {
        let counts = Counts {
            currencies: self.currencies.len(),
            members: self.members.len(),
            instructions: self.instructions.len(),
            steps: self.steps.len(),
        };
        counts.has_too_many()
    }
}

fn has_wrong_code(currencies: &[CurrencyRecord<'_>]) -> bool
    ensures { result ≡ some_of code_wrong (map currency_of currencies.now) }
{
    currencies.iter().any(|c| c.code.len() != CODE_SIZE)
}

fn has_wrong_name(members: &[NewMember<'_>]) -> bool
    ensures { result ≡ some_of name_wrong (map member_of members.now) }
{
    members.iter().any(|m| is_wrong_name(m.name))
}

// Whether a name has more bytes than its field, or ends in a space, which the reader takes off.
fn is_wrong_name(name: &[u8]) -> bool
    ensures { result ≡ (nat_lt LONGEST_NAME (length name.now) || byte name.now (length name.now - 1) == 32) }
{
    name.len() > LONGEST_NAME || name.ends_with(b" ")
}

fn has_wrong_shorts(members: &[NewMember<'_>], currencies: usize) -> bool
    ensures { result ≡ some_of (shorts_wrong currencies) (map member_of members.now) }
{
    members.iter().any(|m| m.shorts.len() != currencies)
}
