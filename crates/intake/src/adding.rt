ghost use Rattle.std.specs.Prelude.{◌≡◌, ◌≤◌};
ghost use Rattle.std.specs.Str.{bytes_eq};
ghost use Rattle.rules.specs.Bounds.{most_members};
ghost use Rattle.rules.specs.Roster.{name_taken, with_member};
ghost use Rattle.refusal.specs.Answer.{Answers};
ghost use Rattle.intake.specs.Members.{name_of};
ghost use Rattle.intake.specs.Rosters.{roster_of, sheet_under, causes_against_member, Begun};

use crate::limits::Limits;
use crate::member::Member;
use crate::name::Name;
use crate::roster::Roster;
use refusal::{Cause, Layer, Refusal, refuse_if};
use rules::MOST_MEMBERS;
use sheet::{Sheet, same};
use std::alloc::{AllocFailed, Global};
use units::Marks;

impl Member {
    fn is_called(&self, name: &[u8]) -> bool
        ensures { result ≡ bytes_eq (name_of self.now.name) name.now }
    {
        same(self.name.as_bytes(), name)
    }
}

impl Roster {
    /// A roster with no members yet, over a finished sheet, with memory for all that it may hold.
    pub fn begin(heap: Global, sheet: Sheet) -> Result<Roster, AllocFailed<Sheet>>
        ensures { Begun sheet result }
    {
        let Ok(members) = Vec::with_capacity(heap, MOST_MEMBERS) else {
            return Err(AllocFailed { value: sheet });
        };
        Ok(Roster { sheet, members })
    }

    /// How many members there are.
    pub fn len(&self) -> u8
        ensures count { result ≡ (roster_of self.now).members }
        ensures bound { result ≤ most_members }
    {
        self.members.len() as u8
    }

    fn is_taken(&self, name: &[u8]) -> bool
        ensures { result ≡ name_taken (roster_of self.now) name.now }
    {
        self.members.iter().any(|member| member.is_called(name))
    }

    /// Adds a member, which gets the next number. Its short limits are listed by currency number.
    ///
    /// Refused if the roster is full, the name has a wrong form or is taken, the short limits are not one for each
    /// currency, or a limit is out of its range.
    pub fn add(&mut self, name: &[u8], shorts: &[u32], aggregate: Marks) -> Result<(), Refusal>
        ensures answer { Answers (causes_against_member self.old name.now shorts.now aggregate.0)
            (roster_of self.old)
            (with_member (roster_of self.old) name.now shorts.now aggregate.0)
            (roster_of self.new) result }
        ensures sheet { sheet_under self.new ≡ sheet_under self.old }
    {
        let number = self.len();
        let refusal = |cause| Refusal::by(Layer::Roster, cause).of(number);
        refuse_if(self.members.len() >= MOST_MEMBERS, refusal(Cause::Full))?;
        let name = Name::read(name).ok_or(refusal(Cause::Name))?;
        refuse_if(self.is_taken(name.as_bytes()), refusal(Cause::Name))?;
        let currencies = usize::from(self.sheet.len());
        refuse_if(shorts.len() != currencies, refusal(Cause::ShortLimits))?;
        let limits = Limits::read(shorts, aggregate).ok_or(refusal(Cause::Range))?;
        self.members.push_reserved(Member { name, limits });
        Ok(())
    }
}
