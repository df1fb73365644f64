//! The stages before the instructions: a refusal in any of them ends the day.
ghost use Rattle.std.specs.Prelude.{◌≡◌, ◌≤◌, length, take};
ghost use Rattle.sheet.specs.Meaning.{sheet_of};
ghost use Rattle.dayfile.specs.Meaning.{file_of, shorts_of};
ghost use Rattle.rules.specs.Bounds.{most_currencies};
ghost use Rattle.rules.specs.FileDay.{sheet_in};
ghost use Rattle.runner.specs.Ending.{SheetRead, RosterRead};

use crate::halt::Halt;
use dayfile::{DayFile, MemberRecord};
use intake::Roster;
use rules::MOST_CURRENCIES;
use sheet::Sheet;
use std::alloc::Global;
use std::array;
use units::Marks;

/// The sheet of the file's currencies.
pub(crate) fn sheet_from(heap: Global, day: DayFile<'_>) -> Result<Sheet, Halt>
    ensures { SheetRead (file_of day.entry) result }
{
    let mut sheet = Sheet::begin(heap)?;
    // By number, by which the file gives its records: an iterator of them would count in the same way.
    for k in 0..day.currencies() {
        let x = day.currency(k).unwrap();
        sheet.add(x.code, x.rate, x.haircut, x.instalments)?;
    }
    Ok(sheet)
}

/// The roster of the file's members, over its sheet.
pub(crate) fn roster_from(heap: Global, day: DayFile<'_>, sheet: Sheet) -> Result<Roster, Halt>
    requires { sheet_of sheet ≡ sheet_in (file_of day) }
    ensures { RosterRead (file_of day.entry) result }
{
    let mut roster = Roster::begin(heap, sheet)?;
    let currencies = day.currencies();
    // By number, as above.
    for m in 0..day.members() {
        let x = day.member(m).unwrap();
        let shorts = short_limits(x);
        roster.add(x.name, &shorts[..currencies], Marks(x.aggregate))?;
    }
    Ok(roster)
}

// The member's short limits, and zeros after them.
fn short_limits(member: MemberRecord<'_>) -> [u32; MOST_CURRENCIES]
    ensures limits { length (shorts_of member.entry) ≤ most_currencies → take (length (shorts_of member.entry)) result ≡ shorts_of member.entry }
    ensures len { length result ≡ most_currencies }
{
    array::from_fn(|c| member.short_limit(c).unwrap_or(0))
}
