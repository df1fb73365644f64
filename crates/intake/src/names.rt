ghost use Rattle.std.specs.Prelude.{◌≡◌, ◌≤◌, true, false, length, MatchOption};
ghost use Rattle.rules.specs.declared.bounds.TheConstants.{LONGEST_NAME};
ghost use Rattle.rules.specs.Roster.{stray, is_name};
ghost use Rattle.intake.specs.Members.{name_of};

use crate::name::Name;
use rules::LONGEST_NAME;

fn is_stray(b: u8) -> bool
    ensures { result ≡ stray b }
{
    !(33..=126).contains(&b)
}

impl Name {
    // The name that a text is, or `None` if it has not the form of one.
    pub(crate) fn read(text: &[u8]) -> Option<Name>
        ensures { MatchOption result (is_name text.now ≡ false) (λ n. (is_name text.now ≡ true) × (name_of n ≡ text.now)) }
    {
        if !(1..=LONGEST_NAME).contains(&text.len()) || text.iter().any(|b| is_stray(*b)) {
            return None;
        }
        let mut bytes = [0; LONGEST_NAME];
        bytes[..text.len()].copy_from_slice(text);
        Some(Name {
            bytes,
            len: text.len(),
        })
    }

    /// The bytes of the name.
    pub fn as_bytes(&self) -> &[u8]
        ensures value { result.now ≡ name_of self.now }
        ensures short { length result.now ≤ LONGEST_NAME }
    {
        &self.bytes[..self.len]
    }
}
