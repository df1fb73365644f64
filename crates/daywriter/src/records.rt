ghost use Rattle.std.specs.Prelude.{◌≡◌};
ghost use Rattle.daywriter.specs.declared.records.Unwritten.TheVariants as unwritten;

use dayfile::{CurrencyRecord, InstructionRecord, StepRecord};
use std::alloc::AllocError;

/// A member's record to be written: its name without the spaces that fill it up, and its limits.
#[derive(Clone, Copy, Debug, PartialEq, Eq)]
pub struct NewMember<'a> {
    pub name: &'a [u8],
    /// In marks, over all currencies.
    pub aggregate: u64,
    /// In units, one for each currency, by currency number.
    pub shorts: &'a [u32],
}

/// The records of a day file, kind by kind.
#[derive(Clone, Copy, Debug, PartialEq, Eq)]
pub struct DayRecords<'a> {
    pub currencies: &'a [CurrencyRecord<'a>],
    pub members: &'a [NewMember<'a>],
    pub instructions: &'a [InstructionRecord],
    pub steps: &'a [StepRecord],
}

/// Why no day file has such records.
#[derive(Clone, Copy, Debug, PartialEq, Eq)]
pub enum Fault {
    /// There are more records of a kind than a file has at most.
    TooMany,
    /// A code has not three bytes.
    Code,
    /// A name has more than 16 bytes, or ends in a space.
    Name,
    /// A member has not one short limit for each currency.
    ShortLimits,
}

/// Why nothing was written.
#[derive(Clone, Copy, Debug, PartialEq, Eq)]
pub enum Unwritten {
    Fault(Fault),
    NoMemory,
}

impl From<Fault> for Unwritten {
    ghost from_gives = { λ fault e. e ≡ unwritten.Fault fault };

    fn from(fault: Fault) -> Unwritten {
        Unwritten::Fault(fault)
    }
}

impl From<AllocError> for Unwritten {
    ghost from_gives = { λ _ e. e ≡ unwritten.NoMemory };

    fn from(_: AllocError) -> Unwritten {
        Unwritten::NoMemory
    }
}
