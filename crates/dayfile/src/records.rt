//! The records of a day file. Codes and names are parts of the file.

/// A currency: its code, its rate in marks for one unit, its haircut in thousandths, its number of instalments.
#[derive(Clone, Copy, Debug, PartialEq, Eq)]
pub struct CurrencyRecord<'a> {
    pub code: &'a [u8],
    pub rate: u32,
    pub haircut: u16,
    pub instalments: u8,
}

/// A member: its name without the spaces that fill it up, and its limits. `short_limit` answers its limit in a currency.
#[derive(Clone, Copy, Debug, PartialEq, Eq)]
pub struct MemberRecord<'a> {
    pub name: &'a [u8],
    /// In marks, over all currencies.
    pub aggregate: u64,
    // four bytes for each currency, in units
    pub(crate) shorts: &'a [u8],
}

/// An instruction: the submitter buys one amount from the counterparty, and sells it another.
#[derive(Clone, Copy, Debug, PartialEq, Eq)]
pub struct InstructionRecord {
    pub submitter: u8,
    pub counterparty: u8,
    pub buys: u8,
    pub bought: u32,
    pub sells: u8,
    pub sold: u32,
    pub reference: u32,
}

/// A step of the day, with what its kind reads.
#[derive(Clone, Copy, Debug, PartialEq, Eq)]
pub enum StepRecord {
    PayIn {
        member: u8,
        currency: u8,
        amount: u32,
    },
    Clock {
        hour: u8,
    },
    Settle,
    /// A reserve that is paid directly.
    PayOut {
        member: u8,
        currency: u8,
        amount: u32,
    },
}

/// Any record of a day file.
#[derive(Clone, Copy, Debug, PartialEq, Eq)]
pub enum Record<'a> {
    Currency(CurrencyRecord<'a>),
    Member(MemberRecord<'a>),
    Instruction(InstructionRecord),
    Step(StepRecord),
}
