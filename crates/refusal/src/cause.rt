ghost use Rattle.std.specs.Prelude.{◌≡◌};
ghost use Rattle.refusal.specs.Meaning.{number_of};

/// Why a call is refused, with the number under which it is printed.
#[derive(Clone, Copy, Debug, PartialEq, Eq)]
pub enum Cause {
    /// The file is shorter than 8 or longer than 40,000 bytes.
    FileLength = 1,
    /// A count of the file is above its most.
    Counts = 2,
    /// The file's length is not what its counts give.
    FileForm = 3,
    /// A step is of no known kind.
    StepKind = 4,
    /// The sheet, the roster or the intake is full.
    Full = 5,
    /// A code or a name has a wrong form or is taken.
    Name = 6,
    /// A member's short limits are not one for each currency.
    ShortLimits = 7,
    /// A rate, a haircut, a number of instalments or a limit is out of range.
    Range = 8,
    /// A member is not on the roster, or the counterparty is the submitter.
    Member = 9,
    /// A currency is not on the sheet.
    Currency = 10,
    /// An amount is not 1 to 10^9.
    Amount = 11,
    /// A reference is 0 or already used today by this submitter.
    Reference = 12,
    /// Both legs have the same currency.
    SameCurrency = 13,
    /// A pay-in would bring account plus reservations above 10^9.
    AccountCeiling = 14,
    /// The member's pay-ins, or its pay-outs plus reservations, would pass 10^12 units.
    DaySum = 15,
    /// The nostro's cash would pass 10^12.
    CashCeiling = 16,
    /// The hour is below the present one or above 5.
    Hour = 17,
    /// A reserve exceeds the account.
    Account = 18,
    /// After a reserve the adjusted value of the row would be below 0.
    AdjustedValue = 19,
    /// A reserve exceeds free cash, or a payment exceeds cash.
    Cash = 20,
    /// A reservation exceeds what is reserved here for its member and currency.
    Reserved = 21,
    /// No waiting pair has that number.
    NoPair = 22,
    /// The caller's buffer is shorter than the statement.
    Buffer = 23,
}

impl Cause {
    /// The number of the cause.
    pub fn number(self) -> u8
        ensures { result ≡ number_of self }
    {
        self as u8
    }
}
