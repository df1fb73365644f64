//! The house numbers as code compares with them. `specs/Bounds.antt` has them as the definitions do, and the contracts of
//! the functions that compare tie the two.

/// How many currencies a day has at most.
pub const MOST_CURRENCIES: usize = 24;

/// How many members a day has at most.
pub const MOST_MEMBERS: usize = 32;

/// How many instructions a day has at most.
pub const MOST_INSTRUCTIONS: usize = 1_024;

/// How many steps a day file has at most.
pub const MOST_STEPS: usize = 2_000;

/// Bytes of the longest day file.
pub const LONGEST_FILE: usize = 40_000;

/// Bytes of a currency's code.
pub const CODE_SIZE: usize = 3;

/// Bytes of the longest name of a member.
pub const LONGEST_NAME: usize = 16;

/// The highest rate, in marks for one unit.
pub const MOST_RATE: u32 = 200_000;

/// The largest haircut, in thousandths.
pub const MOST_HAIRCUT: u16 = 500;

/// How many instalments a currency has at most.
pub const MOST_INSTALMENTS: u8 = 5;

/// The last hour of the day.
pub const LAST_HOUR: u8 = 5;

/// Units: the largest amount, the largest short limit, and the most that account plus reservations may be.
pub const MOST_UNITS: u64 = 1_000_000_000;

/// Units: the most that a nostro holds, that a member pays in, and that it reserves and is paid out, of one currency.
pub const MOST_SUM: u64 = 1_000_000_000_000;

/// Marks: the largest aggregate limit.
pub const MOST_MARKS: u64 = 1_000_000_000_000_000_000;
