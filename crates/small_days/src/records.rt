// Records that stand in several days.

/// settle
pub const SETTLE: &'static [u8] = b"\x03\x00\x00\x00\x00\x00\x00\x00";

/// 0 currencies, 0 members, 0 instructions, 0 steps
pub const NOTHING: &'static [u8] = b"\x00\x00\x00\x00\x00\x00\x00\x00";

/// USD: 5 instalments, rate 10,000, haircut 20
pub const USD: &'static [u8] = b"USD\x05\x10\x27\x00\x00\x14\x00";

/// EUR: 3 instalments, rate 11,000, haircut 100
pub const EUR: &'static [u8] = b"EUR\x03\xf8\x2a\x00\x00\x64\x00";

/// ONE: 1 instalments, rate 1, haircut 0
pub const ONE: &'static [u8] = b"ONE\x01\x01\x00\x00\x00\x00\x00";

/// BIG: 5 instalments, rate 200,000, haircut 0
pub const BIG: &'static [u8] = b"BIG\x05\x40\x0d\x03\x00\x00\x00";

/// ALFA: aggregate limit 20,000,000, short limits 1,000 and 1,000
pub const ALFA: &'static [u8] =
    b"ALFA            \x00\x2d\x31\x01\x00\x00\x00\x00\xe8\x03\x00\x00\xe8\x03\x00\x00";

/// BETA: aggregate limit 20,000,000, short limits 1,000 and 1,000
pub const BETA: &'static [u8] =
    b"BETA            \x00\x2d\x31\x01\x00\x00\x00\x00\xe8\x03\x00\x00\xe8\x03\x00\x00";

/// ALFA: aggregate limit 0, short limits 0 and 0
pub const ALFA_LONG: &'static [u8] =
    b"ALFA            \x00\x00\x00\x00\x00\x00\x00\x00\x00\x00\x00\x00\x00\x00\x00\x00";

/// BETA: aggregate limit 0, short limits 0 and 0
pub const BETA_LONG: &'static [u8] =
    b"BETA            \x00\x00\x00\x00\x00\x00\x00\x00\x00\x00\x00\x00\x00\x00\x00\x00";

/// GAMA: aggregate limit 0, short limits 0 and 0
pub const GAMA_LONG: &'static [u8] =
    b"GAMA            \x00\x00\x00\x00\x00\x00\x00\x00\x00\x00\x00\x00\x00\x00\x00\x00";

/// ALFA: aggregate limit 1,000,000,000,000,000,000, short limits 1,000,000,000 and 1,000,000,000
pub const ALFA_WIDE: &'static [u8] =
    b"ALFA            \x00\x00\x64\xa7\xb3\xb6\xe0\x0d\x00\xca\x9a\x3b\x00\xca\x9a\x3b";

/// BETA: aggregate limit 1,000,000,000,000,000,000, short limits 1,000,000,000 and 1,000,000,000
pub const BETA_WIDE: &'static [u8] =
    b"BETA            \x00\x00\x64\xa7\xb3\xb6\xe0\x0d\x00\xca\x9a\x3b\x00\xca\x9a\x3b";

/// GAMA: aggregate limit 1,000,000,000,000,000,000, short limits 1,000,000,000 and 1,000,000,000
pub const GAMA_WIDE: &'static [u8] =
    b"GAMA            \x00\x00\x64\xa7\xb3\xb6\xe0\x0d\x00\xca\x9a\x3b\x00\xca\x9a\x3b";

/// ALFA buys 100 EUR from BETA for 110 USD, reference 7
pub const ALFA_BUYS: &'static [u8] =
    b"\x00\x01\x01\x00\x64\x00\x00\x00\x6e\x00\x00\x00\x07\x00\x00\x00";

/// its mirror: BETA buys 110 USD from ALFA for 100 EUR
pub const BETA_BUYS: &'static [u8] =
    b"\x01\x00\x00\x01\x6e\x00\x00\x00\x64\x00\x00\x00\x07\x00\x00\x00";

/// the clock: hour 1
pub const CLOCK_1: &'static [u8] = b"\x02\x00\x00\x01\x00\x00\x00\x00";

/// the clock: hour 2
pub const CLOCK_2: &'static [u8] = b"\x02\x00\x00\x02\x00\x00\x00\x00";

/// the clock: hour 5
pub const CLOCK_5: &'static [u8] = b"\x02\x00\x00\x05\x00\x00\x00\x00";

/// ALFA pays in 13 USD
pub const ALFA_IN_13: &'static [u8] = b"\x01\x00\x00\x00\x0d\x00\x00\x00";

/// BETA pays in 100 EUR
pub const BETA_IN_100: &'static [u8] = b"\x01\x01\x01\x00\x64\x00\x00\x00";

/// BETA buys 100 EUR from GAMA for 110 USD, reference 8
pub const BETA_GAMA: &'static [u8] =
    b"\x01\x02\x01\x00\x64\x00\x00\x00\x6e\x00\x00\x00\x08\x00\x00\x00";

/// its mirror: GAMA buys 110 USD from BETA for 100 EUR
pub const GAMA_BETA: &'static [u8] =
    b"\x02\x01\x00\x01\x6e\x00\x00\x00\x64\x00\x00\x00\x08\x00\x00\x00";

/// ALFA pays in 110 USD
pub const ALFA_IN_110: &'static [u8] = b"\x01\x00\x00\x00\x6e\x00\x00\x00";

/// BETA pays in 110 USD
pub const BETA_IN_110: &'static [u8] = b"\x01\x01\x00\x00\x6e\x00\x00\x00";

/// GAMA pays in 100 EUR
pub const GAMA_IN_100: &'static [u8] = b"\x01\x02\x01\x00\x64\x00\x00\x00";

/// ALFA pays in 10^9 ONE
pub const ALFA_IN_MOST: &'static [u8] = b"\x01\x00\x00\x00\x00\xca\x9a\x3b";

/// ALFA pay-out of 10^9 ONE
pub const ALFA_OUT_MOST: &'static [u8] = b"\x04\x00\x00\x00\x00\xca\x9a\x3b";
