use crate::day::SmallDay;
use crate::records::{ALFA, ALFA_WIDE, BETA, BETA_IN_100, BETA_WIDE, BIG, EUR, ONE, SETTLE, USD};

/// The four tests of a pair, each at its end.
pub const LIMITS: &'static [SmallDay] = &[
    // ALFA has 10^9 - 1 EUR: 2 more are too many, 1 more is not
    SmallDay {
        title: "test 1: account up to 10^9, for the first party and the second",
        records: &[
            b"\x02\x00\x02\x00\x06\x00\x03\x00", // 2 currencies, 2 members, 6 instructions, 3 steps
            USD,
            EUR,
            ALFA,
            BETA,
            b"\x00\x01\x01\x00\x02\x00\x00\x00\x01\x00\x00\x00\x01\x00\x00\x00", // ALFA buys 2 EUR for 1 USD, reference 1
            b"\x01\x00\x00\x01\x01\x00\x00\x00\x02\x00\x00\x00\x01\x00\x00\x00", // BETA buys 1 USD for 2 EUR, reference 1
            b"\x01\x00\x00\x01\x01\x00\x00\x00\x02\x00\x00\x00\x02\x00\x00\x00", // BETA buys 1 USD for 2 EUR, reference 2
            b"\x00\x01\x01\x00\x02\x00\x00\x00\x01\x00\x00\x00\x02\x00\x00\x00", // ALFA buys 2 EUR for 1 USD, reference 2
            b"\x00\x01\x01\x00\x01\x00\x00\x00\x01\x00\x00\x00\x03\x00\x00\x00", // ALFA buys 1 EUR for 1 USD, reference 3
            b"\x01\x00\x00\x01\x01\x00\x00\x00\x01\x00\x00\x00\x03\x00\x00\x00", // BETA buys 1 USD for 1 EUR, reference 3
            b"\x01\x00\x01\x00\xff\xc9\x9a\x3b", // ALFA pays in 10^9 - 1 EUR
            b"\x01\x01\x01\x00\x09\x00\x00\x00", // BETA pays in 9 EUR
            SETTLE,
        ],
        printed: &[
            b"member ALFA\n",
            b"USD account -1 in 0 out 0 due 0\n",
            b"EUR account 1000000000 in 999999999 out 0 due 0\n",
            b"settled 1 waiting 2\n",
            b"member BETA\n",
            b"USD account 1 in 0 out 0 due 0\n",
            b"EUR account 8 in 9 out 0 due 0\n",
            b"settled 1 waiting 2\n",
        ],
    },
    // -1,001 is below minus the limit, -1,000 is not; 2,000 EUR cover both
    SmallDay {
        title: "test 2: account down to the short limit, for the first party and the second",
        records: &[
            b"\x02\x00\x02\x00\x06\x00\x03\x00", // 2 currencies, 2 members, 6 instructions, 3 steps
            USD,
            EUR,
            ALFA,
            BETA,
            b"\x00\x01\x01\x00\x01\x00\x00\x00\xe9\x03\x00\x00\x01\x00\x00\x00", // ALFA buys 1 EUR for 1,001 USD, reference 1
            b"\x01\x00\x00\x01\xe9\x03\x00\x00\x01\x00\x00\x00\x01\x00\x00\x00", // BETA buys 1,001 USD for 1 EUR, reference 1
            b"\x01\x00\x00\x01\xe9\x03\x00\x00\x01\x00\x00\x00\x02\x00\x00\x00", // BETA buys 1,001 USD for 1 EUR, reference 2
            b"\x00\x01\x01\x00\x01\x00\x00\x00\xe9\x03\x00\x00\x02\x00\x00\x00", // ALFA buys 1 EUR for 1,001 USD, reference 2
            b"\x00\x01\x01\x00\x01\x00\x00\x00\xe8\x03\x00\x00\x03\x00\x00\x00", // ALFA buys 1 EUR for 1,000 USD, reference 3
            b"\x01\x00\x00\x01\xe8\x03\x00\x00\x01\x00\x00\x00\x03\x00\x00\x00", // BETA buys 1,000 USD for 1 EUR, reference 3
            b"\x01\x00\x01\x00\xd0\x07\x00\x00", // ALFA pays in 2,000 EUR
            b"\x01\x01\x01\x00\x09\x00\x00\x00", // BETA pays in 9 EUR
            SETTLE,
        ],
        printed: &[
            b"member ALFA\n",
            b"USD account -1000 in 0 out 0 due 0\n",
            b"EUR account 2001 in 2000 out 0 due 0\n",
            b"settled 1 waiting 2\n",
            b"member BETA\n",
            b"USD account 1000 in 0 out 0 due 0\n",
            b"EUR account 8 in 9 out 0 due 0\n",
            b"settled 1 waiting 2\n",
        ],
    },
    // 101 USD are 1,010,000 marks, 100 USD are 1,000,000
    SmallDay {
        title: "test 3: short marks up to the aggregate limit, for the first party and the second",
        records: &[
            b"\x02\x00\x02\x00\x06\x00\x03\x00", // 2 currencies, 2 members, 6 instructions, 3 steps
            USD,
            EUR,
            b"ALFA            \x40\x42\x0f\x00\x00\x00\x00\x00\xe8\x03\x00\x00\xe8\x03\x00\x00", // ALFA: aggregate limit 1,000,000, short limits 1,000 and 1,000
            BETA,
            b"\x00\x01\x01\x00\x01\x00\x00\x00\x65\x00\x00\x00\x01\x00\x00\x00", // ALFA buys 1 EUR for 101 USD, reference 1
            b"\x01\x00\x00\x01\x65\x00\x00\x00\x01\x00\x00\x00\x01\x00\x00\x00", // BETA buys 101 USD for 1 EUR, reference 1
            b"\x01\x00\x00\x01\x65\x00\x00\x00\x01\x00\x00\x00\x02\x00\x00\x00", // BETA buys 101 USD for 1 EUR, reference 2
            b"\x00\x01\x01\x00\x01\x00\x00\x00\x65\x00\x00\x00\x02\x00\x00\x00", // ALFA buys 1 EUR for 101 USD, reference 2
            b"\x00\x01\x01\x00\x01\x00\x00\x00\x64\x00\x00\x00\x03\x00\x00\x00", // ALFA buys 1 EUR for 100 USD, reference 3
            b"\x01\x00\x00\x01\x64\x00\x00\x00\x01\x00\x00\x00\x03\x00\x00\x00", // BETA buys 100 USD for 1 EUR, reference 3
            b"\x01\x00\x01\x00\xd0\x07\x00\x00", // ALFA pays in 2,000 EUR
            b"\x01\x01\x01\x00\x09\x00\x00\x00", // BETA pays in 9 EUR
            SETTLE,
        ],
        printed: &[
            b"member ALFA\n",
            b"USD account -100 in 0 out 0 due 0\n",
            b"EUR account 2001 in 2000 out 0 due 0\n",
            b"settled 1 waiting 2\n",
            b"member BETA\n",
            b"USD account 100 in 0 out 0 due 0\n",
            b"EUR account 8 in 9 out 0 due 0\n",
            b"settled 1 waiting 2\n",
        ],
    },
    // 1 BIG is worth 200,000 ONE: pairs 1 and 2 would leave ALFA at -1,000, pair 3 leaves both at 0
    SmallDay {
        title: "test 4: adjusted value down to 0, for the first party and the second",
        records: &[
            b"\x02\x00\x02\x00\x06\x00\x01\x00", // 2 currencies, 2 members, 6 instructions, 1 step
            ONE,
            BIG,
            ALFA_WIDE,
            BETA_WIDE,
            b"\x00\x01\x01\x00\x01\x00\x00\x00\x41\x0d\x03\x00\x0b\x00\x00\x00", // ALFA buys 1 BIG for 200,001 ONE, reference 11
            b"\x01\x00\x00\x01\x41\x0d\x03\x00\x01\x00\x00\x00\x0b\x00\x00\x00", // BETA buys 200,001 ONE for 1 BIG, reference 11
            b"\x01\x00\x00\x01\x41\x0d\x03\x00\x01\x00\x00\x00\x0c\x00\x00\x00", // BETA buys 200,001 ONE for 1 BIG, reference 12
            b"\x00\x01\x01\x00\x01\x00\x00\x00\x41\x0d\x03\x00\x0c\x00\x00\x00", // ALFA buys 1 BIG for 200,001 ONE, reference 12
            b"\x00\x01\x01\x00\x01\x00\x00\x00\x40\x0d\x03\x00\x0d\x00\x00\x00", // ALFA buys 1 BIG for 200,000 ONE, reference 13
            b"\x01\x00\x00\x01\x40\x0d\x03\x00\x01\x00\x00\x00\x0d\x00\x00\x00", // BETA buys 200,000 ONE for 1 BIG, reference 13
            SETTLE,
        ],
        printed: &[
            b"member ALFA\n",
            b"ONE account -200000 in 0 out 0 due 0\n",
            b"BIG account 1 in 0 out 0 due 0\n",
            b"settled 1 waiting 2\n",
            b"member BETA\n",
            b"ONE account 200000 in 0 out 0 due 0\n",
            b"BIG account -1 in 0 out 0 due 0\n",
            b"settled 1 waiting 2\n",
        ],
    },
    // The short limits are 1,000 USD and 0 EUR. Pair 1: ALFA may be short in USD, which it sells. Pair 2: BETA would have -1 EUR, which it sells.
    SmallDay {
        title: "test 2 looks at the limit of the currency that each party sells",
        records: &[
            b"\x02\x00\x02\x00\x04\x00\x03\x00", // 2 currencies, 2 members, 4 instructions, 3 steps
            USD,
            EUR,
            b"ALFA            \x00\x2d\x31\x01\x00\x00\x00\x00\xe8\x03\x00\x00\x00\x00\x00\x00", // ALFA: aggregate limit 20,000,000, short limits 1,000 and 0
            b"BETA            \x00\x2d\x31\x01\x00\x00\x00\x00\xe8\x03\x00\x00\x00\x00\x00\x00", // BETA: aggregate limit 20,000,000, short limits 1,000 and 0
            b"\x00\x01\x01\x00\x01\x00\x00\x00\x01\x00\x00\x00\x01\x00\x00\x00", // ALFA buys 1 EUR for 1 USD, reference 1
            b"\x01\x00\x00\x01\x01\x00\x00\x00\x01\x00\x00\x00\x01\x00\x00\x00", // BETA buys 1 USD for 1 EUR, reference 1
            b"\x00\x01\x01\x00\x64\x00\x00\x00\x6e\x00\x00\x00\x02\x00\x00\x00", // ALFA buys 100 EUR for 110 USD, reference 2
            b"\x01\x00\x00\x01\x6e\x00\x00\x00\x64\x00\x00\x00\x02\x00\x00\x00", // BETA buys 110 USD for 100 EUR, reference 2
            b"\x01\x00\x01\x00\x14\x00\x00\x00", // ALFA pays in 20 EUR
            BETA_IN_100,
            SETTLE,
        ],
        printed: &[
            b"member ALFA\n",
            b"USD account -1 in 0 out 0 due 0\n",
            b"EUR account 21 in 20 out 0 due 0\n",
            b"settled 1 waiting 1\n",
            b"member BETA\n",
            b"USD account 1 in 0 out 0 due 0\n",
            b"EUR account 99 in 100 out 0 due 0\n",
            b"settled 1 waiting 1\n",
        ],
    },
];
