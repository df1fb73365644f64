use crate::day::SmallDay;
use crate::records::{
    ALFA, ALFA_BUYS, ALFA_IN_13, ALFA_IN_110, BETA, BETA_BUYS, CLOCK_1, CLOCK_2, EUR, SETTLE, USD,
};

/// Amounts due.
pub const DUE: &'static [SmallDay] = &[
    SmallDay {
        title: "due at hour 1: 110 in 5 instalments, 100 in 3",
        records: &[
            b"\x02\x00\x02\x00\x02\x00\x01\x00", // 2 currencies, 2 members, 2 instructions, 1 step
            USD,
            EUR,
            ALFA,
            BETA,
            ALFA_BUYS,
            BETA_BUYS,
            b"\x02\x00\x00\x01\x00\x00\x00\x00", // the clock: hour 1
        ],
        printed: &[
            b"member ALFA\n",
            b"USD account 0 in 0 out 0 due 22\n",
            b"EUR account 0 in 0 out 0 due 0\n",
            b"settled 0 waiting 1\n",
            b"member BETA\n",
            b"USD account 0 in 0 out 0 due 0\n",
            b"EUR account 0 in 0 out 0 due 34\n",
            b"settled 0 waiting 1\n",
        ],
    },
    SmallDay {
        title: "due at hour 2: 110 in 5 instalments, 100 in 3",
        records: &[
            b"\x02\x00\x02\x00\x02\x00\x01\x00", // 2 currencies, 2 members, 2 instructions, 1 step
            USD,
            EUR,
            ALFA,
            BETA,
            ALFA_BUYS,
            BETA_BUYS,
            b"\x02\x00\x00\x02\x00\x00\x00\x00", // the clock: hour 2
        ],
        printed: &[
            b"member ALFA\n",
            b"USD account 0 in 0 out 0 due 44\n",
            b"EUR account 0 in 0 out 0 due 0\n",
            b"settled 0 waiting 1\n",
            b"member BETA\n",
            b"USD account 0 in 0 out 0 due 0\n",
            b"EUR account 0 in 0 out 0 due 67\n",
            b"settled 0 waiting 1\n",
        ],
    },
    SmallDay {
        title: "due at hour 3: 110 in 5 instalments, 100 in 3",
        records: &[
            b"\x02\x00\x02\x00\x02\x00\x01\x00", // 2 currencies, 2 members, 2 instructions, 1 step
            USD,
            EUR,
            ALFA,
            BETA,
            ALFA_BUYS,
            BETA_BUYS,
            b"\x02\x00\x00\x03\x00\x00\x00\x00", // the clock: hour 3
        ],
        printed: &[
            b"member ALFA\n",
            b"USD account 0 in 0 out 0 due 66\n",
            b"EUR account 0 in 0 out 0 due 0\n",
            b"settled 0 waiting 1\n",
            b"member BETA\n",
            b"USD account 0 in 0 out 0 due 0\n",
            b"EUR account 0 in 0 out 0 due 100\n",
            b"settled 0 waiting 1\n",
        ],
    },
    SmallDay {
        title: "due at hour 4: 110 in 5 instalments, 100 in 3",
        records: &[
            b"\x02\x00\x02\x00\x02\x00\x01\x00", // 2 currencies, 2 members, 2 instructions, 1 step
            USD,
            EUR,
            ALFA,
            BETA,
            ALFA_BUYS,
            BETA_BUYS,
            b"\x02\x00\x00\x04\x00\x00\x00\x00", // the clock: hour 4
        ],
        printed: &[
            b"member ALFA\n",
            b"USD account 0 in 0 out 0 due 88\n",
            b"EUR account 0 in 0 out 0 due 0\n",
            b"settled 0 waiting 1\n",
            b"member BETA\n",
            b"USD account 0 in 0 out 0 due 0\n",
            b"EUR account 0 in 0 out 0 due 100\n",
            b"settled 0 waiting 1\n",
        ],
    },
    SmallDay {
        title: "due at hour 5: 110 in 5 instalments, 100 in 3",
        records: &[
            b"\x02\x00\x02\x00\x02\x00\x01\x00", // 2 currencies, 2 members, 2 instructions, 1 step
            USD,
            EUR,
            ALFA,
            BETA,
            ALFA_BUYS,
            BETA_BUYS,
            b"\x02\x00\x00\x05\x00\x00\x00\x00", // the clock: hour 5
        ],
        printed: &[
            b"member ALFA\n",
            b"USD account 0 in 0 out 0 due 110\n",
            b"EUR account 0 in 0 out 0 due 0\n",
            b"settled 0 waiting 1\n",
            b"member BETA\n",
            b"USD account 0 in 0 out 0 due 0\n",
            b"EUR account 0 in 0 out 0 due 100\n",
            b"settled 0 waiting 1\n",
        ],
    },
    // 67 less 66
    SmallDay {
        title: "due is less what is paid in",
        records: &[
            b"\x02\x00\x02\x00\x02\x00\x03\x00", // 2 currencies, 2 members, 2 instructions, 3 steps
            USD,
            EUR,
            ALFA,
            BETA,
            ALFA_BUYS,
            BETA_BUYS,
            b"\x01\x01\x01\x00\x42\x00\x00\x00", // BETA pays in 66 EUR
            ALFA_IN_110,
            CLOCK_2,
        ],
        printed: &[
            b"member ALFA\n",
            b"USD account 110 in 110 out 0 due 0\n",
            b"EUR account 0 in 0 out 0 due 0\n",
            b"settled 0 waiting 1\n",
            b"member BETA\n",
            b"USD account 0 in 0 out 0 due 0\n",
            b"EUR account 66 in 66 out 0 due 1\n",
            b"settled 0 waiting 1\n",
        ],
    },
    // pay-ins alone are set off; a settled pair is still required
    SmallDay {
        title: "due stays after settlement",
        records: &[
            b"\x02\x00\x02\x00\x02\x00\x04\x00", // 2 currencies, 2 members, 2 instructions, 4 steps
            USD,
            EUR,
            ALFA,
            BETA,
            ALFA_BUYS,
            BETA_BUYS,
            ALFA_IN_13,
            b"\x01\x01\x01\x00\x21\x00\x00\x00", // BETA pays in 33 EUR
            SETTLE,
            CLOCK_1,
        ],
        printed: &[
            b"member ALFA\n",
            b"USD account -97 in 13 out 0 due 9\n",
            b"EUR account 100 in 0 out 0 due 0\n",
            b"settled 1 waiting 0\n",
            b"member BETA\n",
            b"USD account 110 in 0 out 0 due 0\n",
            b"EUR account -67 in 33 out 0 due 1\n",
            b"settled 1 waiting 0\n",
        ],
    },
    // 1 * 1 / 5 is rounded up to 1
    SmallDay {
        title: "an instalment is rounded up",
        records: &[
            b"\x02\x00\x02\x00\x02\x00\x01\x00", // 2 currencies, 2 members, 2 instructions, 1 step
            USD,
            EUR,
            ALFA,
            BETA,
            b"\x00\x01\x01\x00\x01\x00\x00\x00\x01\x00\x00\x00\x01\x00\x00\x00", // ALFA buys 1 EUR for 1 USD
            b"\x01\x00\x00\x01\x01\x00\x00\x00\x01\x00\x00\x00\x01\x00\x00\x00", // its mirror
            CLOCK_1,
        ],
        printed: &[
            b"member ALFA\n",
            b"USD account 0 in 0 out 0 due 1\n",
            b"EUR account 0 in 0 out 0 due 0\n",
            b"settled 0 waiting 1\n",
            b"member BETA\n",
            b"USD account 0 in 0 out 0 due 0\n",
            b"EUR account 0 in 0 out 0 due 1\n",
            b"settled 0 waiting 1\n",
        ],
    },
];
