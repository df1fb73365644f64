use crate::day::SmallDay;
use crate::records::{
    ALFA, ALFA_BUYS, ALFA_IN_13, ALFA_IN_110, ALFA_LONG, BETA, BETA_BUYS, BETA_GAMA, BETA_IN_100,
    BETA_IN_110, BETA_LONG, EUR, GAMA_BETA, GAMA_IN_100, GAMA_LONG, SETTLE, USD,
};
use crate::texts::{ALFA_WAITS, BETA_WAITS};

/// Settle: its passes, and the order of the queue.
pub const SETTLING: &'static [SmallDay] = &[
    // ALFA would have -110 USD and 100 EUR: -132,000,000
    SmallDay {
        title: "no pay-in: the pair waits",
        records: &[
            b"\x02\x00\x02\x00\x02\x00\x01\x00", // 2 currencies, 2 members, 2 instructions, 1 step
            USD,
            EUR,
            ALFA,
            BETA,
            ALFA_BUYS,
            BETA_BUYS,
            SETTLE,
        ],
        printed: &[ALFA_WAITS, BETA_WAITS],
    },
    // ALFA -97 USD, 100 EUR: 600,000; BETA 110 USD, -89 EUR: 1,100,000
    SmallDay {
        title: "just enough paid in by both: the pair settles",
        records: &[
            b"\x02\x00\x02\x00\x02\x00\x03\x00", // 2 currencies, 2 members, 2 instructions, 3 steps
            USD,
            EUR,
            ALFA,
            BETA,
            ALFA_BUYS,
            BETA_BUYS,
            ALFA_IN_13,
            b"\x01\x01\x01\x00\x0b\x00\x00\x00", // BETA pays in 11 EUR
            SETTLE,
        ],
        printed: &[
            b"member ALFA\n",
            b"USD account -97 in 13 out 0 due 0\n",
            b"EUR account 100 in 0 out 0 due 0\n",
            b"settled 1 waiting 0\n",
            b"member BETA\n",
            b"USD account 110 in 0 out 0 due 0\n",
            b"EUR account -89 in 11 out 0 due 0\n",
            b"settled 1 waiting 0\n",
        ],
    },
    // ALFA -98 USD, 100 EUR: -9,600,000
    SmallDay {
        title: "1 USD less: the pair waits",
        records: &[
            b"\x02\x00\x02\x00\x02\x00\x03\x00", // 2 currencies, 2 members, 2 instructions, 3 steps
            USD,
            EUR,
            ALFA,
            BETA,
            ALFA_BUYS,
            BETA_BUYS,
            b"\x01\x00\x00\x00\x0c\x00\x00\x00", // ALFA pays in 12 USD
            b"\x01\x01\x01\x00\x0b\x00\x00\x00", // BETA pays in 11 EUR
            SETTLE,
        ],
        printed: &[
            b"member ALFA\n",
            b"USD account 12 in 12 out 0 due 0\n",
            b"EUR account 0 in 0 out 0 due 0\n",
            b"settled 0 waiting 1\n",
            b"member BETA\n",
            b"USD account 0 in 0 out 0 due 0\n",
            b"EUR account 11 in 11 out 0 due 0\n",
            b"settled 0 waiting 1\n",
        ],
    },
    // BETA 110 USD, -90 EUR: -11,000,000
    SmallDay {
        title: "1 EUR less: the pair waits",
        records: &[
            b"\x02\x00\x02\x00\x02\x00\x03\x00", // 2 currencies, 2 members, 2 instructions, 3 steps
            USD,
            EUR,
            ALFA,
            BETA,
            ALFA_BUYS,
            BETA_BUYS,
            ALFA_IN_13,
            b"\x01\x01\x01\x00\x0a\x00\x00\x00", // BETA pays in 10 EUR
            SETTLE,
        ],
        printed: &[
            b"member ALFA\n",
            b"USD account 13 in 13 out 0 due 0\n",
            b"EUR account 0 in 0 out 0 due 0\n",
            b"settled 0 waiting 1\n",
            b"member BETA\n",
            b"USD account 0 in 0 out 0 due 0\n",
            b"EUR account 10 in 10 out 0 due 0\n",
            b"settled 0 waiting 1\n",
        ],
    },
    SmallDay {
        title: "a pair that waits settles at a later call",
        records: &[
            b"\x02\x00\x02\x00\x02\x00\x06\x00", // 2 currencies, 2 members, 2 instructions, 6 steps
            USD,
            EUR,
            ALFA,
            BETA,
            ALFA_BUYS,
            BETA_BUYS,
            SETTLE,
            ALFA_IN_13,
            SETTLE,
            BETA_IN_100,
            SETTLE,
            SETTLE,
        ],
        printed: &[
            b"member ALFA\n",
            b"USD account -97 in 13 out 0 due 0\n",
            b"EUR account 100 in 0 out 0 due 0\n",
            b"settled 1 waiting 0\n",
            b"member BETA\n",
            b"USD account 110 in 0 out 0 due 0\n",
            b"EUR account 0 in 100 out 0 due 0\n",
            b"settled 1 waiting 0\n",
        ],
    },
    // pass 1: BETA has no EUR for pair 1, and buys 100 in pair 2; pass 2: pair 1; pass 3: nothing
    SmallDay {
        title: "each of two passes settles, the third does not",
        records: &[
            b"\x02\x00\x03\x00\x04\x00\x04\x00", // 2 currencies, 3 members, 4 instructions, 4 steps
            USD,
            EUR,
            ALFA_LONG,
            BETA_LONG,
            GAMA_LONG,
            ALFA_BUYS,
            BETA_BUYS,
            BETA_GAMA,
            GAMA_BETA,
            ALFA_IN_110,
            BETA_IN_110,
            GAMA_IN_100,
            SETTLE,
        ],
        printed: &[
            b"member ALFA\n",
            b"USD account 0 in 110 out 0 due 0\n",
            b"EUR account 100 in 0 out 0 due 0\n",
            b"settled 1 waiting 0\n",
            b"member BETA\n",
            b"USD account 110 in 110 out 0 due 0\n",
            b"EUR account 0 in 0 out 0 due 0\n",
            b"settled 2 waiting 0\n",
            b"member GAMA\n",
            b"USD account 110 in 0 out 0 due 0\n",
            b"EUR account 0 in 100 out 0 due 0\n",
            b"settled 1 waiting 0\n",
        ],
    },
    // BETA has neither the EUR for pair 1 nor the USD for pair 2
    SmallDay {
        title: "two pairs that need each other wait",
        records: &[
            b"\x02\x00\x03\x00\x04\x00\x03\x00", // 2 currencies, 3 members, 4 instructions, 3 steps
            USD,
            EUR,
            ALFA_LONG,
            BETA_LONG,
            GAMA_LONG,
            ALFA_BUYS,
            BETA_BUYS,
            BETA_GAMA,
            GAMA_BETA,
            ALFA_IN_110,
            GAMA_IN_100,
            SETTLE,
        ],
        printed: &[
            b"member ALFA\n",
            b"USD account 110 in 110 out 0 due 0\n",
            b"EUR account 0 in 0 out 0 due 0\n",
            b"settled 0 waiting 1\n",
            b"member BETA\n",
            b"USD account 0 in 0 out 0 due 0\n",
            b"EUR account 0 in 0 out 0 due 0\n",
            b"settled 0 waiting 2\n",
            b"member GAMA\n",
            b"USD account 0 in 0 out 0 due 0\n",
            b"EUR account 100 in 100 out 0 due 0\n",
            b"settled 0 waiting 1\n",
        ],
    },
    // Pass 1: pair 1 is stopped, pair 2 brings BETA 100 EUR, pair 3 is next and takes them. Pass 2: pair 1 is stopped again.
    SmallDay {
        title: "a pass goes on after a settlement and does not begin again",
        records: &[
            b"\x02\x00\x03\x00\x06\x00\x04\x00", // 2 currencies, 3 members, 6 instructions, 4 steps
            USD,
            EUR,
            ALFA_LONG,
            BETA_LONG,
            GAMA_LONG,
            ALFA_BUYS,
            BETA_BUYS,
            BETA_GAMA,
            GAMA_BETA,
            b"\x02\x01\x01\x00\x64\x00\x00\x00\x6e\x00\x00\x00\x09\x00\x00\x00", // GAMA buys 100 EUR from BETA for 110 USD, reference 9
            b"\x01\x02\x00\x01\x6e\x00\x00\x00\x64\x00\x00\x00\x09\x00\x00\x00", // its mirror
            ALFA_IN_110,
            BETA_IN_110,
            GAMA_IN_100,
            SETTLE,
        ],
        printed: &[
            b"member ALFA\n",
            b"USD account 110 in 110 out 0 due 0\n",
            b"EUR account 0 in 0 out 0 due 0\n",
            b"settled 0 waiting 1\n",
            b"member BETA\n",
            b"USD account 110 in 110 out 0 due 0\n",
            b"EUR account 0 in 0 out 0 due 0\n",
            b"settled 2 waiting 1\n",
            b"member GAMA\n",
            b"USD account 0 in 0 out 0 due 0\n",
            b"EUR account 100 in 100 out 0 due 0\n",
            b"settled 2 waiting 0\n",
        ],
    },
    // Matched first, so pair 1: GAMA buys 90 of BETA's 100 EUR; 10 are left for the 100 of pair 2, though that came first and weighs more
    SmallDay {
        title: "pairs are numbered in the order of matching, and the queue is by number",
        records: &[
            b"\x02\x00\x03\x00\x04\x00\x04\x00", // 2 currencies, 3 members, 4 instructions, 4 steps
            USD,
            EUR,
            ALFA_LONG,
            BETA_LONG,
            GAMA_LONG,
            ALFA_BUYS,
            b"\x02\x01\x01\x00\x5a\x00\x00\x00\x63\x00\x00\x00\x08\x00\x00\x00", // GAMA buys 90 EUR from BETA for 99 USD
            b"\x01\x02\x00\x01\x63\x00\x00\x00\x5a\x00\x00\x00\x08\x00\x00\x00", // its mirror
            BETA_BUYS,
            ALFA_IN_110,
            b"\x01\x02\x00\x00\x63\x00\x00\x00", // GAMA pays in 99 USD
            BETA_IN_100,
            SETTLE,
        ],
        printed: &[
            b"member ALFA\n",
            b"USD account 110 in 110 out 0 due 0\n",
            b"EUR account 0 in 0 out 0 due 0\n",
            b"settled 0 waiting 1\n",
            b"member BETA\n",
            b"USD account 99 in 0 out 0 due 0\n",
            b"EUR account 10 in 100 out 0 due 0\n",
            b"settled 1 waiting 1\n",
            b"member GAMA\n",
            b"USD account 0 in 99 out 0 due 0\n",
            b"EUR account 90 in 0 out 0 due 0\n",
            b"settled 1 waiting 0\n",
        ],
    },
];
