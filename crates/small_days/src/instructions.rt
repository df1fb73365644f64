use crate::day::SmallDay;
use crate::records::{
    ALFA, ALFA_BUYS, ALFA_LONG, BETA, BETA_BUYS, BETA_LONG, CLOCK_2, CLOCK_5, EUR, GAMA_LONG,
    SETTLE, USD,
};
use crate::texts::{ALFA_QUIET, ALFA_WAITS, BETA_QUIET, BETA_WAITS};

/// Instructions: causes 9 to 13, and what is matched.
pub const INSTRUCTIONS: &'static [SmallDay] = &[
    SmallDay {
        title: "9: a party off the roster, or one that trades with itself",
        records: &[
            b"\x02\x00\x02\x00\x04\x00\x00\x00", // 2 currencies, 2 members, 4 instructions, 0 steps
            USD,
            EUR,
            ALFA,
            BETA,
            b"\x02\x01\x01\x00\x64\x00\x00\x00\x6e\x00\x00\x00\x07\x00\x00\x00", // submitter 2 is not on the roster
            b"\x00\x02\x01\x00\x64\x00\x00\x00\x6e\x00\x00\x00\x07\x00\x00\x00", // counterparty 2 is not on the roster
            b"\x01\x01\x00\x01\x6e\x00\x00\x00\x64\x00\x00\x00\x07\x00\x00\x00", // BETA with itself
            b"\xff\x00\x01\x00\x64\x00\x00\x00\x6e\x00\x00\x00\x07\x00\x00\x00", // submitter 255 is not on the roster
        ],
        printed: &[
            b"refusal 9 intake member 2 currency 1 place 0\n",
            b"refusal 9 intake member 0 currency 1 place 1\n",
            b"refusal 9 intake member 1 currency 0 place 2\n",
            b"refusal 9 intake member 255 currency 1 place 3\n",
            ALFA_QUIET,
            BETA_QUIET,
        ],
    },
    SmallDay {
        title: "10: the bought or the sold currency off the sheet",
        records: &[
            b"\x02\x00\x02\x00\x03\x00\x00\x00", // 2 currencies, 2 members, 3 instructions, 0 steps
            USD,
            EUR,
            ALFA,
            BETA,
            b"\x00\x01\x02\x00\x64\x00\x00\x00\x6e\x00\x00\x00\x07\x00\x00\x00", // currency 2 bought
            b"\x00\x01\x01\x02\x64\x00\x00\x00\x6e\x00\x00\x00\x07\x00\x00\x00", // currency 2 sold
            b"\x01\x00\xff\x00\x64\x00\x00\x00\x6e\x00\x00\x00\x07\x00\x00\x00", // currency 255 bought
        ],
        printed: &[
            b"refusal 10 intake member 0 currency 2 place 0\n",
            b"refusal 10 intake member 0 currency 1 place 1\n",
            b"refusal 10 intake member 1 currency 255 place 2\n",
            ALFA_QUIET,
            BETA_QUIET,
        ],
    },
    SmallDay {
        title: "11: an amount of 0 or above 10^9",
        records: &[
            b"\x02\x00\x02\x00\x04\x00\x00\x00", // 2 currencies, 2 members, 4 instructions, 0 steps
            USD,
            EUR,
            ALFA,
            BETA,
            b"\x00\x01\x01\x00\x00\x00\x00\x00\x6e\x00\x00\x00\x07\x00\x00\x00", // 0 bought
            b"\x00\x01\x01\x00\x01\xca\x9a\x3b\x6e\x00\x00\x00\x07\x00\x00\x00", // 10^9 + 1 bought
            b"\x00\x01\x01\x00\x64\x00\x00\x00\x00\x00\x00\x00\x07\x00\x00\x00", // 0 sold
            b"\x00\x01\x01\x00\x64\x00\x00\x00\x01\xca\x9a\x3b\x07\x00\x00\x00", // 10^9 + 1 sold
        ],
        printed: &[
            b"refusal 11 intake member 0 currency 1 place 0\n",
            b"refusal 11 intake member 0 currency 1 place 1\n",
            b"refusal 11 intake member 0 currency 1 place 2\n",
            b"refusal 11 intake member 0 currency 1 place 3\n",
            ALFA_QUIET,
            BETA_QUIET,
        ],
    },
    // at hour 5: ALFA owes 1 * 5 / 5 USD, BETA 10^9 * 3 / 3 EUR
    SmallDay {
        title: "amounts and a reference at their ends are matched",
        records: &[
            b"\x02\x00\x02\x00\x02\x00\x01\x00", // 2 currencies, 2 members, 2 instructions, 1 step
            USD,
            EUR,
            ALFA,
            BETA,
            b"\x00\x01\x01\x00\x00\xca\x9a\x3b\x01\x00\x00\x00\xff\xff\xff\xff", // ALFA buys 10^9 EUR for 1 USD, reference 2^32 - 1
            b"\x01\x00\x00\x01\x01\x00\x00\x00\x00\xca\x9a\x3b\xff\xff\xff\xff", // its mirror
            CLOCK_5,
        ],
        printed: &[
            b"member ALFA\n",
            b"USD account 0 in 0 out 0 due 1\n",
            b"EUR account 0 in 0 out 0 due 0\n",
            b"settled 0 waiting 1\n",
            b"member BETA\n",
            b"USD account 0 in 0 out 0 due 0\n",
            b"EUR account 0 in 0 out 0 due 1000000000\n",
            b"settled 0 waiting 1\n",
        ],
    },
    SmallDay {
        title: "12: a reference of 0, or used by this submitter, matched or not",
        records: &[
            b"\x02\x00\x02\x00\x06\x00\x00\x00", // 2 currencies, 2 members, 6 instructions, 0 steps
            USD,
            EUR,
            ALFA,
            BETA,
            b"\x00\x01\x01\x00\x64\x00\x00\x00\x6e\x00\x00\x00\x00\x00\x00\x00", // ALFA, reference 0
            ALFA_BUYS,
            b"\x00\x01\x00\x01\x05\x00\x00\x00\x06\x00\x00\x00\x07\x00\x00\x00", // ALFA buys 5 USD, reference 7 again
            BETA_BUYS,
            ALFA_BUYS,
            BETA_BUYS,
        ],
        printed: &[
            b"refusal 12 intake member 0 currency 1 place 0\n",
            b"refusal 12 intake member 0 currency 0 place 2\n",
            b"refusal 12 intake member 0 currency 1 place 4\n",
            b"refusal 12 intake member 1 currency 0 place 5\n",
            ALFA_WAITS,
            BETA_WAITS,
        ],
    },
    SmallDay {
        title: "13: both legs in one currency; a refused instruction uses no reference up",
        records: &[
            b"\x02\x00\x02\x00\x04\x00\x00\x00", // 2 currencies, 2 members, 4 instructions, 0 steps
            USD,
            EUR,
            ALFA,
            BETA,
            b"\x00\x01\x01\x01\x64\x00\x00\x00\x6e\x00\x00\x00\x07\x00\x00\x00", // ALFA, both legs EUR, reference 7
            b"\x00\x01\x00\x00\x64\x00\x00\x00\x64\x00\x00\x00\x07\x00\x00\x00", // ALFA, both legs USD, reference 7
            ALFA_BUYS,
            BETA_BUYS,
        ],
        printed: &[
            b"refusal 13 intake member 0 currency 1 place 0\n",
            b"refusal 13 intake member 0 currency 0 place 1\n",
            ALFA_WAITS,
            BETA_WAITS,
        ],
    },
    SmallDay {
        title: "causes in order",
        records: &[
            b"\x02\x00\x02\x00\x05\x00\x00\x00", // 2 currencies, 2 members, 5 instructions, 0 steps
            USD,
            EUR,
            ALFA,
            BETA,
            b"\x09\x09\x09\x09\x00\x00\x00\x00\x00\x00\x00\x00\x00\x00\x00\x00", // all wrong
            b"\x00\x01\x09\x09\x00\x00\x00\x00\x00\x00\x00\x00\x00\x00\x00\x00", // currency, amount, reference and legs wrong
            b"\x00\x01\x00\x00\x00\x00\x00\x00\x00\x00\x00\x00\x00\x00\x00\x00", // amount, reference and legs wrong
            b"\x00\x01\x00\x00\x01\x00\x00\x00\x01\x00\x00\x00\x00\x00\x00\x00", // reference and legs wrong
            b"\x00\x01\x00\x00\x01\x00\x00\x00\x01\x00\x00\x00\x01\x00\x00\x00", // legs wrong
        ],
        printed: &[
            b"refusal 9 intake member 9 currency 9 place 0\n",
            b"refusal 10 intake member 0 currency 9 place 1\n",
            b"refusal 11 intake member 0 currency 0 place 2\n",
            b"refusal 12 intake member 0 currency 0 place 3\n",
            b"refusal 13 intake member 0 currency 0 place 4\n",
            ALFA_QUIET,
            BETA_QUIET,
        ],
    },
    // no pair, so nothing is required at hour 5
    SmallDay {
        title: "an unmatched instruction lapses",
        records: &[
            b"\x02\x00\x02\x00\x01\x00\x02\x00", // 2 currencies, 2 members, 1 instruction, 2 steps
            USD,
            EUR,
            ALFA,
            BETA,
            ALFA_BUYS,
            SETTLE,
            CLOCK_5,
        ],
        printed: &[ALFA_QUIET, BETA_QUIET],
    },
    SmallDay {
        title: "what differs from the mirror in one thing is not matched",
        records: &[
            b"\x02\x00\x02\x00\x08\x00\x02\x00", // 2 currencies, 2 members, 8 instructions, 2 steps
            USD,
            EUR,
            ALFA,
            BETA,
            b"\x00\x01\x01\x00\x64\x00\x00\x00\x6e\x00\x00\x00\x01\x00\x00\x00", // ALFA, reference 1
            b"\x01\x00\x00\x01\x6e\x00\x00\x00\x65\x00\x00\x00\x01\x00\x00\x00", // BETA sells 101 EUR
            b"\x00\x01\x01\x00\x64\x00\x00\x00\x6e\x00\x00\x00\x02\x00\x00\x00", // ALFA, reference 2
            b"\x01\x00\x00\x01\x6d\x00\x00\x00\x64\x00\x00\x00\x02\x00\x00\x00", // BETA buys 109 USD
            b"\x00\x01\x01\x00\x64\x00\x00\x00\x6e\x00\x00\x00\x03\x00\x00\x00", // ALFA, reference 3
            b"\x01\x00\x01\x00\x64\x00\x00\x00\x6e\x00\x00\x00\x03\x00\x00\x00", // BETA buys EUR too
            b"\x00\x01\x01\x00\x64\x00\x00\x00\x6e\x00\x00\x00\x04\x00\x00\x00", // ALFA, reference 4
            b"\x01\x00\x00\x01\x6e\x00\x00\x00\x64\x00\x00\x00\x05\x00\x00\x00", // BETA, reference 5
            SETTLE,
            CLOCK_5,
        ],
        printed: &[ALFA_QUIET, BETA_QUIET],
    },
    SmallDay {
        title: "a mistaken mirror uses the reference up",
        records: &[
            b"\x02\x00\x02\x00\x03\x00\x01\x00", // 2 currencies, 2 members, 3 instructions, 1 step
            USD,
            EUR,
            ALFA,
            BETA,
            ALFA_BUYS,
            b"\x01\x00\x00\x01\x6e\x00\x00\x00\x65\x00\x00\x00\x07\x00\x00\x00", // BETA sells 101 EUR, reference 7
            BETA_BUYS,
            CLOCK_5,
        ],
        printed: &[
            b"refusal 12 intake member 1 currency 0 place 2\n",
            ALFA_QUIET,
            BETA_QUIET,
        ],
    },
    // ALFA names BETA, BETA names GAMA, GAMA names ALFA: no pair; under reference 8 GAMA and ALFA are one
    SmallDay {
        title: "the counterparty has to be the one named",
        records: &[
            b"\x02\x00\x03\x00\x05\x00\x00\x00", // 2 currencies, 3 members, 5 instructions, 0 steps
            USD,
            EUR,
            ALFA_LONG,
            BETA_LONG,
            GAMA_LONG,
            ALFA_BUYS,
            b"\x01\x02\x00\x01\x6e\x00\x00\x00\x64\x00\x00\x00\x07\x00\x00\x00", // BETA buys 110 USD from GAMA, reference 7
            b"\x02\x00\x00\x01\x6e\x00\x00\x00\x64\x00\x00\x00\x07\x00\x00\x00", // GAMA buys 110 USD from ALFA, reference 7
            b"\x02\x00\x00\x01\x6e\x00\x00\x00\x64\x00\x00\x00\x08\x00\x00\x00", // GAMA buys 110 USD from ALFA, reference 8
            b"\x00\x02\x01\x00\x64\x00\x00\x00\x6e\x00\x00\x00\x08\x00\x00\x00", // its mirror
        ],
        printed: &[
            ALFA_WAITS,
            BETA_QUIET,
            b"member GAMA\n",
            b"USD account 0 in 0 out 0 due 0\n",
            b"EUR account 0 in 0 out 0 due 0\n",
            b"settled 0 waiting 1\n",
        ],
    },
    // required: ALFA 110 - 60 = 50 USD, BETA 100 - 50 = 50 EUR; at hour 2, 50 * 2 / 5 = 20 and 50 * 2 / 3 = 33 1/3
    SmallDay {
        title: "required amounts are sold less bought over all pairs",
        records: &[
            b"\x02\x00\x02\x00\x04\x00\x01\x00", // 2 currencies, 2 members, 4 instructions, 1 step
            USD,
            EUR,
            ALFA,
            BETA,
            ALFA_BUYS,
            BETA_BUYS,
            b"\x00\x01\x00\x01\x3c\x00\x00\x00\x32\x00\x00\x00\x08\x00\x00\x00", // ALFA buys 60 USD for 50 EUR
            b"\x01\x00\x01\x00\x32\x00\x00\x00\x3c\x00\x00\x00\x08\x00\x00\x00", // its mirror
            CLOCK_2,
        ],
        printed: &[
            b"member ALFA\n",
            b"USD account 0 in 0 out 0 due 20\n",
            b"EUR account 0 in 0 out 0 due 0\n",
            b"settled 0 waiting 2\n",
            b"member BETA\n",
            b"USD account 0 in 0 out 0 due 0\n",
            b"EUR account 0 in 0 out 0 due 34\n",
            b"settled 0 waiting 2\n",
        ],
    },
];
