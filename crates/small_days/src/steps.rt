use crate::day::SmallDay;
use crate::records::{
    ALFA, ALFA_BUYS, ALFA_IN_13, ALFA_WIDE, BETA, BETA_BUYS, BETA_IN_100, BETA_WIDE, BIG, CLOCK_1,
    CLOCK_2, CLOCK_5, EUR, ONE, SETTLE, USD,
};
use crate::texts::{ALFA_QUIET, BETA_QUIET};

/// Steps: causes 9, 10, 11, 14 and 17 to 20.
pub const STEPS: &'static [SmallDay] = &[
    SmallDay {
        title: "9 and 10: a member off the roster, a currency off the sheet",
        records: &[
            b"\x02\x00\x02\x00\x00\x00\x08\x00", // 2 currencies, 2 members, 0 instructions, 8 steps
            USD,
            EUR,
            ALFA,
            BETA,
            b"\x01\x02\x00\x00\x01\x00\x00\x00", // member 2 pays in
            b"\x01\x00\x02\x00\x01\x00\x00\x00", // ALFA pays in currency 2
            b"\x04\x02\x00\x00\x01\x00\x00\x00", // member 2 pay-out
            b"\x04\x00\x02\x00\x01\x00\x00\x00", // ALFA pay-out of currency 2
            b"\x01\xff\xff\x00\x00\x00\x00\x00", // member, currency and amount wrong
            b"\x01\x00\xff\x00\x00\x00\x00\x00", // currency and amount wrong
            b"\x04\xff\xff\x00\x00\x00\x00\x00", // member, currency and amount wrong
            b"\x04\x01\xff\x00\x00\x00\x00\x00", // currency and amount wrong
        ],
        printed: &[
            b"refusal 9 session member 2 currency 0 place 0\n",
            b"refusal 10 session member 0 currency 2 place 1\n",
            b"refusal 9 session member 2 currency 0 place 2\n",
            b"refusal 10 session member 0 currency 2 place 3\n",
            b"refusal 9 session member 255 currency 255 place 4\n",
            b"refusal 10 session member 0 currency 255 place 5\n",
            b"refusal 9 session member 255 currency 255 place 6\n",
            b"refusal 10 session member 1 currency 255 place 7\n",
            ALFA_QUIET,
            BETA_QUIET,
        ],
    },
    SmallDay {
        title: "11: an amount of 0 or above 10^9",
        records: &[
            b"\x02\x00\x02\x00\x00\x00\x05\x00", // 2 currencies, 2 members, 0 instructions, 5 steps
            USD,
            EUR,
            ALFA,
            BETA,
            b"\x01\x00\x00\x00\x00\x00\x00\x00", // ALFA pays in 0
            b"\x01\x00\x01\x00\x01\xca\x9a\x3b", // ALFA pays in 10^9 + 1 EUR
            b"\x04\x01\x00\x00\x00\x00\x00\x00", // BETA pay-out of 0
            b"\x04\x01\x01\x00\x01\xca\x9a\x3b", // BETA pay-out of 10^9 + 1 EUR
            b"\x01\x01\x00\x00\xff\xff\xff\xff", // BETA pays in 2^32 - 1 USD
        ],
        printed: &[
            b"refusal 11 session member 0 currency 0 place 0\n",
            b"refusal 11 session member 0 currency 1 place 1\n",
            b"refusal 11 session member 1 currency 0 place 2\n",
            b"refusal 11 session member 1 currency 1 place 3\n",
            b"refusal 11 session member 1 currency 0 place 4\n",
            ALFA_QUIET,
            BETA_QUIET,
        ],
    },
    // step 1: 10^9 + 1; step 2: 11 comes before 14; step 3: other accounts are untouched; then 10^9 out and 1 in
    SmallDay {
        title: "14: a pay-in of 10^9 is the most that an account takes",
        records: &[
            b"\x02\x00\x02\x00\x00\x00\x07\x00", // 2 currencies, 2 members, 0 instructions, 7 steps
            USD,
            EUR,
            ALFA,
            BETA,
            b"\x01\x00\x00\x00\x00\xca\x9a\x3b", // ALFA pays in 10^9 USD
            b"\x01\x00\x00\x00\x01\x00\x00\x00", // 1 USD more
            b"\x01\x00\x00\x00\x00\x00\x00\x00", // 0 USD
            b"\x01\x01\x00\x00\x00\xca\x9a\x3b", // BETA pays in 10^9 USD
            b"\x01\x00\x01\x00\x01\x00\x00\x00", // ALFA pays in 1 EUR
            b"\x04\x00\x00\x00\x00\xca\x9a\x3b", // ALFA pay-out of 10^9 USD
            b"\x01\x00\x00\x00\x01\x00\x00\x00", // ALFA pays in 1 USD
        ],
        printed: &[
            b"refusal 14 session member 0 currency 0 place 1\n",
            b"refusal 11 session member 0 currency 0 place 2\n",
            b"member ALFA\n",
            b"USD account 1 in 1000000001 out 1000000000 due 0\n",
            b"EUR account 1 in 1 out 0 due 0\n",
            b"settled 0 waiting 0\n",
            b"member BETA\n",
            b"USD account 1000000000 in 1000000000 out 0 due 0\n",
            b"EUR account 0 in 0 out 0 due 0\n",
            b"settled 0 waiting 0\n",
        ],
    },
    // the hour ends at 5: ALFA owes 110 USD, BETA 100 EUR
    SmallDay {
        title: "17: an hour that is past, or above 5; the same hour again is accepted",
        records: &[
            b"\x02\x00\x02\x00\x02\x00\x09\x00", // 2 currencies, 2 members, 2 instructions, 9 steps
            USD,
            EUR,
            ALFA,
            BETA,
            ALFA_BUYS,
            BETA_BUYS,
            b"\x02\x00\x00\x00\x00\x00\x00\x00", // the clock: hour 0
            b"\x02\x00\x00\x06\x00\x00\x00\x00", // the clock: hour 6
            b"\x02\x00\x00\x03\x00\x00\x00\x00", // the clock: hour 3
            CLOCK_2,
            b"\x02\x00\x00\x03\x00\x00\x00\x00", // the clock: hour 3
            CLOCK_5,
            b"\x02\x00\x00\x04\x00\x00\x00\x00", // the clock: hour 4
            b"\x02\x00\x00\xff\x00\x00\x00\x00", // the clock: hour 255
            CLOCK_5,
        ],
        printed: &[
            b"refusal 17 session member - currency - place 1\n",
            b"refusal 17 session member - currency - place 3\n",
            b"refusal 17 session member - currency - place 6\n",
            b"refusal 17 session member - currency - place 7\n",
            b"member ALFA\n",
            b"USD account 0 in 0 out 0 due 110\n",
            b"EUR account 0 in 0 out 0 due 0\n",
            b"settled 0 waiting 1\n",
            b"member BETA\n",
            b"USD account 0 in 0 out 0 due 0\n",
            b"EUR account 0 in 0 out 0 due 100\n",
            b"settled 0 waiting 1\n",
        ],
    },
    SmallDay {
        title: "18: a pay-out above the account",
        records: &[
            b"\x02\x00\x02\x00\x00\x00\x06\x00", // 2 currencies, 2 members, 0 instructions, 6 steps
            USD,
            EUR,
            ALFA,
            BETA,
            b"\x01\x00\x00\x00\x0a\x00\x00\x00", // ALFA pays in 10 USD
            b"\x01\x01\x00\x00\x0a\x00\x00\x00", // BETA pays in 10 USD
            b"\x04\x00\x00\x00\x0b\x00\x00\x00", // ALFA pay-out of 11 USD
            b"\x04\x00\x01\x00\x01\x00\x00\x00", // ALFA pay-out of 1 EUR
            b"\x04\x00\x00\x00\x0a\x00\x00\x00", // ALFA pay-out of 10 USD
            b"\x04\x00\x00\x00\x01\x00\x00\x00", // ALFA pay-out of 1 USD
        ],
        printed: &[
            b"refusal 18 session member 0 currency 0 place 2\n",
            b"refusal 18 session member 0 currency 1 place 3\n",
            b"refusal 18 session member 0 currency 0 place 5\n",
            b"member ALFA\n",
            b"USD account 0 in 10 out 10 due 0\n",
            b"EUR account 0 in 0 out 0 due 0\n",
            b"settled 0 waiting 0\n",
            b"member BETA\n",
            b"USD account 10 in 10 out 0 due 0\n",
            b"EUR account 0 in 0 out 0 due 0\n",
            b"settled 0 waiting 0\n",
        ],
    },
    // After settle ALFA has -97 USD and 100 EUR, worth 600,000; 1 EUR is worth 9,900,000. Step 3: 600,000 - 9,900,000 < 0.
    // Step 4: -97 USD is less than 1. Step 5: 101 EUR exceed the account before they spoil the value. With 1 USD more the value is 10,800,000: step 7 is paid.
    SmallDay {
        title: "19: a pay-out that would leave the adjusted value below 0",
        records: &[
            b"\x02\x00\x02\x00\x02\x00\x09\x00", // 2 currencies, 2 members, 2 instructions, 9 steps
            USD,
            EUR,
            ALFA,
            BETA,
            ALFA_BUYS,
            BETA_BUYS,
            ALFA_IN_13,
            BETA_IN_100,
            SETTLE,
            b"\x04\x00\x01\x00\x01\x00\x00\x00", // ALFA pay-out of 1 EUR
            b"\x04\x00\x00\x00\x01\x00\x00\x00", // ALFA pay-out of 1 USD
            b"\x04\x00\x01\x00\x65\x00\x00\x00", // ALFA pay-out of 101 EUR
            b"\x01\x00\x00\x00\x01\x00\x00\x00", // ALFA pays in 1 USD
            b"\x04\x00\x01\x00\x01\x00\x00\x00", // ALFA pay-out of 1 EUR
            b"\x04\x00\x01\x00\x01\x00\x00\x00", // and another
        ],
        printed: &[
            b"refusal 19 session member 0 currency 1 place 3\n",
            b"refusal 18 session member 0 currency 0 place 4\n",
            b"refusal 18 session member 0 currency 1 place 5\n",
            b"refusal 19 session member 0 currency 1 place 8\n",
            b"member ALFA\n",
            b"USD account -96 in 14 out 0 due 0\n",
            b"EUR account 99 in 0 out 1 due 0\n",
            b"settled 1 waiting 0\n",
            b"member BETA\n",
            b"USD account 110 in 0 out 0 due 0\n",
            b"EUR account 0 in 100 out 0 due 0\n",
            b"settled 1 waiting 0\n",
        ],
    },
    // the worked day
    SmallDay {
        title: "20: a pay-out above cash",
        records: &[
            b"\x02\x00\x02\x00\x02\x00\x06\x00", // 2 currencies, 2 members, 2 instructions, 6 steps
            USD,
            EUR,
            ALFA,
            BETA,
            ALFA_BUYS,
            BETA_BUYS,
            ALFA_IN_13,
            BETA_IN_100,
            SETTLE,
            CLOCK_1,
            b"\x04\x01\x00\x00\x0e\x00\x00\x00", // BETA pay-out of 14 USD
            b"\x04\x01\x00\x00\x0d\x00\x00\x00", // BETA pay-out of 13 USD
        ],
        printed: &[
            b"refusal 20 session member 1 currency 0 place 4\n",
            b"member ALFA\n",
            b"USD account -97 in 13 out 0 due 9\n",
            b"EUR account 100 in 0 out 0 due 0\n",
            b"settled 1 waiting 0\n",
            b"member BETA\n",
            b"USD account 97 in 0 out 13 due 0\n",
            b"EUR account 0 in 100 out 0 due 0\n",
            b"settled 1 waiting 0\n",
        ],
    },
    // Pair 1 leaves -200,000 ONE and 1 BIG, worth 0; 1 ONE more in it would be below 0. There is no cash either: 19 comes before 20.
    // Then 1 BIG is paid in by BETA: its row is 200,000 ONE and 0 BIG; the cash in ONE is still 0.
    SmallDay {
        title: "19 comes before 20, and a value of 0 suffices",
        records: &[
            b"\x02\x00\x02\x00\x02\x00\x04\x00", // 2 currencies, 2 members, 2 instructions, 4 steps
            ONE,
            BIG,
            ALFA_WIDE,
            BETA_WIDE,
            b"\x00\x01\x01\x00\x01\x00\x00\x00\x40\x0d\x03\x00\x01\x00\x00\x00", // ALFA buys 1 BIG for 200,000 ONE
            b"\x01\x00\x00\x01\x40\x0d\x03\x00\x01\x00\x00\x00\x01\x00\x00\x00", // its mirror
            SETTLE,
            b"\x04\x01\x00\x00\x01\x00\x00\x00", // BETA pay-out of 1 ONE
            b"\x01\x01\x01\x00\x01\x00\x00\x00", // BETA pays in 1 BIG
            b"\x04\x01\x00\x00\x01\x00\x00\x00", // BETA pay-out of 1 ONE
        ],
        printed: &[
            b"refusal 19 session member 1 currency 0 place 1\n",
            b"refusal 20 session member 1 currency 0 place 3\n",
            b"member ALFA\n",
            b"ONE account -200000 in 0 out 0 due 0\n",
            b"BIG account 1 in 0 out 0 due 0\n",
            b"settled 1 waiting 0\n",
            b"member BETA\n",
            b"ONE account 200000 in 0 out 0 due 0\n",
            b"BIG account 0 in 1 out 0 due 0\n",
            b"settled 1 waiting 0\n",
        ],
    },
    SmallDay {
        title: "a step reads only its own fields",
        records: &[
            b"\x02\x00\x02\x00\x02\x00\x05\x00", // 2 currencies, 2 members, 2 instructions, 5 steps
            USD,
            EUR,
            ALFA,
            BETA,
            ALFA_BUYS,
            BETA_BUYS,
            b"\x01\x00\x00\xff\x0d\x00\x00\x00", // ALFA pays in 13 USD, hour 255
            b"\x01\x01\x01\x09\x64\x00\x00\x00", // BETA pays in 100 EUR, hour 9
            b"\x03\xff\xff\xff\xff\xff\xff\xff", // settle, all fields filled
            b"\x02\xff\xff\x01\xff\xff\xff\xff", // the clock: hour 1, all fields filled
            b"\x04\x01\x00\x00\x0d\x00\x00\x00", // BETA pay-out of 13 USD, hour 0
        ],
        printed: &[
            b"member ALFA\n",
            b"USD account -97 in 13 out 0 due 9\n",
            b"EUR account 100 in 0 out 0 due 0\n",
            b"settled 1 waiting 0\n",
            b"member BETA\n",
            b"USD account 97 in 0 out 13 due 0\n",
            b"EUR account 0 in 100 out 0 due 0\n",
            b"settled 1 waiting 0\n",
        ],
    },
];
