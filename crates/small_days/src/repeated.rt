use crate::day::RepeatedDay;
use crate::records::{
    ALFA_IN_MOST, ALFA_OUT_MOST, ALFA_WIDE, BETA_WIDE, BIG, GAMA_WIDE, ONE, SETTLE,
};
use crate::texts::{LENGTH_OFF, TOO_SHORT_OR_LONG};

/// Days with a part that stands many times: lengths at their ends, and cause 15.
pub const REPEATED: &'static [RepeatedDay] = &[
    RepeatedDay {
        title: "40,000 bytes are not too long",
        before: &[],
        repeated: &[
            b"\x00", // a zero byte
        ],
        times: 40_000,
        after: &[],
        printed: &[LENGTH_OFF],
    },
    RepeatedDay {
        title: "40,001 bytes are too long",
        before: &[],
        repeated: &[
            b"\x00", // a zero byte
        ],
        times: 40_001,
        after: &[],
        printed: &[TOO_SHORT_OR_LONG],
    },
    RepeatedDay {
        title: "2,000 steps",
        before: &[
            b"\x00\x00\x00\x00\x00\x00\xd0\x07", // 0 currencies, 0 members, 0 instructions, 2,000 steps
        ],
        repeated: &[SETTLE],
        times: 2_000,
        after: &[],
        printed: &[],
    },
    RepeatedDay {
        title: "15: pay-ins of 10^12, and one more",
        before: &[
            b"\x02\x00\x03\x00\x04\x00\xd0\x07", // 2 currencies, 3 members, 4 instructions, 2,000 steps
            ONE,
            BIG,
            ALFA_WIDE,
            BETA_WIDE,
            GAMA_WIDE,
            b"\x00\x01\x01\x00\x88\x13\x00\x00\x00\xca\x9a\x3b\x01\x00\x00\x00", // ALFA buys 5,000 BIG from BETA for 10^9 ONE
            b"\x01\x00\x00\x01\x00\xca\x9a\x3b\x88\x13\x00\x00\x01\x00\x00\x00", // its mirror
            b"\x00\x02\x01\x00\x88\x13\x00\x00\x00\xca\x9a\x3b\x02\x00\x00\x00", // ALFA buys 5,000 BIG from GAMA for 10^9 ONE
            b"\x02\x00\x00\x01\x00\xca\x9a\x3b\x88\x13\x00\x00\x02\x00\x00\x00", // its mirror
            ALFA_IN_MOST,
            SETTLE,
            ALFA_IN_MOST,
            ALFA_IN_MOST,
        ],
        repeated: &[ALFA_OUT_MOST, ALFA_IN_MOST],
        times: 997,
        after: &[
            ALFA_OUT_MOST,
            b"\x01\x00\x00\x00\x01\x00\x00\x00", // ALFA pays in 1 ONE
        ],
        printed: &[
            b"refusal 15 session member 0 currency 0 place 1999\n",
            b"member ALFA\n",
            b"ONE account 0 in 1000000000000 out 998000000000 due 0\n",
            b"BIG account 10000 in 0 out 0 due 0\n",
            b"settled 2 waiting 0\n",
            b"member BETA\n",
            b"ONE account 1000000000 in 0 out 0 due 0\n",
            b"BIG account -5000 in 0 out 0 due 0\n",
            b"settled 1 waiting 0\n",
            b"member GAMA\n",
            b"ONE account 1000000000 in 0 out 0 due 0\n",
            b"BIG account -5000 in 0 out 0 due 0\n",
            b"settled 1 waiting 0\n",
        ],
    },
];
