use crate::day::SmallDay;
use crate::records::{ALFA, ALFA_BUYS, BETA, EUR, NOTHING, SETTLE, USD};
use crate::texts::{COUNT_ABOVE, LENGTH_OFF, TOO_SHORT_OR_LONG};

/// The form of a file: causes 1 to 4.
pub const FORM: &'static [SmallDay] = &[
    SmallDay {
        title: "no byte at all",
        records: &[],
        printed: &[TOO_SHORT_OR_LONG],
    },
    SmallDay {
        title: "seven bytes",
        records: &[
            b"\x00\x00\x00\x00\x00\x00\x00", // one byte short of the counts
        ],
        printed: &[TOO_SHORT_OR_LONG],
    },
    SmallDay {
        title: "eight zero bytes print nothing",
        records: &[NOTHING],
        printed: &[],
    },
    SmallDay {
        title: "one byte after the counts",
        records: &[
            NOTHING, b"\x00", // a zero byte
        ],
        printed: &[LENGTH_OFF],
    },
    SmallDay {
        title: "25 currencies",
        records: &[
            b"\x19\x00\x00\x00\x00\x00\x00\x00", // 25 currencies, 0 members, 0 instructions, 0 steps
        ],
        printed: &[COUNT_ABOVE],
    },
    SmallDay {
        title: "33 members",
        records: &[
            b"\x00\x00\x21\x00\x00\x00\x00\x00", // 0 currencies, 33 members, 0 instructions, 0 steps
        ],
        printed: &[COUNT_ABOVE],
    },
    SmallDay {
        title: "1,025 instructions",
        records: &[
            b"\x00\x00\x00\x00\x01\x04\x00\x00", // 0 currencies, 0 members, 1,025 instructions, 0 steps
        ],
        printed: &[COUNT_ABOVE],
    },
    SmallDay {
        title: "2,001 steps",
        records: &[
            b"\x00\x00\x00\x00\x00\x00\xd1\x07", // 0 currencies, 0 members, 0 instructions, 2,001 steps
        ],
        printed: &[COUNT_ABOVE],
    },
    SmallDay {
        title: "256 currencies: the second byte counts",
        records: &[
            b"\x00\x01\x00\x00\x00\x00\x00\x00", // 256 currencies, 0 members, 0 instructions, 0 steps
        ],
        printed: &[COUNT_ABOVE],
    },
    SmallDay {
        title: "every count at its most, and no record",
        records: &[
            b"\x18\x00\x20\x00\x00\x04\xd0\x07", // 24 currencies, 32 members, 1,024 instructions, 2,000 steps
        ],
        printed: &[LENGTH_OFF],
    },
    SmallDay {
        title: "a currency record one byte short",
        records: &[
            b"\x01\x00\x00\x00\x00\x00\x00\x00", // 1 currency, 0 members, 0 instructions, 0 steps
            b"\x55\x53\x44\x05\x10\x27\x00\x00\x14", // 9 bytes of USD
        ],
        printed: &[LENGTH_OFF],
    },
    SmallDay {
        title: "a currency record one byte long",
        records: &[
            b"\x01\x00\x00\x00\x00\x00\x00\x00", // 1 currency, 0 members, 0 instructions, 0 steps
            USD,
            b"\x00", // a zero byte
        ],
        printed: &[LENGTH_OFF],
    },
    SmallDay {
        title: "a member without its short limit",
        records: &[
            b"\x01\x00\x01\x00\x00\x00\x00\x00", // 1 currency, 1 member, 0 instructions, 0 steps
            USD,
            b"ALFA            \x00\x00\x00\x00\x00\x00\x00\x00", // ALFA: aggregate limit 0, short limits none
        ],
        printed: &[LENGTH_OFF],
    },
    SmallDay {
        title: "kind 0",
        records: &[
            b"\x00\x00\x00\x00\x00\x00\x01\x00", // 0 currencies, 0 members, 0 instructions, 1 step
            b"\x00\x00\x00\x00\x00\x00\x00\x00", // a step of kind 0
        ],
        printed: &[b"refusal 4 file member - currency - place 8\n"],
    },
    SmallDay {
        title: "kind 5",
        records: &[
            b"\x00\x00\x00\x00\x00\x00\x01\x00", // 0 currencies, 0 members, 0 instructions, 1 step
            b"\x05\x00\x00\x00\x00\x00\x00\x00", // a step of kind 5
        ],
        printed: &[b"refusal 4 file member - currency - place 8\n"],
    },
    SmallDay {
        title: "kind 255",
        records: &[
            b"\x00\x00\x00\x00\x00\x00\x01\x00", // 0 currencies, 0 members, 0 instructions, 1 step
            b"\xff\x00\x00\x00\x00\x00\x00\x00", // a step of kind 255
        ],
        printed: &[b"refusal 4 file member - currency - place 8\n"],
    },
    // steps begin at 8: the second one at 16
    SmallDay {
        title: "the first of two unknown kinds",
        records: &[
            b"\x00\x00\x00\x00\x00\x00\x03\x00", // 0 currencies, 0 members, 0 instructions, 3 steps
            SETTLE,
            b"\x09\x00\x00\x00\x00\x00\x00\x00", // kind 9
            b"\x00\x00\x00\x00\x00\x00\x00\x00", // kind 0
        ],
        printed: &[b"refusal 4 file member - currency - place 16\n"],
    },
    // 8 + 2 * 10 + 2 * (24 + 2 * 4) + 16 = 108
    SmallDay {
        title: "the offset after records of every kind",
        records: &[
            b"\x02\x00\x02\x00\x01\x00\x01\x00", // 2 currencies, 2 members, 1 instruction, 1 step
            USD,
            EUR,
            ALFA,
            BETA,
            ALFA_BUYS,
            b"\x05\x00\x00\x00\x00\x00\x00\x00", // kind 5
        ],
        printed: &[b"refusal 4 file member - currency - place 108\n"],
    },
    // 8 + 10 = 18
    SmallDay {
        title: "the form comes before the sheet",
        records: &[
            b"\x01\x00\x00\x00\x00\x00\x01\x00", // 1 currency, 0 members, 0 instructions, 1 step
            b"USD\x05\x00\x00\x00\x00\x14\x00", // USD with rate 0
            b"\x05\x00\x00\x00\x00\x00\x00\x00", // kind 5
        ],
        printed: &[b"refusal 4 file member - currency - place 18\n"],
    },
    // 8 + 16 = 24; alone, the instruction would print a line
    SmallDay {
        title: "the form comes before the instructions",
        records: &[
            b"\x00\x00\x00\x00\x01\x00\x01\x00", // 0 currencies, 0 members, 1 instruction, 1 step
            ALFA_BUYS,
            b"\x07\x00\x00\x00\x00\x00\x00\x00", // kind 7
        ],
        printed: &[b"refusal 4 file member - currency - place 24\n"],
    },
    SmallDay {
        title: "a count above comes before the length",
        records: &[
            b"\x19\x00\x00\x00\x00\x00\x00\x00", // 25 currencies, 0 members, 0 instructions, 0 steps
            b"\x00", // a zero byte
        ],
        printed: &[COUNT_ABOVE],
    },
];
