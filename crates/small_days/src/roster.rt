use crate::day::SmallDay;
use crate::records::{ALFA, ALFA_LONG, BETA_WIDE, EUR, USD};
use crate::texts::{ALFA_QUIET, BETA_QUIET, LIMIT_REFUSED, NAME_REFUSED};

/// The roster: causes 6 and 8.
pub const ROSTER: &'static [SmallDay] = &[
    SmallDay {
        title: "no name",
        records: &[
            b"\x00\x00\x01\x00\x00\x00\x00\x00", // 0 currencies, 1 member, 0 instructions, 0 steps
            b"                \x00\x00\x00\x00\x00\x00\x00\x00", // 16 spaces
        ],
        printed: &[NAME_REFUSED],
    },
    SmallDay {
        title: "a space within a name",
        records: &[
            b"\x00\x00\x01\x00\x00\x00\x00\x00", // 0 currencies, 1 member, 0 instructions, 0 steps
            b"AL FA           \x00\x00\x00\x00\x00\x00\x00\x00", // AL FA
        ],
        printed: &[NAME_REFUSED],
    },
    SmallDay {
        title: "a space before a name",
        records: &[
            b"\x00\x00\x01\x00\x00\x00\x00\x00", // 0 currencies, 1 member, 0 instructions, 0 steps
            b" ALFA           \x00\x00\x00\x00\x00\x00\x00\x00", // a space, then ALFA
        ],
        printed: &[NAME_REFUSED],
    },
    SmallDay {
        title: "a name filled up with zero bytes",
        records: &[
            b"\x00\x00\x01\x00\x00\x00\x00\x00", // 0 currencies, 1 member, 0 instructions, 0 steps
            b"ALFA\x00\x00\x00\x00\x00\x00\x00\x00\x00\x00\x00\x00\x00\x00\x00\x00\x00\x00\x00\x00", // ALFA and 12 zero bytes
        ],
        printed: &[NAME_REFUSED],
    },
    SmallDay {
        title: "a byte 127 in a name",
        records: &[
            b"\x00\x00\x01\x00\x00\x00\x00\x00", // 0 currencies, 1 member, 0 instructions, 0 steps
            b"ALFA\x7f           \x00\x00\x00\x00\x00\x00\x00\x00", // ALFA and byte 127
        ],
        printed: &[NAME_REFUSED],
    },
    SmallDay {
        title: "a byte 255 in a name",
        records: &[
            b"\x00\x00\x01\x00\x00\x00\x00\x00", // 0 currencies, 1 member, 0 instructions, 0 steps
            b"ALFA\xff           \x00\x00\x00\x00\x00\x00\x00\x00", // ALFA and byte 255
        ],
        printed: &[NAME_REFUSED],
    },
    SmallDay {
        title: "a name that is taken",
        records: &[
            b"\x00\x00\x03\x00\x00\x00\x00\x00", // 0 currencies, 3 members, 0 instructions, 0 steps
            b"ALFA            \x00\x00\x00\x00\x00\x00\x00\x00", // ALFA: aggregate limit 0, short limits none
            b"BETA            \x00\x00\x00\x00\x00\x00\x00\x00", // BETA: aggregate limit 0, short limits none
            b"ALFA            \x01\x00\x00\x00\x00\x00\x00\x00", // ALFA: aggregate limit 1, short limits none
        ],
        printed: &[b"refusal 6 roster member 2 currency - place 0\n"],
    },
    SmallDay {
        title: "a wrong name comes before a wrong limit",
        records: &[
            b"\x00\x00\x01\x00\x00\x00\x00\x00", // 0 currencies, 1 member, 0 instructions, 0 steps
            b"                \x01\x00\x64\xa7\xb3\xb6\xe0\x0d", // no name, aggregate limit above its most
        ],
        printed: &[NAME_REFUSED],
    },
    SmallDay {
        title: "aggregate limit 10^18 + 1",
        records: &[
            b"\x00\x00\x01\x00\x00\x00\x00\x00", // 0 currencies, 1 member, 0 instructions, 0 steps
            b"ALFA            \x01\x00\x64\xa7\xb3\xb6\xe0\x0d", // aggregate limit 10^18 + 1
        ],
        printed: &[LIMIT_REFUSED],
    },
    SmallDay {
        title: "aggregate limit 2^64 - 1",
        records: &[
            b"\x00\x00\x01\x00\x00\x00\x00\x00", // 0 currencies, 1 member, 0 instructions, 0 steps
            b"ALFA            \xff\xff\xff\xff\xff\xff\xff\xff", // aggregate limit 2^64 - 1
        ],
        printed: &[LIMIT_REFUSED],
    },
    SmallDay {
        title: "short limit 10^9 + 1",
        records: &[
            b"\x01\x00\x01\x00\x00\x00\x00\x00", // 1 currency, 1 member, 0 instructions, 0 steps
            USD,
            b"ALFA            \x00\x00\x00\x00\x00\x00\x00\x00\x01\xca\x9a\x3b", // short limit 10^9 + 1 in USD
        ],
        printed: &[LIMIT_REFUSED],
    },
    SmallDay {
        title: "short limit 10^9 + 1 in the second currency",
        records: &[
            b"\x02\x00\x01\x00\x00\x00\x00\x00", // 2 currencies, 1 member, 0 instructions, 0 steps
            USD,
            EUR,
            b"ALFA            \x00\x00\x00\x00\x00\x00\x00\x00\x00\x00\x00\x00\x01\xca\x9a\x3b", // short limit 10^9 + 1 in EUR
        ],
        printed: &[LIMIT_REFUSED],
    },
    SmallDay {
        title: "the second member is refused, and no more is printed",
        records: &[
            b"\x02\x00\x02\x00\x01\x00\x01\x00", // 2 currencies, 2 members, 1 instruction, 1 step
            USD,
            EUR,
            ALFA,
            b"BETA            \x00\x00\x00\x00\x00\x00\x00\x00\x01\xca\x9a\x3b\x00\x00\x00\x00", // BETA: aggregate limit 0, short limits 1,000,000,001 and 0
            b"\x09\x09\x09\x09\x00\x00\x00\x00\x00\x00\x00\x00\x00\x00\x00\x00", // all wrong
            b"\x01\x09\x09\x00\x00\x00\x00\x00", // all wrong
        ],
        printed: &[b"refusal 8 roster member 1 currency - place 0\n"],
    },
    SmallDay {
        title: "limits at their ends",
        records: &[
            b"\x02\x00\x02\x00\x00\x00\x00\x00", // 2 currencies, 2 members, 0 instructions, 0 steps
            USD,
            EUR,
            ALFA_LONG,
            BETA_WIDE,
        ],
        printed: &[ALFA_QUIET, BETA_QUIET],
    },
    SmallDay {
        title: "names at their ends, and no currency",
        records: &[
            b"\x00\x00\x04\x00\x00\x00\x00\x00", // 0 currencies, 4 members, 0 instructions, 0 steps
            b"!               \x00\x00\x00\x00\x00\x00\x00\x00", // !: aggregate limit 0, short limits none
            b"~               \x00\x00\x00\x00\x00\x00\x00\x00", // ~: aggregate limit 0, short limits none
            b"!23456789ABCDEF~\x00\x00\x00\x00\x00\x00\x00\x00", // !23456789ABCDEF~: aggregate limit 0, short limits none
            b"!2345           \x00\x00\x00\x00\x00\x00\x00\x00", // !2345: aggregate limit 0, short limits none
        ],
        printed: &[
            b"member !\n",
            b"settled 0 waiting 0\n",
            b"member ~\n",
            b"settled 0 waiting 0\n",
            b"member !23456789ABCDEF~\n",
            b"settled 0 waiting 0\n",
            b"member !2345\n",
            b"settled 0 waiting 0\n",
        ],
    },
    SmallDay {
        title: "names differ by capitals",
        records: &[
            b"\x00\x00\x02\x00\x00\x00\x00\x00", // 0 currencies, 2 members, 0 instructions, 0 steps
            b"ALFA            \x00\x00\x00\x00\x00\x00\x00\x00", // ALFA: aggregate limit 0, short limits none
            b"alfa            \x00\x00\x00\x00\x00\x00\x00\x00", // alfa: aggregate limit 0, short limits none
        ],
        printed: &[
            b"member ALFA\n",
            b"settled 0 waiting 0\n",
            b"member alfa\n",
            b"settled 0 waiting 0\n",
        ],
    },
];
