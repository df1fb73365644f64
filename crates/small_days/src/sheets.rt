use crate::day::SmallDay;
use crate::records::{EUR, USD};
use crate::texts::{CODE_REFUSED, RATE_SHEET_RANGE};

/// The sheet: causes 6 and 8.
pub const SHEET: &'static [SmallDay] = &[
    SmallDay {
        title: "a small letter",
        records: &[
            b"\x01\x00\x00\x00\x00\x00\x00\x00", // 1 currency, 0 members, 0 instructions, 0 steps
            b"USd\x05\x10\x27\x00\x00\x14\x00", // USd
        ],
        printed: &[CODE_REFUSED],
    },
    SmallDay {
        title: "the byte before A",
        records: &[
            b"\x01\x00\x00\x00\x00\x00\x00\x00", // 1 currency, 0 members, 0 instructions, 0 steps
            b"@SD\x05\x10\x27\x00\x00\x14\x00", // @SD
        ],
        printed: &[CODE_REFUSED],
    },
    SmallDay {
        title: "the byte after Z",
        records: &[
            b"\x01\x00\x00\x00\x00\x00\x00\x00", // 1 currency, 0 members, 0 instructions, 0 steps
            b"US[\x05\x10\x27\x00\x00\x14\x00", // US[
        ],
        printed: &[CODE_REFUSED],
    },
    SmallDay {
        title: "a space in a code",
        records: &[
            b"\x01\x00\x00\x00\x00\x00\x00\x00", // 1 currency, 0 members, 0 instructions, 0 steps
            b"U D\x05\x10\x27\x00\x00\x14\x00", // U D
        ],
        printed: &[CODE_REFUSED],
    },
    SmallDay {
        title: "a code that is taken",
        records: &[
            b"\x03\x00\x00\x00\x00\x00\x00\x00", // 3 currencies, 0 members, 0 instructions, 0 steps
            USD,
            EUR,
            b"USD\x01\x01\x00\x00\x00\x00\x00", // USD: 1 instalments, rate 1, haircut 0
        ],
        printed: &[b"refusal 6 sheet member - currency 2 place 0\n"],
    },
    SmallDay {
        title: "a wrong code comes before a wrong rate",
        records: &[
            b"\x01\x00\x00\x00\x00\x00\x00\x00", // 1 currency, 0 members, 0 instructions, 0 steps
            b"usd\x05\x00\x00\x00\x00\x14\x00", // usd, rate 0
        ],
        printed: &[CODE_REFUSED],
    },
    SmallDay {
        title: "a taken code comes before a wrong rate",
        records: &[
            b"\x02\x00\x00\x00\x00\x00\x00\x00", // 2 currencies, 0 members, 0 instructions, 0 steps
            USD,
            b"USD\x05\x00\x00\x00\x00\x14\x00", // USD, rate 0
        ],
        printed: &[b"refusal 6 sheet member - currency 1 place 0\n"],
    },
    SmallDay {
        title: "rate 0",
        records: &[
            b"\x01\x00\x00\x00\x00\x00\x00\x00", // 1 currency, 0 members, 0 instructions, 0 steps
            b"USD\x05\x00\x00\x00\x00\x14\x00", // rate 0
        ],
        printed: &[RATE_SHEET_RANGE],
    },
    SmallDay {
        title: "rate 200,001",
        records: &[
            b"\x01\x00\x00\x00\x00\x00\x00\x00", // 1 currency, 0 members, 0 instructions, 0 steps
            b"USD\x05\x41\x0d\x03\x00\x14\x00", // rate 200,001
        ],
        printed: &[RATE_SHEET_RANGE],
    },
    SmallDay {
        title: "haircut 501",
        records: &[
            b"\x01\x00\x00\x00\x00\x00\x00\x00", // 1 currency, 0 members, 0 instructions, 0 steps
            b"USD\x05\x10\x27\x00\x00\xf5\x01", // haircut 501
        ],
        printed: &[RATE_SHEET_RANGE],
    },
    SmallDay {
        title: "instalments 0",
        records: &[
            b"\x01\x00\x00\x00\x00\x00\x00\x00", // 1 currency, 0 members, 0 instructions, 0 steps
            b"USD\x00\x10\x27\x00\x00\x14\x00", // instalments 0
        ],
        printed: &[RATE_SHEET_RANGE],
    },
    SmallDay {
        title: "instalments 6",
        records: &[
            b"\x01\x00\x00\x00\x00\x00\x00\x00", // 1 currency, 0 members, 0 instructions, 0 steps
            b"USD\x06\x10\x27\x00\x00\x14\x00", // instalments 6
        ],
        printed: &[RATE_SHEET_RANGE],
    },
    SmallDay {
        title: "the second currency is out of range",
        records: &[
            b"\x02\x00\x00\x00\x00\x00\x00\x00", // 2 currencies, 0 members, 0 instructions, 0 steps
            USD,
            b"EUR\x03\xf8\x2a\x00\x00\xf5\x01", // EUR: 3 instalments, rate 11,000, haircut 501
        ],
        printed: &[b"refusal 8 sheet member - currency 1 place 0\n"],
    },
    SmallDay {
        title: "the sheet comes before the roster",
        records: &[
            b"\x01\x00\x01\x00\x00\x00\x00\x00", // 1 currency, 1 member, 0 instructions, 0 steps
            b"USD\x05\x00\x00\x00\x00\x14\x00", // USD, rate 0
            b"                \x00\x00\x00\x00\x00\x00\x00\x00\x00\x00\x00\x00", // no name
        ],
        printed: &[RATE_SHEET_RANGE],
    },
    SmallDay {
        title: "every range at both its ends",
        records: &[
            b"\x02\x00\x01\x00\x00\x00\x00\x00", // 2 currencies, 1 member, 0 instructions, 0 steps
            b"AAA\x01\x01\x00\x00\x00\x00\x00", // AAA: 1 instalments, rate 1, haircut 0
            b"ZZZ\x05\x40\x0d\x03\x00\xf4\x01", // ZZZ: 5 instalments, rate 200,000, haircut 500
            b"ALFA            \x00\x00\x00\x00\x00\x00\x00\x00\x00\x00\x00\x00\x00\x00\x00\x00", // ALFA: aggregate limit 0, short limits 0 and 0
        ],
        printed: &[
            b"member ALFA\n",
            b"AAA account 0 in 0 out 0 due 0\n",
            b"ZZZ account 0 in 0 out 0 due 0\n",
            b"settled 0 waiting 0\n",
        ],
    },
];
