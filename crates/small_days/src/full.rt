use crate::day::SmallDay;

/// As many currencies and members as there can be.
pub const FULL: &'static [SmallDay] = &[
    SmallDay {
        title: "24 currencies",
        records: &[
            b"\x18\x00\x01\x00\x00\x00\x00\x00", // 24 currencies, 1 member, 0 instructions, 0 steps
            b"AAA\x01\x01\x00\x00\x00\x00\x00", // AAA: 1 instalments, rate 1, haircut 0
            b"BBB\x01\x01\x00\x00\x00\x00\x00", // BBB: 1 instalments, rate 1, haircut 0
            b"CCC\x01\x01\x00\x00\x00\x00\x00", // CCC: 1 instalments, rate 1, haircut 0
            b"DDD\x01\x01\x00\x00\x00\x00\x00", // DDD: 1 instalments, rate 1, haircut 0
            b"EEE\x01\x01\x00\x00\x00\x00\x00", // EEE: 1 instalments, rate 1, haircut 0
            b"FFF\x01\x01\x00\x00\x00\x00\x00", // FFF: 1 instalments, rate 1, haircut 0
            b"GGG\x01\x01\x00\x00\x00\x00\x00", // GGG: 1 instalments, rate 1, haircut 0
            b"HHH\x01\x01\x00\x00\x00\x00\x00", // HHH: 1 instalments, rate 1, haircut 0
            b"III\x01\x01\x00\x00\x00\x00\x00", // III: 1 instalments, rate 1, haircut 0
            b"JJJ\x01\x01\x00\x00\x00\x00\x00", // JJJ: 1 instalments, rate 1, haircut 0
            b"KKK\x01\x01\x00\x00\x00\x00\x00", // KKK: 1 instalments, rate 1, haircut 0
            b"LLL\x01\x01\x00\x00\x00\x00\x00", // LLL: 1 instalments, rate 1, haircut 0
            b"MMM\x01\x01\x00\x00\x00\x00\x00", // MMM: 1 instalments, rate 1, haircut 0
            b"NNN\x01\x01\x00\x00\x00\x00\x00", // NNN: 1 instalments, rate 1, haircut 0
            b"OOO\x01\x01\x00\x00\x00\x00\x00", // OOO: 1 instalments, rate 1, haircut 0
            b"PPP\x01\x01\x00\x00\x00\x00\x00", // PPP: 1 instalments, rate 1, haircut 0
            b"QQQ\x01\x01\x00\x00\x00\x00\x00", // QQQ: 1 instalments, rate 1, haircut 0
            b"RRR\x01\x01\x00\x00\x00\x00\x00", // RRR: 1 instalments, rate 1, haircut 0
            b"SSS\x01\x01\x00\x00\x00\x00\x00", // SSS: 1 instalments, rate 1, haircut 0
            b"TTT\x01\x01\x00\x00\x00\x00\x00", // TTT: 1 instalments, rate 1, haircut 0
            b"UUU\x01\x01\x00\x00\x00\x00\x00", // UUU: 1 instalments, rate 1, haircut 0
            b"VVV\x01\x01\x00\x00\x00\x00\x00", // VVV: 1 instalments, rate 1, haircut 0
            b"WWW\x01\x01\x00\x00\x00\x00\x00", // WWW: 1 instalments, rate 1, haircut 0
            b"XXX\x01\x01\x00\x00\x00\x00\x00", // XXX: 1 instalments, rate 1, haircut 0
            b"ALFA            \x00\x00\x00\x00\x00\x00\x00\x00", // ALFA: aggregate limit 0
            b"\x00\x00\x00\x00\x00\x00\x00\x00\x00\x00\x00\x00\x00\x00\x00\x00\x00\x00\x00\x00\x00\x00\x00\x00", // short limits 0 in 6 currencies
            b"\x00\x00\x00\x00\x00\x00\x00\x00\x00\x00\x00\x00\x00\x00\x00\x00\x00\x00\x00\x00\x00\x00\x00\x00", // short limits 0 in 6 currencies
            b"\x00\x00\x00\x00\x00\x00\x00\x00\x00\x00\x00\x00\x00\x00\x00\x00\x00\x00\x00\x00\x00\x00\x00\x00", // short limits 0 in 6 currencies
            b"\x00\x00\x00\x00\x00\x00\x00\x00\x00\x00\x00\x00\x00\x00\x00\x00\x00\x00\x00\x00\x00\x00\x00\x00", // short limits 0 in 6 currencies
        ],
        printed: &[
            b"member ALFA\n",
            b"AAA account 0 in 0 out 0 due 0\n",
            b"BBB account 0 in 0 out 0 due 0\n",
            b"CCC account 0 in 0 out 0 due 0\n",
            b"DDD account 0 in 0 out 0 due 0\n",
            b"EEE account 0 in 0 out 0 due 0\n",
            b"FFF account 0 in 0 out 0 due 0\n",
            b"GGG account 0 in 0 out 0 due 0\n",
            b"HHH account 0 in 0 out 0 due 0\n",
            b"III account 0 in 0 out 0 due 0\n",
            b"JJJ account 0 in 0 out 0 due 0\n",
            b"KKK account 0 in 0 out 0 due 0\n",
            b"LLL account 0 in 0 out 0 due 0\n",
            b"MMM account 0 in 0 out 0 due 0\n",
            b"NNN account 0 in 0 out 0 due 0\n",
            b"OOO account 0 in 0 out 0 due 0\n",
            b"PPP account 0 in 0 out 0 due 0\n",
            b"QQQ account 0 in 0 out 0 due 0\n",
            b"RRR account 0 in 0 out 0 due 0\n",
            b"SSS account 0 in 0 out 0 due 0\n",
            b"TTT account 0 in 0 out 0 due 0\n",
            b"UUU account 0 in 0 out 0 due 0\n",
            b"VVV account 0 in 0 out 0 due 0\n",
            b"WWW account 0 in 0 out 0 due 0\n",
            b"XXX account 0 in 0 out 0 due 0\n",
            b"settled 0 waiting 0\n",
        ],
    },
    SmallDay {
        title: "32 members",
        records: &[
            b"\x00\x00\x20\x00\x00\x00\x00\x00", // 0 currencies, 32 members, 0 instructions, 0 steps
            b"M00             \x00\x00\x00\x00\x00\x00\x00\x00", // M00: aggregate limit 0, short limits none
            b"M01             \x00\x00\x00\x00\x00\x00\x00\x00", // M01: aggregate limit 0, short limits none
            b"M02             \x00\x00\x00\x00\x00\x00\x00\x00", // M02: aggregate limit 0, short limits none
            b"M03             \x00\x00\x00\x00\x00\x00\x00\x00", // M03: aggregate limit 0, short limits none
            b"M04             \x00\x00\x00\x00\x00\x00\x00\x00", // M04: aggregate limit 0, short limits none
            b"M05             \x00\x00\x00\x00\x00\x00\x00\x00", // M05: aggregate limit 0, short limits none
            b"M06             \x00\x00\x00\x00\x00\x00\x00\x00", // M06: aggregate limit 0, short limits none
            b"M07             \x00\x00\x00\x00\x00\x00\x00\x00", // M07: aggregate limit 0, short limits none
            b"M08             \x00\x00\x00\x00\x00\x00\x00\x00", // M08: aggregate limit 0, short limits none
            b"M09             \x00\x00\x00\x00\x00\x00\x00\x00", // M09: aggregate limit 0, short limits none
            b"M10             \x00\x00\x00\x00\x00\x00\x00\x00", // M10: aggregate limit 0, short limits none
            b"M11             \x00\x00\x00\x00\x00\x00\x00\x00", // M11: aggregate limit 0, short limits none
            b"M12             \x00\x00\x00\x00\x00\x00\x00\x00", // M12: aggregate limit 0, short limits none
            b"M13             \x00\x00\x00\x00\x00\x00\x00\x00", // M13: aggregate limit 0, short limits none
            b"M14             \x00\x00\x00\x00\x00\x00\x00\x00", // M14: aggregate limit 0, short limits none
            b"M15             \x00\x00\x00\x00\x00\x00\x00\x00", // M15: aggregate limit 0, short limits none
            b"M16             \x00\x00\x00\x00\x00\x00\x00\x00", // M16: aggregate limit 0, short limits none
            b"M17             \x00\x00\x00\x00\x00\x00\x00\x00", // M17: aggregate limit 0, short limits none
            b"M18             \x00\x00\x00\x00\x00\x00\x00\x00", // M18: aggregate limit 0, short limits none
            b"M19             \x00\x00\x00\x00\x00\x00\x00\x00", // M19: aggregate limit 0, short limits none
            b"M20             \x00\x00\x00\x00\x00\x00\x00\x00", // M20: aggregate limit 0, short limits none
            b"M21             \x00\x00\x00\x00\x00\x00\x00\x00", // M21: aggregate limit 0, short limits none
            b"M22             \x00\x00\x00\x00\x00\x00\x00\x00", // M22: aggregate limit 0, short limits none
            b"M23             \x00\x00\x00\x00\x00\x00\x00\x00", // M23: aggregate limit 0, short limits none
            b"M24             \x00\x00\x00\x00\x00\x00\x00\x00", // M24: aggregate limit 0, short limits none
            b"M25             \x00\x00\x00\x00\x00\x00\x00\x00", // M25: aggregate limit 0, short limits none
            b"M26             \x00\x00\x00\x00\x00\x00\x00\x00", // M26: aggregate limit 0, short limits none
            b"M27             \x00\x00\x00\x00\x00\x00\x00\x00", // M27: aggregate limit 0, short limits none
            b"M28             \x00\x00\x00\x00\x00\x00\x00\x00", // M28: aggregate limit 0, short limits none
            b"M29             \x00\x00\x00\x00\x00\x00\x00\x00", // M29: aggregate limit 0, short limits none
            b"M30             \x00\x00\x00\x00\x00\x00\x00\x00", // M30: aggregate limit 0, short limits none
            b"M31             \x00\x00\x00\x00\x00\x00\x00\x00", // M31: aggregate limit 0, short limits none
        ],
        printed: &[
            b"member M00\n",
            b"settled 0 waiting 0\n",
            b"member M01\n",
            b"settled 0 waiting 0\n",
            b"member M02\n",
            b"settled 0 waiting 0\n",
            b"member M03\n",
            b"settled 0 waiting 0\n",
            b"member M04\n",
            b"settled 0 waiting 0\n",
            b"member M05\n",
            b"settled 0 waiting 0\n",
            b"member M06\n",
            b"settled 0 waiting 0\n",
            b"member M07\n",
            b"settled 0 waiting 0\n",
            b"member M08\n",
            b"settled 0 waiting 0\n",
            b"member M09\n",
            b"settled 0 waiting 0\n",
            b"member M10\n",
            b"settled 0 waiting 0\n",
            b"member M11\n",
            b"settled 0 waiting 0\n",
            b"member M12\n",
            b"settled 0 waiting 0\n",
            b"member M13\n",
            b"settled 0 waiting 0\n",
            b"member M14\n",
            b"settled 0 waiting 0\n",
            b"member M15\n",
            b"settled 0 waiting 0\n",
            b"member M16\n",
            b"settled 0 waiting 0\n",
            b"member M17\n",
            b"settled 0 waiting 0\n",
            b"member M18\n",
            b"settled 0 waiting 0\n",
            b"member M19\n",
            b"settled 0 waiting 0\n",
            b"member M20\n",
            b"settled 0 waiting 0\n",
            b"member M21\n",
            b"settled 0 waiting 0\n",
            b"member M22\n",
            b"settled 0 waiting 0\n",
            b"member M23\n",
            b"settled 0 waiting 0\n",
            b"member M24\n",
            b"settled 0 waiting 0\n",
            b"member M25\n",
            b"settled 0 waiting 0\n",
            b"member M26\n",
            b"settled 0 waiting 0\n",
            b"member M27\n",
            b"settled 0 waiting 0\n",
            b"member M28\n",
            b"settled 0 waiting 0\n",
            b"member M29\n",
            b"settled 0 waiting 0\n",
            b"member M30\n",
            b"settled 0 waiting 0\n",
            b"member M31\n",
            b"settled 0 waiting 0\n",
        ],
    },
];
