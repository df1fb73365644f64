// Texts that are printed for several days.

pub const TOO_SHORT_OR_LONG: &'static [u8] = b"refusal 1 file member - currency - place 0\n";

pub const COUNT_ABOVE: &'static [u8] = b"refusal 2 file member - currency - place 0\n";

pub const LENGTH_OFF: &'static [u8] = b"refusal 3 file member - currency - place 0\n";

pub const CODE_REFUSED: &'static [u8] = b"refusal 6 sheet member - currency 0 place 0\n";

pub const RATE_SHEET_RANGE: &'static [u8] = b"refusal 8 sheet member - currency 0 place 0\n";

pub const NAME_REFUSED: &'static [u8] = b"refusal 6 roster member 0 currency - place 0\n";

pub const LIMIT_REFUSED: &'static [u8] = b"refusal 8 roster member 0 currency - place 0\n";

pub const ALFA_QUIET: &'static [u8] =
    b"member ALFA\nUSD account 0 in 0 out 0 due 0\nEUR account 0 in 0 out 0 due 0\nsettled 0 waiting 0\n";

pub const BETA_QUIET: &'static [u8] =
    b"member BETA\nUSD account 0 in 0 out 0 due 0\nEUR account 0 in 0 out 0 due 0\nsettled 0 waiting 0\n";

pub const ALFA_WAITS: &'static [u8] =
    b"member ALFA\nUSD account 0 in 0 out 0 due 0\nEUR account 0 in 0 out 0 due 0\nsettled 0 waiting 1\n";

pub const BETA_WAITS: &'static [u8] =
    b"member BETA\nUSD account 0 in 0 out 0 due 0\nEUR account 0 in 0 out 0 due 0\nsettled 0 waiting 1\n";
