ghost use Rattle.sheet.specs.Ranges.{InRange};

use rules::CODE_SIZE;

/// A currency of the sheet.
#[derive(Clone, Copy, Debug, PartialEq, Eq)]
pub struct Currency {
    /// Three letters A to Z.
    pub code: [u8; CODE_SIZE],
    /// Marks for one unit.
    pub rate: u32,
    /// Thousandths.
    pub haircut: u16,
    pub instalments: u8,
    ghost sound: { InRange rate haircut instalments },
}
