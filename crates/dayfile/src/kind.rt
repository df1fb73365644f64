//! The kinds of step, as a file numbers them.
ghost use Rattle.dayfile.specs.Kind.{Decodes};

/// What a step does, with its number in a file.
#[derive(Clone, Copy, Debug, PartialEq, Eq)]
pub enum StepKind {
    PayIn = 1,
    Clock = 2,
    Settle = 3,
    PayOut = 4,
}

/// A number that no kind of step has.
#[derive(Clone, Copy, Debug, PartialEq, Eq)]
pub struct UnknownKind;

impl TryFrom<u8> for StepKind {
    type Error = UnknownKind;

    ghost try_from_gives = { Decodes };

    fn try_from(number: u8) -> Result<StepKind, UnknownKind> {
        // No derive reads a kind from its number.
        match number {
            1 => Ok(StepKind::PayIn),
            2 => Ok(StepKind::Clock),
            3 => Ok(StepKind::Settle),
            4 => Ok(StepKind::PayOut),
            _ => Err(UnknownKind),
        }
    }
}
