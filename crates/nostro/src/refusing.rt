ghost use Rattle.refusal.specs.Meaning.{number_of};
ghost use Rattle.nostro.specs.Cash.{Tested, causes_over};

use refusal::{Cause, Layer, Refusal, refuse_if};
use rules::MOST_CURRENCIES;

/// Refuses a number that no currency has, and else, where the amount is over what is allowed, for the cause.
pub(crate) fn refuse_over(over: bool, cause: Cause, currency: u8) -> Result<(), Refusal>
    ensures { Tested (causes_over over (number_of cause) currency) result }
{
    let refusal = |cause| Refusal::by(Layer::Nostro, cause).in_currency(currency);
    refuse_if(
        usize::from(currency) >= MOST_CURRENCIES,
        refusal(Cause::Currency),
    )?;
    refuse_if(over, refusal(cause))
}
