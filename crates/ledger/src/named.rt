ghost use Rattle.std.specs.Prelude.{◌≡◌, true, false, IfErr, OnOk};
ghost use Rattle.refusal.specs.Meaning.{refusal_of};
ghost use Rattle.ledger.specs.Offers.{refusal_by};

use refusal::{Cause, Layer, Refusal, refuse_if};

/// The member and the currency that a call names.
#[derive(Clone, Copy)]
pub(crate) struct Named {
    pub(crate) member: u8,
    pub(crate) currency: u8,
}

impl Named {
    /// The session's refusal of the call.
    pub(crate) fn refused(self, cause: Cause) -> Refusal
        ensures { refusal_of result ≡ refusal_by cause self.member self.currency }
    {
        Refusal::by(Layer::Session, cause)
            .of(self.member)
            .in_currency(self.currency)
    }

    /// Refuses the call for a cause that holds.
    pub(crate) fn refuse_if(self, holds: bool, cause: Cause) -> Result<(), Refusal>
        ensures passes { OnOk result (holds ≡ false) }
        ensures refused { IfErr result (λ e. (holds ≡ true) × (refusal_of e ≡ refusal_by cause self.member self.currency)) }
    {
        refuse_if(holds, self.refused(cause))
    }
}
