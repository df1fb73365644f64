ghost use Rattle.std.specs.Prelude.{◌≡◌, Some, None};

use crate::cause::Cause;
use crate::layer::Layer;

/// A refused call: why and by whom, the call's member and currency if it has them, and a place in the file.
#[derive(Clone, Copy, Debug, PartialEq, Eq)]
pub struct Refusal {
    pub cause: Cause,
    pub layer: Layer,
    pub member: Option<u8>,
    pub currency: Option<u8>,
    /// A byte offset, or a number among the file's instructions or steps.
    /// 0, and no `None`, where none is named: a refusal's line has 0 there.
    pub place: usize,
}

impl Refusal {
    /// A layer's refusal for a cause, of no member, no currency and no place.
    pub fn by(layer: Layer, cause: Cause) -> Refusal
        ensures { result ≡ record { cause = cause; layer = layer; member = None; currency = None; place = 0 } }
    {
        Refusal {
            cause,
            layer,
            member: None,
            currency: None,
            place: 0,
        }
    }

    /// The same refusal, of a member.
    pub fn of(self, member: u8) -> Refusal
        ensures { result ≡ record { cause = self.cause; layer = self.layer; member = Some member; currency = self.currency; place = self.place } }
    {
        Refusal {
            member: Some(member),
            ..self
        }
    }

    /// The same refusal, in a currency.
    pub fn in_currency(self, currency: u8) -> Refusal
        ensures { result ≡ record { cause = self.cause; layer = self.layer; member = self.member; currency = Some currency; place = self.place } }
    {
        Refusal {
            currency: Some(currency),
            ..self
        }
    }

    /// The same refusal, at a place in the file.
    pub fn at(self, place: usize) -> Refusal
        ensures { result ≡ record { cause = self.cause; layer = self.layer; member = self.member; currency = self.currency; place = place } }
    {
        Refusal { place, ..self }
    }
}
