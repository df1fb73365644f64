ghost use Rattle.std.specs.Prelude.{◌≡◌, true, false, MatchResult};

/// Refuses, with the refusal given, if its cause holds.
pub fn refuse_if<E: Drop>(holds: bool, refusal: E) -> Result<(), E>
    ensures { MatchResult result (λ _. holds ≡ false) (λ e. (holds ≡ true) × (e ≡ refusal)) }
{
    if holds { Err(refusal) } else { Ok(()) }
}
