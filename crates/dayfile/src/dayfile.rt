ghost use Rattle.std.specs.Prelude.{◌≡◌, None};
ghost use Rattle.rules.specs.FileForm.{form_refusal};

// No model: a `Copy` type with a lifetime takes none.
/// A day file that has the right form.
#[derive(Clone, Copy, Debug, PartialEq, Eq)]
pub struct DayFile<'a> {
    pub(crate) bytes: &'a [u8],
    ghost formed: { form_refusal bytes.now ≡ None },
}
