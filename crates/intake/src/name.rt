ghost use Rattle.std.specs.Prelude.{ℕ, ◌≤◌};
ghost use Rattle.rules.specs.declared.bounds.TheConstants.{LONGEST_NAME};

use rules::LONGEST_NAME;

/// The name of a member: the first `len` of its bytes.
// Bytes and how many of them are the name: an `ArrayVec` is not `Copy`, and `Member` is.
// No `PartialEq`: the bytes after the name are no part of it.
#[derive(Clone, Copy)]
pub struct Name {
    pub(crate) bytes: [u8; LONGEST_NAME],
    pub(crate) len: usize,
    ghost short: { len ≤ LONGEST_NAME },
}
