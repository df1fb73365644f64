use crate::limits::Limits;
use crate::name::Name;

/// A member of the roster.
#[derive(Clone, Copy)]
pub struct Member {
    pub name: Name,
    pub limits: Limits,
}
