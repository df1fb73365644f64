use crate::session::Session;

/// A day that is over: it writes statements, and takes reservations as lapsed.
#[derive(Drop)]
pub struct ClosedDay<N, O> {
    pub(crate) day: Session<N, O>,
}
