use crate::row::Row;

/// The rows of all members, by member number.
#[derive(Drop)]
pub struct Book {
    pub rows: Vec<Row>,
}
