/// A day file, record by record, and what is printed for it.
pub struct SmallDay {
    pub title: &'static str,
    pub records: &'static [&'static [u8]],
    pub printed: &'static [&'static [u8]],
}

/// The same for a file in which some records stand many times, one after the other.
pub struct RepeatedDay {
    pub title: &'static str,
    pub before: &'static [&'static [u8]],
    pub repeated: &'static [&'static [u8]],
    pub times: usize,
    pub after: &'static [&'static [u8]],
    pub printed: &'static [&'static [u8]],
}
