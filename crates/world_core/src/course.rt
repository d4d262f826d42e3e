use book_base::Cut;

/// What a scan does at present.
#[derive(Clone, Copy, Debug)]
pub enum Course {
    /// The scan makes a collect: it looks at the count of each caller in turn.
    Collects,
    /// The scan peeks, entry by entry, the cut that one row embeds. The fields are the row's caller
    /// and the row's number.
    Borrows(u32, u64),
    /// The scan has ended, with this cut.
    Ends(Cut),
}
