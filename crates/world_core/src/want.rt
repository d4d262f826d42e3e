use book_base::Cut;

/// What a scan needs next.
#[derive(Clone, Copy, Debug)]
pub enum Want {
    /// A look at the count word of this caller in the scan's region.
    Look(u32),
    /// A peek at an entry of the cut that a row embeds in the scan's region: the row's caller, the
    /// row's number, and the caller that the entry is for.
    Peek(u32, u64, u32),
    /// Nothing, since the scan has ended with this cut.
    Done(Cut),
}
