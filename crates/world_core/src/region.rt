/// A region of the table: in `N` calls are announced, and in `M` their records are published.
#[derive(Clone, Copy, Debug, PartialEq, Eq)]
pub enum Region {
    N,
    M,
}
