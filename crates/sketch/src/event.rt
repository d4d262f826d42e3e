use book_base::Call;

/// An event of a sketch: a call is invoked, or it returns with its recorded reply.
#[derive(Clone, Copy, Debug, PartialEq, Eq)]
pub enum Event {
    Invoke(Call),
    Return(Call),
}
