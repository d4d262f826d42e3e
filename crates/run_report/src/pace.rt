/// Whether the callers of a script work each by itself, or take turns.
#[derive(Clone, Copy, Debug, PartialEq, Eq)]
pub enum Pace {
    /// Each caller works by itself, up to its stop where it has one.
    Alone,
    /// Each caller makes a phase at each turn that names it, up to its stop where it has one, and
    /// to the end of its calls.
    ByTurns,
}
