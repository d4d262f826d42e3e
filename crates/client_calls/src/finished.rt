use report_lines::Line;
use row_table::Caller;

/// A finished client: its caller, with its local as it is, its pass, its lines and its ending; and
/// whether its last call was left unjudged for want of memory.
pub struct Finished<P, T, E> {
    pub caller: Caller<P>,
    pub pass: T,
    pub lines: Vec<Line>,
    pub ending: E,
    pub wants_memory: bool,
}
