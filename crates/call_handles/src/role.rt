/// The role in which the next caller of a table is given: to make calls that the table's kind judges,
/// to judge those of the others by it, or to make calls that a model judges.
#[derive(Clone, Copy, Debug, PartialEq, Eq)]
pub enum CallerRole {
    Caller,
    Monitor,
    Modelled,
}
