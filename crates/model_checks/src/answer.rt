/// What a check says, with the numbers of states and operations that a program gives to them.
#[derive(Clone, Copy, Debug, PartialEq, Eq)]
pub enum ModelAnswer {
    /// The history has an order that is legal for each object that agrees with what was told.
    Legal,
    /// No object that agrees with what was told has a legal order of the history.
    Illegal,
    /// What this operation does at this state is to be told.
    Ask(u32, u32),
    /// The steps are used up.
    Paused,
}
