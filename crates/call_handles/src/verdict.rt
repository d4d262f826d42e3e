/// What came of a judgement by a handle: of a call, by its caller, or of a round, by a monitor.
#[derive(Clone, Copy, Debug, PartialEq, Eq)]
pub enum HandleVerdict {
    /// The published records at the cut that was seen have a legal order. The reply of a call is
    /// delivered.
    Legal,
    /// The object is wrong: the published records at that cut have no legal order.
    Illegal,
    /// Memory was refused, and nobody has judged the published records at that cut, nor checked the
    /// reply of a call.
    Unjudged,
}
