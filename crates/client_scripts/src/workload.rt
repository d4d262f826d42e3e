ghost use Rattle.std.specs.Prelude.{◌≡◌};
ghost use Rattle.client_scripts.specs.Drawn.{IsWorkload, chosen};

use seq_objects::Kind;

/// Which of a kind's operations a call makes, in the order of the operations' codes.
#[derive(Clone, Copy, Debug, PartialEq, Eq)]
pub enum OperationChoice {
    First,
    Second,
    Third,
}

/// How often each of a kind's operations comes, in the order of the operations' codes. Where a kind
/// has fewer operations than there are weights, the last operation has the further weights too.
#[derive(Clone, Copy, Debug, PartialEq, Eq)]
pub struct Weights {
    pub first: u32,
    pub second: u32,
    pub third: u32,
}

/// How random scripts are drawn: for which kind of object, of which size, and with which
/// operations.
#[derive(Clone, Copy, Debug, PartialEq, Eq)]
pub struct Workload {
    /// The kind of the object.
    pub kind: Kind,
    /// How many callers there are: 1 to 16.
    pub callers: u32,
    /// How many calls each caller makes: at most 256.
    pub calls: u64,
    /// Each number that an operation takes is below this one, which is at least 1.
    pub values: u32,
    /// How often each operation comes. One of them is at least 1.
    pub weights: Weights,
}

/// Which of a kind's operations a draw chooses, by the workload's weights.
pub(crate) fn choose(workload: &Workload, draw: u32) -> OperationChoice
    requires { IsWorkload workload.now }
    ensures { result ≡ chosen workload.now.weights draw }
{
    let Weights {
        first,
        second,
        third,
    } = workload.weights;
    let both = u64::from(first) + u64::from(second);
    let share = u64::from(draw) % (both + u64::from(third));
    if share < u64::from(first) {
        OperationChoice::First
    } else if share < both {
        OperationChoice::Second
    } else {
        OperationChoice::Third
    }
}
