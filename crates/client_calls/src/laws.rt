//! Laws of clients. Each is the contract of a function with nothing in it.

ghost use Rattle.client_calls.specs.Working.{JudgingClientsHaveWorked};

/// A client that judges its calls leaves a line for each call, all phases of its allotment up to an
/// error, and verdicts by books that its caller gathered.
pub fn judging_clients_have_worked()
    ensures { JudgingClientsHaveWorked }
{}
