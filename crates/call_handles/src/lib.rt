//! Handles for objects outside the library: a table, and each of its callers, as a value. A call is
//! announced, its reply is handed in, and the call is judged, by its caller or by a monitor of the
//! table. Slots hold handles in the memory of a program in another language, also of callers whose
//! calls a model judges, and checks of histories by a model.
#![tactic(auto)]

mod caller_handle;
mod calls;
mod finishing;
mod handle;
mod held;
mod judging;
mod kept;
mod loose;
mod model_calls;
mod models;
mod monitor_handle;
mod opening;
mod role;
mod rounds;
mod slot;
mod stage;
mod table_handle;
mod verdict;
mod watching;

pub use caller_handle::CallerHandle;
pub use calls::{announce, answered, close, judge, publish, witness};
pub use handle::Handle;
pub use held::Held;
pub use kept::KeptByHandle;
pub use model_calls::{announce_modelled, answered_modelled};
pub use models::{model_evidence, model_order, open_model, serve};
pub use monitor_handle::MonitorHandle;
pub use opening::{give, open, open_modelled};
pub use role::CallerRole;
pub use slot::Slot;
pub use stage::{HandleStage, Wrong};
pub use table_handle::TableHandle;
pub use verdict::HandleVerdict;
pub use watching::watch;
