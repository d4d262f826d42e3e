//! The top call of the program: which command the words name, what it writes, and the status that
//! it ends with.
#![tactic(auto)]

mod arguments;
mod command;
mod draw;
mod input;
mod laws;
mod monitor_script;
mod order;
mod order_fault;
mod output;
mod run_script;
mod script_task;
mod sets;
mod soak;
mod subcommands;
mod top;
mod upgrade;
mod verify;
mod write_output;

pub use byte_streams::{
    Failed, INPUT_LIMIT, MemorySink, MemorySource, ReadAllError, Sink, Source, Status, StdSink,
    StdSource, SteadySource, read_all, write_all,
};
pub use command::Command;
pub use laws::{
    an_upgrade_keeps_the_legal_orders, an_upgrade_says_the_same, order_has_one_output,
    sets_has_one_output, sketch_has_one_output, soak_has_one_output, upgrade_has_one_output,
    verify_has_one_output, what_is_not_taken_is_refused, words_have_their_command,
};
pub use monitor::monitor_and_write;
pub use named_runs::{
    Form, Onlooker, Unwatched, a_report_and_its_counts_have_one_text,
    certificates_are_legal_and_tell_one_book, core_and_write, core_fresh, monitor_behaviour,
    monitor_fresh, replay_and_write, replay_behaviour, replay_fresh, run_and_write, run_behaviour,
    run_fresh, write_report,
};
pub use top::{selfcheck, selfcheck_watched};
