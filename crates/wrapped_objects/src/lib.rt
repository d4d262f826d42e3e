//! Worked examples of objects of one's own. From outside this repository: crossbeam's `AtomicCell`
//! as a register and as a counter, and a counter that uses the cell wrongly. Inside the world: a
//! dispenser of tickets, of which every run is proved linearizable.
#![tactic(auto)]

mod cell_counter;
mod cell_register;
mod ticket_dispenser;
mod torn_counter;

pub use cell_counter::CellCounter;
pub use cell_register::CellRegister;
pub use ticket_dispenser::{TAKE, TicketDispenser};
pub use torn_counter::TornCounter;

#[cfg(test)]
mod bounded_queue;
#[cfg(test)]
mod tests;
#[cfg(test)]
mod ticket_tests;
#[cfg(test)]
mod twin_queues;
