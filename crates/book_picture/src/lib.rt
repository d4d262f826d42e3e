//! The picture of a book as SVG: a lane for each caller, folded into rows, and an element for each
//! call.
#![tactic(auto)]

mod columns;
mod draw;
mod escape;
mod label;
pub mod laws;
mod marked_calls;
mod number;
mod row;
mod rows;
mod sheet;
mod values;

pub use draw::draw_book;
pub use marked_calls::MarkedCalls;
