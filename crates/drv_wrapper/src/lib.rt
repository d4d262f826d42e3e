//! The wrapper of Castañeda and Rodríguez (2023): a call is announced, the object is asked, and a
//! view is taken.
#![tactic(auto)]

mod announced;
mod announcing;
mod answered;
mod applying;
mod asking;
mod black_box;
pub mod laws;
mod object_pass;
mod object_steps;
mod viewed;
mod viewing;

pub use announced::Announced;
pub use announcing::announce;
pub use answered::Answered;
pub use applying::apply;
pub use asking::ask;
pub use black_box::BlackBox;
pub use object_pass::ObjectPass;
pub use viewed::Viewed;
pub use viewing::view;
