//! The text of a report and its JSON form.
//!
//! A writer of words appends them to a line. After want of memory that line is of no use: it may have a part of them.
#![tactic(auto)]

mod calls;
mod items;
mod json;
mod pieces;
mod printout;
mod replies;
mod report;
mod waiting;

pub use calls::{level_text, write_op, write_query};
pub use items::watch_text;
pub use json::json_text;
pub use pieces::{blank, one_operand, two_operands, word};
pub use printout::{Printout, head_text};
pub use replies::{write_event, write_reply};
pub use report::{write_items, write_rest};
pub use waiting::waiting_of;
