//! A table of turns: values in slots, which the callers of several threads take by turns, and one history of what all of them did.
//!
//! An opening, an entry of the history and the state of a slot are lists of numbers here, and a [`Machine`] says what they mean. They exist
//! in contracts alone. A caller has a [`Pass`], which knows a front of the history. It takes the turn of each slot that it needs, changes
//! the values, commits one entry that fits the states of these slots, and puts the values back:
//!
//! - [`Turns::open`] makes a table, and a pass for each caller;
//! - [`Turns::try_take`] takes the turn of a slot with its value, or says who has it, and never waits;
//! - [`Turns::wait_for`] waits until a turn was seen free;
//! - [`Turns::commit`] adds one entry behind the history, whatever others have added since;
//! - [`Turns::put_back`] puts a value back and gives its turn back;
//! - [`Turns::look`] counts the entries;
//! - [`Turns::close`] takes all passes in, and hands out the values and one legal history.
//!
//! Between any two steps of any threads the rule of turns holds (`specs/TurnRule.antt`). `specs/Calls.antt` has what each call needs and
//! tells, and `specs/Closes.antt` what is left at the end. No clause says that a turn comes free, or that a thread wakes.
//!
//! The module [`counters`] is an example to follow: it puts a machine of counters on a table.
#![tactic(auto)]

mod calls;
mod closing;
pub mod counters;
mod machine;
mod opening;
mod pass;
mod plays;
mod table;
#[cfg(test)]
mod tests;
mod view;

pub use calls::Held;
pub use closing::{CloseRefused, TableClosed};
pub use machine::{Entered, Machine};
pub use opening::OutOfMemory;
pub use pass::Pass;
pub use table::Turns;
