//! The text of response files: cases of the DRBG mechanisms of SP 800-90A, one after another, as NIST's DRBGVS files have
//! them. The layout is this project's own.
//!
//! - `case`: a case, and the names of mechanisms;
//! - `trim`: blanks, and a text parted at its first `=`;
//! - `names`: the names of mechanisms and fields, and numbers;
//! - `shape`: what a line is by itself;
//! - `group`: the field lines under a COUNT line, as the case that they become;
//! - `spot`: what a line does at a place of a text;
//! - `feed`: the lines of a source, one after another;
//! - `reading`: a reader from the inside, `reader`: what it shows;
//! - `digits`: hexadecimal digits in a buffer, `printing`: a case is printed;
//! - `laws`: what holds of every text.
#![tactic(auto)]

mod case;
mod digits;
mod feed;
mod group;
mod laws;
mod names;
mod printing;
mod reader;
mod reading;
mod shape;
mod spot;
mod trim;

pub use case::{Case, Family, Mech};
pub use digits::put_digits;
pub use laws::{ends_once, one_reading, printed_reads};
pub use printing::print_case;
pub use reader::{Item, TextRefusal, VectorReader};

#[cfg(test)]
mod tests;
