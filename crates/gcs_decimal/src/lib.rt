//! Decimal numbers as texts of digits alone, with no sign and no blank.
#![tactic(auto)]

mod reading;

pub use reading::{MOST_DIGITS, read_decimal};
