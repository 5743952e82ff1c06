//! Whether the numbers of a JSON value are whole, which those who read bodies and those who write replies ask alike.
#![tactic(auto)]

mod floats;

pub use floats::has_float;
