//! Times as texts (RFC 3339, 5.6): the text of a moment, and the moment of a text. A moment is microseconds since 1970.
#![tactic(auto)]

mod digit_pairs;
mod fraction;
mod laws;
mod reading;
mod writing;

pub use laws::{law_round_trip, law_time_of};
pub use reading::{BadTime, read_time};
pub use writing::{LAST_MOMENT, time_text};
