//! A turn cell: an object on which many callers take turns, with one history of their calls. It is a ticket lock that
//! counts the entries of that history, so that each caller knows a beginning of it.
#![tactic(auto)]

mod object;
mod seats;
mod steps;
mod turn;
mod view;

pub use object::{Entry, Object};
pub use seats::Pass;
pub use turn::Turn;
pub use view::{Joined, View};
