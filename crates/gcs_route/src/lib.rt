//! The route table: which row of it a request is, with its names and its parameters.
#![tactic(auto)]

mod call;
mod fault;
mod kind;
mod laws;
mod masks;
mod naming;
mod pairs;
mod params;
mod paths;
mod routing;
mod table;
mod values;

pub use call::{Call, MaskPart, UploadKind};
pub use fault::RouteFault;
pub use kind::RequestKind;
pub use laws::law_one_answer;
pub use routing::route;
