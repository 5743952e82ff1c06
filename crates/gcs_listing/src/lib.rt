//! Pages of a listing, found by seeks from unit to unit, and the texts of page tokens.
#![tactic(auto)]

mod bounds;
mod folding;
mod looking;
mod paging;
mod seeking;
mod tokens;

pub use folding::is_below;
pub use paging::page;
pub use tokens::{
    TokenFault, law_tokens, read_bucket_token, read_token, write_bucket_token, write_token,
};
