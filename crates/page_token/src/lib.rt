//! Continuation tokens: the text under which a listing goes on, and the token whose text it is: a point, and the prefix
//! and delimiter that it belongs to. The layers above write a token into the answer of a truncated page, and read the
//! one that a request hands back.
#![tactic(auto)]

mod cutting;
mod reading;
mod token_error;
mod writing;

pub use reading::read;
pub use token_error::TokenError;
pub use writing::write;
