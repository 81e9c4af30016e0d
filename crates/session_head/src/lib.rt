//! The header of a session's text: its lines read one by one into a session, and a session's header written in its
//! one spelling.
#![tactic(auto)]

mod draft;
mod reader;
mod reason;
mod statement;
mod text;

pub use reader::HeadReader;
pub use reason::{HeadReason, HeadStep, HeadStop};
pub use text::head_text;
