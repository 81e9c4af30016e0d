//! The text of a whole session, read from a source in rounds: its header, its commands in the order of their lines, and its
//! strays.
#![tactic(auto)]

mod aside;
mod ends;
mod front;
mod heard;
mod intake;
mod reading;
mod script;

pub use ends::{EarlyEnd, Stop, TextEnd};
pub use heard::{HeardLines, HeardView};
pub use intake::{INPUT_LIMIT, ROUND};
pub use reading::Reading;
pub use script::{Keeps, Script};
