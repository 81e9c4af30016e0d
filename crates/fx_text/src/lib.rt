//! The text of a session: lines cut out of bytes in any pieces, the fields of a line, and numbers and prices
//! in their one spelling.
#![tactic(auto)]

mod cutter;
mod digits;
mod field;
mod line;
mod line_text;
mod numeral;
mod push;
mod split;

pub use cutter::{LineCutter, first_line};
pub use digits::{
    WIDE_DIGITS, put_byte, put_field, put_name_field, put_number_field, put_price_field, put_text,
    put_wide, put_word_field,
};
pub use field::Fields;
pub use line::{Bytes, Line, LineView};
pub use line_text::LineText;
pub use numeral::number;
pub use push::{push_number, push_price};
pub use split::fields;
