//! Amounts of a spot foreign-exchange market: prices in ticks, sizes in lots, credit in units, the
//! numbers of banks and pairs, and the text form of a number and of a price. No call here takes memory.
#![tactic(auto)]

mod amount;
mod memory;
mod numeral;
mod price;
mod price_text;
mod quantity;
mod seat;
mod side;

pub use amount::{base_amount, quote_amount};
pub use memory::{Memory, room_for};
pub use numeral::{MOST_SHORT, short_numeral};
pub use price::Price;
pub use price_text::{PriceFault, price_from};
pub use quantity::{Lots, Units};
pub use seat::{BankId, PairId};
pub use side::Side;
