ghost use Rattle.std.specs.Prelude.{◌≡◌, IfSome};
ghost use Rattle.order_lines.specs.Words.{word_text, word_of, field_count, side_word, life_text, life_of, fault_of};

use fx_amounts::Side;
use fx_rules::{Life, Reject};

/// The second field of a command line: what the sender wants.
#[derive(Clone, Copy, Debug, PartialEq, Eq)]
pub(crate) enum Word {
    Buy,
    Sell,
    Cancel,
    Reduce,
    Pull,
    Line,
    Show,
    Book,
    Total,
    Settle,
}

/// The word of a bad line in a journal. In a session's text it is no word.
pub(crate) const BAD: &[u8] = b"BAD";

const FAULTS: [Reject; 12] = [
    Reject::Word,
    Reject::Count,
    Reject::Pair,
    Reject::PriceForm,
    Reject::PriceRange,
    Reject::Lots,
    Reject::Bank,
    Reject::Limit,
    Reject::Number,
    Reject::Life,
    Reject::Long,
    Reject::Units,
];

impl Word {
    /// The word that is spelled so.
    pub(crate) fn from_bytes(text: &[u8]) -> Option<Word>
        ensures { result ≡ word_of text.now }
    {
        match text {
            b"BUY" => Some(Word::Buy),
            b"SELL" => Some(Word::Sell),
            b"CANCEL" => Some(Word::Cancel),
            b"REDUCE" => Some(Word::Reduce),
            b"PULL" => Some(Word::Pull),
            b"LINE" => Some(Word::Line),
            b"SHOW" => Some(Word::Show),
            b"BOOK" => Some(Word::Book),
            b"TOTAL" => Some(Word::Total),
            b"SETTLE" => Some(Word::Settle),
            _ => None,
        }
    }

    /// The word of an order.
    pub(crate) fn of_side(side: Side) -> Word
        ensures { result ≡ side_word side }
    {
        match side {
            Side::Buy => Word::Buy,
            Side::Sell => Word::Sell,
        }
    }

    /// The side of the orders that it gives.
    pub(crate) fn side(self) -> Option<Side>
        ensures { IfSome result (λ side. self ≡ side_word side) }
    {
        match self {
            Word::Buy => Some(Side::Buy),
            Word::Sell => Some(Side::Sell),
            _ => None,
        }
    }

    /// Its one spelling.
    pub(crate) fn as_bytes(self) -> &'static [u8]
        ensures { result.now ≡ word_text self }
    {
        match self {
            Word::Buy => b"BUY",
            Word::Sell => b"SELL",
            Word::Cancel => b"CANCEL",
            Word::Reduce => b"REDUCE",
            Word::Pull => b"PULL",
            Word::Line => b"LINE",
            Word::Show => b"SHOW",
            Word::Book => b"BOOK",
            Word::Total => b"TOTAL",
            Word::Settle => b"SETTLE",
        }
    }

    /// How many fields a line with that word has, the sender's name and the word counted.
    pub(crate) fn field_count(self) -> usize
        ensures { result ≡ field_count self }
    {
        match self {
            Word::Buy | Word::Sell => 6,
            Word::Reduce | Word::Settle => 5,
            Word::Cancel | Word::Line => 4,
            Word::Pull | Word::Show | Word::Book | Word::Total => 3,
        }
    }
}

/// The one spelling of an order's life.
pub(crate) fn life_text(life: Life) -> &'static [u8]
    ensures { result.now ≡ life_text life }
{
    match life {
        Life::Day => b"DAY",
        Life::Ioc => b"IOC",
        Life::Fok => b"FOK",
    }
}

/// The life that is spelled so.
pub(crate) fn life_from(text: &[u8]) -> Option<Life>
    ensures { result ≡ life_of text.now }
{
    match text {
        b"DAY" => Some(Life::Day),
        b"IOC" => Some(Life::Ioc),
        b"FOK" => Some(Life::Fok),
        _ => None,
    }
}

/// The fault of that number.
pub(crate) fn fault_from(number: u64) -> Option<Reject>
    ensures { result ≡ fault_of number }
{
    FAULTS
        .iter()
        .copied()
        .find(|fault| u64::from(fault.code()) == number)
}
