//! What a fill moves.
ghost use Rattle.std.specs.Prelude.{◌≡◌, ◌<◌};
ghost use Rattle.fx_rules.specs.Session.{pair_count};
ghost use Rattle.day_report.specs.Report.{base_of, quote_of, buyer, seller};

use fx_amounts::{BankId, Side, base_amount, quote_amount};
use fx_rules::{Fill, Session};

/// What a fill moves, in units of its pair's currencies.
#[derive(Clone, Copy, Debug)]
pub struct Amounts {
    /// Units of the base currency, which go to the buyer: at most 10^9 a lot.
    pub base: u128,
    /// Units of the quote currency, which go to the seller: at most 10^18 a lot.
    pub quote: u128,
}

/// What a fill of one of the session's pairs moves.
pub fn amounts_of(session: &Session, fill: &Fill) -> Amounts
    requires { fill.now.pair < pair_count session.now }
    ensures base { result.base ≡ base_of session.now fill.now }
    ensures quote { result.quote ≡ quote_of session.now fill.now }
{
    let rule = session.rule(fill.pair);
    Amounts {
        base: u128::from(base_amount(fill.lots, rule.lot)),
        quote: quote_amount(fill.lots, rule.lot, fill.price, rule.decimals),
    }
}

/// The bank that buys by a fill.
pub fn buyer(fill: &Fill) -> BankId
    ensures value { result ≡ buyer fill.now }
{
    match fill.taker_side {
        Side::Buy => fill.taker,
        Side::Sell => fill.maker,
    }
}

/// The bank that sells by a fill.
pub fn seller(fill: &Fill) -> BankId
    ensures value { result ≡ seller fill.now }
{
    match fill.taker_side {
        Side::Buy => fill.maker,
        Side::Sell => fill.taker,
    }
}
