use crate::fixture::{QUIET, TRADING, played};
use fx_amounts::Memory;
use net_settle::{Payment, bilateral, net};
use std::alloc::Global;
use std::test::Fail;

/// Four banks and two pairs, with limits among most of the banks.
const FOUR: &[u8] = b"FXBOOK 1
BANK ALFA
BANK BETA
BANK GAMA
BANK DELT
PAIR EUR/USD 5 1000000 100
PAIR USD/JPY 3 1000000 92
LINE ALFA BETA 1000
LINE ALFA GAMA 300
LINE ALFA DELT 200
LINE BETA ALFA 500
LINE BETA GAMA 800
LINE BETA DELT 400
LINE GAMA ALFA 300
LINE GAMA BETA 1000
LINE DELT BETA 400
START
";

/// Trades of all four banks, in both pairs.
const MORNING: &[u8] = b"ALFA SELL EUR/USD 1.08420 3 DAY
GAMA SELL EUR/USD 1.08410 2 DAY
DELT SELL EUR/USD 1.08400 4 DAY
BETA BUY EUR/USD 1.08410 5 DAY
ALFA BUY EUR/USD 1.08405 2 DAY
DELT SELL EUR/USD 1.08400 2 DAY
DELT LINE ALFA 250
BETA SELL USD/JPY 149.250 3 DAY
GAMA BUY USD/JPY 149.260 4 IOC
BETA SELL USD/JPY 149.300 2 DAY
ALFA BUY USD/JPY 149.300 1 DAY
";

/// Headers, the commands behind them, and what the banks pay by such a day, two by two and netted: who pays, whom, and what.
const PAYMENTS: [(&[u8], &[u8], &str, &str); 3] = [
    (QUIET, b"GAMA SHOW ALFA\n", "", ""),
    (
        TRADING,
        b"BETA SELL EUR/USD 1.08420 2 DAY\nALFA BUY EUR/USD 1.08425 3 DAY\n",
        "1 0 EUR 2000000|0 1 USD 2168400|",
        "1 0 EUR 2000000|0 1 USD 2168400|",
    ),
    (
        FOUR,
        MORNING,
        "3 0 EUR 2000000|2 1 EUR 1000000|3 1 EUR 4000000|1 0 USD 1000000|0 3 USD 2168100|1 2 USD 4084100|1 3 USD 4336000|0 1 JPY 149300000|2 1 JPY 447750000|",
        "2 0 EUR 1000000|3 0 EUR 1000000|3 1 EUR 5000000|0 2 USD 1168100|1 2 USD 2916000|1 3 USD 6504100|0 1 JPY 149300000|2 1 JPY 447750000|",
    ),
];

/// Payments, each with a bar behind it.
fn rows(alloc: Global, payments: &[Payment]) -> Result<String, Memory> {
    let mut text = String::new(alloc);
    for row in payments {
        let (payer, payee, amount) = (row.payer.index(), row.payee.index(), row.amount);
        let currency = str::from_utf8(row.currency.as_bytes()).unwrap_or_default();
        text.push_str(&format!(in alloc; "{payer} {payee} {currency} {amount}|")?)?;
    }
    Ok(text)
}

/// What the banks pay by these commands, two by two and netted.
fn rows_of(alloc: Global, header: &[u8], commands: &[u8]) -> Result<(String, String), Fail> {
    let (session, entries) = played(alloc, header, commands)?;
    let twos = bilateral(alloc, &session, &entries)?;
    let netted = net(alloc, &session, &entries)?;
    Ok((rows(alloc, &twos)?, rows(alloc, &netted)?))
}

#[test]
fn banks_pay_two_by_two_and_netted(rt: HostRuntime) -> Result<(), Fail> {
    for (at, (header, commands, want, want_net)) in PAYMENTS.iter().enumerate() {
        let (twos, netted) = rows_of(rt.alloc(), header, commands)?;
        assert!(rt; twos.as_str() == *want, "two by two {at}: {twos}");
        assert!(rt; netted.as_str() == *want_net, "netted {at}: {netted}");
    }
    Ok(())
}
