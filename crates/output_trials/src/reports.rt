use crate::fixture::{QUIET, TRADING, played};
use day_report::{Report, report};
use fx_amounts::Memory;
use std::alloc::Global;
use std::test::Fail;

/// Headers, the commands behind them, and the rows of the report of such a day: of each pair its fills, lots, base and quote; of each
/// two banks their limits on each other, what they have used and what is left; of each bank and currency the net.
const REPORTS: [(&[u8], &[u8], &str); 3] = [
    (
        QUIET,
        b"GAMA SHOW ALFA\n",
        "0 0 0 0|0 1 0 0 0 0|0 2 0 0 0 0|1 2 0 0 0 0|0 EUR 0|0 USD 0|1 EUR 0|1 USD 0|2 EUR 0|2 USD 0|",
    ),
    (
        TRADING,
        b"BETA SELL EUR/USD 1.08420 2 DAY\nALFA BUY EUR/USD 1.08425 3 DAY\n",
        "1 2 2000000 2168400|0 1 1000 1000 200 800|0 2 0 0 0 0|1 2 0 0 0 0|0 EUR 2000000|0 USD -2168400|1 EUR -2000000|1 USD 2168400|2 EUR 0|2 USD 0|",
    ),
    (
        TRADING,
        b"ALFA BUY EUR/USD 1.08420 2 DAY\nBETA SELL EUR/USD 1.08415 3 DAY\n",
        "1 2 2000000 2168400|0 1 1000 1000 200 800|0 2 0 0 0 0|1 2 0 0 0 0|0 EUR 2000000|0 USD -2168400|1 EUR -2000000|1 USD 2168400|2 EUR 0|2 USD 0|",
    ),
];

/// The rows of a report, each with a bar behind it.
fn rows(alloc: Global, report: &Report) -> Result<String, Memory> {
    let mut text = String::new(alloc);
    for row in report.volumes.as_slice() {
        let (fills, lots, base, quote) = (row.fills, row.lots, row.base, row.quote);
        text.push_str(&format!(in alloc; "{fills} {lots} {base} {quote}|")?)?;
    }
    for row in report.uses.as_slice() {
        let (a, b) = (row.a.index(), row.b.index());
        let (limit_ab, limit_ba) = (row.limit_ab.get(), row.limit_ba.get());
        let (used, eff) = (row.used.get(), row.eff.get());
        text.push_str(&format!(in alloc; "{a} {b} {limit_ab} {limit_ba} {used} {eff}|")?)?;
    }
    add_nets(alloc, report, &mut text)?;
    Ok(text)
}

fn add_nets(alloc: Global, report: &Report, text: &mut String) -> Result<(), Memory> {
    for row in report.nets.as_slice() {
        let (bank, amount) = (row.bank.index(), row.amount);
        let currency = str::from_utf8(row.currency.as_bytes()).unwrap_or_default();
        text.push_str(&format!(in alloc; "{bank} {currency} {amount}|")?)?;
    }
    Ok(())
}

/// The rows of the report of these commands.
fn rows_of(alloc: Global, header: &[u8], commands: &[u8]) -> Result<String, Fail> {
    let (session, entries) = played(alloc, header, commands)?;
    Ok(rows(alloc, &report(alloc, &session, &entries)?)?)
}

#[test]
fn a_report_has_volumes_credit_and_nets(rt: HostRuntime) -> Result<(), Fail> {
    for (at, (header, commands, want)) in REPORTS.iter().enumerate() {
        let told = rows_of(rt.alloc(), header, commands)?;
        assert!(rt; told.as_str() == *want, "report {at}: {told}");
    }
    Ok(())
}
