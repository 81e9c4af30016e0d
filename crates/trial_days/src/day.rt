ghost use Rattle.std.specs.Prelude.{ℕ, ◌≡◌, ◌≢◌, ◌≤◌, ◌<◌, IfOk, OnOk, length};
ghost use Rattle.fx_amounts.specs.Quantity.{IsLots};
ghost use Rattle.fx_rules.specs.Lists.{Each};
ghost use Rattle.fx_rules.specs.Session.{Header, bank_count, pair_count};
ghost use Rattle.fx_rules.specs.Step.{IsCommand};
ghost use Rattle.fx_rules.specs.Sending.{IsSentOf};

use crate::draws::Draws;
use crate::fault::NoDay;
use crate::said::MOST_COMMANDS;
use fx_amounts::{BankId, Lots, Memory, PairId, Price, Side, Units};
use fx_rules::{Command, Life, Reject, Sent, Session};
use made_session::load_session;
use std::alloc::Global;

/// A session made from a number, and its day: in each of so many parts as many commands of all kinds, and then every bank asks for
/// its local book of every pair. At the end it asks, by a reduction to more lots than any order has, what each of its commands
/// so far has resting in every pair. The banks' lines run out and grow again. A day has a hundred thousand commands at most.
/// Where the number is a multiple of 8 the session is of version 2: half of the banks have totals, and use is given back.
pub fn trial_day(
    alloc: Global,
    seed: u64,
    banks: u8,
    pairs: u8,
    parts: u32,
    count: u32,
) -> Result<(Session, Vec<Sent>), NoDay>
    ensures valid { IfOk result (λ day. Each (IsSentOf day.0) day.1.items) }
    ensures few { IfOk result (λ day. length day.1.items ≤ 100000) }
{
    if !(2..=64).contains(&banks) || !(1..=32).contains(&pairs) {
        return Err(NoDay::Session);
    }
    let session = session_of_seed(alloc, seed, banks, pairs)?;
    let sent = drawn(alloc, &session, seed, parts, count)?;
    if sent.len() > MOST_COMMANDS {
        return Err(NoDay::Long);
    }
    Ok((session, sent))
}

/// The session of a day.
fn session_of_seed(alloc: Global, seed: u64, banks: u8, pairs: u8) -> Result<Session, NoDay>
    requires banks { (2 ≤ banks) × (banks ≤ 64) }
    requires pairs { (1 ≤ pairs) × (pairs ≤ 32) }
{
    let (plain, _drawn) = load_session(alloc, seed, banks, pairs, 1)?;
    if seed % 8 != 0 {
        return Ok(plain);
    }
    with_totals(alloc, &plain, seed)?.ok_or(NoDay::Session)
}

/// The commands of a day.
fn drawn(
    alloc: Global,
    session: &Session,
    seed: u64,
    parts: u32,
    count: u32,
) -> Result<Vec<Sent>, Memory>
    ensures valid { IfOk result (λ sent. Each (IsSentOf session.now) sent.items) }
{
    let mut draws = Draws::new(seed);
    let mut sent = Vec::new(alloc);
    for _part in 0..parts {
        add_commands(session, count, &mut draws, &mut sent)?;
        add_from_all(session, None, &mut sent)?;
    }
    for before in 0..=sent_by_each(session, &sent) {
        add_from_all(session, Some(before), &mut sent)?;
    }
    Ok(sent)
}

/// How many commands each bank has sent, on the average.
fn sent_by_each(session: &Session, sent: &[Sent]) -> u32
    ensures few { result ≤ 100000 }
{
    (sent.len() / session.banks().len()).min(MOST_COMMANDS) as u32
}

/// Adds so many commands of all kinds, each one that its sender may send. One in five is a credit change.
fn add_commands(
    session: &Session,
    count: u32,
    draws: &mut Draws,
    sent: &mut Vec<Sent>,
) -> Result<(), Memory>
    requires valid { Each (IsSentOf session.now) sent.old.items }
    ensures valid { OnOk result (Each (IsSentOf session.now) sent.new.items) }
{
    for _place in 0..count {
        let most = 1 + sent_by_each(session, sent);
        sent.push(draw_sent(session, most, draws))?;
    }
    Ok(())
}

/// Adds that every bank asks of every pair for its local book, or what its command behind so many has resting there.
fn add_from_all(session: &Session, before: Option<u32>, sent: &mut Vec<Sent>) -> Result<(), Memory>
    requires valid { Each (IsSentOf session.now) sent.old.items }
    ensures valid { OnOk result (Each (IsSentOf session.now) sent.new.items) }
{
    for number in 0..session.banks().len() {
        let bank = BankId::new(number as u8).unwrap();
        match before {
            Some(before) => add_probes(session, bank, before, sent)?,
            None => add_books(session, bank, sent)?,
        }
    }
    Ok(())
}

/// Adds that a bank asks for its local book of every pair.
fn add_books(session: &Session, bank: BankId, sent: &mut Vec<Sent>) -> Result<(), Memory>
    requires bank { bank < bank_count session.now }
    requires valid { Each (IsSentOf session.now) sent.old.items }
    ensures valid { OnOk result (Each (IsSentOf session.now) sent.new.items) }
{
    for number in 0..session.pairs().len() {
        let pair = PairId::new(number as u8).unwrap();
        sent.push(Sent {
            bank,
            command: Command::Book { pair },
        })?;
    }
    Ok(())
}

/// Adds that a bank asks what its command behind so many has resting in every pair.
fn add_probes(
    session: &Session,
    bank: BankId,
    before: u32,
    sent: &mut Vec<Sent>,
) -> Result<(), Memory>
    requires bank { bank < bank_count session.now }
    requires valid { Each (IsSentOf session.now) sent.old.items }
    ensures valid { OnOk result (Each (IsSentOf session.now) sent.new.items) }
{
    for number in 0..session.pairs().len() {
        let pair = PairId::new(number as u8).unwrap();
        sent.push(Sent {
            bank,
            command: Command::Reduce {
                pair,
                number: before.saturating_add(1),
                lots: Lots::new(Lots::MOST).unwrap(),
            },
        })?;
    }
    Ok(())
}

/// The session of version 2 with the banks, pairs and limits of this one, in which about half of the banks have a total; there is one.
fn with_totals(alloc: Global, session: &Session, seed: u64) -> Result<Option<Session>, Memory> {
    let banks = Vec::from_slice(alloc, session.banks())?;
    let pairs = Vec::from_slice(alloc, session.pairs())?;
    let limits = Vec::from_slice(alloc, session.limits())?;
    let totals = draw_totals(alloc, banks.len(), seed)?;
    Ok(Session::build_two(banks, pairs, limits, totals))
}

/// For each of so many banks a total, or none.
fn draw_totals(alloc: Global, banks: usize, seed: u64) -> Result<Vec<Option<Units>>, Memory> {
    let mut draws = Draws::new(seed);
    let mut totals = Vec::new(alloc);
    for _bank in 0..banks {
        let limit = draw_limit(&mut draws);
        totals.push((draws.below(2) == 0).then_some(limit))?;
    }
    Ok(totals)
}

/// A command with its sender. Where it names one of the sender's orders, it is one of so many. In version 2 one in eight is a
/// total or a settlement.
fn draw_sent(session: &Session, orders: u32, draws: &mut Draws) -> Sent
    requires orders { 1 ≤ orders }
    ensures sent { IsSentOf session.now result }
{
    let bank = draw_bank(session, draws);
    if session.version() == 2 && draws.below(8) == 0 {
        return draw_of_two(session, bank, draws);
    }
    let command = draw_command(session, bank, orders, draws);
    Sent { bank, command }
}

/// A total of a bank, or a settlement between it and another one.
fn draw_of_two(session: &Session, bank: BankId, draws: &mut Draws) -> Sent
    requires second { session.now.version ≡ 2 }
    requires bank { bank < bank_count session.now }
    ensures sent { IsSentOf session.now result }
{
    if draws.below(2) == 0 {
        let limit = draw_limit(draws);
        return Sent {
            bank,
            command: Command::Total { limit },
        };
    }
    let other = draw_other(session, bank, draws);
    let units = Units::new(1 + draws.below(5_000)).unwrap();
    Sent {
        bank: BankId::HOST,
        command: Command::Settle {
            a: bank,
            b: other,
            units,
        },
    }
}

fn draw_bank(session: &Session, draws: &mut Draws) -> BankId
    ensures within { result < bank_count session.now }
{
    let number = draws.below(session.banks().len() as u64);
    BankId::new(number as u8).unwrap()
}

/// A bank that is not the sender.
fn draw_other(session: &Session, sender: BankId, draws: &mut Draws) -> BankId
    requires sender { sender < bank_count session.now }
    ensures within { result < bank_count session.now }
    ensures differs { result ≢ sender }
{
    let drawn = draws.below(session.banks().len() as u64 - 1) as usize;
    let other = if drawn < sender.index() {
        drawn
    } else {
        drawn + 1
    };
    BankId::new(other as u8).unwrap()
}

fn draw_pair(session: &Session, draws: &mut Draws) -> PairId
    ensures within { result < pair_count session.now }
{
    let number = draws.below(session.pairs().len() as u64);
    PairId::new(number as u8).unwrap()
}

/// A command of any kind. Where it names one of the sender's orders, it is one of so many.
fn draw_command(session: &Session, sender: BankId, orders: u32, draws: &mut Draws) -> Command
    requires sender { sender < bank_count session.now }
    requires orders { 1 ≤ orders }
    ensures command { IsCommand session.now sender result }
{
    let pair = draw_pair(session, draws);
    let other = draw_other(session, sender, draws);
    let number = 1 + draws.below(u64::from(orders)) as u32;
    match draws.below(30) {
        0..=5 => Command::Line {
            bank: other,
            limit: draw_limit(draws),
        },
        6..=7 => Command::Cancel { pair, number },
        8..=9 => Command::Reduce {
            pair,
            number,
            lots: draw_lots(20, draws),
        },
        10 => Command::Pull { pair },
        11 => Command::Show { bank: other },
        12..=13 => Command::Book { pair },
        14 => Command::Bad {
            reason: Reject::Word,
        },
        _ => draw_order(pair, draws),
    }
}

/// A limit: none, or one of up to 500, 5,000 or 50,000 credit units.
fn draw_limit(draws: &mut Draws) -> Units {
    let most = match draws.below(4) {
        0 => 1,
        1 => 500,
        2 => 5_000,
        _ => 50_000,
    };
    Units::new(draws.below(most)).unwrap()
}

/// Up to so many lots.
fn draw_lots(most: u32, draws: &mut Draws) -> Lots
    requires most { IsLots most }
{
    Lots::new(1 + draws.below(u64::from(most)) as u32).unwrap()
}

/// An order of either side and any life, at eight prices, for up to 100 lots. Half of them rest.
fn draw_order(pair: PairId, draws: &mut Draws) -> Command
    ensures { (h : Header) (sender : ℕ) → sender < bank_count h → pair < pair_count h → IsCommand h sender result }
{
    let side = if draws.below(2) == 0 {
        Side::Buy
    } else {
        Side::Sell
    };
    let life = match draws.below(4) {
        0 => Life::Ioc,
        1 => Life::Fok,
        _ => Life::Day,
    };
    Command::Order {
        side,
        pair,
        price: Price::new(108_400 + draws.below(8) as u32).unwrap(),
        lots: draw_lots(100, draws),
        life,
    }
}
