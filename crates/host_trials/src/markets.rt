//! A day at the plain host and at the host over the pair books, and how where they stand is compared.
ghost use Rattle.std.specs.Prelude.{◌<◌, ◌≤◌, length, IfOk};
ghost use Rattle.fx_rules.specs.Lists.{Each};
ghost use Rattle.fx_rules.specs.Sending.{IsSentOf};
ghost use Rattle.fx_rules.specs.History.{IsLegal, state};
ghost use Rattle.fx_rules.specs.Session.{bank_count};
ghost use Rattle.flat_host.specs.Steps.{stands as flat_stands};
ghost use Rattle.pair_host.specs.Standing.{stands as pair_stands};
ghost use Rattle.host_trials.specs.inside.Stood.{IsLed};

use flat_host::FlatHost;
use fx_amounts::{BankId, Memory, PairId};
use fx_rules::{Entry, Market, Sent, Session};
use market_run::run_in_order;
use pair_host::PairHost;
use std::alloc::Global;
use trial_days::{are_alike, is_same};

/// A day as both hosts played it: the history that each told, and the host behind it.
#[derive(Drop)]
pub(crate) struct Played {
    pub(crate) fast: (Vec<Entry>, PairHost),
    pub(crate) plain: (Vec<Entry>, FlatHost),
}

/// Plays a day at both hosts.
pub(crate) fn play(alloc: Global, session: &Session, sent: &[Sent]) -> Result<Played, Memory>
    requires valid { Each (IsSentOf session.now) sent.now }
    requires few { length sent.now ≤ 100000 }
    ensures legal { IfOk result (λ day. IsLegal session.now day.fast.0.items) }
    ensures fast { IfOk result (λ day. pair_stands day.fast.1 session.now (state session.now day.fast.0.items)) }
    ensures plain_legal { IfOk result (λ day. IsLegal session.now day.plain.0.items) }
    ensures plain { IfOk result (λ day. flat_stands day.plain.1 session.now (state session.now day.plain.0.items)) }
{
    let fast = run_in_order(alloc, session, PairHost::open(alloc, session)?, sent)?;
    let plain = run_in_order(alloc, session, FlatHost::open(alloc, session)?, sent)?;
    Ok(Played { fast, plain })
}

/// Whether both hosts told the same, command by command, and stand alike at the end; and whether each host stands so too where it
/// follows the recorded history, with no search.
pub(crate) fn is_alike(alloc: Global, session: &Session, day: &Played) -> Result<bool, Memory>
    requires legal { IsLegal session.now day.now.fast.0.items }
    requires fast { pair_stands day.now.fast.1 session.now (state session.now day.now.fast.0.items) }
    requires plain_legal { IsLegal session.now day.now.plain.0.items }
    requires plain { flat_stands day.now.plain.1 session.now (state session.now day.now.plain.0.items) }
{
    let (history, fast) = &day.fast;
    let (plain_history, plain) = &day.plain;
    if !are_alike(history, plain_history)
        || fast.resting() != plain.resting()
        || !stand_alike(session, fast, plain)?
    {
        return Ok(false);
    }
    let followed = pair_host::replay(alloc, session, history)?;
    if followed.resting() != plain.resting() || !stand_alike(session, &followed, plain)? {
        return Ok(false);
    }
    let followed = flat_host::replay(alloc, session, history)?;
    Ok(followed.resting() == plain.resting() && stand_alike(session, &followed, fast)?)
}

/// Whether each sender has sent as many commands to both markets, and each bank has the same local books of all pairs.
fn stand_alike<A: Market, B: Market>(session: &Session, one: &A, other: &B) -> Result<bool, Memory>
    requires one { IsLed A.stands session.now one.now }
    requires other { IsLed B.stands session.now other.now }
{
    for number in 0..session.banks().len() {
        let bank = BankId::new(number as u8).unwrap();
        if one.count(bank) != other.count(bank) || !show_alike(session, one, other, bank)? {
            return Ok(false);
        }
    }
    Ok(one.count(BankId::HOST) == other.count(BankId::HOST))
}

/// Whether a bank has the same local books of all pairs.
fn show_alike<A: Market, B: Market>(
    session: &Session,
    one: &A,
    other: &B,
    bank: BankId,
) -> Result<bool, Memory>
    requires one { IsLed A.stands session.now one.now }
    requires other { IsLed B.stands session.now other.now }
    requires bank { bank < bank_count session.now }
{
    for number in 0..session.pairs().len() {
        let pair = PairId::new(number as u8).unwrap();
        let shown = one.depth(bank, pair)?;
        let other_shown = other.depth(bank, pair)?;
        if !is_same(&shown, &other_shown) {
            return Ok(false);
        }
    }
    Ok(true)
}
