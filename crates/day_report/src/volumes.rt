ghost use Rattle.std.specs.Prelude.{◌≡◌, [], ◌∷◌, ◌<◌, IfOk};
ghost use Rattle.day_report.specs.Report.{base_of, quote_of};
ghost use Rattle.day_report.specs.inside.Trades.{CanAdd, Adds};
ghost use Rattle.day_report.specs.inside.Parts.{no_volume};
ghost use Rattle.day_report.specs.Sums.{AreVolumes};

use crate::amounts::Amounts;
use crate::rows::Volume;
use fx_amounts::{Memory, PairId};
use fx_rules::{Fill, Session};
use std::alloc::Global;

/// The volume of each pair before any fill.
pub(crate) fn no_volumes(alloc: Global, session: &Session) -> Result<Vec<Volume>, Memory>
    ensures value { IfOk result (λ volumes. AreVolumes session.now [] volumes.items) }
{
    let mut volumes = Vec::new(alloc);
    for place in 0..session.pairs().len() {
        volumes.push(no_volume(PairId::at(place)))?;
    }
    Ok(volumes)
}

fn no_volume(pair: PairId) -> Volume
    ensures value { result ≡ no_volume pair }
{
    Volume {
        pair,
        fills: 0,
        lots: 0,
        base: 0,
        quote: 0,
    }
}

/// Adds a fill, which moves these amounts, to the volume of its pair.
pub(crate) fn add_volume(
    session: &Session,
    fill: &Fill,
    amounts: &Amounts,
    volumes: &mut Vec<Volume>,
)
    requires can { CanAdd session.now (λ fills. AreVolumes session.now fills volumes.old.items) fill.now }
    requires base { amounts.now.base ≡ base_of session.now fill.now }
    requires quote { amounts.now.quote ≡ quote_of session.now fill.now }
    ensures adds { Adds (λ fills. AreVolumes session.now fills volumes.old.items) (λ fills. AreVolumes session.now fills volumes.new.items) (fill.now ∷ []) }
{
    let at = fill.pair.index();
    let before = volumes[at];
    volumes[at] = Volume {
        pair: before.pair,
        fills: before.fills + 1,
        lots: before.lots + u64::from(fill.lots.count()),
        base: before.base + amounts.base,
        quote: before.quote + amounts.quote,
    };
}
