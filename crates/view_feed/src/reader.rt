ghost use Rattle.std.specs.Prelude.{◌≡◌, ◌<◌, length, IfOk, OnOk, OnErr};
ghost use mathlib.Core.List.{IsPrefix};
ghost use Rattle.left_right.specs.Sides.{view};
ghost use Rattle.fx_rules.specs.Session.{bank_count, pair_count};
ghost use Rattle.fx_rules.specs.History.{IsLegal, state};
ghost use Rattle.fx_rules.specs.Market.{IsDepthOf};
ghost use Rattle.view_feed.specs.inside.Rule.{knower};

use crate::fault::FeedFault;
use crate::rule::{OneFeed, Sees, View};
use crate::shown::Shown;
use crate::tape::Front;
use core::mem::replace_with;
use fx_amounts::{BankId, PairId};
use fx_rules::Outcome;
use left_right::reader::Reader;
use std::marker::Model;

/// A place at the two copies.
pub(crate) type Place = Reader<Shown, View, OneFeed>;

/// A note of what a feed had published when it gave the note. It may go to any thread. Contracts see it as these entries of the tape.
#[derive(Drop)]
pub struct Told {
    pub(crate) front: Front,
}

impl Model for Told {
    ghost use Rattle.view_feed.specs.Feeds.{Stretch};

    ghost Value = { Stretch };

    ghost view = { λ t. t.front };
}

/// A reader of a feed. It may go to any thread. Contracts see the entries behind which it last saw the market, and the longest
/// list of entries that it has seen or was told.
#[derive(Drop)]
pub struct FeedReader {
    pub(crate) place: Place,
    pub(crate) seen: Front,
    pub(crate) known: Front,
}

impl Model for FeedReader {
    ghost use Rattle.left_right.specs.Sides.{view as view_at};
    ghost use Rattle.view_feed.specs.Feeds.{Reading};
    ghost use Rattle.view_feed.specs.inside.Faces.{IsReader};

    ghost Value = { Reading };

    ghost view = { λ r. record { session = (view_at r.place.place).session; tape = r.known.tape; seen = r.seen.entries; known = r.known.entries } };

    ghost invariant = { λ r. IsReader (view_at r.place.place) r.seen r.known };
}

impl FeedReader {
    /// How many entries were published when it last saw the market; 0 before. It takes no memory.
    pub fn seen(&self) -> u64
        ensures count { result ≡ length self.now.seen }
        ensures begins { IsPrefix self.now.seen self.now.known }
    {
        self.seen.count()
    }

    /// Learns of a note of its feed: each later look finds the entries of the note. What it has seen stays. It takes no memory.
    pub fn learn(&mut self, told: Told)
        requires feed { told.tape ≡ self.old.tape }
        ensures seen { self.new ≡ record self.old { known = self.new.known } }
        ensures known { IsPrefix self.old.known self.new.known }
        ensures told { IsPrefix told.entries self.new.known }
    {
        self.known = self.known.again().longer(told.front);
    }

    /// A bank's local book of a pair behind the entries that are published now, and how many they are. They go on from all that it
    /// had seen and was told, and are what it has seen and knows from then on. It waits for nobody.
    pub fn book(&mut self, bank: BankId, pair: PairId) -> Result<(u64, Outcome), FeedFault>
        requires bank { bank < bank_count self.old.session }
        requires pair { pair < pair_count self.old.session }
        ensures feed { (self.new.session ≡ self.old.session) × (self.new.tape ≡ self.old.tape) }
        ensures count { IfOk result (λ shown. shown.0 ≡ length self.new.seen) }
        ensures legal { OnOk result (IsLegal self.new.session self.new.seen) }
        ensures depth { IfOk result (λ shown. IsDepthOf bank pair shown.1 self.new.session (state self.new.session self.new.seen)) }
        ensures goes_on { OnOk result (IsPrefix self.old.seen self.new.seen × IsPrefix self.old.known self.new.seen) }
        ensures knows { OnOk result (self.new.known ≡ self.new.seen) }
        ensures fault { OnErr result (self.new ≡ self.old) }
    {
        let (front, depth) = replace_with(&mut self.place, (self.known.again(), bank, pair), look)?;
        self.seen = front.again();
        self.known = front;
        Ok((self.seen.count(), depth))
    }
}

/// One look at what is shown, by a reader that knows its feed and these entries of it.
fn look(
    place: Place,
    sought: (Front, BankId, PairId),
) -> (Place, Result<(Front, Outcome), FeedFault>)
    requires knows { view place.place ≡ knower (view place.place).session sought.0.tape }
    requires bank { sought.1 < bank_count (view place.place).session }
    requires pair { sought.2 < pair_count (view place.place).session }
    ensures knows { view result.0.place ≡ view place.place }
    ensures tape { IfOk result.1 (λ found. found.0.tape ≡ sought.0.tape) }
    ensures legal { IfOk result.1 (λ found. IsLegal (view place.place).session found.0.entries) }
    ensures known { IfOk result.1 (λ found. IsPrefix sought.0.entries found.0.entries) }
    ensures depth { IfOk result.1 (λ found. IsDepthOf sought.1 sought.2 found.1 (view place.place).session (state (view place.place).session found.0.entries)) }
{
    let (known, bank, pair) = sought;
    match place.enter_as::<Sees>() {
        Ok(reading) => {
            let found = reading.get().book(&known, bank, pair);
            (reading.leave(), found)
        }
        Err(place) => (place, Err(FeedFault::Closed)),
    }
}
