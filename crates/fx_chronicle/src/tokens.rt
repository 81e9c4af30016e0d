ghost use Rattle.std.specs.Prelude.{◌≡◌, [], length};
ghost use mathlib.Core.List.{IsPrefix};
ghost use Rattle.fx_chronicle.specs.Touching.{without};
ghost use Rattle.fx_chronicle.specs.Faces.{longer, witness};
ghost use Rattle.fx_chronicle.specs.Views.{IsWriter};
ghost use Rattle.fx_chronicle.specs.Rule.{Settled};

use crate::names::Naming;
use crate::rule::{History, Token, View};
use crate::steps;
use atomic_table::Badge;
use fx_rules::Keyed;
use std::alloc::Global;
use std::marker::{Model, PhantomData};
use std::mem;
use std::sync::Arc;

/// The token of one key. It has seen a beginning of the history. Contracts see its key, the entries that it has seen, and
/// those that it had seen when it last caught up or signed.
#[derive(Drop)]
pub struct Front<N: Naming, E: Keyed + Drop> {
    pub(crate) key: u32,
    pub(crate) seen: u64,
    pub(crate) table: Arc<History<E>, Global>,
    pub(crate) badge: Badge<View<E>>,
    pub(crate) of: PhantomData<N>,
}

impl<N: Naming, E: Keyed + Drop> Model for Front<N, E> {
    ghost use Rattle.std.specs.Prelude.{◌≡◌, [], ◌∷◌, length};
    ghost use mathlib.Core.List.{IsPrefix};
    ghost use Rattle.std.specs.Arc.{arc_value};
    ghost use Rattle.fx_chronicle.specs.Faces.{Witness};
    ghost use Rattle.fx_chronicle.specs.inside.Faces.{AtNamed};
    ghost use Rattle.fx_chronicle.specs.Views.{front};
    ghost use Rattle.fx_chronicle.specs.inside.Views.{seen_of, met_of};

    ghost Value = { Witness E };

    ghost view = { λ f. record { key = f.key; seen = seen_of f.badge.views; met = met_of f.badge.views } };

    ghost invariant = { λ f. record {
      table : AtNamed N.table (arc_value f.table).shared.table_id f.badge.table_id;
      views : f.badge.views ≡ front f.key (seen_of f.badge.views) (met_of f.badge.views) ∷ [];
      count : f.seen ≡ length (seen_of f.badge.views);
      met : IsPrefix (met_of f.badge.views) (seen_of f.badge.views);
    } };
}

impl<N: Naming, E: Keyed + Drop> Front<N, E> {
    /// How many entries it has seen.
    pub fn seen(&self) -> u64
        ensures count { result ≡ length self.now.seen }
        ensures met { IsPrefix self.now.met self.now.seen }
    {
        self.seen
    }

    /// Its key.
    pub fn key(&self) -> u32
        ensures value { result ≡ self.now.key }
        ensures met { IsPrefix self.now.met self.now.seen }
    {
        self.key
    }

    /// A slip of what it has seen.
    pub fn slip(&mut self) -> Slip<N, E>
        ensures slip { result ≡ self.old.seen }
        ensures same { self.new ≡ self.old }
    {
        let mut seat = mem::replace(&mut self.badge, Badge::blank()).into_seat();
        let slip = steps::give(&self.table.shared, &mut seat);
        self.badge = seat.into_badge();
        Slip {
            seen: self.seen,
            badge: slip.into_badge(),
            of: PhantomData,
        }
    }

    /// Sees what the slip's front had seen: it has then seen the longer of the two, and both are beginnings of it.
    pub fn learn(&mut self, slip: Slip<N, E>)
        ensures value { self.new ≡ record { key = self.old.key; seen = longer self.old.seen slip; met = self.old.met } }
        ensures own { IsPrefix self.old.seen self.new.seen }
        ensures told { IsPrefix slip self.new.seen }
    {
        let mut seat = mem::replace(&mut self.badge, Badge::blank()).into_seat();
        steps::learn(&self.table.shared, &mut seat, slip.badge.into_seat());
        self.badge = seat.into_badge();
        self.seen = self.seen.max(slip.seen);
    }

    /// Meets all of the writer's `count` entries, at the writer's seat.
    pub(crate) fn meet(&mut self, writer: &mut Token<E>, count: u64)
        requires table { writer.old.table_id ≡ N.table }
        requires writer { IsWriter writer.old.me.0 }
        requires bare { writer.old.me.1 ≡ [] }
        requires count { count ≡ length writer.old.me.0.seen }
        ensures table { writer.new.table_id ≡ writer.old.table_id }
        ensures writer { writer.new.me ≡ (record writer.old.me.0 { pending = without self.old.key writer.old.me.0.pending }, []) }
        ensures front { self.new ≡ witness self.old.key writer.old.me.0.seen }
        ensures seen { IsPrefix self.old.seen writer.old.me.0.seen }
        ensures settled { Settled E.touches self.old.key writer.old.me.0.pending self.old.met writer.old.me.0.seen }
    {
        let seat = mem::replace(&mut self.badge, Badge::blank()).into_seat();
        self.badge = steps::meet(&self.table.shared, writer, seat).into_badge();
        self.seen = count;
    }
}

/// What a front had seen when it gave the slip. Contracts see it as these entries.
#[derive(Drop)]
pub struct Slip<N: Naming, E> {
    seen: u64,
    badge: Badge<View<E>>,
    of: PhantomData<N>,
}

impl<N: Naming, E> Model for Slip<N, E> {
    ghost use Rattle.std.specs.Prelude.{◌≡◌, [], ◌∷◌, List, length};
    ghost use Rattle.fx_chronicle.specs.Views.{slip};
    ghost use Rattle.fx_chronicle.specs.inside.Views.{seen_of};

    ghost Value = { List E };

    ghost view = { λ s. seen_of s.badge.views };

    ghost invariant = { λ s. record {
      table : s.badge.table_id ≡ N.table;
      views : s.badge.views ≡ slip (seen_of s.badge.views) ∷ [];
      count : s.seen ≡ length (seen_of s.badge.views);
    } };
}
