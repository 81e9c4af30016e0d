ghost use Rattle.std.specs.Prelude.{◌≡◌, ◌≤◌, [], IfOk};
ghost use Rattle.fx_chronicle.specs.Faces.{AreNew};

use crate::history::Writer;
use crate::names::Naming;
use crate::rule::{History, View};
use crate::steps;
use crate::tokens::Front;
use atomic_table::{Badge, Table};
use fx_amounts::Memory;
use fx_rules::Keyed;
use std::alloc::Global;
use std::marker::{Model, PhantomData};
use std::sync::Arc;

/// The table of one opening, before it has a name.
#[derive(Drop)]
pub struct Blank<E: Keyed + Drop> {
    keys: u32,
    table: Arc<History<E>, Global>,
    badge: Badge<View<E>>,
}

impl<E: Keyed + Drop> Model for Blank<E> {
    ghost use Rattle.std.specs.Prelude.{◌≡◌, ◌≤◌, [], ◌∷◌};
    ghost use Rattle.std.specs.Arc.{arc_value};
    ghost use Rattle.fx_chronicle.specs.Faces.{Unopened};
    ghost use Rattle.fx_chronicle.specs.inside.Faces.{AtNamed};
    ghost use Rattle.fx_chronicle.specs.Views.{writer};

    ghost Value = { Unopened };

    ghost view = { λ b. record { table = b.badge.table_id; keys = b.keys } };

    ghost invariant = { λ b. record {
      table : AtNamed b.badge.table_id (arc_value b.table).shared.table_id b.badge.table_id;
      views : b.badge.views ≡ writer [] [] 0 ∷ [];
      least : 1 ≤ b.keys;
    } };
}

impl<E: Keyed + Drop> Blank<E> {
    /// A blank for so many keys, at least 1. `Memory` when out of memory.
    pub fn new(alloc: Global, keys: u32) -> Result<Blank<E>, Memory>
        requires least { 1 ≤ keys }
        ensures keys { IfOk result (λ blank. blank.keys ≡ keys) }
    {
        let (table, seat) = Table::of_words(alloc, &[0], &())?;
        Ok(Blank {
            keys,
            table: Arc::new(alloc, table)?,
            badge: seat.into_badge(),
        })
    }

    /// For how many keys it is.
    pub fn keys(&self) -> u32
        ensures value { result ≡ self.now.keys }
        ensures least { 1 ≤ result }
    {
        self.keys
    }
}

/// Opens the history of a blank: the writer, with no entries, and one front for each key in the order of the keys, each
/// with nothing seen. At `Memory` the blank is gone.
pub fn open<N: Naming, E: Keyed + Drop>(
    alloc: Global,
    blank: Blank<E>,
) -> Result<(Writer<N, E>, Vec<Front<N, E>>), Memory>
    requires named { blank.table ≡ N.table }
    ensures entries { IfOk result (λ opened. opened.0.entries ≡ []) }
    ensures keys { IfOk result (λ opened. opened.0.keys ≡ blank.keys) }
    ensures signed { IfOk result (λ opened. opened.0.pending ≡ []) }
    ensures fronts { IfOk result (λ opened. AreNew blank.keys opened.1.items) }
{
    let Blank { keys, table, badge } = blank;
    let mut seat = badge.into_seat();
    let mut fronts = Vec::new(alloc);
    for key in 0..keys {
        fronts.push(Front {
            key,
            seen: 0,
            table: Arc::try_clone(&table)?,
            badge: steps::deal(&table.shared, &mut seat).into_badge(),
            of: PhantomData,
        })?;
    }
    let writer = Writer {
        entries: Vec::new(alloc),
        keys,
        table,
        badge: seat.into_badge(),
        of: PhantomData,
    };
    Ok((writer, fronts))
}
