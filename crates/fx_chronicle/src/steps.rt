//! The steps on the table, each on plain views.
ghost use Rattle.std.specs.Prelude.{◌≡◌, ◌+◌, ◌^◌, ◌<◌, ◌++◌, ◌∷◌, [], length};
ghost use mathlib.Core.List.{IsPrefix};
ghost use Rattle.fx_chronicle.specs.Touching.{touched, without};
ghost use Rattle.fx_chronicle.specs.Faces.{longer};
ghost use Rattle.fx_chronicle.specs.Views.{writer, front, slip, IsWriter, IsFront, IsSlip};
ghost use Rattle.fx_chronicle.specs.Rule.{Settled};

use crate::rule::{Board, Commit, Deal, Give, Learn, LetGo, Meet, TakeIn, Tell, Token};
use fx_rules::Keyed;

/// Deals the next key to a seat of its own.
pub fn deal<E: Keyed>(board: &Board<E>, seat: &mut Token<E>) -> Token<E>
    requires table { seat.old.table_id ≡ board.now.table_id }
    requires word { 0 < board.now.table_id.words }
    requires writer { IsWriter seat.old.me.0 }
    requires bare { seat.old.me.1 ≡ [] }
    requires signed { seat.old.me.0.pending ≡ [] }
    ensures same { seat.new.table_id ≡ seat.old.table_id }
    ensures writer { seat.new.me ≡ (writer seat.old.me.0.seen [] (seat.old.me.0.keys + 1), []) }
    ensures table { result.table_id ≡ seat.old.table_id }
    ensures front { result.me ≡ (front seat.old.me.0.keys seat.old.me.0.seen seat.old.me.0.seen, []) }
{
    board.split_seat::<Deal>(seat)
}

/// Adds an entry to the `before` entries that there are.
pub fn commit<E: Keyed>(board: &Board<E>, seat: &mut Token<E>, before: u64, entry: &E)
    requires table { seat.old.table_id ≡ board.now.table_id }
    requires word { 0 < board.now.table_id.words }
    requires writer { IsWriter seat.old.me.0 }
    requires bare { seat.old.me.1 ≡ [] }
    requires signed { seat.old.me.0.pending ≡ [] }
    requires before { before ≡ length seat.old.me.0.seen }
    requires most { before < 2 ^ 63 }
    ensures same { seat.new.table_id ≡ seat.old.table_id }
    ensures writer { seat.new.me ≡ (writer (seat.old.me.0.seen ++ entry.now ∷ []) (touched E.touches entry.now seat.old.me.0.keys) seat.old.me.0.keys, []) }
{
    board.compare_exchange_with::<Commit>(seat, 0, before, before + 1, entry);
}

/// Lets a front meet all entries: the writer takes it in, looks, and lets it go.
pub fn meet<E: Keyed>(board: &Board<E>, seat: &mut Token<E>, other: Token<E>) -> Token<E>
    requires table { seat.old.table_id ≡ board.now.table_id }
    requires other_table { other.table_id ≡ board.now.table_id }
    requires word { 0 < board.now.table_id.words }
    requires writer { IsWriter seat.old.me.0 }
    requires bare { seat.old.me.1 ≡ [] }
    requires front { IsFront other.me.0 }
    requires other_bare { other.me.1 ≡ [] }
    ensures same { seat.new.table_id ≡ seat.old.table_id }
    ensures writer { seat.new.me ≡ (writer seat.old.me.0.seen (without other.me.0.key seat.old.me.0.pending) seat.old.me.0.keys, []) }
    ensures table { result.table_id ≡ seat.old.table_id }
    ensures front { result.me ≡ (front other.me.0.key seat.old.me.0.seen seat.old.me.0.seen, []) }
    ensures seen { IsPrefix other.me.0.seen seat.old.me.0.seen }
    ensures settled { Settled E.touches other.me.0.key seat.old.me.0.pending other.me.0.met seat.old.me.0.seen }
{
    board.join_seat::<TakeIn>(seat, other);
    board.load::<Meet>(seat, 0);
    board.split_seat::<LetGo>(seat)
}

/// A seat that has seen what a front has.
pub fn give<E: Keyed>(board: &Board<E>, seat: &mut Token<E>) -> Token<E>
    requires table { seat.old.table_id ≡ board.now.table_id }
    requires word { 0 < board.now.table_id.words }
    requires front { IsFront seat.old.me.0 }
    requires bare { seat.old.me.1 ≡ [] }
    ensures same { seat.new.table_id ≡ seat.old.table_id }
    ensures front { seat.new.me ≡ seat.old.me }
    ensures table { result.table_id ≡ seat.old.table_id }
    ensures slip { result.me ≡ (slip seat.old.me.0.seen, []) }
{
    board.split_seat::<Give>(seat)
}

/// Lets a front know what a slip has seen.
pub fn learn<E: Keyed>(board: &Board<E>, seat: &mut Token<E>, other: Token<E>)
    requires table { seat.old.table_id ≡ board.now.table_id }
    requires other_table { other.table_id ≡ board.now.table_id }
    requires word { 0 < board.now.table_id.words }
    requires front { IsFront seat.old.me.0 }
    requires bare { seat.old.me.1 ≡ [] }
    requires slip { IsSlip other.me.0 }
    requires other_bare { other.me.1 ≡ [] }
    ensures same { seat.new.table_id ≡ seat.old.table_id }
    ensures front { seat.new.me ≡ (front seat.old.me.0.key (longer seat.old.me.0.seen other.me.0.seen) seat.old.me.0.met, []) }
    ensures own { IsPrefix seat.old.me.0.seen (longer seat.old.me.0.seen other.me.0.seen) }
    ensures told { IsPrefix other.me.0.seen (longer seat.old.me.0.seen other.me.0.seen) }
{
    board.join_seat::<Tell>(seat, other);
    board.load::<Learn>(seat, 0);
}
