ghost use Rattle.std.specs.Prelude.{◌≡◌, ◌≤◌, ◌-◌, [], vec_len, vec_capacity};
ghost use Rattle.fx_rules.specs.declared.outcome.Entry.{Entry};
ghost use Rattle.fx_rules.specs.Session.{pair_count};
ghost use Rattle.fx_rules.specs.Lists.{Among};
ghost use Rattle.fx_rules.specs.History.{IsLegal, own, state};
ghost use Rattle.fx_chronicle.specs.Faces.{Witness};
ghost use Rattle.fx_chronicle.specs.Submitting.{IsWholeOf};
ghost use Rattle.credit_lines.specs.Table.{Stands};
ghost use Rattle.fx_host.specs.Closing.{AreShardsOf};

use crate::host::Host;
use crate::pair_locks::PairLock;
use credit_book::CreditBook;
use credit_lines::CreditTable;
use fx_chronicle::{Naming, Pass, close};
use fx_rules::Entry;
use pair_shards::Shard;

/// What a host that is closed gives back.
#[derive(Drop)]
pub struct Closed<N: Naming> {
    /// All entries, in order.
    pub history: Vec<Entry>,
    /// The credit table in the state after them.
    pub table: CreditTable,
    /// The shards of all pairs, each of which has seen all entries.
    pub shards: Vec<Shard<N>>,
}

/// Closes a host: the whole history, and the credit table and the shards that served it. What each of these passes had seen is a
/// beginning of the history, and of their banks it has just their commands. It takes no memory, and reads no entry.
pub fn close_host<N: Naming>(host: Host<N>, passes: Vec<Pass<N>>) -> Closed<N>
    ensures legal { IsLegal N.session result.history.items }
    ensures passes { (pass : Witness Entry) → Among pass passes.items → IsWholeOf pass.key pass.seen (own pass.key pass.met) result.history.items }
    ensures table { Stands N.session (state N.session result.history.items) result.table }
    ensures shards { AreShardsOf N.session result.history.items result.shards.items }
{
    let Host {
        alloc: _,
        turn: _,
        pairs,
        credit,
        closed,
    } = host;
    let mut credit = credit.into_book();
    meet_passes(&mut credit, passes);
    let room = closed.into_inner().shards;
    let shards = taken_out(&mut credit, pairs.into_locks(), room);
    let (table, writer) = credit.into_parts();
    Closed {
        history: close(writer),
        table,
        shards,
    }
}

/// Each pass sees the whole history. What it had seen is a beginning of that, and of its bank it has just the pass's commands.
fn meet_passes<N: Naming>(credit: &mut CreditBook<N>, passes: Vec<Pass<N>>)
    requires signed { credit.old.history.pending ≡ [] }
    ensures passes { (pass : Witness Entry) → Among pass passes.items → IsWholeOf pass.key pass.seen (own pass.key pass.met) credit.old.history.entries }
    ensures same { credit.new ≡ credit.old }
{
    for mut pass in passes {
        credit.catch_up_pass(&mut pass);
    }
}

/// The shards out of their locks, each of which has then seen the whole history. They go into `closed`, which has room for all.
fn taken_out<N: Naming>(
    credit: &mut CreditBook<N>,
    locks: Vec<PairLock<N>>,
    mut closed: Vec<Shard<N>>,
) -> Vec<Shard<N>>
    requires signed { credit.old.history.pending ≡ [] }
    requires pairs { vec_len locks ≡ pair_count N.session }
    requires none { vec_len closed ≡ 0 }
    requires room { vec_len locks ≤ vec_capacity closed }
    ensures shards { AreShardsOf N.session credit.old.history.entries result.items }
    ensures same { credit.new ≡ credit.old }
{
    for lock in locks {
        let mut shard = lock.into_shard();
        shard.catch_up(credit);
        closed.push_reserved(shard);
    }
    closed
}
