ghost use Rattle.std.specs.Prelude.{◌≡◌, ◌<◌, ℕ, List, [], ◌∷◌, Option, None, is_some, IfSome, IfOk, OnOk, OnErr};
ghost use Rattle.std.specs.Iterator.{Yields};
ghost use Rattle.fx_edges.specs.Writing.{Appended};
ghost use Rattle.fx_disk.specs.Disk.{WhereTold, LeavesOnly};
ghost use Rattle.keep_disk.specs.Blocks.{whole_blocks, HasOrLacks};
ghost use Rattle.keep_disk.specs.declared.rounds.Round.{Round as KeptRound};
ghost use Rattle.keep_disk.specs.Keeping.{AtRest};
ghost use Rattle.keep_disk.specs.Rounds.{KeptBlocks, KeptBeforeTold, KeptAll, KeptPart, RunCauses};

use crate::keeper::Keeper;
use fx_amounts::Memory;
use fx_disk::{Disk, DiskStop};
use fx_edges::{Sink, SinkFault, write_all};
use thiserror::Error;

/// Why a run gave up. After either the file is to be opened again.
#[derive(Clone, Copy, Debug, Error, PartialEq, Eq)]
pub enum RunFault {
    /// The round could not be kept, or there was no memory for it.
    #[error("the round could not be kept: {0}")]
    Keep(DiskStop),
    /// The round is kept, and could not be told of whole.
    #[error("the round could not be told of")]
    Tell(SinkFault),
}

impl From<DiskStop> for RunFault {
    ghost use Rattle.keep_disk.specs.declared.rounds.RunFault.TheVariants.{Keep};

    ghost from_gives = { λ stop fault. fault ≡ Keep stop };

    fn from(stop: DiskStop) -> Self {
        RunFault::Keep(stop)
    }
}

impl From<Memory> for RunFault {
    ghost use Rattle.keep_disk.specs.Rounds.{out_of_memory};

    ghost from_gives = { λ memory fault. fault ≡ out_of_memory memory };

    fn from(memory: Memory) -> Self {
        RunFault::Keep(DiskStop::Memory(memory))
    }
}

/// A round of a run: the body of its block, and what is told of it once that block is kept.
#[derive(Drop)]
pub struct Round {
    /// The bytes of its block's body.
    pub body: Vec<u8>,
    /// The bytes that are told of it.
    pub text: Vec<u8>,
}

/// Where a run's rounds come from, one after the other. What is told of a round may depend on all the rounds
/// before it, as numbers do that go on from round to round.
pub trait Rounds {
    ghost use Rattle.keep_disk.specs.declared.rounds.Round.{Round};

    /// The most rounds that are still to come.
    ghost left: { Self → ℕ };

    /// From the first state it gives this round, or none any more, and goes on as the last.
    ghost gives: { Self → Option Round → Self → Type 0 };

    /// The next round, or `None` at the end. After `Memory` no round was given, and the run is over.
    fn next(&mut self) -> Result<Option<Round>, Memory>
        ensures gives { IfOk result (λ round. gives self.old round self.new) }
        ensures fewer { IfOk result (λ round. IfSome round (λ _. left self.new < left self.old)) }
        ensures memory { OnErr result (self.new ≡ self.old) };
}

/// Keeps a round and tells of it: its block is appended, and when that is on the disk its text goes to `out`.
///
/// At every moment a crash leaves the blocks from before, with the round's or without. Where a byte was
/// told, whatever the answer, it leaves them with the round's. After a fault the run is over: the file is to
/// be opened again, and `out` has a prefix of what is told of the round.
pub fn keep_round<D: Disk, K: Sink>(
    keeper: &mut Keeper,
    disk: &mut D,
    out: &mut K,
    round: &Round,
) -> Result<(), RunFault>
    requires { AtRest D.bytes D.may_leave disk.old keeper.old.place }
    ensures every_moment { WhereTold (D.bytes disk.old) (λ file.
        LeavesOnly D.moment D.left_since disk.old disk.new (HasOrLacks (whole_blocks file) round.now.body.items)) }
    ensures stopped { OnErr result (KeptBeforeTold D.bytes D.may_leave K.written K.faults disk.old disk.new out.old out.new
        round.now.body.items round.now.text.items) }
    ensures kept { OnOk result (KeptBlocks D.bytes D.may_leave disk.old disk.new (round.now.body.items ∷ [])) }
    ensures told { OnOk result (Appended K.written K.faults out.old out.new round.now.text.items) }
    ensures at_rest { OnOk result (AtRest D.bytes D.may_leave disk.new keeper.new.place) }
    ensures tells { OnOk result (is_some (D.bytes disk.new) ≡ is_some (D.bytes disk.old)) }
    ensures bodies { keeper.new.bodies ≡ keeper.old.bodies }
    ensures causes { RunCauses D.faults K.faults disk.old disk.new out.old out.new result }
{
    keeper.append(disk, &round.body)?;
    write_all(out, &round.text).map_err(RunFault::Tell)
}

/// Keeps rounds and tells of them, one after the other, until there is none any more.
///
/// At every moment a crash leaves the blocks from before and the first so many of the rounds'. Of each
/// round of which a byte was told it leaves the block, whatever the answer. After a fault the file is to be
/// opened again, `out` has a prefix of what is told of the rounds that are kept, and `rounds` stands behind the
/// last round that it gave.
pub fn keep_rounds<D: Disk, K: Sink, N: Rounds>(
    keeper: &mut Keeper,
    disk: &mut D,
    out: &mut K,
    rounds: &mut N,
) -> Result<(), RunFault>
    requires { AtRest D.bytes D.may_leave disk.old keeper.old.place }
    ensures all { OnOk result ((last : N) × N.gives last None rounds.new
        × KeptAll D.bytes D.may_leave D.moment D.left_since K.written K.faults N.gives disk.old disk.new out.old out.new rounds.old last) }
    ensures part { OnErr result (KeptPart D.bytes D.may_leave D.moment D.left_since K.written K.faults N.gives disk.old disk.new out.old out.new rounds.old) }
    ensures given { OnErr result ((given : List KeptRound) × Yields N.gives rounds.old given rounds.new) }
    ensures at_rest { OnOk result (AtRest D.bytes D.may_leave disk.new keeper.new.place) }
    ensures bodies { keeper.new.bodies ≡ keeper.old.bodies }
    ensures causes { RunCauses D.faults K.faults disk.old disk.new out.old out.new result }
{
    while let Some(round) = rounds.next()? {
        keep_round(keeper, disk, out, &round)?;
    }
    Ok(())
}
