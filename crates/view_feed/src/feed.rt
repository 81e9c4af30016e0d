ghost use Rattle.std.specs.Prelude.{◌≡◌, ◌++◌, ◌∷◌, [], length, drop as behind, fold, IfOk, OnOk, OnErr};
ghost use Rattle.left_right.specs.Sides.{view};
ghost use Rattle.fx_rules.specs.History.{IsLegal};
ghost use Rattle.fx_rules.specs.Lists.{Each};
ghost use Rattle.view_feed.specs.inside.Shown.{IsOf, added, with_operation};
ghost use Rattle.view_feed.specs.inside.Faces.{IsFeed};
ghost use Rattle.view_feed.specs.inside.Rule.{knower};

use crate::operation::Operation;
use crate::reader::{FeedReader, Told};
use crate::rule::Sees;
use crate::shown::{Copies, queue};
use crate::tape::{Front, Tape};
use core::mem::replace_with;
use fx_amounts::Memory;
use fx_rules::Entry;
use std::alloc::Global;
use std::marker::Model;
use std::sync::{Arc, Wait};

/// The side that publishes. It isn't `Drop`: end it by `close`. Contracts see the session, the tape, the number of readers, the
/// entries that are published, and those that were appended since.
pub struct Feed {
    pub(crate) copies: Copies,
    pub(crate) tape: Tape,
    /// Entries that were appended, and that the tape lacks.
    pub(crate) waiting: Vec<Arc<Entry, Global>>,
    pub(crate) readers: u32,
}

impl Model for Feed {
    ghost use Rattle.std.specs.Prelude.{map, drop};
    ghost use Rattle.std.specs.Arc.{arc_value};
    ghost use Rattle.left_right.specs.Sides.{view as view_at};
    ghost use Rattle.view_feed.specs.Feeds.{Feeding};
    ghost use Rattle.view_feed.specs.inside.Shown.{added};
    ghost use Rattle.view_feed.specs.inside.Faces.{IsFeed};

    ghost Value = { Feeding };

    ghost view = { λ f. record {
      session = f.copies.desk.shown.value.session;
      tape = f.tape.tape;
      readers = f.readers;
      published = f.copies.desk.shown.value.entries;
      pending = added (drop f.copies.behind f.copies.log.items);
    } };

    ghost invariant = { λ f. IsFeed f.copies.desk.shown.value (view_at f.copies.desk.place) (added (drop f.copies.behind f.copies.log.items)) f.tape (map arc_value f.waiting.items) };
}

impl Feed {
    /// Appends an entry, which goes on the legal history of all that was published and appended. Readers see it once it is
    /// published. At `Memory` nothing was appended.
    pub fn append(&mut self, entry: &Entry) -> Result<(), Memory>
        requires legal { IsLegal self.old.session (self.old.published ++ self.old.pending ++ entry.now ∷ []) }
        ensures appended { OnOk result (self.new ≡ record self.old { pending = self.old.pending ++ entry.now ∷ [] }) }
        ensures memory { OnErr result (self.new ≡ self.old) }
    {
        let alloc = *self.waiting.allocator();
        self.waiting.reserve(1)?;
        let kept = Arc::new(alloc, copy_of(entry)?)?;
        let shared = Arc::try_clone(&kept)?;
        queue(&mut self.copies, Operation::Add(shared))?;
        self.waiting.push_reserved(kept);
        Ok(())
    }

    /// Publishes all appended entries at once, and gives a note of all that is published. It waits for readers that still look at the
    /// copy that it changes. At `Memory` the same entries are published and pending as before.
    pub fn publish<R: Wait>(&mut self, rt: &R) -> Result<Told, Memory>
        ensures published { OnOk result (self.new ≡ record self.old { published = self.old.published ++ self.old.pending; pending = [] }) }
        ensures told { IfOk result (λ told. told ≡ record { tape = self.new.tape; entries = self.new.published }) }
        ensures memory { OnErr result (self.new ≡ self.old) }
    {
        self.tape.add_all(rt, &self.waiting);
        self.waiting.clear();
        let front = self.tape.front();
        show_all(&mut self.copies, rt, &front)?;
        Ok(Told { front })
    }

    /// Ends the feed and its readers, which are as many as it was opened with. It waits for none of them, and takes no memory.
    pub fn close<R: Wait>(self, rt: &R, readers: Vec<FeedReader>)
        requires feed { Each (λ reader. reader.tape ≡ self.tape) readers.items }
        requires all { length readers.items ≡ self.readers }
    {
        drop(readers);
        let Feed {
            copies,
            tape: _tape,
            waiting: _waiting,
            readers: _,
        } = self;
        drop(copies.take(rt));
    }
}

/// Marks that the copy has all of the tape behind the operations that wait, and shows it to readers.
fn show_all<R: Wait>(copies: &mut Copies, rt: &R, all: &Front) -> Result<(), Memory>
    requires feed { IsFeed copies.old.desk.shown.value (view copies.old.desk.place) (added (behind copies.old.behind copies.old.log.items)) all.now [] }
    ensures feed { IsFeed copies.new.desk.shown.value (view copies.new.desk.place) (added (behind copies.new.behind copies.new.log.items)) all.now [] }
    ensures session { copies.new.desk.shown.value.session ≡ copies.old.desk.shown.value.session }
    ensures shown { OnOk result (copies.new.desk.shown.value.entries ≡ copies.old.desk.shown.value.entries ++ added (behind copies.old.behind copies.old.log.items)) }
    ensures none { OnOk result (added (behind copies.new.behind copies.new.log.items) ≡ []) }
    ensures all { OnOk result (all.now.entries ≡ copies.new.desk.shown.value.entries) }
    ensures memory { OnErr result ((copies.new.desk.shown.value.entries ≡ copies.old.desk.shown.value.entries) × (added (behind copies.new.behind copies.new.log.items) ≡ added (behind copies.old.behind copies.old.log.items))) }
{
    queue(copies, Operation::Mark(all.again()))?;
    replace_with(copies, rt, show)?;
    Ok(())
}

/// An entry of its own memory.
fn copy_of(entry: &Entry) -> Result<Entry, Memory>
    ensures copy { IfOk result (λ copy. copy ≡ entry.now) }
{
    Ok(Entry {
        bank: entry.bank,
        number: entry.number,
        command: entry.command,
        outcome: entry.outcome.copy()?,
    })
}

/// Shows readers the copy with all operations, after which the market that is shown is of the same feed.
pub(crate) fn show<R: Wait>(copies: Copies, rt: &R) -> (Copies, Result<(), Memory>)
    requires of { IsOf copies.desk.shown.value.session copies.desk.shown.value.tape (fold with_operation copies.desk.shown.value (behind copies.behind copies.log.items)) }
    ensures shown { OnOk result.1 (result.0.desk.shown.value ≡ fold with_operation copies.desk.shown.value (behind copies.behind copies.log.items)) }
    ensures none { OnOk result.1 (behind result.0.behind result.0.log.items ≡ []) }
    ensures knows { OnOk result.1 (view result.0.desk.place ≡ knower copies.desk.shown.value.session copies.desk.shown.value.tape) }
    ensures memory { OnErr result.1 ((result.0.desk.shown.value ≡ copies.desk.shown.value) × (behind result.0.behind result.0.log.items ≡ behind copies.behind copies.log.items) × (view result.0.desk.place ≡ view copies.desk.place)) }
{
    let (copies, shown) = copies.publish_as::<Sees, R>(rt);
    (copies, shown.map_err(Memory::from))
}
