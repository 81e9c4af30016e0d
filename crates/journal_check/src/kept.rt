ghost use Rattle.std.specs.Prelude.{◌≡◌, ◌∷◌, ◌++◌, List, [], OnOk};
ghost use Rattle.fx_rules.specs.declared.outcome.Entry.{Entry as HistoryEntry};
ghost use Rattle.journal_check.specs.inside.Stops.{IsKept};

use fx_amounts::Memory;
use fx_rules::Entry;
use std::alloc::Global;

/// The entries of a journal so far, all of them or none.
#[derive(Drop)]
pub(crate) struct Kept {
    /// All of them.
    pub(crate) whole: bool,
    pub(crate) entries: Vec<Entry>,
}

impl Kept {
    /// What is kept before the first entry. It takes no memory.
    pub(crate) fn new(alloc: Global, whole: bool) -> Kept
        ensures none { IsKept whole [] result }
    {
        Kept {
            whole,
            entries: Vec::new(alloc),
        }
    }

    /// Keeps the next entry, or drops it.
    pub(crate) fn keep(&mut self, entry: Entry) -> Result<(), Memory>
        ensures whole { self.new.whole ≡ self.old.whole }
        ensures kept { OnOk result ((entries : List HistoryEntry) → IsKept self.old.whole entries self.old → IsKept self.old.whole (entries ++ entry ∷ []) self.new) }
    {
        if self.whole {
            self.entries.push(entry)?;
        }
        Ok(())
    }
}
