ghost use Rattle.std.specs.Prelude.{◌≡◌, IfOk};
ghost use Rattle.program_calls.specs.LoadLines.{text_of};

use crate::loading::lines::{push_counts, push_threads};
use crate::loading::serial::SerialTotals;
use crate::loading::threaded::ThreadedCheck;
use fx_amounts::Memory;
use std::alloc::Global;

/// What a load came to. It has the verdict on the output of the threads, so that nobody makes one without the check.
#[derive(Clone, Copy)]
pub struct Summary {
    /// What it was made from: the seed, and how many banks, pairs and commands.
    pub(crate) made_from: [u64; 4],
    /// What the commands came to in order.
    pub(crate) serial: SerialTotals,
    /// How they came out on threads.
    pub(crate) threaded: ThreadedCheck,
}

impl Summary {
    /// Its three lines: what it was made from, what the commands came to in order, and how they came out on threads.
    #[tactic(auto, unfolding(crate::specs::LoadLines::three_lines))]
    pub fn text(&self, alloc: Global) -> Result<Vec<u8>, Memory>
        ensures lines { IfOk result (λ text. text.items ≡ text_of self.now) }
    {
        let mut text = Vec::new(alloc);
        push_counts(b"LOAD", &self.made_from, &mut text)?;
        push_counts(b"SERIAL", &self.serial.counts(), &mut text)?;
        push_threads(self.threaded, &mut text)?;
        Ok(text)
    }
}
