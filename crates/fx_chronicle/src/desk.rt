ghost use Rattle.std.specs.Prelude.{ℕ, ◌≡◌, ◌<◌, ◌-◌, ◌^◌, List, length, IfOk, OnErr};
ghost use mathlib.Core.List.{IsPrefix};
ghost use Rattle.fx_rules.specs.declared.outcome.Entry.{Entry};
ghost use Rattle.fx_rules.specs.Session.{Header};
ghost use Rattle.fx_rules.specs.Step.{IsCommand};
ghost use Rattle.fx_rules.specs.History.{IsLegal};
ghost use Rattle.fx_chronicle.specs.Faces.{longer};
ghost use Rattle.fx_chronicle.specs.Submitting.{Submitted, Refused};

use fx_amounts::Memory;
use fx_rules::{Command, Gate, Outcome};
use std::sync::Wait;

/// A host that banks call from any threads, each over a pass of its own. There is one history, of which each pass has seen
/// a beginning. Of two banks that told each other nothing no call says which came first.
pub trait Desk {
    /// What a bank holds at the desk.
    type Pass: Send + Drop;

    /// What a pass had seen when it gave the note.
    type Note: Send + Drop;

    /// The session that is traded.
    ghost session: { Header };

    /// The bank of a pass, all entries of the history that it has seen, and those of the commands that it submitted.
    ghost bank: { Self.Pass → ℕ };

    ghost seen: { Self.Pass → List Entry };

    ghost mine: { Self.Pass → List Entry };

    /// What a note tells.
    ghost known: { Self.Note → List Entry };

    /// Carries out the bank's next command, one that the bank may send, with fewer than 2^32 - 1 before it. The command's pair and
    /// its other bank are the session's, the other bank is not the sender, and the number that it names is at least 1. The pass
    /// has then seen one legal history that begins with all that it had seen and ends with this command and its outcome. It may
    /// wait.
    /// After `Memory` the history has nothing of this call, the pass is as it was, and the call may be made again.
    fn submit<R: Wait, G: Gate>(
        &self,
        rt: &R,
        gate: &G,
        pass: &mut Self::Pass,
        command: &Command,
    ) -> Result<Outcome, Memory>
        requires command { IsCommand session (bank pass.old) command.now }
        requires few { length (mine pass.old) < 2 ^ 32 - 1 }
        ensures bank { bank pass.new ≡ bank pass.old }
        ensures submitted { IfOk result (Submitted session (bank pass.old) (seen pass.old) (mine pass.old) command.now (seen pass.new) (mine pass.new)) }
        ensures memory { OnErr result (pass.new ≡ pass.old) }
        ensures refused { OnErr result (Refused session (bank pass.old) (seen pass.old) (mine pass.old) (seen pass.new) (mine pass.new)) };

    /// A note of what the pass has seen. It takes no memory.
    fn note(&self, pass: &mut Self::Pass) -> Self::Note
        ensures note { known result ≡ seen pass.old }
        ensures same { pass.new ≡ pass.old };

    /// Lets the pass see what the note tells: it has then seen the longer of the two, and both are beginnings of that. It takes
    /// no memory.
    fn learn(&self, pass: &mut Self::Pass, note: Self::Note)
        ensures bank { bank pass.new ≡ bank pass.old }
        ensures mine { mine pass.new ≡ mine pass.old }
        ensures seen { seen pass.new ≡ longer (seen pass.old) (known note) }
        ensures own { IsPrefix (seen pass.old) (seen pass.new) }
        ensures told { IsPrefix (known note) (seen pass.new) }
        ensures legal { IsLegal session (seen pass.new) };
}
