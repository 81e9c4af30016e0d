ghost use Rattle.std.specs.Prelude.{◌≡◌, ◌+◌, ◌<◌, ◌^◌, None};

use fx_amounts::{BankId, Memory};
use fx_rules::CommandList;

/// What one bank does in a round: its pass, the commands that it sends, how many of them were carried out, and what stopped it.
#[derive(Drop)]
pub struct Lane<P> {
    /// What the bank holds at the desk.
    pub pass: P,
    /// The bank of the pass.
    pub bank: BankId,
    /// How many commands the pass had sent before the round.
    pub sent: u32,
    /// What the bank sends in the round, in this order.
    pub stream: CommandList,
    /// How many commands of the stream were carried out, from its first on.
    pub done: usize,
    /// What the submit of the next command answered, where it was refused because memory ran out. The lane stopped there.
    pub stopped: Option<Memory>,
}

impl<P> Lane<P> {
    /// Makes it ready for the next round, in which its bank sends this: what was carried out is sent, nothing of the new stream is
    /// done, and nothing has stopped it. Bank and pass stay.
    pub fn next_round(&mut self, stream: CommandList)
        requires numbers { self.old.sent + self.old.done < 2 ^ 32 }
        ensures next { self.new ≡ record self.old { sent = self.old.sent + self.old.done; stream = stream; done = 0; stopped = None } }
    {
        self.sent += self.done as u32;
        self.done = 0;
        self.stopped = None;
        self.stream = stream;
    }
}
