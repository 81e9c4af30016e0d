ghost use Rattle.std.specs.Prelude.{◌≡◌, ℕ, Bool};
ghost use Rattle.fx_rules.specs.Keyed.{bank_key, pair_key, is_about};

use crate::command::Command;
use crate::outcome::Entry;
use fx_amounts::{BankId, PairId};

/// An item of a history that touches keys: who has a key that it touches has to learn of it before the next item comes.
pub trait Keyed {
    ghost touches: { Self → ℕ → Bool };

    /// Whether the item touches the key. It takes no memory.
    fn touches(&self, key: u32) -> bool
        ensures value { result ≡ touches self.now key };
}

/// A key below 64 is the bank of that number, 64 is the operator, and 65 and above are the pairs in the session's
/// order. An entry touches its sender and the pair of its command; a credit change touches every pair, a show command and a
/// line that could not be read touch none.
impl Keyed for Entry {
    ghost use Rattle.fx_rules.specs.Keyed.{touches_key};

    ghost touches = { touches_key };

    fn touches(&self, key: u32) -> bool {
        key == bank_key(self.bank) || is_about(&self.command, key)
    }
}

const FIRST_PAIR_KEY: u32 = 65;

fn bank_key(bank: BankId) -> u32
    ensures value { result ≡ bank_key bank }
{
    bank.index() as u32
}

fn pair_key(pair: PairId) -> u32
    ensures value { result ≡ pair_key pair }
{
    FIRST_PAIR_KEY + pair.index() as u32
}

/// Whether the key is of a pair that the command is about.
fn is_about(command: &Command, key: u32) -> bool
    ensures value { result ≡ is_about command.now key }
{
    match command {
        Command::Order { pair, .. }
        | Command::Cancel { pair, .. }
        | Command::Reduce { pair, .. }
        | Command::Pull { pair }
        | Command::Book { pair } => key == pair_key(*pair),
        Command::Line { .. } | Command::Total { .. } | Command::Settle { .. } => FIRST_PAIR_KEY
            <= key,
        Command::Show { .. } | Command::Bad { .. } => false,
    }
}
