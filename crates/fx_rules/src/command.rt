ghost use Rattle.std.specs.Prelude.{◌≡◌, ◌↔◌, IsTrue};
ghost use Rattle.fx_rules.specs.Reject.{code_of};
ghost use Rattle.fx_rules.specs.Sending.{pair_of};
ghost use Rattle.fx_rules.specs.Step.{AreValues, IsCommand, Suits};
ghost use Rattle.fx_rules.specs.inside.Command.{ValuesFit};

use crate::session::Session;
use fx_amounts::{BankId, Lots, PairId, Price, Side, Units};

/// How long an order stands.
#[derive(Clone, Copy, Debug, PartialEq, Eq)]
pub enum Life {
    /// What its sweep leaves rests in the book.
    Day,
    /// What its sweep leaves is dropped.
    Ioc,
    /// It is filled whole, or nothing changes.
    Fok,
}

/// The first fault of a command line.
#[derive(Clone, Copy, Debug, PartialEq, Eq)]
pub enum Reject {
    /// The second field is missing or is no word of the command table.
    Word = 1,
    /// The number of fields is not the table's.
    Count = 2,
    /// No such pair in the header.
    Pair = 3,
    /// Not in the form of a price with the pair's decimals.
    PriceForm = 4,
    /// In that form, with 0 ticks or above 10^9 ticks.
    PriceRange = 5,
    /// Not a number from 1 to 10^6.
    Lots = 6,
    /// Not a bank's name, or the sender's own.
    Bank = 7,
    /// Not a number from 0 to 10^15.
    Limit = 8,
    /// Not a number from 1 to 4294967295.
    Number = 9,
    /// Not `DAY`, `IOC` or `FOK`.
    Life = 10,
    /// A line of more than 256 bytes.
    Long = 11,
    /// Not a number from 1 to 10^15. A fault of the operator's lines alone.
    Units = 12,
}

impl Reject {
    /// The number that is printed for it, 1 to 12.
    pub fn code(self) -> u8
        ensures value { result ≡ code_of self }
    {
        self as u8
    }
}

/// What a bank or the operator asks of the host. A bank and a pair are places in the session's header, a price is in ticks
/// (1 to 10^9), a quantity in lots (1 to 10^6), a limit in credit units (0 to 10^15), and `number` is that of a command of
/// the sender, from 1.
#[derive(Clone, Copy, Debug, PartialEq, Eq)]
pub enum Command {
    /// Buys or sells at a price or better.
    Order {
        side: Side,
        pair: PairId,
        price: Price,
        lots: Lots,
        life: Life,
    },
    /// Takes the sender's order of that number out.
    Cancel {
        pair: PairId,
        number: u32,
    },
    /// Lowers what the sender's order of that number has left to `lots`.
    Reduce {
        pair: PairId,
        number: u32,
        lots: Lots,
    },
    /// Takes all of the sender's orders in the pair out.
    Pull {
        pair: PairId,
    },
    /// Sets the sender's limit on another bank.
    Line {
        bank: BankId,
        limit: Units,
    },
    /// Sets the sender's limit on all other banks together. In version 2 alone.
    Total {
        limit: Units,
    },
    /// Gives back so many credit units, at least 1, of what two banks have used. The operator sends it, in version 2 alone.
    Settle {
        a: BankId,
        b: BankId,
        units: Units,
    },
    /// Asks for the line with another bank.
    Show {
        bank: BankId,
    },
    /// Asks for the sender's local book.
    Book {
        pair: PairId,
    },
    /// A line that could not be read.
    Bad {
        reason: Reject,
    },
}

impl Command {
    /// The pair that it is about, where it is about one alone: an order, a cancel, a reduction, a pull or a local book. `None` of a
    /// credit change, which is about all pairs, of a show command and of a bad line.
    pub fn pair(&self) -> Option<PairId>
        ensures value { result ≡ pair_of self.now }
    {
        match *self {
            Command::Order { pair, .. } => Some(pair),
            Command::Cancel { pair, .. } => Some(pair),
            Command::Reduce { pair, .. } => Some(pair),
            Command::Pull { pair } => Some(pair),
            Command::Book { pair } => Some(pair),
            Command::Line { .. }
            | Command::Total { .. }
            | Command::Settle { .. }
            | Command::Show { .. }
            | Command::Bad { .. } => None,
        }
    }
}

/// Whether a sender may send a command in a session: a settlement is the operator's, all else but a line that could not be read
/// is a bank's, and both they and a total come in version 2 alone. The command's pair and its other banks are the session's, the
/// other bank is not the sender, the two banks of a settlement differ, and the number or the units that it names are at least 1.
/// It takes no memory.
pub fn is_command(session: &Session, sender: BankId, command: &Command) -> bool
    ensures value { IsTrue result ↔ IsCommand session.now sender command.now }
{
    suits(session, sender, command) && are_values(session, sender, command)
}

/// Whether it is for this sender to send such a command.
fn suits(session: &Session, sender: BankId, command: &Command) -> bool
    ensures value { IsTrue result ↔ Suits session.now sender command.now }
{
    let is_bank = sender.index() < session.banks().len();
    let is_operator = session.version() == 2 && sender == BankId::HOST;
    match *command {
        Command::Settle { .. }
        | Command::Bad {
            reason: Reject::Units,
        } => is_operator,
        Command::Bad { .. } => is_bank || is_operator,
        Command::Total { .. } => is_bank && session.version() == 2,
        _ => is_bank,
    }
}

/// Whether what a command names and tells is the session's and in range.
fn are_values(session: &Session, sender: BankId, command: &Command) -> bool
    ensures value { IsTrue result ↔ AreValues session.now sender command.now }
{
    values_fit(command);
    let banks = session.banks().len();
    let pairs = session.pairs().len();
    match *command {
        Command::Order { pair, .. } | Command::Pull { pair } | Command::Book { pair } =>
            pair.index() < pairs,
        Command::Cancel { pair, number } => pair.index() < pairs && number >= 1,
        Command::Reduce { pair, number, .. } => pair.index() < pairs && number >= 1,
        Command::Line { bank, .. } | Command::Show { bank } => bank.index() < banks
            && bank != sender,
        Command::Settle { a, b, units } => a.index() < banks
            && b.index() < banks
            && a != b
            && units.get() >= 1,
        Command::Total { .. } | Command::Bad { .. } => true,
    }
}

/// A command's price, lots, limit and units are in their ranges, as their types keep them. It does nothing: it tells a proof.
fn values_fit(command: &Command)
    ensures fit { ValuesFit command.now }
{
    match *command {
        Command::Order { price, lots, .. } => {
            let _ = (price.ticks(), lots.count());
        }
        Command::Reduce { lots, .. } => {
            let _ = lots.count();
        }
        Command::Line { limit, .. } | Command::Total { limit } => {
            let _ = limit.get();
        }
        Command::Settle { units, .. } => {
            let _ = units.get();
        }
        _ => {}
    }
}

/// A command, and who sent it.
#[derive(Clone, Copy, Debug, PartialEq, Eq)]
pub struct Sent {
    /// Its sender.
    pub bank: BankId,
    pub command: Command,
}
