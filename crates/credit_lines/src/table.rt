ghost use Rattle.std.specs.Prelude.{◌≡◌, ◌<◌, ◌-◌, ◌+◌, ◌^◌, true, slice_index, slice_set, IfOk};
ghost use Rattle.fx_amounts.specs.Quantity.{IsWeight};
ghost use Rattle.fx_rules.specs.Session.{IsSession, bank_count, pair_count, sender_places, weight_of};
ghost use Rattle.fx_rules.specs.State.{opening};
ghost use Rattle.fx_rules.specs.Step.{IsCommand};
ghost use Rattle.credit_lines.specs.Table.{Stands, IsNextInEach, IsNextOf, AnswersEach, FollowsOn, followed, is_of_no_pair, next_sender};

use crate::lines::CreditLines;
use crate::sessions::copy_of;
use fx_amounts::{BankId, Memory, PairId};
use fx_rules::{Command, Entry, Outcome, Sender, Session};
use std::alloc::Global;
use std::marker::Model;

/// The credit side of the market: the lines between a session's banks, and how many commands each sender has sent. Contracts see
/// it as its session, limits, uses, totals and counts: it stands for each state of the market that has these. No call but `open`
/// takes memory.
#[derive(Drop)]
pub struct CreditTable {
    /// The session is kept for what a lot costs in each of its pairs.
    session: Session,
    lines: CreditLines,
    /// The commands of each sender.
    counts: Vec<u32>,
    /// All of them: the arrival of the next.
    arrivals: u64,
}

impl Model for CreditTable {
    ghost use Rattle.std.specs.Prelude.{◌≡◌};
    ghost use Rattle.fx_rules.specs.Lists.{total};
    ghost use Rattle.credit_lines.specs.Table.{Table};
    ghost use Rattle.credit_lines.specs.inside.Table.{IsTable};

    ghost Value = { Table };

    ghost view = { λ t. record { session = t.session; lines = t.lines; counts = t.counts.items } };

    ghost invariant = { λ t. record {
      table : IsTable (record { session = t.session; lines = t.lines; counts = t.counts.items });
      arrivals : t.arrivals ≡ total (λ count. count) t.counts.items;
    } };
}

impl CreditTable {
    /// The table with which a session opens: its opening limits and totals, no use, and no commands sent. `Memory` when out of memory.
    pub fn open(alloc: Global, session: &Session) -> Result<CreditTable, Memory>
        ensures stands { IfOk result (Stands session.now (opening session.now)) }
    {
        let places = session.sender_places();
        Ok(CreditTable {
            session: copy_of(alloc, session)?,
            lines: CreditLines::open(alloc, session)?,
            counts: vec![in alloc; 0; places]?,
            arrivals: 0,
        })
    }

    /// The session that it was opened for.
    pub fn session(&self) -> &Session
        ensures value { result.now ≡ self.now.session }
    {
        &self.session
    }

    /// The lines between the banks.
    pub fn lines(&self) -> &CreditLines
        ensures value { result.now ≡ self.now.lines }
        ensures banks { result.now.banks ≡ bank_count self.now.session }
        ensures session { IsSession self.now.session }
    {
        &self.lines
    }

    /// How many commands a sender has sent; 0 for any other than the session's.
    pub fn count(&self, bank: BankId) -> u32
        ensures value { result ≡ slice_index self.now.counts bank }
        ensures session { IsSession self.now.session }
    {
        match self.counts.get(bank.index()) {
            Some(count) => *count,
            None => 0,
        }
    }

    /// What a lot of a pair costs, 1 to 10^6 credit units.
    pub fn weight(&self, pair: PairId) -> u32
        requires pair { pair < pair_count self.now.session }
        ensures value { result ≡ weight_of self.now.session pair }
        ensures weight { IsWeight result }
        ensures session { IsSession self.now.session }
    {
        self.session.weight(pair)
    }

    /// A sender's next command: its number, and its place among all commands. The sender has sent fewer than 2^32 - 1.
    pub fn sender(&self, bank: BankId) -> Sender
        requires sender { bank < sender_places self.now.session }
        requires few { slice_index self.now.counts bank < 2 ^ 32 - 1 }
        ensures value { result ≡ next_sender self.now bank }
        ensures next { IsNextInEach self.now result }
        ensures session { IsSession self.now.session }
    {
        Sender {
            bank,
            number: self.counts[bank.index()] + 1,
            arrival: self.arrivals,
        }
    }

    /// The market's answer to a sender's command that is about no pair: a show command, or a line that could not be read. Nothing
    /// changes.
    pub fn answer(&self, bank: BankId, command: &Command) -> Outcome
        requires sender { bank < sender_places self.now.session }
        requires command { IsCommand self.now.session bank command.now }
        requires no_pair { is_of_no_pair command.now ≡ true }
        ensures answers { AnswersEach self.now bank command.now result }
        ensures session { IsSession self.now.session }
    {
        match *command {
            Command::Show { bank: other } => Outcome::Shown {
                limit: self.lines.limit(bank, other),
                used: self.lines.used(bank, other),
                eff: self.lines.eff(bank, other),
            },
            Command::Bad { reason } => Outcome::Rejected { reason },
            _ => unreachable!(),
        }
    }

    /// Follows an entry of a history of the session: the limit or the total that its command asks for, or the units that it gives
    /// back, what its fills use, and one command more of its sender. The entry is the next step of a state that the table stands for; then it stands for the state after
    /// it.
    #[inline(always)]
    pub fn follow(&mut self, entry: &Entry)
        requires next { IsNextOf self.old entry.now }
        ensures value { self.new ≡ followed self.old entry.now }
        ensures follows { FollowsOn self.old self.new entry.now }
    {
        self.lines.follow(&self.session, entry);
        self.count_command(entry.bank);
    }

    /// Counts a command of a sender.
    fn count_command(&mut self, bank: BankId)
        requires sender { bank < sender_places self.old.session }
        requires few { slice_index self.old.counts bank < 2 ^ 32 - 1 }
        ensures value { self.new ≡ record self.old { counts = slice_set self.old.counts bank (slice_index self.old.counts bank + 1) } }
    {
        self.counts[bank.index()] += 1;
        self.arrivals += 1;
    }
}
