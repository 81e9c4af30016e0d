ghost use Rattle.std.specs.Prelude.{ℕ, ◌≡◌, ◌≤◌, ◌<◌, ◌*◌, ◌^◌, [], ◌∷◌, ◌++◌, List, Some, length, slice_index, slice_set, OnOk, OnErr};
ghost use Rattle.fx_rules.specs.Session.{Header};
ghost use Rattle.client_desk.specs.Clients.{Tagged, IsTagged, limit_of, tag};
ghost use Rattle.client_desk.specs.Standing.{StandsFor, row_of};
ghost use Rattle.client_desk.specs.inside.Changes.{CanEnter, CanGive, CanReserve, entered_with, filled_sums, kept_left, released_sums, reserved_sums, side_with, slot_for, with_sums};
ghost use Rattle.client_desk.specs.inside.UnderWay.{CanFill, CanFillAll, CanPull, CanReduce, CanSettle, CanTake, Fills, FillsAll, Pulls, Reduces, Settles, Takes};

use crate::book::ClientBook;
use crate::client::ClientId;
use crate::rows::Slot;
use fx_amounts::{BankId, Memory, PairId};
use fx_rules::{Command, Entry, Fill, Life, Outcome};

impl ClientBook {
    /// Follows the next entry of a history that the book stands for: what its client's order reserves, what each fill moves from
    /// reserved to filled for the owners of its two orders, and what the outcome takes out. `who` is the entry's client, where it
    /// has one. All memory is taken before anything changes: after `Memory` the book is as it was.
    pub fn record(&mut self, who: Option<ClientId>, entry: &Entry) -> Result<(), Memory>
        requires next { (h : Header) × (tagged : List Tagged) × StandsFor h tagged self.old × IsTagged h self.old.clients (tagged ++ tag who entry.now ∷ []) }
        ensures recorded { OnOk result ((h : Header) (tagged : List Tagged) → StandsFor h tagged self.old → IsTagged h self.old.clients (tagged ++ tag who entry.now ∷ []) → StandsFor h (tagged ++ tag who entry.now ∷ []) self.new) }
        ensures clients { OnOk result (self.new.clients ≡ self.old.clients) }
        ensures memory { OnErr result (self.new ≡ self.old) }
    {
        self.limit_fits(&who);
        let slot = slot_for(who, &entry.command);
        self.enter(entry.bank, slot.owner, slot.pair, slot.left)?;
        self.fill_all(entry.outcome.fills());
        self.settle(entry);
        Ok(())
    }

    /// A client's limit is in range, as its type keeps it. It does nothing: it tells a proof.
    fn limit_fits(&self, who: &Option<ClientId>)
        ensures full { length self.now.accounts ≡ length self.now.clients }
        ensures most { (c : ℕ) → who.now ≡ Some c → c < length self.now.clients → limit_of self.now.clients c ≤ 10 ^ 15 }
    {
        let _accounts = &self.accounts;
        if let Some(client) = *who {
            if let Some(kept) = self.clients.as_slice().get(client.index()) {
                let _limit = kept.limit.get();
            }
        }
    }

    /// Adds a place for a sender's command, and reserves what an order of a client costs.
    fn enter(
        &mut self,
        bank: BankId,
        owner: Option<ClientId>,
        pair: PairId,
        left: u32,
    ) -> Result<(), Memory>
        requires fits { CanEnter self.old bank (record { owner = owner; pair = pair; left = left }) }
        ensures entered { OnOk result (self.new ≡ entered_with self.old bank (record { owner = owner; pair = pair; left = left })) }
        ensures memory { OnErr result (self.new ≡ self.old) }
    {
        match owner {
            Some(client) => {
                self.rows[bank.index()].push(Some(client), pair, left)?;
                self.reserve(client, pair, left);
            }
            None => self.rows[bank.index()].push(None, pair, left)?,
        }
        Ok(())
    }

    /// Reserves what lots of a pair cost, for a client.
    fn reserve(&mut self, client: ClientId, pair: PairId, lots: u32)
        requires room { CanReserve self.old (Some client) pair lots }
        ensures value { self.new ≡ record self.old { accounts = with_sums reserved_sums (lots * slice_index self.old.weights pair) self.old.accounts (Some client) } }
    {
        let units = u64::from(lots) * u64::from(self.weights[pair.index()]);
        self.accounts[client.index()].reserve(units);
    }

    /// Makes fills, in order.
    fn fill_all(&mut self, fills: &[Fill])
        requires drawn { CanFillAll self.old fills.now }
        ensures filled { FillsAll self.old self.new fills.now }
        ensures clients { self.new.clients ≡ self.old.clients }
    {
        for fill in fills {
            self.fill(fill);
        }
    }

    /// Moves what a fill trades from reserved to filled, for the owners of its two orders.
    fn fill(&mut self, fill: &Fill)
        requires drawn { CanFill self.old fill.now }
        ensures filled { Fills self.old self.new fill.now }
        ensures clients { self.new.clients ≡ self.old.clients }
    {
        // That each client has an account is known once a field is looked at.
        let _accounts = &self.accounts;
        let lots = fill.lots.count();
        self.fill_side(fill.maker, fill.maker_number, fill.pair, lots);
        self.fill_side(fill.taker, fill.taker_number, fill.pair, lots);
    }

    /// Moves what lots of an order cost from reserved to filled, where it has an owner.
    fn fill_side(&mut self, bank: BankId, number: u32, pair: PairId, lots: u32)
        requires gives { CanGive self.old bank number pair lots }
        ensures value { self.new ≡ side_with filled_sums self.old bank number pair lots }
    {
        if let Some(client) = self.rows[bank.index()].lower(number, lots) {
            let units = u64::from(lots) * u64::from(self.weights[pair.index()]);
            self.accounts[client.index()].fill(units);
        }
    }

    /// Takes lots of an order out, where it has an owner: what they cost is no longer reserved.
    fn release(&mut self, bank: BankId, number: u32, pair: PairId, lots: u32)
        requires gives { CanGive self.old bank number pair lots }
        ensures value { self.new ≡ side_with released_sums self.old bank number pair lots }
    {
        if let Some(client) = self.rows[bank.index()].lower(number, lots) {
            let units = u64::from(lots) * u64::from(self.weights[pair.index()]);
            self.accounts[client.index()].release(units);
        }
    }

    /// Takes out what the outcome of an entry takes out of the market, once its fills are made.
    fn settle(&mut self, entry: &Entry)
        requires made { CanSettle self.old entry.now }
        ensures settled { Settles self.old self.new entry.now }
        ensures clients { self.new.clients ≡ self.old.clients }
    {
        match entry.command {
            Command::Order { pair, life, .. } => match life {
                Life::Day => {}
                Life::Ioc => self.take_out(pair, entry.bank, entry.number),
                Life::Fok => self.take_out(pair, entry.bank, entry.number),
            },
            Command::Cancel { pair, number } => {
                if let Outcome::Cancelled { .. } = entry.outcome {
                    self.take_out(pair, entry.bank, number);
                }
            }
            Command::Reduce { pair, number, .. } => {
                if let Outcome::Reduced { left } = entry.outcome {
                    self.reduce(pair, entry.bank, number, left);
                }
            }
            Command::Pull { pair } => {
                if let Outcome::Pulled { .. } = entry.outcome {
                    self.pull(pair, entry.bank, entry.number);
                }
            }
            _ => {}
        }
    }

    /// Takes an order out of a pair.
    fn take_out(&mut self, pair: PairId, bank: BankId, number: u32)
        requires rests { CanTake self.old pair bank number }
        ensures taken { Takes self.old self.new pair bank number }
        ensures swept { (row_of self.new bank).swept ≡ (row_of self.old bank).swept }
        ensures clients { self.new.clients ≡ self.old.clients }
    {
        let lots = self.left(pair, bank, number);
        self.release(bank, number, pair, lots);
    }

    /// Lowers what is left of an order to so many lots.
    fn reduce(&mut self, pair: PairId, bank: BankId, number: u32, left: u32)
        requires rests { CanReduce self.old pair bank number left }
        ensures reduced { Reduces self.old self.new pair bank number left }
        ensures clients { self.new.clients ≡ self.old.clients }
    {
        let lots = self.left(pair, bank, number);
        self.release(bank, number, pair, lots.saturating_sub(left));
    }

    /// Takes all orders of a sender of so many commands out of a pair. Commands that a pull has passed before are not looked at
    /// again.
    fn pull(&mut self, pair: PairId, bank: BankId, last: u32)
        requires sender { CanPull self.old pair bank last }
        ensures pulled { Pulls self.old self.new pair bank last }
        ensures clients { self.new.clients ≡ self.old.clients }
    {
        let first = self.swept(pair, bank);
        for place in first..last {
            self.take_out(pair, bank, place + 1);
        }
        self.sweep(pair, bank, last);
    }

    /// The lots that are kept of an order in a pair.
    fn left(&self, pair: PairId, bank: BankId, number: u32) -> u32
        requires sender { bank < length self.now.rows }
        ensures value { result ≡ kept_left self.now pair bank number }
        ensures full { length self.now.accounts ≡ length self.now.clients }
    {
        self.rows[bank.index()].left(number, pair)
    }

    /// So many commands of a sender, from the first on, have no lots left in a pair.
    fn swept(&self, pair: PairId, bank: BankId) -> u32
        requires sender { bank < length self.now.rows }
        ensures value { result ≡ slice_index (row_of self.now bank).swept pair }
    {
        self.rows[bank.index()].swept(pair)
    }

    /// So many of them have none now.
    fn sweep(&mut self, pair: PairId, bank: BankId, count: u32)
        requires sender { bank < length self.old.rows }
        ensures value { self.new ≡ record self.old { rows = slice_set self.old.rows bank (record (row_of self.old bank) { swept = slice_set (row_of self.old bank).swept pair count }) } }
    {
        self.rows[bank.index()].sweep(pair, count);
    }
}

/// What is kept of a command as it comes in: of a client's order its pair and all its lots.
fn slot_for(who: Option<ClientId>, command: &Command) -> Slot
    ensures value { result ≡ slot_for who command.now }
{
    let kept = match (who, *command) {
        (Some(_), Command::Order { pair, lots, .. }) => (pair, lots.count()),
        _ => (PairId::at(0), 0),
    };
    Slot {
        owner: who,
        pair: kept.0,
        left: kept.1,
    }
}
