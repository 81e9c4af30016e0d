ghost use Rattle.std.specs.Prelude.{◌≡◌, ◌<◌, ◌*◌, [], ◌∷◌, ◌++◌, List, length, map, replicate, slice_index, nat_lt, if◌then◌else◌, IfOk, OnOk, OnErr};
ghost use Rattle.fx_rules.specs.Session.{Header, sender_places};
ghost use Rattle.client_desk.specs.declared.ask.Ask.TheVariants.{Pass, Short, Barred};
ghost use Rattle.client_desk.specs.Clients.{Tagged, AreClients, ask_of, filled_by, reserved_by, free_of, owner_in};
ghost use Rattle.client_desk.specs.Standing.{StandsFor, NamesPair, account_of, free_in, no_sums};
ghost use Rattle.client_desk.specs.inside.Books.{AreAllEmpty, owner_at, rests_in};

use crate::account::Account;
use crate::ask::Ask;
use crate::client::{Client, ClientId};
use crate::clients::Clients;
use crate::rows::SlotRow;
use fx_amounts::{BankId, Lots, Memory, PairId, Units};
use fx_rules::{Command, Session};
use std::alloc::Global;
use std::marker::Model;

/// What is known of the clients of a session by the commands so far. It keeps no history: it stands for each one that has the
/// owners, the sums and the resting orders that it keeps.
#[derive(Debug, Drop)]
pub struct ClientBook {
    pub(crate) clients: Clients,
    /// Credit units a lot, by pair.
    pub(crate) weights: Vec<u32>,
    /// By client.
    pub(crate) accounts: Vec<Account>,
    /// By sender.
    pub(crate) rows: Vec<SlotRow>,
}

impl Model for ClientBook {
    ghost use Rattle.client_desk.specs.Standing.{Book};
    ghost use Rattle.client_desk.specs.inside.Books.{AreKept};

    ghost Value = { Book };

    ghost view = { λ b. record { clients = b.clients; weights = b.weights.items; accounts = b.accounts.items; rows = b.rows.items } };

    ghost invariant = { λ b. AreKept b.clients b.accounts.items b.rows.items };
}

impl ClientBook {
    /// The book of these clients before any command. `Memory` when out of memory; then the clients are dropped.
    pub fn open(session: &Session, clients: Vec<Client>) -> Result<ClientBook, Memory>
        requires clients { AreClients session.now clients.items }
        ensures opens { IfOk result (StandsFor session.now []) }
        ensures clients { IfOk result (λ book. book.clients ≡ clients.items) }
    {
        let alloc = *clients.allocator();
        let clients = Clients::of(&clients, alloc)?;
        let weights = weights_of(alloc, session)?;
        let accounts = empty_accounts(alloc, clients.as_slice().len())?;
        let rows = empty_rows(alloc, session.sender_places())?;
        Ok(ClientBook {
            clients,
            weights,
            accounts,
            rows,
        })
    }

    /// Adds a client behind the others, before any command. After `Memory` the book is as it was.
    pub fn declare(&mut self, client: Client) -> Result<(), Memory>
        requires next { (h : Header) × StandsFor h [] self.old × AreClients h (self.old.clients ++ client ∷ []) }
        ensures clients { OnOk result (self.new.clients ≡ self.old.clients ++ client ∷ []) }
        ensures declared { OnOk result ((h : Header) → StandsFor h [] self.old → StandsFor h [] self.new) }
        ensures memory { OnErr result (self.new ≡ self.old) }
    {
        self.accounts.reserve(1)?;
        self.clients.push(client)?;
        self.accounts.push_reserved(Account::open());
        Ok(())
    }

    /// The clients, in the order in which they were declared. It takes no memory.
    pub fn clients(&self) -> &[Client]
        ensures value { result.now ≡ self.now.clients }
    {
        self.clients.as_slice()
    }

    /// The same, each found by its bank and its name. It takes no memory.
    pub fn named_clients(&self) -> &Clients
        ensures value { result.now ≡ self.now.clients }
    {
        &self.clients
    }

    /// What a client's command is answered: whether it may be sent in the state in which the book stands. An order that costs
    /// more credit units than the client has free is short; a cancel or a reduction of what is no resting order of the client in
    /// that pair is barred, and so is a command about other things than the client's own orders. It takes no memory.
    pub fn ask(&self, client: ClientId, command: &Command) -> Ask
        requires client { client < length self.now.clients }
        requires pair { NamesPair (length self.now.weights) command.now }
        ensures answers { (h : Header) (tagged : List Tagged) → StandsFor h tagged self.now → result ≡ ask_of h self.now.clients tagged client command.now }
    {
        // That a client's bank has a row is known once a field is looked at.
        let _rows = &self.rows;
        match *command {
            Command::Order { pair, lots, .. } => self.ask_order(client, pair, lots),
            Command::Cancel { pair, number } => self.ask_own(client, pair, number),
            Command::Reduce { pair, number, .. } => self.ask_own(client, pair, number),
            Command::Book { .. } | Command::Bad { .. } => Ask::Pass,
            _ => Ask::Barred,
        }
    }

    /// What an order of so many lots is answered.
    fn ask_order(&self, client: ClientId, pair: PairId, lots: Lots) -> Ask
        requires client { client < length self.now.clients }
        requires pair { pair < length self.now.weights }
        ensures answers { result ≡ (if nat_lt (free_in self.now client) (lots * slice_index self.now.weights pair) then Short (free_in self.now client) else Pass) }
    {
        let free = self.free(client);
        let cost = u64::from(lots.count()) * u64::from(self.weights[pair.index()]);
        if cost > free.get() {
            Ask::Short { free }
        } else {
            Ask::Pass
        }
    }

    /// What a command about an order of this number is answered.
    fn ask_own(&self, client: ClientId, pair: PairId, number: u32) -> Ask
        requires client { client < length self.now.clients }
        ensures answers { result ≡ (if rests_in self.now client pair number then Pass else Barred) }
    {
        let bank = self.clients.bank_of(client);
        match self.rows[bank.index()].slot(number) {
            Some(slot) if slot.rests_for(client, pair) => Ask::Pass,
            _ => Ask::Barred,
        }
    }

    /// What a client has filled, in credit units: lots times weight of each side of a fill whose order is the client's. It takes
    /// no memory.
    pub fn filled(&self, client: ClientId) -> Units
        requires client { client < length self.now.clients }
        ensures filled { (h : Header) (tagged : List Tagged) → StandsFor h tagged self.now → result ≡ filled_by h tagged client }
    {
        self.account(client).filled()
    }

    /// What a client's resting orders reserve, in credit units: the lots that each has left times its pair's weight. It takes no
    /// memory.
    pub fn reserved(&self, client: ClientId) -> Units
        requires client { client < length self.now.clients }
        ensures reserved { (h : Header) (tagged : List Tagged) → StandsFor h tagged self.now → result ≡ reserved_by h tagged client }
    {
        self.account(client).reserved()
    }

    /// What a client's limit leaves of it, in credit units: the limit less what the client has filled and reserved. It takes no
    /// memory.
    pub fn free(&self, client: ClientId) -> Units
        requires client { client < length self.now.clients }
        ensures value { result ≡ free_in self.now client }
        ensures free { (h : Header) (tagged : List Tagged) → StandsFor h tagged self.now → result ≡ free_of h self.now.clients tagged client }
    {
        let limit = self.clients.as_slice()[client.index()].limit;
        self.account(client).free(limit)
    }

    /// The client whose command has this bank and number; `None` exactly where there is no such command or it has no client. It
    /// takes no memory.
    pub fn owner(&self, bank: BankId, number: u32) -> Option<ClientId>
        ensures owner { (h : Header) (tagged : List Tagged) → StandsFor h tagged self.now → result ≡ owner_in tagged bank number }
    {
        self.owner_at(bank, number)
    }

    /// The owner that is kept of a command.
    fn owner_at(&self, bank: BankId, number: u32) -> Option<ClientId>
        ensures value { result ≡ owner_at self.now bank number }
    {
        let row = self.rows.get(bank.index())?;
        row.slot(number)?.owner
    }

    /// What is kept of a client.
    fn account(&self, client: ClientId) -> Account
        requires client { client < length self.now.clients }
        ensures value { result ≡ account_of self.now client }
    {
        self.accounts[client.index()]
    }
}

/// The weights of a session's pairs.
fn weights_of(alloc: Global, session: &Session) -> Result<Vec<u32>, Memory>
    ensures value { IfOk result (λ weights. weights.items ≡ map (λ rule. rule.weight) session.now.pairs) }
{
    let mut weights = Vec::new(alloc);
    let pairs = session.pairs();
    for rule in pairs {
        weights.push(rule.weight)?;
    }
    Ok(weights)
}

/// An account with nothing for each client.
fn empty_accounts(alloc: Global, clients: usize) -> Result<Vec<Account>, Memory>
    ensures value { IfOk result (λ accounts. accounts.items ≡ replicate clients no_sums) }
{
    let mut accounts = Vec::new(alloc);
    for _client in 0..clients {
        accounts.push(Account::open())?;
    }
    Ok(accounts)
}

/// A row without commands for each sender.
fn empty_rows(alloc: Global, senders: usize) -> Result<Vec<SlotRow>, Memory>
    ensures count { IfOk result (λ rows. length rows.items ≡ senders) }
    ensures empty { IfOk result (λ rows. AreAllEmpty rows.items) }
{
    let mut rows = Vec::new(alloc);
    for _sender in 0..senders {
        rows.push(SlotRow::new(alloc))?;
    }
    Ok(rows)
}
