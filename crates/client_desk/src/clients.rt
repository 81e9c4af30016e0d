ghost use Rattle.std.specs.Prelude.{ℕ, ◌≡◌, ◌<◌, ◌≤◌, ◌==◌, ◌&&◌, [], ◌∷◌, ◌++◌, List, length, take, position, bytes_eq, IfOk, IfSome, OnOk, OnErr};
ghost use Rattle.fx_rules.specs.Lists.{EachPair};
ghost use Rattle.client_desk.specs.Clients.{Differ, bank_of_client};
ghost use Rattle.client_desk.specs.inside.Keys.{IsKeyOf};

use crate::client::{Client, ClientId};
use crate::keys::{ClientKey, KeyGuesses};
use fx_amounts::{BankId, Memory};
use indexmap::IndexSet;
use std::alloc::Global;
use std::marker::Model;

/// Clients in the order in which they were declared, no two of one bank and one name. Each is found by its bank and its name at once.
#[derive(Debug, Drop)]
pub struct Clients {
    all: Vec<Client>,
    /// What each is found by, in the same order.
    keys: IndexSet<ClientKey>,
    /// At which place a key is looked for first.
    guesses: KeyGuesses,
}

impl Model for Clients {
    ghost use Rattle.std.specs.Prelude.{List};
    ghost use Rattle.client_desk.specs.declared.client.Client.{Client};
    ghost use Rattle.fx_rules.specs.Lists.{EachPair};
    ghost use Rattle.client_desk.specs.Clients.{Differ};
    ghost use Rattle.client_desk.specs.inside.Keys.{AreKeysOf};

    ghost Value = { List Client };

    ghost view = { λ c. c.all.items };

    ghost invariant = { λ c. AreKeysOf c.all.items c.keys.keys × EachPair Differ c.all.items };
}

impl Clients {
    /// No clients. It takes no memory.
    pub fn new(alloc: Global) -> Clients
        ensures none { result ≡ [] }
    {
        Clients {
            all: Vec::new(alloc),
            keys: IndexSet::new(alloc),
            guesses: KeyGuesses::new(alloc),
        }
    }

    /// These clients. `Memory` when out of memory.
    pub fn of(all: &[Client], alloc: Global) -> Result<Clients, Memory>
        requires differ { EachPair Differ all.now }
        ensures value { IfOk result (λ clients. clients ≡ all.now) }
    {
        let mut clients = Clients::new(alloc);
        for client in all {
            clients.push(*client)?;
        }
        Ok(clients)
    }

    /// Adds a client behind the others. After `Memory` they are as they were.
    pub fn push(&mut self, client: Client) -> Result<(), Memory>
        requires differ { EachPair Differ (self.old ++ client ∷ []) }
        ensures pushed { OnOk result (self.new ≡ self.old ++ client ∷ []) }
        ensures memory { OnErr result (self.new ≡ self.old) }
    {
        self.all.reserve(1)?;
        let key = ClientKey::of(client.bank, client.name.as_bytes()).unwrap();
        self.guesses.tell(&key, self.all.len())?;
        self.keys.insert(key)?;
        self.all.push_reserved(client);
        Ok(())
    }

    /// All of them. It takes no memory.
    pub fn as_slice(&self) -> &[Client]
        ensures value { result.now ≡ self.now }
    {
        &self.all
    }

    /// The bank of a client.
    pub fn bank_of(&self, client: ClientId) -> BankId
        requires client { client < length self.now }
        ensures value { result ≡ bank_of_client self.now client }
    {
        self.all[client.index()].bank
    }

    /// The place of the client of a bank and a name. It takes no memory.
    pub(crate) fn place_of(&self, bank: BankId, name: &[u8]) -> Option<usize>
        ensures value { result ≡ position (λ client. (bank == client.bank) && bytes_eq name.now client.name) self.now }
        ensures within { IfSome result (λ place. place < length self.now) }
    {
        // That no client's name is longer than a key's is known once a field is looked at.
        let _keys = &self.keys;
        let key = ClientKey::of(bank, name)?;
        self.place_by(&key)
    }

    /// The place of the client of a bank whose name the first `len` bytes of a text are. It takes no memory.
    #[inline(always)]
    pub(crate) fn place_in_front(&self, bank: BankId, text: &[u8], len: usize) -> Option<usize>
        requires len { len ≤ length text.now }
        ensures value { result ≡ position (λ client. (bank == client.bank) && bytes_eq (take len text.now) client.name) self.now }
        ensures within { IfSome result (λ place. place < length self.now) }
    {
        // That no client's name is longer than a key's is known once a field is looked at.
        let _keys = &self.keys;
        let key = ClientKey::in_front(bank, text, len)?;
        self.place_by(&key)
    }

    /// The place of the client of a key. Where it guessed right it looks at one key.
    #[inline(always)]
    fn place_by(&self, key: &ClientKey) -> Option<usize>
        ensures value { (bank : ℕ) (text : List ℕ) → IsKeyOf bank text key.now → result ≡ position (λ client. (bank == client.bank) && bytes_eq text client.name) self.now }
        ensures within { IfSome result (λ place. place < length self.now) }
    {
        let guess = self.guesses.place(key);
        match self.keys.get_index(guess) {
            Some(kept) if *key == *kept => Some(guess),
            _ => self.keys.get_index_of(key),
        }
    }
}
