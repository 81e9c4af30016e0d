ghost use Rattle.std.specs.Prelude.{◌≡◌, ◌<◌, ◌≤◌, ◌+◌, ◌-◌, ◌*◌, ◌^◌, length, slice_index, slice_set, OnOk, OnErr, IfOk, map, replicate};
ghost use Rattle.fx_rules.specs.Session.{bank_count, sender_places};
ghost use Rattle.fx_rules.specs.State.{opening};
ghost use Rattle.fx_rules.specs.Step.{without_orders};
ghost use Rattle.fx_rules.specs.Market.{GoesOn};
ghost use Rattle.flat_host.specs.FlatState.{FlatState, StandsFor};
ghost use Rattle.flat_host.specs.inside.FlatState.{IsCredit};
ghost use Rattle.flat_host.specs.inside.Parts.{taker_from, PlannedIn, OrderedIn, order_carried, filled_in, counted_in, cancelled_in, reduced_in, shown_in};
ghost use Rattle.flat_host.specs.inside.Turns.{LineSetIn, TotalSetIn, SettledIn, line_raised_in, total_raised_in, settled_raised_in};
ghost use Rattle.flat_host.specs.inside.Levels.{ProbedIn};
ghost use Rattle.flat_host.specs.Steps.{IsCommandOf, AnswersEach, StepsEach, KeepsLines, StaysUncrossed, ShowsEach, IsNextOf, FollowsOn, stands};
ghost use Rattle.flat_host.specs.inside.Steps.{ChangesEach, FollowsEach};
ghost use Rattle.flat_host.specs.Views.{TellsByView, FillsByView, ShowsByView, ShowsTruly};

use crate::changes::{
    cancel_answer, count_of, is_done, leave_lots, order_of, reduce_answer, rests_of, take_out,
    take_out_all,
};
use crate::credit::{Credit, affordable, lines_of, make_fills};
use crate::depth::{first_levels, lots_against};
use crate::raise::raised_fills;
use crate::sweep::{Sweep, paid_sweep};
use fx_amounts::{BankId, Lots, Memory, PairId, Price, Side, Units};
use fx_rules::{
    ActiveOrder, Command, Entry, Fill, LevelList, Life, Outcome, PairRule, Plan, Session,
    SweptOrder, any_price,
};
use std::alloc::Global;
use std::marker::Model;

/// The market on one thread, over one flat list of resting orders. Contracts see it as its flat state: it stands for each
/// state of the market that has these orders, limits, totals, uses and counts.
#[derive(Drop)]
pub struct FlatHost {
    /// In arrival order.
    orders: Vec<ActiveOrder>,
    /// What the banks can trade on.
    credit: Credit,
    /// The commands of each sender, at its number.
    counts: Vec<u32>,
    /// All of them: the arrival of the next.
    arrivals: u64,
    /// Credit units a lot, of each pair.
    weights: Vec<u32>,
}

impl Model for FlatHost {
    ghost use Rattle.flat_host.specs.FlatState.{FlatState};

    ghost Value = { FlatState };

    ghost use Rattle.flat_host.specs.inside.Host.{flat_state_of, IsHost};

    ghost view = { flat_state_of };

    ghost invariant = { IsHost };
}

/// The weights of the pairs.
fn weights_of(alloc: Global, pairs: &[PairRule]) -> Result<Vec<u32>, Memory>
    ensures weights { IfOk result (λ weights. weights.items ≡ map (λ rule. rule.weight) pairs.now) }
{
    let mut weights = Vec::new(alloc);
    for rule in pairs {
        weights.push(rule.weight)?;
    }
    Ok(weights)
}

impl FlatHost {
    /// The host as a session's day opens: no orders rest, nothing is used, and the limits and totals are the opening ones.
    pub fn open(alloc: Global, session: &Session) -> Result<FlatHost, Memory>
        ensures opens { IfOk result (StandsFor session.now (opening session.now)) }
        ensures banks { IfOk result (λ host. host.credit.banks ≡ bank_count session.now) }
        ensures counts { IfOk result (λ host. host.counts ≡ replicate (sender_places session.now) 0) }
        ensures weights { IfOk result (λ host. host.weights ≡ map (λ rule. rule.weight) session.now.pairs) }
    {
        let places = session.sender_places();
        Ok(FlatHost {
            orders: Vec::new(alloc),
            credit: Credit::open(alloc, session)?,
            counts: vec![in alloc; 0; places]?,
            arrivals: 0,
            weights: weights_of(alloc, session.pairs())?,
        })
    }

    /// Carries out a sender's next command.
    ///
    /// The answer is the market's, in each state that the host stands for. After `Memory` the host is as it was.
    pub fn apply(&mut self, bank: BankId, command: &Command) -> Result<Outcome, Memory>
        requires count { slice_index self.old.counts bank < 2 ^ 32 - 1 }
        requires command { IsCommandOf self.old bank command.now }
        ensures steps { IfOk result (StepsEach self.old self.new bank command.now) }
        ensures goes_on { IfOk result (GoesOn (stands self.old) (stands self.new) bank command.now) }

        // In no state of a legal history is a line exceeded, nor does an order rest crossed with one that it can reach.
        ensures lines { IfOk result (KeepsLines self.old bank command.now) }
        ensures uncrossed { IfOk result (StaysUncrossed self.old bank command.now) }

        // What the bank is told rests on what it sees alone.
        ensures tells { IfOk result (TellsByView self.old bank command.now) }
        ensures fills { IfOk result (FillsByView self.old bank command.now) }

        ensures counts { OnOk result (self.new.counts ≡ slice_set self.old.counts bank (slice_index self.old.counts bank + 1)) }
        ensures banks { OnOk result (self.new.credit.banks ≡ self.old.credit.banks) }
        ensures weights { OnOk result (self.new.weights ≡ self.old.weights) }
        ensures memory { OnErr result (self.new ≡ self.old) }
    {
        let outcome = self.answer(bank, command)?;
        self.carry_out(bank, command, &outcome)?;
        Ok(outcome)
    }

    /// What `apply` would answer to a sender's next command; nothing changes.
    pub fn answer(&self, bank: BankId, command: &Command) -> Result<Outcome, Memory>
        requires count { slice_index self.now.counts bank < 2 ^ 32 - 1 }
        requires command { IsCommandOf self.now bank command.now }
        ensures answers { IfOk result (AnswersEach self.now bank command.now) }
        ensures tells { IfOk result (TellsByView self.now bank command.now) }
        ensures fills { IfOk result (FillsByView self.now bank command.now) }
    {
        let outcome = self.find_answer(bank, command)?;
        Ok(outcome)
    }

    /// The market's answer to a sender's next command.
    fn find_answer(&self, bank: BankId, command: &Command) -> Result<Outcome, Memory>
        requires count { slice_index self.now.counts bank < 2 ^ 32 - 1 }
        requires command { IsCommandOf self.now bank command.now }
        ensures answers { IfOk result (AnswersEach self.now bank command.now) }
    {
        match *command {
            Command::Order {
                side,
                pair,
                price,
                lots,
                life,
            } => {
                let incoming = self.incoming(bank, side, pair, price, lots);
                self.ordered(&incoming, life)
            }
            Command::Cancel { pair, number } => {
                Ok(cancel_answer(order_of(&self.orders, pair, bank, number)))
            }
            Command::Reduce { pair, number, lots } => Ok(reduce_answer(
                lots,
                order_of(&self.orders, pair, bank, number),
            )),
            Command::Pull { pair } => Ok(Outcome::Pulled {
                count: count_of(&self.orders, pair, bank),
            }),
            Command::Line { bank: other, limit } => self.line_set(bank, other, limit),
            Command::Total { limit } => self.total_set(bank, limit),
            Command::Settle { a, b, units } => self.settled(a, b, units),
            Command::Show { bank: other } => Ok(self.shown(bank, other)),
            Command::Book { pair } => self.depth(bank, pair),
            Command::Bad { reason } => Ok(Outcome::Rejected { reason }),
        }
    }

    /// The bank's local book of the pair: what it could take now, by price. It is truthful, and rests on what the bank sees
    /// alone.
    pub fn depth(&self, bank: BankId, pair: PairId) -> Result<Outcome, Memory>
        requires bank { bank < self.now.credit.banks }
        requires pair { pair < length self.now.weights }
        ensures shows { IfOk result (ShowsEach self.now bank pair) }
        ensures view { IfOk result (ShowsByView self.now bank pair) }
        ensures truthful { IfOk result (ShowsTruly self.now bank pair) }
    {
        let bids = self.levels(bank, pair, Side::Sell)?;
        let asks = self.levels(bank, pair, Side::Buy)?;
        Ok(Outcome::Depth { bids, asks })
    }

    /// The first ten levels of what an order of a bank would take at any price, were it to want all there is.
    fn levels(&self, bank: BankId, pair: PairId, side: Side) -> Result<LevelList, Memory>
        requires pair { pair < length self.now.weights }
        ensures levels { IfOk result (ProbedIn self.now bank pair side) }
    {
        let unlimited = SweptOrder {
            bank,
            number: 0,
            pair,
            side,
            price: any_price(side),
            left: lots_against(&self.orders, pair, side),
            arrival: self.arrivals,
        };
        let weight = self.weights[pair.index()];
        let lesser = affordable(self.credit.room(bank), weight, &unlimited);
        let lines = lines_of(&self.credit, bank);
        first_levels(
            *self.orders.allocator(),
            &self.orders,
            &lesser,
            lines,
            weight,
        )
    }

    /// An order command as it comes in.
    fn incoming(
        &self,
        bank: BankId,
        side: Side,
        pair: PairId,
        price: Price,
        lots: Lots,
    ) -> SweptOrder
        requires sender { bank < length self.now.counts }
        requires count { slice_index self.now.counts bank < 2 ^ 32 - 1 }
        ensures taker { result ≡ taker_from self.now bank side pair price lots }
    {
        SweptOrder {
            bank,
            number: self.counts[bank.index()] + 1,
            pair,
            side,
            price,
            left: u128::from(lots.count()),
            arrival: self.arrivals,
        }
    }

    /// What an order answers by its life.
    fn ordered(&self, incoming: &SweptOrder, life: Life) -> Result<Outcome, Memory>
        requires pair { incoming.now.pair < length self.now.weights }
        requires left { incoming.now.left ≤ 10 ^ 6 }
        ensures ordered { IfOk result (OrderedIn self.now incoming.now life) }
    {
        let plan = self.plan(incoming)?;
        let rests = match life {
            Life::Day => plan.left,
            Life::Ioc => 0,
            Life::Fok if plan.left > 0 => return Ok(Outcome::Killed),
            Life::Fok => 0,
        };
        Ok(Outcome::Ordered {
            filled: incoming.left as u32 - plan.left,
            rests,
            fills: plan.fills,
        })
    }

    /// The sweep of an order that wants at most what an order can.
    fn plan(&self, incoming: &SweptOrder) -> Result<Plan, Memory>
        requires pair { incoming.now.pair < length self.now.weights }
        requires left { incoming.now.left ≤ 10 ^ 6 }
        ensures planned { IfOk result (λ plan. PlannedIn self.now incoming.now plan.fills plan.left) }
        ensures left { IfOk result (λ plan. plan.left ≤ incoming.now.left) }
    {
        let sweep = self.sweep(incoming)?;
        Ok(Plan {
            fills: sweep.fills,
            left: sweep.left as u32,
        })
    }

    /// The sweep of an order as the book stands; nothing changes.
    fn sweep(&self, incoming: &SweptOrder) -> Result<Sweep, Memory>
        requires pair { incoming.now.pair < length self.now.weights }
        ensures planned { IfOk result (λ sweep. PlannedIn self.now incoming.now sweep.fills sweep.left) }
        ensures left { IfOk result (λ sweep. sweep.left ≤ incoming.now.left) }
    {
        let weight = self.weights[incoming.pair.index()];
        paid_sweep(
            *self.orders.allocator(),
            &self.orders,
            incoming,
            &self.credit,
            weight,
        )
    }

    /// What a bank's asking for a limit answers.
    fn line_set(&self, bank: BankId, other: BankId, asked: Units) -> Result<Outcome, Memory>
        ensures set { IfOk result (LineSetIn self.now bank other asked) }
        ensures valid { IsCredit self.now.credit }
    {
        let alloc = *self.orders.allocator();
        self.credit.told();
        let mut credit = self.credit.copy(alloc)?;
        let limit = credit.set_limit(bank, other, asked);
        let fills = raised_fills(alloc, &self.orders, &mut credit, &self.weights)?;
        Ok(Outcome::LineSet { limit, fills })
    }

    /// What a bank's asking for a total answers.
    fn total_set(&self, bank: BankId, asked: Units) -> Result<Outcome, Memory>
        ensures set { IfOk result (TotalSetIn self.now bank asked) }
        ensures valid { IsCredit self.now.credit }
    {
        let alloc = *self.orders.allocator();
        self.credit.told();
        let mut credit = self.credit.copy(alloc)?;
        let limit = credit.set_total(bank, asked);
        let fills = raised_fills(alloc, &self.orders, &mut credit, &self.weights)?;
        Ok(Outcome::TotalSet { limit, fills })
    }

    /// What a settlement between two banks answers.
    fn settled(&self, a: BankId, b: BankId, asked: Units) -> Result<Outcome, Memory>
        ensures settled { IfOk result (SettledIn self.now a b asked) }
        ensures valid { IsCredit self.now.credit }
    {
        let alloc = *self.orders.allocator();
        self.credit.told();
        let mut credit = self.credit.copy(alloc)?;
        let given = credit.give_back(a, b, asked);
        let fills = raised_fills(alloc, &self.orders, &mut credit, &self.weights)?;
        Ok(Outcome::Settled { given, fills })
    }

    /// The line of a bank with another.
    fn shown(&self, bank: BankId, other: BankId) -> Outcome
        ensures shown { result ≡ shown_in self.now bank other }
    {
        let eff = self.credit.line(bank, other);
        Outcome::Shown {
            limit: self.credit.limit(bank, other),
            used: self.credit.used(bank, other),
            eff: Units::new(eff).unwrap(),
        }
    }

    /// Carries a recorded entry: makes what came of its command, with no search, and counts it.
    ///
    /// The host stands for the state after the entry. After `Memory` it is as it was.
    pub fn follow(&mut self, entry: &Entry) -> Result<(), Memory>
        requires next { IsNextOf self.old entry.now }
        ensures follows { OnOk result (FollowsOn self.old self.new entry.now) }
        ensures counts { OnOk result (self.new.counts ≡ slice_set self.old.counts entry.now.bank entry.now.number) }
        ensures banks { OnOk result (self.new.credit.banks ≡ self.old.credit.banks) }
        ensures weights { OnOk result (self.new.weights ≡ self.old.weights) }
        ensures memory { OnErr result (self.new ≡ self.old) }
    {
        self.carry_out(entry.bank, &entry.command, &entry.outcome)
    }

    /// How many commands a sender of the session has sent; 0 for any other bank.
    pub fn count(&self, bank: BankId) -> u32
        ensures value { result ≡ slice_index self.now.counts bank }
    {
        match self.counts.get(bank.index()) {
            Some(count) => *count,
            None => 0,
        }
    }

    /// How many orders rest.
    pub fn resting(&self) -> u64
        ensures value { result ≡ length self.now.orders }
    {
        self.orders.len() as u64
    }

    /// Makes what came of a command, and counts it.
    fn carry_out(
        &mut self,
        bank: BankId,
        command: &Command,
        outcome: &Outcome,
    ) -> Result<(), Memory>
        requires sender { bank < length self.old.counts }
        requires count { slice_index self.old.counts bank < 2 ^ 32 - 1 }
        requires command { IsCommandOf self.old bank command.now }
        ensures follows { OnOk result (FollowsEach self.old self.new bank command.now outcome.now) }
        ensures counts { OnOk result (self.new.counts ≡ slice_set self.old.counts bank (slice_index self.old.counts bank + 1)) }
        ensures banks { OnOk result (self.new.credit.banks ≡ self.old.credit.banks) }
        ensures weights { OnOk result (self.new.weights ≡ self.old.weights) }
        ensures memory { OnErr result (self.new ≡ self.old) }
    {
        self.change(bank, command, outcome)?;
        self.count_command(bank);
        Ok(())
    }

    /// Makes what came of a command, which is not counted yet.
    fn change(&mut self, bank: BankId, command: &Command, outcome: &Outcome) -> Result<(), Memory>
        requires sender { bank < length self.old.counts }
        requires count { slice_index self.old.counts bank < 2 ^ 32 - 1 }
        requires command { IsCommandOf self.old bank command.now }
        ensures changes { OnOk result (ChangesEach self.old self.new bank command.now outcome.now) }
        ensures counts { self.new.counts ≡ self.old.counts }
        ensures banks { self.new.credit.banks ≡ self.old.credit.banks }
        ensures weights { self.new.weights ≡ self.old.weights }
        ensures memory { OnErr result (self.new ≡ self.old) }
    {
        match *command {
            Command::Order {
                side,
                pair,
                price,
                lots,
                ..
            } => {
                let incoming = self.incoming(bank, side, pair, price, lots);
                return self.carry(&incoming, outcome.fills(), rests_of(outcome));
            }
            Command::Cancel { number, .. } => self.cancel(bank, number, is_done(outcome)),
            Command::Reduce { number, lots, .. } => {
                self.reduce(bank, number, lots, is_done(outcome))
            }
            Command::Pull { pair } => self.pull(bank, pair),
            Command::Line { bank: other, limit } => {
                self.raise_line(bank, other, limit, outcome.fills())
            }
            Command::Total { limit } => self.raise_total(bank, limit, outcome.fills()),
            Command::Settle { a, b, units } => self.settle(a, b, units, outcome.fills()),
            Command::Show { .. } | Command::Book { .. } | Command::Bad { .. } => {}
        }
        Ok(())
    }

    /// Makes the fills of a sweep, and lets `rests` lots of its taker rest.
    fn carry(&mut self, incoming: &SweptOrder, fills: &[Fill], rests: u32) -> Result<(), Memory>
        ensures valid { IsCredit self.old.credit }
        ensures carried { rests ≤ 10 ^ 6 → OnOk result (self.new ≡ order_carried self.old incoming.now rests fills.now) }
        ensures counts { self.new.counts ≡ self.old.counts }
        ensures banks { self.new.credit.banks ≡ self.old.credit.banks }
        ensures weights { self.new.weights ≡ self.old.weights }
        ensures memory { OnErr result (self.new ≡ self.old) }
    {
        self.credit.told();
        self.orders.reserve(1)?;
        make_fills(&mut self.orders, &mut self.credit, &self.weights, fills);
        if let Some(left) = Lots::new(rests) {
            self.orders.push_reserved(incoming.at_rest(left));
        }
        Ok(())
    }

    /// Takes an order of a bank out, where its cancel was done.
    fn cancel(&mut self, bank: BankId, number: u32, is_done: bool)
        ensures cancelled { self.new ≡ cancelled_in self.old bank number is_done }
    {
        if is_done {
            take_out(&mut self.orders, bank, number);
        }
    }

    /// Leaves an order of a bank so many lots, where its reduction was done.
    fn reduce(&mut self, bank: BankId, number: u32, left: Lots, is_done: bool)
        ensures reduced { self.new ≡ reduced_in self.old bank number left is_done }
    {
        if is_done {
            leave_lots(&mut self.orders, bank, number, left);
        }
    }

    /// Takes all orders of a bank in a pair out.
    fn pull(&mut self, bank: BankId, pair: PairId)
        ensures pulled { self.new ≡ record self.old { orders = without_orders pair bank self.old.orders } }
    {
        take_out_all(&mut self.orders, pair, bank);
    }

    /// Sets the limit that a bank asks for on another, and makes the fills of that credit change.
    fn raise_line(&mut self, bank: BankId, other: BankId, asked: Units, fills: &[Fill])
        ensures valid { IsCredit self.old.credit }
        ensures raised { self.new ≡ line_raised_in self.old bank other asked fills.now }
    {
        self.credit.set_limit(bank, other, asked);
        self.fill(fills);
    }

    /// Sets the total that a bank asks for, and makes the fills of that credit change.
    fn raise_total(&mut self, bank: BankId, asked: Units, fills: &[Fill])
        ensures valid { IsCredit self.old.credit }
        ensures raised { self.new ≡ total_raised_in self.old bank asked fills.now }
    {
        self.credit.set_total(bank, asked);
        self.fill(fills);
    }

    /// Gives back between two banks, and makes the fills of that credit change.
    fn settle(&mut self, a: BankId, b: BankId, asked: Units, fills: &[Fill])
        ensures valid { IsCredit self.old.credit }
        ensures raised { self.new ≡ settled_raised_in self.old a b asked fills.now }
    {
        self.credit.give_back(a, b, asked);
        self.fill(fills);
    }

    /// Makes these fills.
    fn fill(&mut self, fills: &[Fill])
        ensures filled { self.new ≡ filled_in self.old fills.now }
    {
        make_fills(&mut self.orders, &mut self.credit, &self.weights, fills);
    }

    /// Counts a command of a sender.
    fn count_command(&mut self, bank: BankId)
        requires sender { bank < length self.old.counts }
        requires count { slice_index self.old.counts bank < 2 ^ 32 - 1 }
        ensures counts { self.new ≡ counted_in self.old bank }
    {
        self.counts[bank.index()] += 1;
        self.arrivals += 1;
    }
}
