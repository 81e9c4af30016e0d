//! A credit change over all pairs.
ghost use Rattle.std.specs.Prelude.{ℕ, ◌≡◌, ◌<◌, ◌≤◌, ◌+◌, true, List, length, Some, slice_get, vec_len, vec_capacity, IfOk, OnOk, OnErr};
ghost use Rattle.fx_amounts.specs.Quantity.{IsWeight};
ghost use Rattle.fx_rules.specs.declared.outcome.Entry.{Entry};
ghost use Rattle.fx_rules.specs.Session.{Header, pair_count};
ghost use Rattle.fx_rules.specs.State.{State, orders_in};
ghost use Rattle.fx_rules.specs.Raise.{Turned};
ghost use Rattle.fx_rules.specs.Step.{IsCommand, IsOutcome};
ghost use Rattle.fx_rules.specs.History.{IsLegal, state};
ghost use Rattle.credit_lines.specs.Market.{StandsFor};
ghost use Rattle.credit_raise.specs.UnderWay.{HasBanks, IsChange, IsPairOf, IsReady, IsUnderWay, Makes, fills_of_all, is_change, opened, outcome_of, reached};
ghost use Rattle.credit_raise.specs.inside.UnderWay.{AreParties, HasCredit, idle_plan, with_idle, with_plan};

use crate::course::Course;
use credit_lines::CreditLines;
use fx_amounts::{BankId, Memory, PairId};
use fx_rules::{Command, Fill, FillList, Outcome, Plan};
use global_book::PairBook;
use std::alloc::Global;
use std::marker::Model;

/// Whether a command is a credit change, in which each pair has its turn.
pub fn is_change(command: &Command) -> bool
    ensures value { result ≡ is_change command.now }
{
    matches!(
        command,
        Command::Line { .. } | Command::Total { .. } | Command::Settle { .. }
    )
}

/// A credit change under way: pairs have had their turns, in the order of the header. It changes no lines and no book, but holds
/// what is to be made of them.
#[derive(Drop)]
pub struct CreditChange {
    /// Who sends it.
    sender: BankId,
    command: Command,
    course: Course,
    /// What the pairs that had their turns are to make, up to the last one whose orders were looked at.
    plans: Vec<Plan>,
    /// How many pairs had their turns behind those, and make nothing.
    idle: usize,
    /// What each of these is to make.
    nothing: Plan,
}

impl Model for CreditChange {
    ghost use Rattle.credit_raise.specs.UnderWay.{Change};
    ghost use Rattle.std.specs.Prelude.{◌≡◌, ◌≤◌};
    ghost use Rattle.credit_raise.specs.inside.UnderWay.{IsCourse, IsCourseOf, idle_plan, with_idle};

    ghost Value = { Change };

    ghost view = { λ c. record { sender = c.sender; command = c.command; course = c.course; plans = with_idle c.plans.items c.idle } };

    ghost invariant = { λ c. IsCourse c.sender c.course × IsCourseOf c.command c.course × (c.nothing ≡ idle_plan) × (c.idle ≤ 32) };
}

impl CreditChange {
    /// A sender's credit change before the first pair's turn, by the lines as they stand. In the state of every legal history that
    /// the lines are of, and in which the sender may send it, it is under way. A total and a settlement take memory, for lines of
    /// their own; a limit takes none.
    #[inline(always)]
    pub fn open(
        alloc: Global,
        lines: &CreditLines,
        sender: BankId,
        command: &Command,
    ) -> Result<CreditChange, Memory>
        requires change { IsChange lines.now.banks sender command.now }
        ensures opens { IfOk result (λ change. change ≡ opened lines.now sender command.now) }
        ensures begins { IfOk result (λ change. (h : Header) (entries : List Entry) → IsLegal h entries → StandsFor h (state h entries) lines.now →
            IsCommand h sender command.now → IsUnderWay h (state h entries) change) }
    {
        Ok(CreditChange {
            sender,
            command: *command,
            course: Course::open(alloc, lines, sender, command)?,
            plans: Vec::new(alloc),
            idle: 0,
            nothing: plan_nothing(alloc),
        })
    }

    /// The turn of the next pair, where a lot costs `weight` credit units, 1 to 10^6: what the orders there make of the line, or of
    /// the lines, that the pairs before have left. In every state of which the command was under way, and whose book and weight
    /// these are, it goes on. A limit's turn looks at the orders of its two banks alone, and at none where its line does not pay for a
    /// lot or the best prices of the two do not cross. It takes memory for what is found; after `Memory` all is as it was.
    pub fn pair(&mut self, alloc: Global, book: &PairBook, weight: u32) -> Result<(), Memory>
        requires weight { IsWeight weight }
        requires banks { HasBanks self.old.course book.now.banks }
        requires next { book.now.pair ≡ length self.old.plans }
        ensures goes_on { OnOk result ((h : Header) (S : State) → IsUnderWay h S self.old → IsPairOf h S book.now weight → IsUnderWay h S self.new) }
        ensures turns { OnOk result (length self.new.plans ≡ length self.old.plans + 1) }
        ensures command { self.new.command ≡ self.old.command }
        ensures sender { self.new.sender ≡ self.old.sender }
        ensures banks { (banks : ℕ) → HasBanks self.old.course banks → HasBanks self.new.course banks }
        ensures memory { OnErr result (self.new ≡ self.old) }
    {
        if self.course.is_idle(book, weight, self.sender) {
            // It tells that there are few pairs.
            let _pair = book.pair();
            self.idle += 1;
            return Ok(());
        }
        self.turn(alloc, book, weight)
    }

    /// The same, whatever the orders make.
    #[inline(never)]
    fn turn(&mut self, alloc: Global, book: &PairBook, weight: u32) -> Result<(), Memory>
        requires weight { IsWeight weight }
        requires banks { HasBanks self.old.course book.now.banks }
        requires next { book.now.pair ≡ length self.old.plans }
        ensures goes_on { OnOk result ((h : Header) (S : State) → IsUnderWay h S self.old → IsPairOf h S book.now weight → IsUnderWay h S self.new) }
        ensures turns { OnOk result (length self.new.plans ≡ length self.old.plans + 1) }
        ensures command { self.new.command ≡ self.old.command }
        ensures sender { self.new.sender ≡ self.old.sender }
        ensures banks { (banks : ℕ) → HasBanks self.old.course banks → HasBanks self.new.course banks }
        ensures memory { OnErr result (self.new ≡ self.old) }
    {
        let plan = self.plan_next(alloc, book, weight)?;
        self.add(alloc, plan, book.banks(), weight)
    }

    /// What the orders in one pair make of what is left.
    #[inline(always)]
    fn plan_next(&self, alloc: Global, book: &PairBook, weight: u32) -> Result<Plan, Memory>
        requires weight { IsWeight weight }
        requires banks { HasBanks self.now.course book.now.banks }
        ensures fills { IfOk result (λ plan. (h : Header) (S : State) → IsReady h S book.now weight self.now.sender self.now.course →
            Turned h book.now.pair S book.now.orders plan.fills) }
        ensures parties { IfOk result (λ plan. AreParties book.now.pair self.now.sender self.now.course plan.fills) }
        ensures valid { HasCredit self.now.course }
    {
        self.course.plan(alloc, book, weight, self.sender)
    }

    /// The next pair's plan, where a lot costs `weight` credit units, is this. The pair's book was made for so many banks.
    #[inline(always)]
    fn add(&mut self, alloc: Global, plan: Plan, banks: usize, weight: u32) -> Result<(), Memory>
        requires weight { IsWeight weight }
        requires banks { HasBanks self.old.course banks }
        ensures added { OnOk result (self.new ≡ with_plan self.old plan weight) }
        ensures command { self.new.command ≡ self.old.command }
        ensures sender { self.new.sender ≡ self.old.sender }
        ensures has { (banks : ℕ) → HasBanks self.old.course banks → HasBanks self.new.course banks }
        ensures memory { OnErr result (self.new ≡ self.old) }
    {
        add_idle(alloc, &mut self.plans, self.idle)?;
        self.idle = 0;
        self.course.follow(banks, weight, plan.fills.as_slice());
        self.plans.push_reserved(plan);
        Ok(())
    }

    /// How many pairs had their turns.
    pub fn pairs(&self) -> usize
        ensures value { result ≡ length self.now.plans }
    {
        self.plans.len() + self.idle
    }

    /// What the command answers, once all pairs had their turns: the market's outcome, in every state of which it is under
    /// way. `Memory` where there is no memory for the list of all fills.
    #[inline(always)]
    pub fn outcome(&self, alloc: Global) -> Result<Outcome, Memory>
        ensures value { IfOk result (λ outcome. outcome ≡ outcome_of self.now) }
        ensures answers { IfOk result (λ outcome. (h : Header) (S : State) → IsUnderWay h S self.now → length self.now.plans ≡ pair_count h →
            IsOutcome h S self.now.sender self.now.command outcome) }
    {
        self.told(alloc)
    }

    /// What is set or given back, and all fills so far.
    #[inline(always)]
    fn told(&self, alloc: Global) -> Result<Outcome, Memory>
        ensures value { IfOk result (λ outcome. outcome ≡ outcome_of self.now) }
    {
        let fills = all_fills(alloc, &self.plans)?;
        Ok(self.course.answer(&self.command, FillList::from_vec(fills)))
    }

    /// Whether it is plain, with no look at a plan, that each pair that had its turn makes nothing. Then the pair is, with the change and the
    /// fills so far made, as it was.
    pub fn makes_nothing(&self) -> bool
        ensures none { result ≡ true → (h : Header) (S : State) (pair : ℕ) → IsUnderWay h S self.now → pair < length self.now.plans →
            orders_in pair (reached self.now S).orders ≡ orders_in pair S.orders }
    {
        self.plans.is_empty()
    }

    /// What a pair that had its turn is to make. Carried out in the pair's book, it leaves the pair as the market is with the
    /// change and the fills so far made.
    pub fn plan(&self, pair: PairId) -> &Plan
        requires turned { pair < length self.now.plans }
        ensures value { slice_get self.now.plans pair ≡ Some result.now }
        ensures makes { (h : Header) (S : State) → IsUnderWay h S self.now → Makes S (reached self.now S) pair result.now.fills }
    {
        self.plan_at(pair)
    }

    /// What a pair that had its turn is to make, as it stands in the list of plans.
    fn plan_at(&self, pair: PairId) -> &Plan
        requires turned { pair < length self.now.plans }
        ensures value { slice_get self.now.plans pair ≡ Some result.now }
    {
        match self.plans.get(pair.index()) {
            Some(plan) => plan,
            None => &self.nothing,
        }
    }
}

/// What a pair is to make that makes nothing.
fn plan_nothing(alloc: Global) -> Plan
    ensures value { result ≡ idle_plan }
{
    Plan {
        fills: FillList::from_vec(Vec::new(alloc)),
        left: 0,
    }
}

/// Puts the plans of so many pairs that make nothing behind these, and leaves room for one more. At `Memory` they are as they were.
fn add_idle(alloc: Global, plans: &mut Vec<Plan>, idle: usize) -> Result<(), Memory>
    requires few { idle ≤ 32 }
    ensures room { OnOk result (vec_len plans.new < vec_capacity plans.new) }
    ensures added { OnOk result (plans.new.items ≡ with_idle plans.old.items idle) }
    ensures memory { OnErr result (plans.new.items ≡ plans.old.items) }
{
    plans.reserve(idle + 1)?;
    for _ in 0..idle {
        plans.push_reserved(plan_nothing(alloc));
    }
    Ok(())
}

/// The fills of all these plans, in order.
#[inline(always)]
fn all_fills(alloc: Global, plans: &[Plan]) -> Result<Vec<Fill>, Memory>
    ensures fills { IfOk result (λ fills. fills.items ≡ fills_of_all plans.now) }
{
    if plans.is_empty() {
        return Ok(Vec::new(alloc));
    }
    some_fills(alloc, plans)
}

/// The same, with a walk over the plans.
#[inline(never)]
fn some_fills(alloc: Global, plans: &[Plan]) -> Result<Vec<Fill>, Memory>
    ensures fills { IfOk result (λ fills. fills.items ≡ fills_of_all plans.now) }
{
    let mut fills = Vec::new(alloc);
    for plan in plans {
        let own = plan.fills.as_slice();
        if !own.is_empty() {
            fills.extend_from_slice(own)?;
        }
    }
    Ok(fills)
}
