//! The course that a credit change takes, by what its command is.
ghost use Rattle.std.specs.Prelude.{◌≡◌, ◌≢◌, ◌<◌, ◌-◌, ◌*◌, true, max, IfOk};
ghost use Rattle.fx_amounts.specs.Quantity.{IsWeight};
ghost use Rattle.fx_rules.specs.Session.{Header};
ghost use Rattle.fx_rules.specs.State as state;
ghost use Rattle.fx_rules.specs.State.{State};
ghost use Rattle.fx_rules.specs.Raise.{Turned};
ghost use Rattle.credit_lines.specs.Credit.{IsCredit};
ghost use Rattle.fx_rules.specs.declared.command.Command.TheVariants.{Line, Settle, Total};
ghost use Rattle.credit_raise.specs.Two.{lots_of};
ghost use Rattle.credit_raise.specs.UnderWay.{HasBanks, IsChange, IsReady, answer_of, course_of, set_of};
ghost use Rattle.credit_raise.specs.inside.UnderWay.{AreParties, HasCredit, IsCourse, IsCourseOf, IsSwept, MakesNone, course_behind};

use crate::own_lines::OwnLines;
use crate::raise::{is_idle, plan_raise};
use crate::sweep::plan_sweep;
use credit_lines::{CreditLines, at_most};
use fx_amounts::{BankId, Memory, Units};
use fx_rules::{Command, Fill, FillList, Outcome, Plan};
use global_book::PairBook;
use price_levels::Steps;
use std::alloc::Global;
use std::marker::Brand;
use std::sync::ledger::{Blank, Ledger};

/// The course of a credit change.
#[derive(Drop)]
pub(crate) enum Course {
    /// Of a limit, which opens one line alone, between two banks.
    Raised {
        /// The bank that the sender sets it on.
        other: BankId,
        /// The limit that is set, in credit units.
        limit: Units,
        /// What the fills so far leave of the line between the two banks, in credit units.
        line: Units,
    },
    /// Of a total or a settlement, which can open lines between a bank and all others.
    Swept {
        /// The lines, with the change and the fills so far made.
        lines: OwnLines,
        /// The total that is set, or the units that are given back.
        set: u64,
    },
}

impl Course {
    /// The course of a sender's credit change before the first pair's turn, by the lines as they stand. A limit takes no memory,
    /// any other change takes it for a copy of the lines.
    #[inline(always)]
    pub(crate) fn open(
        alloc: Global,
        lines: &CreditLines,
        sender: BankId,
        command: &Command,
    ) -> Result<Course, Memory>
        requires change { IsChange lines.now.banks sender command.now }
        ensures value { IfOk result (λ course. course ≡ course_of lines.now sender command.now) }
        ensures valid { IfOk result (IsCourse sender) }
        ensures of { IfOk result (IsCourseOf command.now) }
        ensures lines { IfOk result (λ course. IsCredit lines.now) }
    {
        match *command {
            Command::Line { bank, limit } => Ok(raised(lines, sender, bank, limit)),
            Command::Total { limit } => totalled(alloc, lines, sender, limit),
            Command::Settle { a, b, units } => settled(alloc, lines, sender, a, b, units),
            _ => unreachable!(),
        }
    }

    /// The plan of the next pair, whose book this is, where a lot costs `weight` credit units, 1 to 10^6.
    #[inline(always)]
    pub(crate) fn plan(
        &self,
        alloc: Global,
        book: &PairBook,
        weight: u32,
        sender: BankId,
    ) -> Result<Plan, Memory>
        requires valid { IsCourse sender self.now }
        requires weight { IsWeight weight }
        requires banks { HasBanks self.now book.now.banks }
        ensures fills { IfOk result (λ plan. (h : Header) (S : State) → IsReady h S book.now weight sender self.now → Turned h book.now.pair S book.now.orders plan.fills) }
        ensures parties { IfOk result (λ plan. AreParties book.now.pair sender self.now plan.fills) }
    {
        self.counted_plan::<Brand>(alloc, book, weight, sender, Blank::new(1))
    }

    /// The same, with a ledger for the steps.
    #[inline(always)]
    fn counted_plan<L: Ledger>(
        &self,
        alloc: Global,
        book: &PairBook,
        weight: u32,
        sender: BankId,
        blank: Blank,
    ) -> Result<Plan, Memory>
        requires valid { IsCourse sender self.now }
        requires weight { IsWeight weight }
        requires banks { HasBanks self.now book.now.banks }
        requires name { blank.name ≡ L.name }
        requires parts { blank.parts ≡ L.parts }
        requires some { 0 < blank.parts }
        ensures fills { IfOk result (λ plan. (h : Header) (S : State) → IsReady h S book.now weight sender self.now → Turned h book.now.pair S book.now.orders plan.fills) }
        ensures parties { IfOk result (λ plan. AreParties book.now.pair sender self.now plan.fills) }
    {
        let mut steps = Steps::<L>::new(blank);
        match self {
            Course::Raised { other, line, .. } => {
                plan_raise(alloc, book, weight, sender, *other, *line, &mut steps)
            }
            Course::Swept { lines, .. } => {
                plan_sweep(alloc, book, lines.get(), weight, &mut steps)
            }
        }
    }

    /// Whether it is plain, with no look at an order, that the next pair makes nothing of a limit. The pair's book is this, and a lot
    /// costs `weight` credit units there, 1 to 10^6.
    #[inline(always)]
    pub(crate) fn is_idle(&self, book: &PairBook, weight: u32, sender: BankId) -> bool
        requires valid { IsCourse sender self.now }
        requires weight { IsWeight weight }
        ensures none { result ≡ true → MakesNone book.now weight sender self.now }
    {
        self.counted_idle::<Brand>(book, weight, sender, Blank::new(1))
    }

    /// The same, with a ledger for the steps.
    #[inline(always)]
    fn counted_idle<L: Ledger>(
        &self,
        book: &PairBook,
        weight: u32,
        sender: BankId,
        blank: Blank,
    ) -> bool
        requires valid { IsCourse sender self.now }
        requires weight { IsWeight weight }
        requires name { blank.name ≡ L.name }
        requires parts { blank.parts ≡ L.parts }
        requires some { 0 < blank.parts }
        ensures none { result ≡ true → MakesNone book.now weight sender self.now }
    {
        let mut steps = Steps::<L>::new(blank);
        match self {
            Course::Raised { other, line, .. } => {
                is_idle(book, weight, sender, *other, *line, &mut steps)
            }
            Course::Swept { .. } => false,
        }
    }

    /// Fills in a pair are paid for, where a lot costs `weight` credit units. The pair's book was made for so many banks.
    pub(crate) fn follow(&mut self, banks: usize, weight: u32, fills: &[Fill])
        requires valid { HasCredit self.old }
        requires weight { IsWeight weight }
        requires banks { HasBanks self.old banks }
        ensures value { self.new ≡ course_behind weight fills.now self.old }
        ensures valid { HasCredit self.new }
    {
        match self {
            Course::Raised { line, .. } => *line = line_left(*line, weight, fills),
            Course::Swept { lines, .. } => lines.pay(banks, weight, fills),
        }
    }

    /// What the command answers whose course this is, once these are all its fills.
    pub(crate) fn answer(&self, command: &Command, fills: FillList) -> Outcome
        requires of { IsCourseOf command.now self.now }
        ensures value { result ≡ answer_of command.now (set_of self.now) fills }
    {
        match self {
            Course::Raised { limit, .. } => Outcome::LineSet {
                limit: *limit,
                fills,
            },
            Course::Swept { set, .. } => swept_answer(command, *set, fills),
        }
    }
}

/// The course of a total that the sender asks for.
#[inline(never)]
fn totalled(
    alloc: Global,
    lines: &CreditLines,
    sender: BankId,
    asked: Units,
) -> Result<Course, Memory>
    requires sender { sender < lines.now.banks }
    ensures value { IfOk result (λ course. course ≡ course_of lines.now sender (Total asked)) }
    ensures valid { IfOk result (IsCourse sender) }
    ensures of { IfOk result (IsCourseOf (Total asked)) }
    ensures lines { IfOk result (λ course. IsCredit lines.now) }
{
    let mut lines = lines.copy()?;
    let set = lines.set_total(sender, asked);
    let lines = OwnLines::new(alloc, lines)?;
    Ok(Course::Swept { lines, set })
}

/// The course of a sender's settlement of so many units between two banks.
#[inline(never)]
fn settled(
    alloc: Global,
    lines: &CreditLines,
    sender: BankId,
    a: BankId,
    b: BankId,
    asked: Units,
) -> Result<Course, Memory>
    requires first { a < lines.now.banks }
    requires second { b < lines.now.banks }
    requires differ { a ≢ b }
    ensures value { IfOk result (λ course. course ≡ course_of lines.now sender (Settle a b asked)) }
    ensures valid { IfOk result (IsCourse sender) }
    ensures of { IfOk result (IsCourseOf (Settle a b asked)) }
    ensures lines { IfOk result (λ course. IsCredit lines.now) }
{
    let mut lines = lines.copy()?;
    let set = lines.give_back(a, b, asked).get();
    let lines = OwnLines::new(alloc, lines)?;
    Ok(Course::Swept { lines, set })
}

/// The course of a limit that the sender asks for on another bank.
fn raised(lines: &CreditLines, sender: BankId, other: BankId, asked: Units) -> Course
    requires sender { sender < lines.now.banks }
    requires other { other < lines.now.banks }
    requires differ { sender ≢ other }
    ensures value { result ≡ course_of lines.now sender (Line other asked) }
    ensures valid { IsCourse sender result }
    ensures of { IsCourseOf (Line other asked) result }
    ensures lines { IsCredit lines.now }
{
    let used = lines.used(sender, other);
    let limit = greater(asked, used);
    let back = lines.limit(other, sender);
    let left = left_of(limit.min(back), used);
    Course::Raised {
        other,
        limit,
        line: at_most(lines.room(sender), at_most(lines.room(other), left)),
    }
}

/// What a total or a settlement answers that sets this, or gives it back.
fn swept_answer(command: &Command, set: u64, fills: FillList) -> Outcome
    requires of { IsSwept command.now set }
    ensures value { result ≡ answer_of command.now set fills }
{
    match command {
        Command::Settle { .. } => Outcome::Settled {
            given: Units::new(set).unwrap(),
            fills,
        },
        Command::Total { .. } => Outcome::TotalSet { limit: set, fills },
        _ => unreachable!(),
    }
}

/// The greater of what is asked and what is used.
fn greater(asked: Units, used: Units) -> Units
    ensures value { result ≡ max asked used }
{
    if asked.get() < used.get() {
        used
    } else {
        asked
    }
}

/// What is left of so many credit units once so many are used; none where more are.
fn left_of(units: Units, used: Units) -> Units
    ensures value { result ≡ units - used }
{
    Units::new(units.get().saturating_sub(used.get())).unwrap()
}

/// What these fills leave of a line, where a lot costs `weight` credit units.
fn line_left(line: Units, weight: u32, fills: &[Fill]) -> Units
    requires weight { IsWeight weight }
    ensures value { result ≡ line - lots_of fills.now * weight }
{
    let mut left = line;
    for fill in fills {
        left = left_of(left, fill.lots.cost(weight));
    }
    left
}
