ghost use Rattle.std.specs.Prelude.{ℕ, ◌≡◌, ◌≢◌, ◌≤◌, ◌<◌, ◌+◌, ◌-◌, ◌*◌, ◌^◌, IfOk, None, false, length, map, max, min, slice_index, slice_index_or};
ghost use Rattle.fx_amounts.specs.Quantity.{IsWeight};
ghost use Rattle.fx_rules.specs.Lists.{below};
ghost use Rattle.fx_rules.specs.Session.{bank_count, opening_total};
ghost use Rattle.credit_lines.specs.Credit.{IsCredit, limit_in, used_in, total_in, spent_in, room_in, line_in, reach_in, opened, taken, given_back, limited, totalled};
ghost use Rattle.credit_lines.specs.inside.Credit.{AreLines, lined, both_set};
ghost use Rattle.credit_lines.specs.Market.{followed, IsNextOf, FollowsOn};

use crate::amounts::{at_most, difference, greater, lesser, sum};
use crate::following::{set_asked, take_all};
use crate::places::{banks_at, place, shared_place};
use fx_amounts::{BankId, Memory, Units};
use fx_rules::{Entry, Session};
use std::alloc::Global;
use std::marker::Model;

/// The limits that a session's banks set on each other, what each two of them have used, and the total that a bank may have over all
/// others, in credit units. No line is ever exceeded: what two banks have used is at most the limit that each sets on the other,
/// and what a bank has spent, which is what it has used with all others, is at most its total.
#[derive(Debug, Drop)]
pub struct CreditLines {
    banks: usize,
    /// At a place of two banks, the limit that the first sets on the second.
    limits: Vec<Units>,
    /// At the shared place of two banks, what they have used.
    uses: Vec<Units>,
    /// At a place of two banks, what their limits leave between them: what a bank has with each other lies in its row.
    lines: Vec<Units>,
    /// Each bank's total, or that it has none.
    totals: Vec<Option<u64>>,
    /// What each bank has spent.
    spent: Vec<u64>,
    /// Whether any bank has a total. Where none has, a line is what the limits leave.
    bounded: bool,
}

impl Model for CreditLines {
    ghost use Rattle.credit_lines.specs.Credit.{Credit};
    ghost use Rattle.credit_lines.specs.inside.Credit.{AreKept};

    ghost Value = { Credit };

    ghost view = { λ l. record { banks = l.banks; limits = l.limits.items; uses = l.uses.items; totals = l.totals.items } };

    ghost invariant = { λ l. let credit : Credit = record { banks = l.banks; limits = l.limits.items; uses = l.uses.items; totals = l.totals.items } in
        AreKept credit l.lines.items l.spent.items l.bounded };
}

impl CreditLines {
    /// The lines with which a session opens: its opening limits and totals, and no use. `Memory` when out of memory; no other
    /// call but a copy takes any.
    pub fn open(alloc: Global, session: &Session) -> Result<CreditLines, Memory>
        ensures value { IfOk result (λ lines. lines ≡ opened session.now) }
        ensures valid { IfOk result IsCredit }
    {
        let banks = session.banks().len();
        let unused = Units::new(0).unwrap();
        let totals = opening_totals(alloc, session)?;
        let bounded = is_any_total(&totals);
        Ok(CreditLines {
            banks,
            limits: opening_limits(alloc, session)?,
            uses: vec![in alloc; unused; banks * banks]?,
            lines: opening_lines(alloc, session)?,
            totals,
            spent: vec![in alloc; 0; banks]?,
            bounded,
        })
    }

    /// Equal lines, in memory of their own. At `Memory` there are no new lines, and these are as they were.
    pub fn copy(&self) -> Result<CreditLines, Memory>
        ensures equal { IfOk result (λ lines. lines ≡ self.now) }
        ensures valid { IfOk result IsCredit }
    {
        let alloc = *self.limits.allocator();
        Ok(CreditLines {
            banks: self.banks,
            limits: Vec::from_slice(alloc, &self.limits)?,
            uses: Vec::from_slice(alloc, &self.uses)?,
            lines: Vec::from_slice(alloc, &self.lines)?,
            totals: Vec::from_slice(alloc, &self.totals)?,
            spent: Vec::from_slice(alloc, &self.spent)?,
            bounded: self.bounded,
        })
    }

    /// The limit that bank `i` sets on bank `j`, 0 to 10^15 credit units.
    pub fn limit(&self, i: BankId, j: BankId) -> Units
        requires setter { i < self.now.banks }
        requires other { j < self.now.banks }
        requires differ { i ≢ j }
        ensures value { result ≡ limit_in self.now i j }
        ensures valid { IsCredit self.now }
    {
        self.limits[place(self.banks, i, j)]
    }

    /// What banks `i` and `j` have used of the line between them, in credit units: at most the limit of each on the other.
    pub fn used(&self, i: BankId, j: BankId) -> Units
        requires first { i < self.now.banks }
        requires second { j < self.now.banks }
        requires differ { i ≢ j }
        ensures value { result ≡ used_in self.now i j }
        ensures valid { IsCredit self.now }
    {
        self.uses[shared_place(self.banks, i, j)]
    }

    /// The total that bank `i` has over all others, in credit units; `None` exactly where it has none.
    pub fn total(&self, i: BankId) -> Option<u64>
        requires { i < self.now.banks }
        ensures value { result ≡ total_in self.now i }
        ensures valid { IsCredit self.now }
    {
        self.totals[i.index()]
    }

    /// What bank `i` has spent, in credit units: what it has used with all others.
    pub fn spent(&self, i: BankId) -> u64
        requires { i < self.now.banks }
        ensures value { result ≡ spent_in self.now i }
        ensures most { result ≤ 64 * 10 ^ 15 }
        ensures valid { IsCredit self.now }
    {
        self.spent[i.index()]
    }

    /// What the total of bank `i` leaves of what it has spent, in credit units; `None` exactly where it has no total.
    pub fn room(&self, i: BankId) -> Option<u64>
        requires { i < self.now.banks }
        ensures value { result ≡ room_in self.now i }
        ensures valid { IsCredit self.now }
    {
        match self.total(i) {
            Some(most) => Some(most - self.spent(i)),
            None => None,
        }
    }

    /// The line between banks `i` and `j`, in credit units: the lesser of their two limits, less what they have used, and no more
    /// than the total of either leaves.
    pub fn eff(&self, i: BankId, j: BankId) -> Units
        requires first { i < self.now.banks }
        requires second { j < self.now.banks }
        requires differ { i ≢ j }
        ensures value { result ≡ line_in self.now i j }
        ensures valid { IsCredit self.now }
    {
        let left = self.lines[place(self.banks, i, j)];
        if self.bounded {
            at_most(self.room(i), at_most(self.room(j), left))
        } else {
            left
        }
    }

    /// The lots that the line between banks `i` and `j` allows, 0 to 10^15, at `weight` credit units a lot, 1 to 10^6.
    /// Only trials call it.
    pub fn reach(&self, i: BankId, j: BankId, weight: u32) -> u64
        requires first { i < self.now.banks }
        requires second { j < self.now.banks }
        requires differ { i ≢ j }
        requires weight { IsWeight weight }
        ensures value { result ≡ reach_in self.now i j weight }
        ensures most { result ≤ 10 ^ 15 }
        ensures valid { IsCredit self.now }
    {
        self.eff(i, j).get() / u64::from(weight)
    }

    /// Banks `i` and `j` use so many credit units more of the line between them; it has to be that long.
    pub fn take(&mut self, i: BankId, j: BankId, units: Units)
        requires first { i < self.old.banks }
        requires second { j < self.old.banks }
        requires differ { i ≢ j }
        requires credit { units ≤ line_in self.old i j }
        ensures value { self.new ≡ taken self.old i j units }
        ensures valid { IsCredit self.new }
    {
        let at = shared_place(self.banks, i, j);
        self.uses[at] = sum(self.uses[at], units);
        let line = difference(self.lines[place(self.banks, i, j)], units);
        set_line(&mut self.lines, self.banks, i, j, line);
        raise_spent(&mut self.spent, i, j, units);
    }

    /// Gives back so many credit units of what banks `i` and `j` have used, or all of it where that is less. Answers how many.
    pub fn give_back(&mut self, i: BankId, j: BankId, units: Units) -> Units
        requires first { i < self.old.banks }
        requires second { j < self.old.banks }
        requires differ { i ≢ j }
        ensures given { result ≡ min units (used_in self.old i j) }
        ensures value { self.new ≡ given_back self.old i j result }
        ensures valid { IsCredit self.new }
    {
        let at = shared_place(self.banks, i, j);
        let used = self.uses[at];
        let given = lesser(units, used);
        self.uses[at] = difference(used, given);
        let line = sum(self.lines[place(self.banks, i, j)], given);
        set_line(&mut self.lines, self.banks, i, j, line);
        lower_spent(&mut self.spent, i, j, given);
        given
    }

    /// Bank `i` sets its limit on bank `j`, in credit units. Answers the limit set: the greater of what is asked and what
    /// the two banks have used.
    pub fn set(&mut self, i: BankId, j: BankId, limit: Units) -> Units
        requires setter { i < self.old.banks }
        requires other { j < self.old.banks }
        requires differ { i ≢ j }
        ensures limit { result ≡ max limit (used_in self.old i j) }
        ensures value { self.new ≡ limited self.old i j result }
        ensures valid { IsCredit self.new }
    {
        let used = self.used(i, j);
        let set = greater(limit, used);
        let back = self.limits[place(self.banks, j, i)];
        self.limits[place(self.banks, i, j)] = set;
        let line = difference(lesser(set, back), used);
        set_line(&mut self.lines, self.banks, i, j, line);
        set
    }

    /// Bank `i` sets its total over all others, in credit units. Answers the total set: the greater of what is asked and what the bank
    /// has spent.
    pub fn set_total(&mut self, i: BankId, limit: Units) -> u64
        requires { i < self.old.banks }
        ensures limit { result ≡ max limit (spent_in self.old i) }
        ensures most { result ≤ 64 * 10 ^ 15 }
        ensures value { self.new ≡ totalled self.old i result }
        ensures valid { IsCredit self.new }
    {
        let set = limit.get().max(self.spent(i));
        self.totals[i.index()] = Some(set);
        self.bounded = true;
        set
    }

    /// Follows an entry of a history of the session: sets the limit or the total that its command asks for, or gives back the units,
    /// and then takes what each of its fills uses. The entry is the next step of a state that the lines stand for; then they stand
    /// for the state after it. It takes no memory.
    #[inline(always)]
    pub fn follow(&mut self, session: &Session, entry: &Entry)
        requires next { IsNextOf session.now self.old entry.now }
        ensures value { self.new ≡ followed session.now self.old entry.now }
        ensures follows { FollowsOn session.now self.old self.new entry.now }
        ensures valid { IsCredit self.new }
    {
        let _valid = self.banks;
        set_asked(self, entry.bank, &entry.command);
        take_all(self, session, entry.outcome.fills());
    }
}

/// Sets the line between two banks, in the rows of both.
fn set_line(lines: &mut Vec<Units>, banks: usize, i: BankId, j: BankId, line: Units)
    requires banks { banks ≤ 64 }
    requires first { i < banks }
    requires second { j < banks }
    requires full { length lines.old.items ≡ banks * banks }
    ensures { lines.new.items ≡ lined banks lines.old.items i j line }
{
    lines[place(banks, i, j)] = line;
    lines[place(banks, j, i)] = line;
}

/// Each of two banks has spent so many credit units more.
fn raise_spent(spent: &mut Vec<u64>, i: BankId, j: BankId, units: Units)
    requires first { i < length spent.old.items }
    requires second { j < length spent.old.items }
    requires most { slice_index spent.old.items i ≤ 64 * 10 ^ 15 }
    requires most_second { slice_index spent.old.items j ≤ 64 * 10 ^ 15 }
    ensures { spent.new.items ≡ both_set spent.old.items i j (slice_index spent.old.items i + units) (slice_index spent.old.items j + units) }
{
    let first = spent[i.index()] + units.get();
    let second = spent[j.index()] + units.get();
    spent[i.index()] = first;
    spent[j.index()] = second;
}

/// Each of two banks has spent so many credit units less.
fn lower_spent(spent: &mut Vec<u64>, i: BankId, j: BankId, units: Units)
    requires first { i < length spent.old.items }
    requires second { j < length spent.old.items }
    requires least { units ≤ slice_index spent.old.items i }
    requires least_second { units ≤ slice_index spent.old.items j }
    ensures { spent.new.items ≡ both_set spent.old.items i j (slice_index spent.old.items i - units) (slice_index spent.old.items j - units) }
{
    let first = spent[i.index()] - units.get();
    let second = spent[j.index()] - units.get();
    spent[i.index()] = first;
    spent[j.index()] = second;
}

/// The limits that a session opens with, each at the place of its two banks.
fn opening_limits(alloc: Global, session: &Session) -> Result<Vec<Units>, Memory>
    ensures { IfOk result (λ limits. limits.items ≡ session.now.limits) }
{
    let banks = session.banks().len();
    let mut limits = Vec::new(alloc);
    limits.reserve(banks * banks)?;
    for at in 0..banks * banks {
        let (i, j) = banks_at(banks, at);
        limits.push_reserved(session.limit(i, j));
    }
    Ok(limits)
}

/// The lines that a session opens with: at the place of each two banks the lesser of their limits, since nothing is used.
fn opening_lines(alloc: Global, session: &Session) -> Result<Vec<Units>, Memory>
    ensures { IfOk result (λ lines. AreLines (opened session.now) lines.items) }
{
    let banks = session.banks().len();
    let mut lines = Vec::new(alloc);
    lines.reserve(banks * banks)?;
    for at in 0..banks * banks {
        let (i, j) = banks_at(banks, at);
        lines.push_reserved(lesser(session.limit(i, j), session.limit(j, i)));
    }
    Ok(lines)
}

/// The total that each bank opens with, or that it has none.
fn opening_totals(alloc: Global, session: &Session) -> Result<Vec<Option<u64>>, Memory>
    ensures { IfOk result (λ totals. totals.items ≡ map (opening_total session.now) (below (bank_count session.now))) }
{
    let banks = session.banks().len();
    let mut totals = Vec::new(alloc);
    totals.reserve(banks)?;
    for bank in 0..banks {
        totals.push_reserved(session.total(BankId::at(bank)).map(|most| most.get()));
    }
    Ok(totals)
}

/// Whether any bank has a total.
fn is_any_total(totals: &[Option<u64>]) -> bool
    ensures none { result ≡ false → (i : ℕ) → i < length totals.now → slice_index_or totals.now i None ≡ None }
{
    for total in totals {
        if total.is_some() {
            return true;
        }
    }
    false
}
