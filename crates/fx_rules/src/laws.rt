ghost use Rattle.fx_rules.specs.Laws.{SweepsAgree, OutcomesAgree, NextEntriesAgree, LegalIsSound, LegalIsUncrossed, LegalGoesOn, LinesFall, LinesArePlain, OtherPairsStay, OtherCountsStay, CountsAreOwn, ArrivalsFit, TradedIsSent, LocalBooksAreTruthful, FullBooksStay, ViewsTellAll, ViewsShowAll, ViewsFillAll, ViewsFillTotals};

/// State and taker determine a sweep: two sweeps of one taker in one sound state have the same fills in the same order,
/// and leave the taker the same lots.
pub fn sweeps_agree()
    ensures agree { SweepsAgree }
{}

/// State and command determine the outcome: what a bank's command may answer in a sound state is one outcome.
pub fn outcomes_agree()
    ensures agree { OutcomesAgree }
{}

/// A history and a bank's next command determine the entry that follows.
pub fn next_entries_agree()
    ensures agree { NextEntriesAgree }
{}

/// The state of every legal history is sound: orders of the session's banks and pairs in arrival order, numbers in
/// their ranges, between no two banks more used than either's limit or given back than was used, and no bank that has spent
/// more than its total.
pub fn legal_is_sound()
    ensures sound { LegalIsSound }
{}

/// In the state of every legal history no two orders rest crossed in a pair whose owners are different banks with a
/// reach of at least one lot in it.
pub fn legal_is_uncrossed()
    ensures uncrossed { LegalIsUncrossed }
{}

/// A legal history stays one when it goes on by a step of its state.
pub fn legal_goes_on()
    ensures legal { LegalGoesOn }
{}

/// Each step from a sound state lets what the limits of two banks leave fall by the cost of its fills between them and rise by
/// what it gives back between them. What a bank's total leaves falls by the cost of all its fills and rises by what is given
/// back to it. Nothing else changes them. They fall from what the limits and totals leave where the fills begin: as before the
/// step, but for a limit or a total that a credit change has set first.
pub fn lines_fall()
    ensures fall { LinesFall }
{}

/// In a session of version 1 the line between two banks is what the lesser of their limits on each other leaves.
pub fn lines_are_plain()
    ensures plain { LinesArePlain }
{}

/// A step from a sound state leaves the orders of every pair but the one that its command names, and a show, a local
/// book or a line that could not be read leaves those of every pair. (A credit change goes through all pairs.)
pub fn other_pairs_stay()
    ensures stay { OtherPairsStay }
{}

/// An entry raises its own bank's count and no other's.
pub fn other_counts_stay()
    ensures stay { OtherCountsStay }
{}

/// In the state of every legal history each sender's count is the number of its entries.
pub fn counts_are_own()
    ensures own { CountsAreOwn }
{}

/// The next arrival in the state of every legal history is below 2^64.
pub fn arrivals_fit()
    ensures fit { ArrivalsFit }
{}

/// In the state of every legal history the lots of all fills are at most 10^6 for each command that was sent: a fill takes
/// its lots from an order that rests, and no command lets the lots that are filled and those that rest grow together by more.
pub fn traded_is_sent()
    ensures sent { TradedIsSent }
{}

/// A local book in a sound state is truthful: where a side is not empty and its lots are no more than 10^6, an
/// immediate-or-cancel order of that bank for all of them at the side's last price, buying the asks or selling the bids,
/// is filled whole, and its fills by price are the levels shown.
pub fn local_books_are_truthful()
    ensures truthful { LocalBooksAreTruthful }
{}

/// Fills that make more than ten levels make the ten best of them for good: however a sweep goes on behind its first fill of an
/// eleventh price, the local book shows the same.
pub fn full_books_stay()
    ensures stay { FullBooksStay }
{}

/// What a bank is told of a command depends on what it sees alone: two sound states with one view of a bank tell it the
/// same of each of its commands. (The operator has no view.)
pub fn views_tell_all()
    ensures tell { ViewsTellAll }
{}

/// A local book depends on what its bank sees alone: two sound states with one view of a bank have the same local books
/// of it.
pub fn views_show_all()
    ensures show { ViewsShowAll }
{}

/// The fills of a limit that a bank sets depend on what it sees alone: where two sound states without crossed orders have
/// one view of the bank once its limit is set, they make the same fills, but for the numbers of the other bank's orders.
pub fn views_fill_all()
    ensures fill { ViewsFillAll }
{}

/// And likewise once its total is set: the fills are the same, but for the numbers of the other banks' orders.
pub fn views_fill_totals()
    ensures fill { ViewsFillTotals }
{}
