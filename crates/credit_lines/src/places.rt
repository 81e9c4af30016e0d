//! The places of two banks in a table that has a row and a column for each bank.
ghost use Rattle.std.specs.Prelude.{◌≡◌, ◌≤◌, ◌<◌, ◌*◌, ◌/◌, ◌%◌};
ghost use Rattle.credit_lines.specs.Credit as credit;

use fx_amounts::BankId;

/// The place of what bank `i` sets on bank `j`.
pub(crate) fn place(banks: usize, i: BankId, j: BankId) -> usize
    requires banks { banks ≤ 64 }
    requires first { i < banks }
    requires second { j < banks }
    ensures value { result ≡ credit.place banks i j }
    ensures within { result < banks * banks }
{
    i.index() * banks + j.index()
}

/// The place of what two banks have in common: the row is the lower one's.
pub(crate) fn shared_place(banks: usize, i: BankId, j: BankId) -> usize
    requires banks { banks ≤ 64 }
    requires first { i < banks }
    requires second { j < banks }
    ensures value { result ≡ credit.shared_place banks i j }
    ensures within { result < banks * banks }
{
    if i <= j {
        place(banks, i, j)
    } else {
        place(banks, j, i)
    }
}

/// The two banks of a place.
pub(crate) fn banks_at(banks: usize, at: usize) -> (BankId, BankId)
    requires banks { banks ≤ 64 }
    requires within { at < banks * banks }
    ensures row { result.0 ≡ at / banks }
    ensures column { result.1 ≡ at % banks }
    ensures first { result.0 < banks }
    ensures second { result.1 < banks }
{
    (BankId::at(at / banks), BankId::at(at % banks))
}
