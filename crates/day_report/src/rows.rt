use fx_amounts::{BankId, PairId, Units};
use fx_rules::{Code, ListOf};

/// What was traded of a pair in a day.
#[derive(Clone, Copy, Debug, PartialEq, Eq)]
pub struct Volume {
    /// What was traded.
    pub pair: PairId,
    /// How many fills there were, at most `lots`.
    pub fills: u64,
    /// All their lots, below 2^63.
    pub lots: u64,
    /// Units of the pair's base currency, at most 10^9 a lot.
    pub base: u128,
    /// Units of its quote currency, at most 10^18 a lot.
    pub quote: u128,
}

/// The credit between two banks at the end of a day, in credit units, 0 to 10^15.
#[derive(Clone, Copy, Debug, PartialEq, Eq)]
pub struct Use {
    /// The one that the header names first.
    pub a: BankId,
    /// The other one.
    pub b: BankId,
    /// The limit that `a` sets on `b`.
    pub limit_ab: Units,
    /// The limit that `b` sets on `a`.
    pub limit_ba: Units,
    /// What the two have used by their fills with each other, less what was given back, at most either limit.
    pub used: Units,
    /// The line between them: what the lesser limit leaves, and no more than the total of either leaves.
    pub eff: Units,
}

/// What a bank has of a currency by all its fills of a day.
#[derive(Clone, Copy, Debug, PartialEq, Eq)]
pub struct Net {
    /// Whose it is.
    pub bank: BankId,
    /// In what it is counted.
    pub currency: Code,
    /// Units of the currency: what the bank got, less what it gave. Below 2^127 either way.
    pub amount: i128,
}

/// Volumes, one for each pair in header order.
pub type VolumeList = ListOf<Volume>;

/// The credit between each two banks, by the first and then by the second, in header order.
pub type UseList = ListOf<Use>;

/// Nets of each bank in header order, for each currency. Currencies stand in the order in which the pairs of the header
/// first name them, the base of a pair before its quote.
pub type NetList = ListOf<Net>;

/// The report of a day.
#[derive(Debug, Drop)]
pub struct Report {
    /// What was traded of each pair.
    pub volumes: VolumeList,
    /// The credit between each two banks.
    pub uses: UseList,
    /// What each bank has of each currency.
    pub nets: NetList,
}
