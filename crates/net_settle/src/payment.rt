use fx_amounts::BankId;
use fx_rules::Code;

/// What a bank pays another at the end of a day.
#[derive(Clone, Copy, Debug, PartialEq, Eq)]
pub struct Payment {
    /// Who pays.
    pub payer: BankId,
    /// Who gets it.
    pub payee: BankId,
    /// In what it is counted.
    pub currency: Code,
    /// Units of the currency, 1 at least.
    pub amount: u128,
}
