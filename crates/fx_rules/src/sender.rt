use fx_amounts::BankId;

/// Who sent a command, and when.
#[derive(Clone, Copy, Debug, PartialEq, Eq)]
pub struct Sender {
    /// The bank that sent it.
    pub bank: BankId,
    /// The command's number in the bank's stream, from 1.
    pub number: u32,
    /// The place of the command among all commands, from 0.
    pub arrival: u64,
}
