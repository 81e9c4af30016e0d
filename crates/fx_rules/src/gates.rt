use fx_amounts::{BankId, PairId};
use std::sync::Wait;

/// Where a run of banks on threads can be held up, by a test or a venue. No call changes anything, takes memory or fails,
/// and each may wait. A command's number is its place in its bank's stream, from 1.
pub trait Gate {
    /// A worker calls it before it submits command `number` of `bank`.
    fn before<R: Wait>(&self, rt: &R, bank: BankId, number: u32);

    /// A worker calls it after that submit, also where it was refused when out of memory.
    fn after<R: Wait>(&self, rt: &R, bank: BankId, number: u32);

    /// A host calls it once it has the lock of `pair` and before it asks for the credit book's lock; for a command
    /// over all pairs once per pair in order.
    fn inside<R: Wait>(&self, rt: &R, pair: PairId);
}

/// The gate that holds nobody up.
#[derive(Clone, Copy, Debug, Default, PartialEq, Eq)]
pub struct OpenGate;

impl Gate for OpenGate {
    fn before<R: Wait>(&self, _rt: &R, _bank: BankId, _number: u32) {}

    fn after<R: Wait>(&self, _rt: &R, _bank: BankId, _number: u32) {}

    fn inside<R: Wait>(&self, _rt: &R, _pair: PairId) {}
}
