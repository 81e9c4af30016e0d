ghost use Rattle.std.specs.Prelude.{◌≡◌};
ghost use Rattle.std.specs.List.{flat_map};
ghost use Rattle.fx_edges.specs.Gathered.{Gathered};
ghost use Rattle.fx_edges.specs.Writing.{Wrote};
ghost use Rattle.fx_rules.specs.Lists.{Each};
ghost use Rattle.net_settle.specs.Payments.{IsOfBanks};
ghost use Rattle.program_calls.specs.PaymentText.{payment_line, payments_text};

use fx_edges::{Pieces, Sink, SinkFault};
use fx_rules::Session;
use fx_text::LineText;
use net_settle::Payment;
use reply_lines::write_count;
use std::alloc::Global;

/// Writes payments: a line for each, in their order, and then how many there are. After a fault a prefix of the text was
/// appended; the fault is `Failed` only where the sink's count of faults rose. The sink gets the text in pieces of 64 KiB at
/// least, and the last one.
pub fn write_payments<K: Sink>(
    alloc: Global,
    session: &Session,
    payments: &[Payment],
    out: &mut K,
) -> Result<(), SinkFault>
    requires banks { Each (IsOfBanks session.now) payments.now }
    ensures wrote { Wrote K.written K.faults out.old out.new (payments_text session.now payments.now) result }
{
    let mut pieces = Pieces::new(alloc);
    write_rows(session, payments, &mut pieces, out)?;
    pieces.hand_on(out)
}

/// Writes the text, of which the last piece is not yet handed on.
#[tactic(auto, unfolding(crate::specs::PaymentText::payments_line))]
fn write_rows<K: Sink>(
    session: &Session,
    payments: &[Payment],
    pieces: &mut Pieces,
    out: &mut K,
) -> Result<(), SinkFault>
    requires banks { Each (IsOfBanks session.now) payments.now }
    ensures wrote { Gathered K.written K.faults pieces.old out.old pieces.new out.new (payments_text session.now payments.now) result }
{
    write_lines(session, payments, pieces, out)?;
    write_count(b"PAYMENTS", payments.len() as u128, pieces, out)
}

/// Writes a line for each payment.
fn write_lines<K: Sink>(
    session: &Session,
    payments: &[Payment],
    pieces: &mut Pieces,
    out: &mut K,
) -> Result<(), SinkFault>
    requires banks { Each (IsOfBanks session.now) payments.now }
    ensures wrote { Gathered K.written K.faults pieces.old out.old pieces.new out.new (flat_map (payment_line session.now) payments.now) result }
{
    let mut line = LineText::new();
    for payment in payments {
        make_line(session, payment, &mut line);
        pieces.put(line.as_slice(), out)?;
    }
    Ok(())
}

/// Makes a payment's line anew.
fn make_line(session: &Session, payment: &Payment, line: &mut LineText)
    requires banks { IsOfBanks session.now payment.now }
    ensures made { line.new ≡ payment_line session.now payment.now }
{
    line.clear();
    line.push(b"PAY");
    line.push_field(session.name(payment.payer));
    line.push_field(session.name(payment.payee));
    line.push_field(payment.currency.as_bytes());
    line.push_wide_field(payment.amount);
    line.push_byte(b'\n');
}
