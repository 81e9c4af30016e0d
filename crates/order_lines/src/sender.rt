ghost use Rattle.std.specs.Prelude.{◌≡◌, ◌≤◌, length};
ghost use Rattle.fx_rules.specs.Session.{IsSession, IsSender};
ghost use Rattle.order_lines.specs.Words.{is_operator, has_word, last_fault, sender_name, sender_named};

use crate::word::Word;
use fx_amounts::BankId;
use fx_rules::Session;

/// The operator's name. A session's text of version 1 has no sender of that name.
const HOST: &[u8] = b"HOST";

/// The name of a sender: the bank's own, or `HOST`. It takes no memory.
pub fn sender_name(session: &Session, sender: BankId) -> &[u8]
    requires { IsSender session.now sender }
    ensures value { result.now ≡ sender_name session.now sender }
    ensures most { length result.now ≤ 8 }
    ensures valid { IsSession session.now }
{
    // The clause on the session rests on a valid session, as each is.
    let _banks = session.banks();
    if is_operator(session, sender) {
        HOST
    } else {
        session.name(sender)
    }
}

/// The sender of that name: a bank, or in version 2 the operator.
pub(crate) fn sender_named(session: &Session, text: &[u8]) -> Option<BankId>
    ensures { result ≡ sender_named session.now text.now }
{
    if session.version() == 2 && text == HOST {
        return Some(BankId::HOST);
    }
    session.bank_named(text)
}

/// Whether a sender is the operator, whom version 2 alone has.
pub(crate) fn is_operator(session: &Session, sender: BankId) -> bool
    ensures { result ≡ is_operator session.now sender }
{
    session.version() == 2 && sender == BankId::HOST
}

/// Whether a sender has a word: the operator that of a settlement alone, and a bank all others, but that of a total in version 2
/// alone.
pub(crate) fn has_word(session: &Session, sender: BankId, word: Word) -> bool
    ensures { result ≡ has_word session.now sender word }
{
    let is_operator = is_operator(session, sender);
    match word {
        Word::Settle => is_operator,
        Word::Total => session.version() == 2 && !is_operator,
        _ => !is_operator,
    }
}

/// The highest number of a fault of a sender's lines.
pub(crate) fn last_fault(session: &Session, sender: BankId) -> u64
    ensures { result ≡ last_fault session.now sender }
{
    if is_operator(session, sender) { 12 } else { 11 }
}
