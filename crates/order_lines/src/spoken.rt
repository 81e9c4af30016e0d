ghost use Rattle.std.specs.Prelude.{◌≡◌, ℕ, List, IsFalse, IfSome};
ghost use Rattle.fx_text.specs.Fields.{fields_of};
ghost use Rattle.fx_text.specs.Lines.{line_seen};
ghost use Rattle.fx_text.specs.declared.line.Line.TheVariants.{Whole as WholeLine};
ghost use Rattle.fx_rules.specs.Session.{IsSender};
ghost use Rattle.fx_rules.specs.Step.{IsCommand};
ghost use Rattle.fx_rules.specs.declared.command.Command.{Command};
ghost use Rattle.order_lines.specs.Grammar.{command_line, journal_line, bad_said, or_bad, is_bad, IfSent};
ghost use Rattle.order_lines.specs.Reading.{command_said};
ghost use Rattle.order_lines.specs.Spelling.{IsSpelled};

use crate::reading::read_command;
use crate::sender::{last_fault, sender_named};
use crate::word::{BAD, fault_from};
use fx_amounts::BankId;
use fx_rules::{Command, Reject, Session};
use fx_text::{Fields, Line, LineView, fields, number};

/// What a line after the header's `START` says.
#[derive(Clone, Copy, Debug, PartialEq, Eq)]
pub enum Spoken {
    /// A command of a sender, which may be bad.
    Of(BankId, Command),
    /// A line of no sender. It changes nothing.
    Stray,
    /// The session ends.
    End,
    /// A line without a field, or a comment.
    Passed,
}

/// What a line after the header's `START` says. A line whose first field is a sender's name is that sender's command; one
/// that is wrong is bad, with its first fault: a long line, then its word, then the number of its fields, then the
/// fields from left to right. Takes no memory.
pub fn command_from(session: &Session, line: &Line) -> Spoken
    ensures reads { result ≡ command_line session.now line.now }

    // What is read is a sender's of the session, which may send it.
    ensures sender { IfSent result (λ sender command. IsSender session.now sender) }
    ensures range { IfSent result (IsCommand session.now) }

    // What is read and is not bad is spelled so, and what is spelled so is read.
    ensures spelling { IfSent result
        (λ sender command. IsFalse (is_bad command) → IsSpelled session.now line.now sender command) }
    ensures spelled { (sender : ℕ) (command : Command) → IsCommand session.now sender command
        → IsFalse (is_bad command) → IsSpelled session.now line.now sender command → result ≡ Spoken.Of sender command }
{
    command_in(session, &line.view())
}

/// What a line of commands says, read where it lies, as `command_from` reads one that is held.
pub fn command_in(session: &Session, line: &LineView<'_>) -> Spoken
    ensures reads { result ≡ command_line session.now (line_seen line.now) }

    // What is read is a sender's of the session, which may send it.
    ensures sender { IfSent result (λ sender command. IsSender session.now sender) }
    ensures range { IfSent result (IsCommand session.now) }

    // What is read and is not bad is spelled so, and what is spelled so is read.
    ensures spelling { IfSent result
        (λ sender command. IsFalse (is_bad command) → IsSpelled session.now (line_seen line.now) sender command) }
    ensures spelled { (sender : ℕ) (command : Command) → IsCommand session.now sender command
        → IsFalse (is_bad command) → IsSpelled session.now (line_seen line.now) sender command → result ≡ Spoken.Of sender command }
{
    // The clauses on spelling rest on a valid session, as each is.
    let _banks = session.banks();
    spoken_by(session, line)
}

#[tactic(auto, unfolding(crate::specs::Grammar::command_line))]
fn spoken_by(session: &Session, line: &LineView<'_>) -> Spoken
    ensures { result ≡ command_line session.now (line_seen line.now) }
{
    match *line {
        LineView::Whole(text) => {
            let mut fields = Fields::none();
            fields.read(text);
            spoken_in(session, &fields)
        }
        LineView::Long(_) if line.is_passed_over() => Spoken::Passed,
        LineView::Long(first) => match sender_named(session, first) {
            Some(sender) => Spoken::Of(
                sender,
                Command::Bad {
                    reason: Reject::Long,
                },
            ),
            None => Spoken::Stray,
        },
    }
}

/// What the fields of a line that is not long say: a sender's command, nothing, or no sender's line.
#[tactic(auto, unfolding(crate::specs::Grammar::command_line))]
fn spoken_in(session: &Session, fields: &Fields<'_>) -> Spoken
    ensures { (text : List ℕ) → fields.now ≡ fields_of text → result ≡ command_line session.now (WholeLine text) }
{
    if fields.is_passed_over() {
        return Spoken::Passed;
    }
    if fields.is_end() {
        return Spoken::End;
    }
    match sender_named(session, fields.first()) {
        Some(sender) => Spoken::Of(sender, command_by(session, sender, fields)),
        None => Spoken::Stray,
    }
}

/// What a sender asks for in the fields of a line that is not long. The first of them is not read: it is the sender's name, or
/// what stands in place of it. A wrong line is bad, with its first fault: its word, then the number of its fields, then the
/// fields from left to right. Takes no memory.
pub fn command_by(session: &Session, sender: BankId, fields: &Fields<'_>) -> Command
    ensures reads { result ≡ or_bad (command_said session.now sender fields.now) }

    // What a sender of the session asks for, it may send.
    ensures range { IsSender session.now sender → IsCommand session.now sender result }
{
    command_or_bad(read_command(session, sender, fields))
}

fn command_or_bad(read: Result<Command, Reject>) -> Command
    ensures { result ≡ or_bad read }
{
    read.unwrap_or_else(|reason| Command::Bad { reason })
}

/// What a line of a journal says: as a line after `START`, but that a bad command stands as `sender BAD r` alone,
/// `r` being the number of its fault. `None` where the line is no sender's command, and where it is a bad one in itself.
/// Takes no memory. Only trials call it.
pub fn journal_from(session: &Session, line: &Line) -> Option<(BankId, Command)>
    ensures reads { result ≡ journal_line session.now line.now }

    // What is read is a sender's of the session, which may send it.
    ensures sender { IfSome result (λ entry. IsSender session.now entry.0) }
    ensures range { IfSome result (λ entry. IsCommand session.now entry.0 entry.1) }

    // What is read is spelled so, and what is spelled so is read, a bad command too.
    ensures spelling { IfSome result (λ entry. IsSpelled session.now line.now entry.0 entry.1) }
    ensures spelled { (sender : ℕ) (command : Command) → IsCommand session.now sender command
        → IsSpelled session.now line.now sender command → result ≡ Some (sender, command) }
{
    journal_in(session, &line.view())
}

/// The entry of a journal that a line spells, read where it lies, as `journal_from` reads one that is held.
pub fn journal_in(session: &Session, line: &LineView<'_>) -> Option<(BankId, Command)>
    ensures reads { result ≡ journal_line session.now (line_seen line.now) }

    // What is read is a sender's of the session, which may send it.
    ensures sender { IfSome result (λ entry. IsSender session.now entry.0) }
    ensures range { IfSome result (λ entry. IsCommand session.now entry.0 entry.1) }

    // What is read is spelled so, and what is spelled so is read, a bad command too.
    ensures spelling { IfSome result (λ entry. IsSpelled session.now (line_seen line.now) entry.0 entry.1) }
    ensures spelled { (sender : ℕ) (command : Command) → IsCommand session.now sender command
        → IsSpelled session.now (line_seen line.now) sender command → result ≡ Some (sender, command) }
{
    // The clauses on spelling rest on a valid session, as each is.
    let _banks = session.banks();
    recorded_by(session, line)
}

#[tactic(auto, unfolding(crate::specs::Grammar::journal_line))]
fn recorded_by(session: &Session, line: &LineView<'_>) -> Option<(BankId, Command)>
    ensures { result ≡ journal_line session.now (line_seen line.now) }
{
    let Spoken::Of(sender, command) = spoken_by(session, line) else {
        return None;
    };
    if is_bad(&command) {
        let reason = recorded_fault(session, sender, line)?;
        return Some((sender, Command::Bad { reason }));
    }
    Some((sender, command))
}

fn is_bad(command: &Command) -> bool
    ensures { result ≡ is_bad command.now }
{
    matches!(command, Command::Bad { .. })
}

/// The fault of a line `sender BAD r`.
fn recorded_fault(session: &Session, sender: BankId, line: &LineView<'_>) -> Option<Reject>
    ensures { result ≡ bad_said session.now sender (line_seen line.now) }
{
    let LineView::Whole(text) = *line else {
        return None;
    };
    let fields = fields(text);
    if fields.count() != 3 || fields.field(1) != BAD {
        return None;
    }
    fault_from(number(fields.field(2), 1, last_fault(session, sender))?)
}
