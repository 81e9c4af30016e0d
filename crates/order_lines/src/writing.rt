ghost use Rattle.std.specs.Prelude.{◌≡◌, [], ◌∷◌, ◌<◌, ◌≤◌, ◌++◌, length, take, All, OnOk, OnErr};
ghost use Rattle.fx_rules.specs.Session.{pair_count, pair_name};
ghost use Rattle.fx_rules.specs.Step.{IsCommand};
ghost use Rattle.order_lines.specs.inside.Printing.{word_field, subject_field, details, IsSubjectOf};
ghost use Rattle.fx_text.specs.Fields.{fields_of, fields_text};
ghost use Rattle.fx_text.specs.Lines.{line_of};
ghost use Rattle.order_lines.specs.Grammar.{journal_line};
ghost use Rattle.order_lines.specs.Spelling.{command_fields, command_text_of};

use crate::reading::decimals;
use crate::sender::sender_name;
use crate::word::{BAD, Word, life_text};
use fx_amounts::{BankId, Memory, PairId};
use fx_rules::{Command, Session};
use fx_text::{Line, LineText};

/// Appends the journal's line of a sender's command, without a line feed. After `Err` the list is as it was. Only trials call it.
pub fn command_text(
    session: &Session,
    sender: BankId,
    command: &Command,
    out: &mut Vec<u8>,
) -> Result<(), Memory>
    requires { IsCommand session.now sender command.now }
    ensures ok { OnOk result (out.new.items ≡ out.old.items ++ command_text_of session.now sender command.now) }
    ensures err { OnErr result (out.new.items ≡ out.old.items) }

    // The line has the command's fields and no byte below the space. Cut out of a text it is whole and read back.
    ensures fields { fields_of (command_text_of session.now sender command.now) ≡ command_fields session.now sender command.now }
    ensures visible { All (λ byte. 32 ≤ byte) (command_text_of session.now sender command.now) }
    ensures whole { let text = command_text_of session.now sender command.now in line_of text ≡ Line.Whole text }
    ensures read_back { journal_line session.now (line_of (command_text_of session.now sender command.now)) ≡ Some (sender, command.now) }
{
    // The clauses on the line rest on a valid session, as each is.
    let _banks = session.banks();
    append_command(session, sender, command, out)
}

/// Makes the journal's line of a sender's command, with its line feed, in place of what there was. It takes no memory.
pub fn make_command(session: &Session, sender: BankId, command: &Command, line: &mut LineText)
    requires { IsCommand session.now sender command.now }
    ensures { line.new ≡ command_text_of session.now sender command.now ++ 10 ∷ [] }
{
    make_text(session, sender, command, line);
    line.push_byte(b'\n');
}

fn append_command(
    session: &Session,
    sender: BankId,
    command: &Command,
    out: &mut Vec<u8>,
) -> Result<(), Memory>
    requires { IsCommand session.now sender command.now }
    ensures ok { OnOk result (out.new.items ≡ out.old.items ++ command_text_of session.now sender command.now) }
    ensures err { OnErr result (out.new.items ≡ out.old.items) }
{
    let mut line = LineText::new();
    make_text(session, sender, command, &mut line);
    out.extend_from_slice(line.as_slice())?;
    Ok(())
}

// Makes the text of a command's line, without a line feed, which leaves room for more bytes.
fn make_text(session: &Session, sender: BankId, command: &Command, line: &mut LineText)
    requires { IsCommand session.now sender command.now }
    ensures made { line.new ≡ command_text_of session.now sender command.now }
    ensures short { length (command_text_of session.now sender command.now) ≤ 246 }
{
    // The bound on the line rests on a valid session, as each is.
    let _banks = session.banks();
    line.clear();
    push_command(session, sender, command, line);
}

// Appends the line of a command.
fn push_command(session: &Session, sender: BankId, command: &Command, line: &mut LineText)
    requires { IsCommand session.now sender command.now }
    ensures { line.new ≡ take 256 (line.old ++ command_text_of session.now sender command.now) }
{
    line.push(sender_name(session, sender));
    line.push_field(word_of(command));
    push_subject(session, command, line);
    push_details(session, command, line);
}

// The field behind the sender's name: the command's word.
fn word_of(command: &Command) -> &'static [u8]
    ensures { result.now ≡ word_field command.now }
{
    match *command {
        Command::Order { side, .. } => Word::of_side(side).as_bytes(),
        Command::Cancel { .. } => Word::Cancel.as_bytes(),
        Command::Reduce { .. } => Word::Reduce.as_bytes(),
        Command::Pull { .. } => Word::Pull.as_bytes(),
        Command::Line { .. } => Word::Line.as_bytes(),
        Command::Total { .. } => Word::Total.as_bytes(),
        Command::Settle { .. } => Word::Settle.as_bytes(),
        Command::Show { .. } => Word::Show.as_bytes(),
        Command::Book { .. } => Word::Book.as_bytes(),
        Command::Bad { .. } => BAD,
    }
}

// Appends the field behind the word: the pair, the bank, the total or the fault that the command is about.
fn push_subject(session: &Session, command: &Command, line: &mut LineText)
    requires { IsSubjectOf session.now command.now }
    ensures { line.new ≡ take 256 (line.old ++ 32 ∷ subject_field session.now command.now) }
{
    match *command {
        Command::Order { pair, .. } => push_pair(session, pair, line),
        Command::Cancel { pair, .. } => push_pair(session, pair, line),
        Command::Reduce { pair, .. } => push_pair(session, pair, line),
        Command::Pull { pair } | Command::Book { pair } => push_pair(session, pair, line),
        Command::Line { bank, .. } | Command::Show { bank } => {
            line.push_field(session.name(bank));
        }
        Command::Total { limit } => line.push_number_field(limit.get()),
        Command::Settle { a, .. } => line.push_field(session.name(a)),
        Command::Bad { reason } => line.push_number_field(u64::from(reason.code())),
    }
}

fn push_pair(session: &Session, pair: PairId, line: &mut LineText)
    requires { pair < pair_count session.now }
    ensures { line.new ≡ take 256 (line.old ++ 32 ∷ pair_name session.now pair) }
{
    line.push_field(&session.rule(pair).text());
}

// Appends the fields behind the third.
fn push_details(session: &Session, command: &Command, line: &mut LineText)
    requires subject { IsSubjectOf session.now command.now }
    requires room { length line.old ≤ 256 }
    ensures { line.new ≡ take 256 (line.old ++ fields_text (details session.now command.now)) }
{
    match *command {
        Command::Order {
            pair,
            price,
            lots,
            life,
            ..
        } => {
            line.push_price_field(price, decimals(session, pair));
            line.push_number_field(u64::from(lots.count()));
            line.push_field(life_text(life));
        }
        Command::Cancel { number, .. } => line.push_number_field(u64::from(number)),
        Command::Reduce { number, lots, .. } => {
            line.push_number_field(u64::from(number));
            line.push_number_field(u64::from(lots.count()));
        }
        Command::Line { limit, .. } => line.push_number_field(limit.get()),
        Command::Settle { b, units, .. } => {
            line.push_field(session.name(b));
            line.push_number_field(units.get());
        }
        Command::Pull { .. }
        | Command::Total { .. }
        | Command::Show { .. }
        | Command::Book { .. }
        | Command::Bad { .. } => {}
    }
}
