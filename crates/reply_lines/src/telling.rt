ghost use Rattle.std.specs.Prelude.{◌≡◌, ◌<◌, ◌^◌, List, [], ◌∷◌, ◌++◌, length, IfOk, OnOk, OnErr};
ghost use Rattle.std.specs.List.{flat_map};
ghost use Rattle.fx_edges.specs.Writing.{IsPrefixOf};
ghost use Rattle.fx_rules.specs.declared.outcome.Entry.{Entry as HistoryEntry};
ghost use Rattle.fx_rules.specs.History.{IsLegal};
ghost use Rattle.fx_rules.specs.Lists.{Each};
ghost use Rattle.fx_rules.specs.Session.{Header, IsSender};
ghost use Rattle.reply_lines.specs.Fills.{AreTextsOf, notice_to};
ghost use Rattle.reply_lines.specs.Notices.Notice.{Replied};
ghost use Rattle.reply_lines.specs.Prints.{IsAnswerOf, IsFillOf};
ghost use Rattle.reply_lines.specs.Telling.{addressed, addressed_in, addressed_to, fill_addressed, told_text, HasCounted};
ghost use Rattle.reply_lines.specs.inside.Prints.{IsEntryOf};
ghost use Rattle.reply_lines.specs.inside.Telling.{bank_of, counts_behind, next_of, with_one, CanCount, HasTold};

use crate::notice_writer::NoticeWriter;
use crate::notices::FillPart;
use crate::sheet::NoticeSheet;
use fx_amounts::{BankId, Memory};
use fx_rules::{Entry, Fill, Session};
use order_lines::sender_name;
use std::alloc::Global;

/// Tells the notices of a history one by one in its order, each in a line behind the name of the sender that gets it. It counts each
/// sender's notices, so that the numbers go on from those of the entries before.
#[derive(Drop)]
pub struct Telling {
    /// How many notices each sender has got.
    counts: Vec<u128>,
    writer: NoticeWriter,
}

impl Telling {
    /// One for the senders of a session, none of whom has got a notice.
    pub fn open(alloc: Global, session: &Session) -> Result<Telling, Memory>
        ensures opens { IfOk result (λ telling. HasCounted session.now [] telling.counts.items) }
    {
        Ok(Telling {
            counts: vec![in alloc; 0; session.sender_places()]?,
            writer: NoticeWriter::new(),
        })
    }

    /// Counts the notices of a history's next entries, which are told already, so that the numbers go on behind them. It takes no
    /// memory.
    pub fn count(&mut self, entries: &[Entry])
        requires next { (h : Header) × (before : List HistoryEntry) × IsLegal h (before ++ entries.now) × HasCounted h before self.old.counts.items }
        ensures counted { (h : Header) (before : List HistoryEntry) → HasCounted h before self.old.counts.items → HasCounted h (before ++ entries.now) self.new.counts.items }
    {
        self.count_all(entries);
    }

    /// Tells the notices of a history's next entries: appends their lines to a text. At `Memory` the text is as it was, and the
    /// telling must not be used any more: it may have counted some of the notices.
    pub fn tell(
        &mut self,
        session: &Session,
        entries: &[Entry],
        text: &mut NoticeSheet,
    ) -> Result<(), Memory>
        requires next { (before : List HistoryEntry) × IsLegal session.now (before ++ entries.now) × HasCounted session.now before self.old.counts.items }
        ensures counted { OnOk result ((before : List HistoryEntry) → HasCounted session.now before self.old.counts.items → HasCounted session.now (before ++ entries.now) self.new.counts.items) }
        ensures told { OnOk result ((before : List HistoryEntry) → HasCounted session.now before self.old.counts.items → text.new ≡ text.old ++ told_text session.now before entries.now) }
        ensures memory { OnErr result (text.new ≡ text.old) }
    {
        let before = text.len();
        let told = self.tell_all(session, entries, text);
        if told.is_err() {
            text.truncate(before);
        }
        told
    }

    /// Counts the notices of entries.
    fn count_all(&mut self, entries: &[Entry])
        requires can { CanCount (addressed entries.now) self.old.counts.items }
        ensures counted { self.new.counts.items ≡ counts_behind self.old.counts.items (addressed entries.now) }
    {
        for entry in entries {
            self.count_entry(entry);
        }
    }

    /// Counts the notices of an entry.
    fn count_entry(&mut self, entry: &Entry)
        requires can { CanCount (addressed_in entry.now) self.old.counts.items }
        ensures counted { self.new.counts.items ≡ counts_behind self.old.counts.items (addressed_in entry.now) }
    {
        self.count_one(entry.bank);
        self.count_fills(entry.outcome.fills());
    }

    /// Counts the notices of fills.
    fn count_fills(&mut self, fills: &[Fill])
        requires can { CanCount (flat_map fill_addressed fills.now) self.old.counts.items }
        ensures counted { self.new.counts.items ≡ counts_behind self.old.counts.items (flat_map fill_addressed fills.now) }
    {
        for fill in fills {
            self.count_fill(fill);
        }
    }

    /// Counts the two notices of a fill.
    fn count_fill(&mut self, fill: &Fill)
        requires can { CanCount (fill_addressed fill.now) self.old.counts.items }
        ensures counted { self.new.counts.items ≡ counts_behind self.old.counts.items (fill_addressed fill.now) }
    {
        self.count_one(fill.taker);
        self.count_one(fill.maker);
    }

    /// Tells the notices of entries. At `Memory` a part of their lines may stand behind the text.
    fn tell_all(
        &mut self,
        session: &Session,
        entries: &[Entry],
        text: &mut NoticeSheet,
    ) -> Result<(), Memory>
        requires entries { Each (IsEntryOf session.now) entries.now }
        requires can { CanCount (addressed entries.now) self.old.counts.items }
        ensures ok { OnOk result (HasTold session.now (addressed entries.now) self.old.counts.items self.new.counts.items text.old text.new) }
        ensures begins { IsPrefixOf text.old text.new }
    {
        for entry in entries {
            self.tell_entry(session, entry, text)?;
        }
        Ok(())
    }

    /// Tells the notices of an entry: the reply, and then those of its fills, in order, each to its taker's bank and then to its maker's.
    fn tell_entry(
        &mut self,
        session: &Session,
        entry: &Entry,
        text: &mut NoticeSheet,
    ) -> Result<(), Memory>
        requires entry { IsEntryOf session.now entry.now }
        requires can { CanCount (addressed_in entry.now) self.old.counts.items }
        ensures ok { OnOk result (HasTold session.now (addressed_in entry.now) self.old.counts.items self.new.counts.items text.old text.new) }
        ensures begins { IsPrefixOf text.old text.new }
    {
        self.tell_reply(session, entry, text)?;
        for fill in entry.outcome.fills() {
            self.writer.begin_fill(session, fill);
            self.tell_part(session, FillPart::Taker, fill, text)?;
            self.tell_part(session, FillPart::Maker, fill, text)?;
        }
        Ok(())
    }

    /// Tells the reply to an entry.
    fn tell_reply(
        &mut self,
        session: &Session,
        entry: &Entry,
        text: &mut NoticeSheet,
    ) -> Result<(), Memory>
        requires answer { IsAnswerOf session.now entry.now.command entry.now.outcome }
        requires sender { IsSender session.now entry.now.bank }
        requires can { CanCount (addressed_to entry.now.bank (Replied entry.now) ∷ []) self.old.counts.items }
        ensures ok { OnOk result (HasTold session.now (addressed_to entry.now.bank (Replied entry.now) ∷ []) self.old.counts.items self.new.counts.items text.old text.new) }
        ensures begins { IsPrefixOf text.old text.new }
    {
        let number = self.address(sender_name(session, entry.bank), entry.bank, text)?;
        self.writer.reply(session, number, entry, text)
    }

    /// Tells the notice of the fill that the writer has begun to the bank with this part in it.
    fn tell_part(
        &mut self,
        session: &Session,
        part: FillPart,
        fill: &Fill,
        text: &mut NoticeSheet,
    ) -> Result<(), Memory>
        requires fill { IsFillOf session.now fill.now }
        requires begun { AreTextsOf session.now fill.now self.old.writer }
        requires can { CanCount (addressed_to (bank_of part fill.now) (notice_to part fill.now) ∷ []) self.old.counts.items }
        ensures ok { OnOk result (HasTold session.now (addressed_to (bank_of part fill.now) (notice_to part fill.now) ∷ []) self.old.counts.items self.new.counts.items text.old text.new) }
        ensures begun { self.new.writer ≡ self.old.writer }
        ensures begins { IsPrefixOf text.old text.new }
    {
        let bank = part.bank(fill);
        let number = self.address(session.name(bank), bank, text)?;
        self.writer.fill(session, number, part, fill, text)
    }

    /// Begins the line of a sender's next notice with the sender's name, and answers the number of the notice.
    fn address(
        &mut self,
        name: &[u8],
        sender: BankId,
        text: &mut NoticeSheet,
    ) -> Result<u128, Memory>
        requires sender { sender < length self.old.counts.items }
        requires few { next_of self.old.counts.items sender < 2 ^ 128 }
        ensures number { IfOk result (λ number. number ≡ next_of self.old.counts.items sender) }
        ensures named { OnOk result (text.new ≡ text.old ++ (name.now ++ 32 ∷ [])) }
        ensures counted { self.new.counts.items ≡ with_one self.old.counts.items sender }
        ensures begun { self.new.writer ≡ self.old.writer }
        ensures begins { IsPrefixOf text.old text.new }
    {
        let number = self.count_one(sender);
        text.push(name)?;
        text.push(b" ")?;
        Ok(number)
    }

    /// Counts a sender's next notice, and answers its number.
    fn count_one(&mut self, sender: BankId) -> u128
        requires sender { sender < length self.old.counts.items }
        requires few { next_of self.old.counts.items sender < 2 ^ 128 }
        ensures number { result ≡ next_of self.old.counts.items sender }
        ensures counted { self.new.counts.items ≡ with_one self.old.counts.items sender }
        ensures begun { self.new.writer ≡ self.old.writer }
    {
        let number = self.counts[sender.index()] + 1;
        self.counts[sender.index()] = number;
        number
    }
}
