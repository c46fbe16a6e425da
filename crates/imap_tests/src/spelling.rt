//! Spells what a command means, to be compared with a table.
//! Allocates.
use arch_base::{Bytes, NoMemory, Sequence, Texts, decimal};
use imap_syntax::{
    Ask, AskRefusal, Date, DateTime, FlagChange, Item, Key, Partial, Section, SectionText, SeqSet,
    SetEnd, StatusItem, StoreItem, read,
};
use std::alloc::Global;

/// The meaning of a command as a text: words and numbers after spaces, texts in angle brackets.
#[derive(Drop)]
pub(crate) struct Spelling {
    text: Bytes,
    alloc: Global,
}

impl Spelling {
    /// Returns an empty spelling.
    pub(crate) fn new(alloc: Global) -> Spelling {
        Spelling {
            text: Bytes::new(alloc),
            alloc,
        }
    }

    /// Returns the text.
    pub(crate) fn as_slice(&self) -> &[u8] {
        self.text.as_slice()
    }

    /// Appends what `read` gives for a command.
    pub(crate) fn reading(&mut self, command: &[u8]) -> Result<(), NoMemory> {
        match read(self.alloc, command) {
            Ok(ask) => self.ask(&ask),
            Err(AskRefusal::NoTag) => self.name(b"NOTAG"),
            Err(AskRefusal::Bad { tag }) => {
                self.name(b"BAD")?;
                self.quoted(&tag)
            }
            Err(AskRefusal::NoMemory) => Err(NoMemory),
        }
    }

    /// Appends a name.
    fn name(&mut self, name: &[u8]) -> Result<(), NoMemory> {
        self.text.push_slice(name)
    }

    /// Appends a space and a word.
    fn word(&mut self, word: &[u8]) -> Result<(), NoMemory> {
        self.text.push(b' ')?;
        self.text.push_slice(word)
    }

    /// Appends a space and a text in angle brackets.
    fn quoted(&mut self, text: &Bytes) -> Result<(), NoMemory> {
        self.word(b"<")?;
        self.text.push_slice(text.as_slice())?;
        self.text.push(b'>')
    }

    /// Appends texts.
    fn all_quoted(&mut self, texts: &Texts) -> Result<(), NoMemory> {
        for text in texts.as_slice() {
            self.quoted(text)?;
        }
        Ok(())
    }

    /// Appends a number.
    fn digits(&mut self, value: u64) -> Result<(), NoMemory> {
        let digits = decimal(self.alloc, value)?;
        self.text.push_slice(digits.as_slice())
    }

    /// Appends a space and a number.
    fn number(&mut self, value: u32) -> Result<(), NoMemory> {
        self.text.push(b' ')?;
        self.digits(u64::from(value))
    }

    /// Appends a name and a tag.
    fn tagged(&mut self, name: &[u8], tag: &Bytes) -> Result<(), NoMemory> {
        self.name(name)?;
        self.quoted(tag)
    }

    /// Appends a name, a tag and a text.
    fn with_text(&mut self, name: &[u8], tag: &Bytes, text: &Bytes) -> Result<(), NoMemory> {
        self.tagged(name, tag)?;
        self.quoted(text)
    }

    /// Appends a name, a tag and two texts.
    fn with_texts(
        &mut self,
        name: &[u8],
        tag: &Bytes,
        first: &Bytes,
        second: &Bytes,
    ) -> Result<(), NoMemory> {
        self.with_text(name, tag, first)?;
        self.quoted(second)
    }

    /// Appends a command.
    fn ask(&mut self, ask: &Ask) -> Result<(), NoMemory> {
        match ask {
            Ask::Capability(tag) => self.tagged(b"CAPABILITY", tag),
            Ask::Noop(tag) => self.tagged(b"NOOP", tag),
            Ask::Logout(tag) => self.tagged(b"LOGOUT", tag),
            Ask::Check(tag) => self.tagged(b"CHECK", tag),
            Ask::Close(tag) => self.tagged(b"CLOSE", tag),
            Ask::Expunge(tag) => self.tagged(b"EXPUNGE", tag),
            Ask::Idle(tag) => self.tagged(b"IDLE", tag),
            Ask::Login(tag, user, password) => self.with_texts(b"LOGIN", tag, user, password),
            Ask::Authenticate(tag, kind) => self.with_text(b"AUTHENTICATE", tag, kind),
            Ask::Select(tag, mailbox) => self.with_text(b"SELECT", tag, mailbox),
            Ask::Examine(tag, mailbox) => self.with_text(b"EXAMINE", tag, mailbox),
            Ask::Create(tag, mailbox) => self.with_text(b"CREATE", tag, mailbox),
            Ask::Delete(tag, mailbox) => self.with_text(b"DELETE", tag, mailbox),
            Ask::Subscribe(tag, mailbox) => self.with_text(b"SUBSCRIBE", tag, mailbox),
            Ask::Unsubscribe(tag, mailbox) => self.with_text(b"UNSUBSCRIBE", tag, mailbox),
            Ask::Rename(tag, mailbox, other) => self.with_texts(b"RENAME", tag, mailbox, other),
            Ask::List(tag, reference, pattern) => self.with_texts(b"LIST", tag, reference, pattern),
            Ask::Lsub(tag, reference, pattern) => self.with_texts(b"LSUB", tag, reference, pattern),
            other => self.ask_for_messages(other),
        }
    }

    /// Appends a command with items, flags, sets or keys.
    fn ask_for_messages(&mut self, ask: &Ask) -> Result<(), NoMemory> {
        match ask {
            Ask::Status(tag, mailbox, items) => self.status(tag, mailbox, items),
            Ask::Append(tag, mailbox, flags, date, message) => {
                self.with_text(b"APPEND", tag, mailbox)?;
                self.flags(flags)?;
                self.moment(date)?;
                self.quoted(message)
            }
            Ask::Copy(tag, set, mailbox) => self.copy(b"COPY", tag, set, mailbox),
            Ask::UidCopy(tag, set, mailbox) => self.copy(b"UID COPY", tag, set, mailbox),
            Ask::Fetch(tag, set, items) => self.fetch(b"FETCH", tag, set, items),
            Ask::UidFetch(tag, set, items) => self.fetch(b"UID FETCH", tag, set, items),
            Ask::Store(tag, set, item, flags) => self.store(b"STORE", tag, set, *item, flags),
            Ask::UidStore(tag, set, item, flags) => {
                self.store(b"UID STORE", tag, set, *item, flags)
            }
            Ask::Search(tag, charset, keys) => self.search(b"SEARCH", tag, charset, keys),
            Ask::UidSearch(tag, charset, keys) => self.search(b"UID SEARCH", tag, charset, keys),
            _ => Ok(()),
        }
    }

    fn copy(
        &mut self,
        name: &[u8],
        tag: &Bytes,
        set: &SeqSet,
        mailbox: &Bytes,
    ) -> Result<(), NoMemory> {
        self.tagged(name, tag)?;
        self.set(set)?;
        self.quoted(mailbox)
    }

    fn fetch(
        &mut self,
        name: &[u8],
        tag: &Bytes,
        set: &SeqSet,
        items: &Sequence<Item>,
    ) -> Result<(), NoMemory> {
        self.tagged(name, tag)?;
        self.set(set)?;
        for item in items.as_slice() {
            self.item(item)?;
        }
        Ok(())
    }

    fn store(
        &mut self,
        name: &[u8],
        tag: &Bytes,
        set: &SeqSet,
        item: StoreItem,
        flags: &Texts,
    ) -> Result<(), NoMemory> {
        self.tagged(name, tag)?;
        self.set(set)?;
        self.word(change_name(item.change))?;
        if item.is_silent {
            self.word(b"SILENT")?;
        }
        self.all_quoted(flags)
    }

    fn search(
        &mut self,
        name: &[u8],
        tag: &Bytes,
        charset: &Option<Bytes>,
        keys: &Vec<Key>,
    ) -> Result<(), NoMemory> {
        self.tagged(name, tag)?;
        if let Some(charset) = charset {
            self.word(b"IN")?;
            self.quoted(charset)?;
        }
        for key in keys.as_slice() {
            self.key(key, 64)?;
        }
        Ok(())
    }

    fn status(
        &mut self,
        tag: &Bytes,
        mailbox: &Bytes,
        items: &Sequence<StatusItem>,
    ) -> Result<(), NoMemory> {
        self.with_text(b"STATUS", tag, mailbox)?;
        for item in items.as_slice() {
            self.word(status_name(*item))?;
        }
        Ok(())
    }

    fn flags(&mut self, flags: &Option<Texts>) -> Result<(), NoMemory> {
        match flags {
            None => self.word(b"-"),
            Some(flags) => {
                self.word(b"(")?;
                self.all_quoted(flags)?;
                self.word(b")")
            }
        }
    }

    fn moment(&mut self, date: &Option<DateTime>) -> Result<(), NoMemory> {
        match date {
            None => self.word(b"-"),
            Some(date) => {
                self.date(date.date)?;
                self.number(u32::from(date.time.hour))?;
                self.number(u32::from(date.time.minute))?;
                self.number(u32::from(date.time.second))?;
                self.word(if date.zone.is_west { b"WEST" } else { b"EAST" })?;
                self.number(u32::from(date.zone.digits))
            }
        }
    }

    fn date(&mut self, date: Date) -> Result<(), NoMemory> {
        self.number(u32::from(date.year))?;
        self.number(u32::from(date.month))?;
        self.number(u32::from(date.day))
    }

    fn set_end(&mut self, end: SetEnd) -> Result<(), NoMemory> {
        match end {
            SetEnd::Number(n) => self.number(n),
            SetEnd::Greatest => self.word(b"*"),
        }
    }

    fn set(&mut self, set: &SeqSet) -> Result<(), NoMemory> {
        for range in set.ranges() {
            self.set_end(range.first)?;
            self.text.push(b':')?;
            self.set_end(range.last)?;
        }
        Ok(())
    }

    fn item(&mut self, item: &Item) -> Result<(), NoMemory> {
        match item {
            Item::Flags => self.word(b"FLAGS"),
            Item::Uid => self.word(b"UID"),
            Item::Size => self.word(b"SIZE"),
            Item::InternalDate => self.word(b"INTERNALDATE"),
            Item::Envelope => self.word(b"ENVELOPE"),
            Item::Body => self.word(b"BODY"),
            Item::BodyStructure => self.word(b"BODYSTRUCTURE"),
            Item::Rfc822 => self.word(b"RFC822"),
            Item::Rfc822Header => self.word(b"RFC822.HEADER"),
            Item::Rfc822Text => self.word(b"RFC822.TEXT"),
            Item::Section(section, partial) => self.section(section, *partial),
        }
    }

    fn section(&mut self, section: &Section, partial: Option<Partial>) -> Result<(), NoMemory> {
        self.word(b"[")?;
        for number in section.part.as_slice() {
            self.number(*number)?;
        }
        self.section_text(&section.text)?;
        self.word(b"]")?;
        if let Some(partial) = partial {
            self.word(b"AT")?;
            self.number(partial.offset)?;
            self.number(partial.count)?;
        }
        Ok(())
    }

    fn section_text(&mut self, text: &SectionText) -> Result<(), NoMemory> {
        match text {
            SectionText::Whole => self.word(b"WHOLE"),
            SectionText::Header => self.word(b"HEADER"),
            SectionText::Text => self.word(b"TEXT"),
            SectionText::Mime => self.word(b"MIME"),
            SectionText::Fields(names) => {
                self.word(b"FIELDS")?;
                self.all_quoted(names)
            }
            SectionText::FieldsNot(names) => {
                self.word(b"NOT-FIELDS")?;
                self.all_quoted(names)
            }
        }
    }

    /// Appends a key that is nested at most `depth` deep.
    fn key(&mut self, key: &Key, depth: u8) -> Result<(), NoMemory> {
        if depth == 0 {
            return self.word(b"DEEP");
        }
        match key {
            Key::Not(key) => {
                self.word(b"NOT")?;
                self.key(key, depth - 1)
            }
            Key::Or(first, second) => {
                self.word(b"OR")?;
                self.key(first, depth - 1)?;
                self.key(second, depth - 1)
            }
            Key::Each(keys) => {
                self.word(b"(")?;
                for key in keys.as_slice() {
                    self.key(key, depth - 1)?;
                }
                self.word(b")")
            }
            other => self.test(other),
        }
    }

    /// Appends a key without keys in it.
    fn test(&mut self, key: &Key) -> Result<(), NoMemory> {
        match key {
            Key::Header(name, text) => {
                self.word(b"HEADER")?;
                self.quoted(name)?;
                self.quoted(text)
            }
            Key::Larger(size) => {
                self.word(b"LARGER")?;
                self.number(*size)
            }
            Key::Smaller(size) => {
                self.word(b"SMALLER")?;
                self.number(*size)
            }
            Key::Uid(set) => {
                self.word(b"UID")?;
                self.set(set)
            }
            Key::Numbers(set) => self.set(set),
            Key::Before(date) => self.day(b"BEFORE", *date),
            Key::On(date) => self.day(b"ON", *date),
            Key::Since(date) => self.day(b"SINCE", *date),
            Key::SentBefore(date) => self.day(b"SENTBEFORE", *date),
            Key::SentOn(date) => self.day(b"SENTON", *date),
            Key::SentSince(date) => self.day(b"SENTSINCE", *date),
            other => self.text_test(other),
        }
    }

    fn day(&mut self, name: &[u8], date: Date) -> Result<(), NoMemory> {
        self.word(name)?;
        self.date(date)
    }

    fn text_key(&mut self, name: &[u8], text: &Bytes) -> Result<(), NoMemory> {
        self.word(name)?;
        self.quoted(text)
    }

    /// Appends a key with a text, or one that is a word alone.
    fn text_test(&mut self, key: &Key) -> Result<(), NoMemory> {
        match key {
            Key::Bcc(text) => self.text_key(b"BCC", text),
            Key::Body(text) => self.text_key(b"BODY", text),
            Key::Cc(text) => self.text_key(b"CC", text),
            Key::From(text) => self.text_key(b"FROM", text),
            Key::Subject(text) => self.text_key(b"SUBJECT", text),
            Key::Text(text) => self.text_key(b"TEXT", text),
            Key::To(text) => self.text_key(b"TO", text),
            Key::Keyword(flag) => self.text_key(b"KEYWORD", flag),
            Key::Unkeyword(flag) => self.text_key(b"UNKEYWORD", flag),
            other => self.word(word_of(other)),
        }
    }
}

/// Returns the word of a key that is a word alone.
fn word_of(key: &Key) -> &'static [u8] {
    match key {
        Key::All => b"ALL",
        Key::Answered => b"ANSWERED",
        Key::Deleted => b"DELETED",
        Key::Draft => b"DRAFT",
        Key::Flagged => b"FLAGGED",
        Key::New => b"NEW",
        Key::Old => b"OLD",
        Key::Recent => b"RECENT",
        Key::Seen => b"SEEN",
        Key::Unanswered => b"UNANSWERED",
        Key::Undeleted => b"UNDELETED",
        Key::Undraft => b"UNDRAFT",
        Key::Unflagged => b"UNFLAGGED",
        Key::Unseen => b"UNSEEN",
        _ => b"?",
    }
}

fn change_name(change: FlagChange) -> &'static [u8] {
    match change {
        FlagChange::Replace => b"REPLACE",
        FlagChange::Add => b"ADD",
        FlagChange::Remove => b"REMOVE",
    }
}

fn status_name(item: StatusItem) -> &'static [u8] {
    match item {
        StatusItem::Messages => b"MESSAGES",
        StatusItem::Recent => b"RECENT",
        StatusItem::UidNext => b"UIDNEXT",
        StatusItem::UidValidity => b"UIDVALIDITY",
        StatusItem::Unseen => b"UNSEEN",
    }
}
