// The texts of entries that are made once, for the pages that show them.
ghost use Rattle.std.specs.Prelude.{◌≡◌, ◌++◌, ◌<◌, ◌-◌, ℕ, List, None, length, replicate, IfOk, IfSome, OnOk};
ghost use Rattle.key_names.specs.Names.{name_at};
ghost use Rattle.bucket_terms.specs.declared.record.Record.{Record as StoredRecord};
ghost use Rattle.bucket_terms.specs.PageInRange.{IsEntryInRange};
ghost use Rattle.answer_text.specs.Lines.{record_at};
ghost use Rattle.answer_text.specs.EntryTexts.{AreRight, AreMadeFrom, IsMadeFor, IsRight, later_text, wanted_with};

use crate::entries::push_content;
use crate::pieces::push;
use bucket_terms::{PageEntry, Record};
use key_names::{Directory, NoMemory};
use std::alloc::Global;
use std::marker::Model;

// The bytes of an entry's text without its key and its tag, where it has no escapes: the comma, the labels, and two
// numbers of at most 20 digits.
const LABEL_BYTES: usize = 85;

/// The object of a key and its record, as a page without escapes shows it, after the comma that stands before it unless
/// it is the first.
#[derive(Debug, Drop)]
pub(crate) struct EntryText {
    /// The rank of the key.
    pub(crate) rank: u64,
    /// The place of the record.
    pub(crate) val: u64,
    pub(crate) text: String,
}

/// Which entries' texts are made, from the names of a directory and the records of a session: at the place of each
/// record, the rank of the key with which a page shows it.
#[derive(Drop)]
pub struct WantedTexts<'a> {
    dir: &'a Directory,
    records: &'a [Record],
    ranks: Vec<Option<u32>>,
}

impl<'a> Model for WantedTexts<'a> {
    ghost use Rattle.answer_text.specs.EntryTexts.{WantedView, wanted_of, AreWanted};

    ghost Value = { WantedView };

    ghost view = { wanted_of };

    ghost invariant = { λ w. AreWanted (wanted_of w) };
}

impl<'a> WantedTexts<'a> {
    /// None yet, and a place for each record.
    pub fn none(
        alloc: Global,
        dir: &'a Directory,
        records: &'a [Record],
    ) -> Result<WantedTexts<'a>, NoMemory>
        ensures { IfOk result (λ wanted. wanted ≡ record { dir = dir.now; records = records.now; ranks = replicate (length records.now) None }) }
    {
        let ranks = vec![in alloc; None; records.len()]?;
        Ok(WantedTexts {
            dir,
            records,
            ranks,
        })
    }

    /// How many places there are.
    pub fn len(&self) -> usize
        ensures { result ≡ length self.now.records }
    {
        self.ranks.len()
    }

    /// Marks the text of a key's entry as wanted, if the record has a place and none is wanted there.
    pub fn want(&mut self, entry: &PageEntry)
        requires { IsEntryInRange self.old.dir entry.now }
        ensures { self.new ≡ wanted_with self.old entry.now }
    {
        if let PageEntry::Key { rank, val } = *entry {
            let place = val as usize;
            if place < self.ranks.len() && self.ranks[place].is_none() {
                self.ranks[place] = Some(rank);
            }
        }
    }

    /// The texts that are wanted at the places from one up to another, one for each place; none after the last
    /// record.
    pub fn texts(&self, alloc: Global, from: usize, to: usize) -> Result<EntryTexts, NoMemory>
        ensures right { IfOk result (AreRight self.now.dir self.now.records) }
        ensures count { IfOk result (λ texts. length texts ≡ to - from) }
        ensures made { IfOk result (AreMadeFrom self.now from) }
    {
        let mut texts = Vec::with_capacity(alloc, to.saturating_sub(from))?;
        for place in from..to {
            texts.push(self.text_at(alloc, place)?)?;
        }
        Ok(EntryTexts { texts })
    }

    // The text that is wanted at a place.
    fn text_at(&self, alloc: Global, place: usize) -> Result<Option<EntryText>, NoMemory>
        ensures right { IfOk result (λ text. IfSome text (IsRight self.now.dir self.now.records)) }
        ensures made { IfOk result (IsMadeFor self.now place) }
    {
        match self.ranks.get(place) {
            Some(Some(rank)) => {
                let text = made(
                    alloc,
                    self.dir,
                    self.records,
                    u64::from(*rank),
                    place as u64,
                )?;
                Ok(Some(text))
            }
            _ => Ok(None),
        }
    }
}

/// The texts of entries of one session, each at the place of its record. A page that has such an entry shows the text
/// stored here; the texts of its other entries are made for the page.
///
/// ```
/// let mut wanted = WantedTexts::none(alloc, &dir, records)?;
/// for place in 0..page.entries.len() {
///     wanted.want(&page.entries.at(place));
/// }
/// let texts = wanted.texts(alloc, 0, wanted.len())?;
/// let known = KnownTexts { dir: &dir, records, texts: &texts };
/// push_known_line(&mut line, &known, &placed)?;
/// ```
#[derive(Debug, Drop)]
pub struct EntryTexts {
    texts: Vec<Option<EntryText>>,
}

impl Model for EntryTexts {
    ghost use Rattle.std.specs.Prelude.{List, Option};
    ghost use Rattle.answer_text.specs.declared.entry_texts.EntryText.{EntryText as Kept};

    ghost Value = { List (Option Kept) };

    ghost view = { λ e. e.texts.items };
}

impl EntryTexts {
    /// No texts, and no place for any. It takes no memory.
    pub fn none(alloc: Global) -> EntryTexts
        ensures { (dir : List (List ℕ)) (records : List StoredRecord) → AreRight dir records result }
    {
        EntryTexts {
            texts: Vec::new(alloc),
        }
    }

    /// Adds texts after the last place.
    pub fn append(&mut self, behind: EntryTexts) -> Result<(), NoMemory>
        ensures { OnOk result (self.new ≡ self.old ++ behind) }
    {
        let EntryTexts { mut texts } = behind;
        self.texts.append(&mut texts)?;
        Ok(())
    }

    /// The text of the entry of this key with the record at place `val`, if it is here.
    #[inline(always)]
    pub(crate) fn text(&self, rank: u64, val: u64) -> Option<&str>
        ensures { (dir : List (List ℕ)) (records : List StoredRecord) → AreRight dir records self.now
            → IfSome result (λ text. text.now ≡ later_text (name_at dir rank) (record_at records val)) }
    {
        match self.texts.get(val as usize) {
            Some(Some(kept)) if kept.rank == rank && kept.val == val => Some(kept.text.as_str()),
            _ => None,
        }
    }
}

// The text of the entry of this key with the record at place `val`.
fn made(
    alloc: Global,
    dir: &Directory,
    records: &[Record],
    rank: u64,
    val: u64,
) -> Result<EntryText, NoMemory>
    requires ranked { rank < length dir.now }
    requires recorded { val < length records.now }
    ensures right { IfOk result (IsRight dir.now records.now) }
    ensures of { IfOk result (λ text. (text.rank ≡ rank) × (text.val ≡ val)) }
{
    let key = dir.name(rank).as_str();
    let stored = &records[val as usize];
    let bytes = LABEL_BYTES
        .saturating_add(key.len())
        .saturating_add(stored.etag.as_str().len());
    let mut text = String::with_capacity(alloc, bytes)?;
    push(&mut text, ",")?;
    push_content(&mut text, key, stored)?;
    Ok(EntryText { rank, val, text })
}
