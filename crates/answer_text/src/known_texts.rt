// What the line of a reply shows besides the reply itself.
use crate::entry_texts::EntryTexts;
use bucket_terms::Record;
use key_names::Directory;

/// The names and the records of a session, and the texts of entries that are made already.
#[derive(Clone, Copy)]
pub struct KnownTexts<'a> {
    pub dir: &'a Directory,
    pub records: &'a [Record],
    pub texts: &'a EntryTexts,
}
