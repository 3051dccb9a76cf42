// The data against which the reply lines are checked.
use crate::own::Table;
use key_map::Update;
use key_names::Directory;
use request_lines::Session;

/// What the reply lines of a text are checked against: the session, and what the journal says.
#[derive(Clone, Copy)]
pub(crate) struct Basis<'a> {
    pub(crate) session: &'a Session,
    pub(crate) dir: &'a Directory,
    /// How many node slots each client has, if named.
    pub(crate) slots: Option<u32>,
    pub(crate) updates: &'a [Update],
    /// For each client the places of its requests' updates.
    pub(crate) own: &'a [Table],
    /// All lines of the text.
    pub(crate) lines: &'a [&'a [u8]],
}
