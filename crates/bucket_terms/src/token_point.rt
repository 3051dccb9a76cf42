// The points from which listings go on.
use key_names::Text;

/// Where a listing goes on: after a key, or after all keys of a common prefix. The text has 1 to 1,024 bytes.
#[derive(Debug, Drop)]
pub enum TokenPoint {
    /// Keys above this one are left.
    Key(Text),
    /// Keys above this common prefix that do not begin with it are left.
    Group(Text),
}
