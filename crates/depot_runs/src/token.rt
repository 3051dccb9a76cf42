// A parcel that is a tag alone.
use bucket_terms::{Homed, Tagged};

/// A tag on its way.
#[derive(Clone, Copy, Drop)]
pub(crate) struct Token {
    pub(crate) tag: u32,
}

impl Homed for Token {
    ghost use Rattle.std.specs.Prelude.{[]};

    ghost home = { λ _. [] };
}

impl Tagged for Token {
    ghost tag = { λ t. t.tag };
}
