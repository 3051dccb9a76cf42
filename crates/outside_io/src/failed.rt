/// A read or a write failed. The bytes of the source or the sink are as before.
#[derive(Clone, Copy, Debug, PartialEq, Eq)]
pub struct Failed;
