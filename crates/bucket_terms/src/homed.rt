//! Things that belong to an index, and things with a number of their own there. Both are meanings for contracts: they
//! have no calls.

/// A thing that belongs to an index.
pub trait Homed {
    ghost use Rattle.std.specs.Prelude.{ℕ, List};

    /// The index that it belongs to: two things belong to one index exactly where these are equal and not empty. What
    /// belongs to no index has the empty list.
    ghost home: { Self → List ℕ };
}

/// A thing that its number tells apart from the others of its index.
pub trait Tagged: Homed {
    ghost use Rattle.std.specs.Prelude.{ℕ};

    /// Its number.
    ghost tag: { Self → ℕ };
}
