// The errors of reading a token.
use key_names::NoMemory;

/// Why a text gives no point.
#[derive(Clone, Copy, Debug, PartialEq, Eq)]
pub enum TokenError {
    /// It is the token of no key and of no common prefix.
    Bad,
    /// The allocator refused.
    NoMemory,
}

impl From<NoMemory> for TokenError {
    ghost use Rattle.std.specs.Prelude.{◌≡◌};
    ghost use Rattle.page_token.specs.declared.token_error.TokenError.TheVariants.{NoMemory as WantOfMemory};

    ghost from_gives = { λ _ e. e ≡ WantOfMemory };

    fn from(_: NoMemory) -> Self {
        TokenError::NoMemory
    }
}
