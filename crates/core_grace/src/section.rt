// The section word: when a waiter may pass, and the word after leaving.
ghost use Rattle.std.specs.Prelude.{◌≡◌, ◌≢◌, ◌%◌, ◌⊎◌, ◌↔◌, IsTrue};
ghost use Rattle.core_grace.specs.Sections.{has_passed, left_word as after_leaving};

/// Whether a waiter may pass a seat whose section word was `first`, an odd word, and is now `second`: the seat has been
/// outside a section since, or is outside one now.
pub fn passed(first: u64, second: u64) -> bool
    ensures value { result ≡ has_passed first second }
    ensures cases { IsTrue result ↔ ((second % 2 ≡ 0) ⊎ (second ≢ first)) }
{
    second % 2 == 0 || second != first
}

/// The section word after leaving: one more. At the last word it is one less, so that from then on only an even word
/// lets a waiter pass.
pub fn left_word(word: u64) -> u64
    ensures { result ≡ after_leaving word }
{
    if word == u64::MAX { word - 1 } else { word + 1 }
}
