// The parts of a token's bytes. Each length is written as four decimal digits.
ghost use Rattle.std.specs.Prelude.{◌≡◌, ◌≢◌, ◌+◌, ◌<◌, ◌≤◌, ◌⊎◌, ◌++◌, ◌∷◌, [], ℕ, List, None, IfSome, length};
ghost use Rattle.key_names.specs.Names.{most_name_bytes};
ghost use Rattle.bucket_terms.specs.Listing.{four_digits, sized};

use key_names::MAX_NAME_BYTES;

/// What follows the letter of a token with a bound: the prefix, the delimiter, and the text of the point.
#[derive(Clone, Copy)]
pub(crate) struct Parts<'a> {
    pub(crate) prefix: &'a [u8],
    pub(crate) delimiter: &'a [u8],
    pub(crate) text: &'a [u8],
}

/// These parts, where the bytes have them.
pub(crate) fn parts_of(bytes: &[u8]) -> Option<Parts<'_>>
    ensures parts { IfSome result (λ p. bytes.now ≡ sized p.prefix.now ++ (sized p.delimiter.now ++ p.text.now)) }
    ensures prefix { IfSome result (λ p. length p.prefix.now ≤ most_name_bytes) }
    ensures delimiter { IfSome result (λ p. length p.delimiter.now ≤ most_name_bytes) }
    ensures none { result ≡ None → (prefix delimiter text : List ℕ) → length prefix ≤ most_name_bytes → length delimiter ≤ most_name_bytes
        → bytes.now ≢ sized prefix ++ (sized delimiter ++ text) }
{
    let Some((prefix, rest)) = cut_sized(bytes) else {
        return None;
    };
    let Some((delimiter, text)) = cut_sized(rest) else {
        return None;
    };
    Some(Parts {
        prefix,
        delimiter,
        text,
    })
}

// A text after its length, and what follows it.
fn cut_sized(bytes: &[u8]) -> Option<(&[u8], &[u8])>
    ensures cut { IfSome result (λ cut. bytes.now ≡ sized cut.0.now ++ cut.1.now) }
    ensures short { IfSome result (λ cut. length cut.0.now ≤ most_name_bytes) }
    ensures none { result ≡ None → (text rest : List ℕ) → length text ≤ most_name_bytes → bytes.now ≢ sized text ++ rest }
{
    let Some((len, rest)) = cut_len(bytes) else {
        return None;
    };
    if len > MAX_NAME_BYTES || len > rest.len() {
        return None;
    }
    Some(rest.split_at(len))
}

// The number that the first four digits spell, and what follows them.
fn cut_len(bytes: &[u8]) -> Option<(usize, &[u8])>
    ensures cut { IfSome result (λ cut. bytes.now ≡ four_digits cut.0 ++ cut.1.now) }
    ensures below { IfSome result (λ cut. cut.0 < 10000) }
    ensures none { result ≡ None → (n : ℕ) (rest : List ℕ) → bytes.now ≢ four_digits n ++ rest }
{
    let [a, b, c, d, rest @ ..] = bytes else {
        return None;
    };
    let Some(len) = number_of(*a, *b, *c, *d) else {
        return None;
    };
    Some((len, rest))
}

fn number_of(a: u8, b: u8, c: u8, d: u8) -> Option<usize>
    ensures digits { IfSome result (λ n. four_digits n ≡ a ∷ b ∷ c ∷ d ∷ []) }
    ensures below { IfSome result (λ n. n < 10000) }
    ensures none { result ≡ None → (n : ℕ) → four_digits n ≢ a ∷ b ∷ c ∷ d ∷ [] }
{
    let Some(thousands) = digit_of(a) else {
        return None;
    };
    let Some(hundreds) = digit_of(b) else {
        return None;
    };
    let Some(tens) = digit_of(c) else {
        return None;
    };
    let Some(ones) = digit_of(d) else {
        return None;
    };
    Some(1000 * thousands + 100 * hundreds + 10 * tens + ones)
}

fn digit_of(byte: u8) -> Option<usize>
    ensures digit { IfSome result (λ d. byte ≡ 48 + d) }
    ensures below { IfSome result (λ d. d < 10) }
    ensures none { result ≡ None → (byte < 48) ⊎ (57 < byte) }
{
    if byte < b'0' || byte > b'9' {
        return None;
    }
    Some(usize::from(byte - b'0'))
}
