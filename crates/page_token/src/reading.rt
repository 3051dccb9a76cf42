// From a text to the token whose text it is.
ghost use Rattle.std.specs.Prelude.{◌≡◌, ◌≢◌, ◌∷◌, List, ℕ, IfOk, IfSome, IsErrOf};
ghost use Rattle.base64.specs.Engines.{url_safe_no_pad};
ghost use Rattle.base64.specs.GeneralPurpose.{encode_of, IsBytes};
ghost use Rattle.key_names.specs.Names.{IsFine};
ghost use Rattle.bucket_terms.specs.declared.token_point.TokenPoint.{TokenPoint};
ghost use Rattle.bucket_terms.specs.declared.token.Token.{Token};
ghost use Rattle.bucket_terms.specs.Listing.{point_text, point_letter, IsShortText, IsTokenOf};
ghost use Rattle.bucket_terms.specs.PageParts.{token_bytes};
ghost use Rattle.page_token.specs.OneToken.{HasOneToken, HasOneText, HasText};

use crate::TokenError;
use crate::cutting::parts_of;
use base64::DecodeAllocError;
use base64::engine::general_purpose::URL_SAFE_NO_PAD;
use bucket_terms::{Bound, Token, TokenPoint};
use key_names::{MAX_NAME_BYTES, Text};
use std::alloc::Global;

/// The token whose text it is. Padding, bits left over at the end, another letter, lengths that do not fit and a text
/// that is no key are refused, so that no token has two texts; and no text is that of two tokens. Tokens without a
/// bound are read too.
///
/// ```
/// assert!(rt; read(alloc, b"MlAwMDAwMDAwMS9hLw")?.bound.is_some());
/// assert!(rt; read(alloc, b"UGEv")?.bound.is_none());
/// assert!(rt; matches!(read(alloc, b"UGEv="), Err(TokenError::Bad)));
/// ```
pub fn read(alloc: Global, text: &[u8]) -> Result<Token, TokenError>
    ensures token { IfOk result (λ token. IsTokenOf token text.now) }
    ensures bad { IsErrOf result TokenError.Bad → (token : Token) → ¬ (IsTokenOf token text.now) }
    ensures one_token { HasOneToken text.now }
    ensures one_text { (token : Token) → HasOneText token }
{
    let spelled = decoded(alloc, text)?;
    token_of(alloc, spelled.as_slice())
}

// The bytes whose base64 the text is.
fn decoded(alloc: Global, text: &[u8]) -> Result<Vec<u8>, TokenError>
    ensures ok { IfOk result (λ spelled. text.now ≡ encode_of url_safe_no_pad spelled.items) }
    ensures bytes { IfOk result (λ spelled. IsBytes spelled.items) }
    ensures bad { IsErrOf result TokenError.Bad → (spelled : List ℕ) → IsBytes spelled → text.now ≢ encode_of url_safe_no_pad spelled }
{
    match URL_SAFE_NO_PAD.decode(alloc, text) {
        Ok(spelled) => Ok(spelled),
        Err(DecodeAllocError::DecodeError(_)) => Err(TokenError::Bad),
        Err(DecodeAllocError::OutOfMemory) => Err(TokenError::NoMemory),
    }
}

// The token of these bytes, in either form.
fn token_of(alloc: Global, spelled: &[u8]) -> Result<Token, TokenError>
    ensures lawful { IfOk result HasText }
    ensures spelled { IfOk result (λ token. token_bytes token ≡ spelled.now) }
    ensures bad { IsErrOf result TokenError.Bad → (token : Token) → HasText token → token_bytes token ≢ spelled.now }
{
    match spelled {
        [b'2', letter, rest @ ..] => bound_token(alloc, *letter, rest),
        [letter, text @ ..] => free_token(alloc, *letter, text),
        [] => Err(TokenError::Bad),
    }
}

// A token without a bound: its letter, and the text of its point.
fn free_token(alloc: Global, letter: u8, text: &[u8]) -> Result<Token, TokenError>
    ensures lawful { IfOk result HasText }
    ensures spelled { IfOk result (λ token. token_bytes token ≡ letter ∷ text.now) }
    ensures bad { IsErrOf result TokenError.Bad → (point : TokenPoint) → IsFine (point_text point) → point_letter point ∷ point_text point ≢ letter ∷ text.now }
{
    Ok(Token {
        point: point_of(alloc, letter, text)?,
        bound: None,
    })
}

// A token with a bound: its letter, and what follows it.
fn bound_token(alloc: Global, letter: u8, bytes: &[u8]) -> Result<Token, TokenError>
    ensures lawful { IfOk result HasText }
    ensures spelled { IfOk result (λ token. token_bytes token ≡ 50 ∷ letter ∷ bytes.now) }
    ensures bad { IsErrOf result TokenError.Bad → (token : Token) → HasText token → token_bytes token ≢ 50 ∷ letter ∷ bytes.now }
{
    let Some(parts) = parts_of(bytes) else {
        return Err(TokenError::Bad);
    };
    let point = point_of(alloc, letter, parts.text)?;
    let prefix = short_text(alloc, parts.prefix)?;
    let delimiter = short_text(alloc, parts.delimiter)?;
    Ok(Token {
        point,
        bound: Some(Bound { prefix, delimiter }),
    })
}

// The point with this letter and text.
fn point_of(alloc: Global, letter: u8, text: &[u8]) -> Result<TokenPoint, TokenError>
    ensures fine { IfOk result (λ point. IsFine (point_text point)) }
    ensures letter { IfOk result (λ point. point_letter point ≡ letter) }
    ensures text { IfOk result (λ point. point_text point ≡ text.now) }
    ensures bad { IsErrOf result TokenError.Bad → (point : TokenPoint) → IsFine (point_text point) → point_letter point ≡ letter → point_text point ≢ text.now }
{
    match letter {
        b'K' => Ok(TokenPoint::Key(fine_text(alloc, text)?)),
        b'P' => Ok(TokenPoint::Group(fine_text(alloc, text)?)),
        _ => Err(TokenError::Bad),
    }
}

// The bytes as a text that a name may be.
fn fine_text(alloc: Global, bytes: &[u8]) -> Result<Text, TokenError>
    ensures same { IfOk result (λ text. text ≡ bytes.now) }
    ensures fine { IfOk result (λ _. IsFine bytes.now) }
    ensures bad { IsErrOf result TokenError.Bad → ¬ (IsFine bytes.now) }
{
    if bytes.is_empty() {
        return Err(TokenError::Bad);
    }
    short_text(alloc, bytes)
}

// The bytes as a text of at most 1,024 bytes.
fn short_text(alloc: Global, bytes: &[u8]) -> Result<Text, TokenError>
    ensures same { IfOk result (λ text. text ≡ bytes.now) }
    ensures short { IfOk result (λ _. IsShortText bytes.now) }
    ensures bad { IsErrOf result TokenError.Bad → ¬ (IsShortText bytes.now) }
{
    if bytes.len() > MAX_NAME_BYTES {
        return Err(TokenError::Bad);
    }
    match std::str::from_utf8(bytes) {
        Ok(text) => Ok(Text::of(alloc, text)?),
        Err(_) => Err(TokenError::Bad),
    }
}
