// The numbers of a written line. A line that has them at other places is not one of a run, which shows when it is
// compared.
ghost use Rattle.std.specs.Prelude.{◌≡◌, ℕ, ◌^◌, ◌<◌, ◌++◌, ◌∷◌, [], List, drop, Option, Some, None, IfSome, false, decimal};
ghost use Rattle.std.specs.Char.{is_ascii_digit};
ghost use Rattle.key_map.specs.declared.update.Change.{Change};
ghost use Rattle.answer_text.specs.Pieces.{place_text, verb_end_text};
ghost use Rattle.replay_check.specs.Digits.{IsFrontRun, IsLastEnd, IsLastStart, start_of_journal};

/// The place that a reply line shows. None if it shows none.
pub(crate) fn place_in(line: &[u8]) -> Option<u64>
    ensures { (at : Option ℕ) (rest : List ℕ) → IfSome at (λ n. n < 2 ^ 64) → line.now ≡ place_text at ++ 44 ∷ rest → result ≡ at }
{
    first_number(behind(line, PLACE_LABEL))
}

/// The client of a journal line.
pub(crate) fn client_in(line: &[u8]) -> Option<u64>
    ensures { (at client : ℕ) (rest : List ℕ) → at < 2 ^ 64 → client < 2 ^ 64 → line.now ≡ start_of_journal at client (44 ∷ rest) → result ≡ Some client }
{
    let at = behind(line, PLACE_LABEL);
    first_number(behind(behind(at, digits_len(at)), CLIENT_LABEL))
}

/// The request line of a journal line: its last number.
pub(crate) fn line_in(line: &[u8]) -> Option<u64>
    ensures { (front : List ℕ) (n : ℕ) (change : Change) → n < 2 ^ 64 → line.now ≡ front ++ 58 ∷ (decimal n ++ verb_end_text change) → result ≡ Some n }
{
    let (front, _) = line.split_at(last_digit_end(line));
    let (_, digits) = front.split_at(last_digits_start(front));
    number_of(digits)
}

// The lengths of `{"At":` and of `,"Client":`.
const PLACE_LABEL: usize = 6;

const CLIENT_LABEL: usize = 10;

// What stands after this many bytes.
fn behind(text: &[u8], len: usize) -> &[u8]
    ensures { result.now ≡ drop len text.now }
{
    text.get(len..).unwrap_or(&[])
}

// The number that the digits at the front write.
fn first_number(text: &[u8]) -> Option<u64>
    ensures digits { (n b : ℕ) (rest : List ℕ) → n < 2 ^ 64 → is_ascii_digit b ≡ false → text.now ≡ decimal n ++ b ∷ rest → result ≡ Some n }
    ensures none { (b : ℕ) (rest : List ℕ) → is_ascii_digit b ≡ false → text.now ≡ b ∷ rest → result ≡ None }
{
    let (digits, _) = text.split_at(digits_len(text));
    number_of(digits)
}

// How many digits stand at the front.
fn digits_len(text: &[u8]) -> usize
    ensures { IsFrontRun text.now result }
{
    let mut len = 0;
    while len < text.len() && text[len].is_ascii_digit() {
        len += 1;
    }
    len
}

// The number that these digits write, if there is one and it has no more than 64 bits.
fn number_of(digits: &[u8]) -> Option<u64>
    ensures number { (n : ℕ) → n < 2 ^ 64 → digits.now ≡ decimal n → result ≡ Some n }
    ensures none { digits.now ≡ [] → result ≡ None }
{
    match str::from_utf8(digits) {
        Ok(text) => text.parse::<u64>().ok(),
        Err(_) => None,
    }
}

// The place after the last digit, or 0.
fn last_digit_end(text: &[u8]) -> usize
    ensures { IsLastEnd text.now result }
{
    let mut end = text.len();
    while end > 0 && !text[end - 1].is_ascii_digit() {
        end -= 1;
    }
    end
}

// Where the digits at the end of the text begin.
fn last_digits_start(text: &[u8]) -> usize
    ensures { IsLastStart text.now result }
{
    let mut start = text.len();
    while start > 0 && text[start - 1].is_ascii_digit() {
        start -= 1;
    }
    start
}
