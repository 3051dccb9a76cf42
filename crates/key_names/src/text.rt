// A text that owns its bytes. Contracts see it as the list of these bytes.
ghost use Rattle.std.specs.Prelude.{◌≡◌, ◌≤◌, length, Some, IfOk, refl, nat_eq};
ghost use Rattle.std.specs.Ordering.{nat_cmp};
ghost use Rattle.std.specs.Str.{IsUtf8};
ghost use Rattle.std.specs.String.{string_bytes};
ghost use Rattle.std.specs.Cmp.{partial_equiv_from_equiv};
ghost use Rattle.std.specs.Cmp.Lexicographic.{pointwise, slice_cmp, nat_list_eq_equiv, nat_list_cmp_total, texts_po, texts_ties, bytes_decides};
ghost use Rattle.std.specs.Hash as fed;
ghost use Rattle.key_names.specs.Kept.{short_bytes};

use crate::NoMemory;
use arrayvec::ArrayString;
use std::alloc::Global;
use std::cmp::Ordering;
use std::hash::{Hash, Hasher};
use std::marker::Model;

/// The most bytes of a text that lies in the value itself. A usual name and a tag have fewer.
const SHORT_BYTES: usize = 64;

/// A text: a name, a prefix, a tag. Texts are compared byte by byte, as unsigned numbers, and a text comes before its
/// own continuations. This is the order in which Amazon S3 lists keys. `Text::of` makes a text of at most 64 bytes
/// without an allocation; `Text::from_string` keeps what the string has.
#[derive(Debug, Drop)]
pub struct Text {
    kept: Kept,
}

// Where the bytes lie.
#[derive(Debug, Drop)]
enum Kept {
    Short(ArrayString<SHORT_BYTES>),
    Long(String),
}

impl Model for Text {
    ghost use Rattle.std.specs.Prelude.{List, ℕ};
    ghost use Rattle.key_names.specs.Kept.{kept_bytes};

    ghost Value = { List ℕ };

    ghost view = { λ t. kept_bytes t.kept };
}

impl Text {
    /// The text with the bytes of `text`.
    ///
    /// ```
    /// let name = Text::of(alloc, "photos/a.jpg")?;
    /// assert_eq!(rt; name.as_str(), "photos/a.jpg");
    /// ```
    pub fn of(alloc: Global, text: &str) -> Result<Text, NoMemory>
        ensures { IfOk result (λ made. made ≡ text.now) }
    {
        if text.len() <= SHORT_BYTES {
            return Ok(Text::short(text));
        }
        Ok(Text::from_string(String::from_str(alloc, text)?))
    }

    // The text with these bytes, in the value itself.
    fn short(text: &str) -> Text
        requires { length text.now ≤ short_bytes }
        ensures { result ≡ text.now }
    {
        let mut bytes = ArrayString::new();
        bytes.push_str(text);
        Text {
            kept: Kept::Short(bytes),
        }
    }

    /// The text of a string, which is not copied.
    pub fn from_string(text: String) -> Text
        ensures { result ≡ string_bytes text }
    {
        Text {
            kept: Kept::Long(text),
        }
    }

    /// An equal text with bytes of its own.
    pub fn copy(&self, alloc: Global) -> Result<Text, NoMemory>
        ensures { IfOk result (λ copied. copied ≡ self.now) }
    {
        match &self.kept {
            Kept::Short(text) => Ok(Text {
                kept: Kept::Short(*text),
            }),
            Kept::Long(text) => Text::of(alloc, text.as_str()),
        }
    }

    pub fn bytes(&self) -> &[u8]
        ensures value { result.now ≡ self.now }
        ensures utf8 { IsUtf8 result.now }
    {
        self.as_str().as_bytes()
    }

    pub fn as_str(&self) -> &str
        ensures { result.now ≡ self.now }
    {
        match &self.kept {
            Kept::Short(text) => text.as_str(),
            Kept::Long(text) => text.as_str(),
        }
    }
}

impl PartialEq for Text {
    ghost eq = { pointwise nat_eq };

    ghost laws = { partial_equiv_from_equiv nat_list_eq_equiv };

    fn eq(&self, other: &Self) -> bool {
        self.as_str() == other.as_str()
    }
}

impl Eq for Text {
    ghost laws = { nat_list_eq_equiv };
}

impl Hash for Text {
    ghost hash_input = { fed.str };

    ghost respects_eq = { (fed.same_Alike fed.str bytes_decides).fed };

    fn hash<H: Hasher>(&self, state: &mut H) {
        self.as_str().hash(state);
    }
}

impl PartialOrd for Text {
    ghost partial_cmp = { λ x y. Some (slice_cmp nat_cmp x y) };

    ghost laws = { texts_po };

    fn partial_cmp(&self, other: &Self) -> Option<Ordering> {
        Some(self.cmp(other))
    }
}

impl Ord for Text {
    ghost cmp = { slice_cmp nat_cmp };

    ghost total = { nat_list_cmp_total };

    ghost matches_partial_cmp = { λ x y. refl };

    ghost matches_eq = { texts_ties };

    fn cmp(&self, other: &Self) -> Ordering {
        self.as_str().cmp(other.as_str())
    }
}
