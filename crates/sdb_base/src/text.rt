// Texts in UTF-8, in order by their bytes.
ghost use Rattle.std.specs.Prelude.{◌≡◌, Some, IfOk, IsUtf8, refl, string_bytes};
ghost use Rattle.std.specs.Cmp.{partial_equiv_from_equiv};
ghost use Rattle.std.specs.Cmp.Lexicographic.{slice_cmp, nat_list_eq_equiv, nat_list_cmp_total, texts_ties, texts_po};
ghost use Rattle.std.specs.Ordering.{nat_cmp};
ghost use Rattle.std.specs.Str.{bytes_eq};

use crate::OutOfMemory;
use arrayvec::ArrayString;
use std::alloc::Global;
use std::cmp::Ordering;
use std::marker::Model;

/// A text in UTF-8, which contracts see as its bytes. Texts are ordered by their bytes. One of at most
/// 24 bytes stands in the value itself and takes no memory.
#[derive(Debug)]
pub struct Text {
    inner: Stored,
}

// Where the bytes of a text stand.
#[derive(Debug, Drop)]
enum Stored {
    Here(ArrayString<24>),
    OnHeap(String),
}

impl Model for Text {
    ghost use Rattle.std.specs.Prelude.{List, ℕ};

    ghost Value = { List ℕ };

    ghost use Rattle.sdb_base.specs.Stored.{bytes_of};

    ghost view = { λ text. bytes_of text.inner };
}

// Written by hand, so that no caller's proof has to look at where the bytes stand.
impl Drop for Text {
    fn drop(self) {
        let Text { inner: _inner } = self;
    }
}

impl Text {
    /// A copy of the string.
    pub fn from_str(alloc: Global, s: &str) -> Result<Text, OutOfMemory>
        ensures { IfOk result (λ text. text ≡ s.now) }
    {
        let inner = match ArrayString::from(s) {
            Ok(short) => Stored::Here(short),
            Err(_) => Stored::OnHeap(String::from_str(alloc, s)?),
        };
        Ok(Text { inner })
    }

    /// Takes a string; a long one is taken as it is, without a copy.
    pub fn from_string(s: String) -> Text
        ensures { result ≡ string_bytes s }
    {
        let inner = match ArrayString::from(s.as_str()) {
            Ok(short) => Stored::Here(short),
            Err(_) => Stored::OnHeap(s),
        };
        Text { inner }
    }

    /// A copy of the text. A short one takes no memory.
    pub fn copy(&self, alloc: Global) -> Result<Text, OutOfMemory>
        ensures { IfOk result (λ text. text ≡ self.now) }
    {
        let inner = match &self.inner {
            Stored::Here(short) => Stored::Here(*short),
            Stored::OnHeap(long) => Stored::OnHeap(String::from_str(alloc, long.as_str())?),
        };
        Ok(Text { inner })
    }

    /// The text as a string.
    pub fn as_str(&self) -> &str
        ensures value { result.now ≡ self.now }
        ensures utf8 { IsUtf8 self.now }
    {
        match &self.inner {
            Stored::Here(short) => short.as_str(),
            Stored::OnHeap(long) => long.as_str(),
        }
    }
}

impl PartialEq for Text {
    ghost eq = { bytes_eq };

    ghost laws = { partial_equiv_from_equiv nat_list_eq_equiv };

    fn eq(&self, other: &Text) -> bool {
        self.as_str() == other.as_str()
    }
}

impl Eq for Text {
    ghost laws = { nat_list_eq_equiv };
}

impl PartialOrd for Text {
    ghost partial_cmp = { λ a b. Some (slice_cmp nat_cmp a b) };

    ghost laws = { texts_po };

    fn partial_cmp(&self, other: &Text) -> Option<Ordering> {
        Some(self.cmp(other))
    }
}

impl Ord for Text {
    ghost cmp = { slice_cmp nat_cmp };

    ghost total = { nat_list_cmp_total };

    ghost matches_partial_cmp = { λ a b. refl };

    ghost matches_eq = { texts_ties };

    fn cmp(&self, other: &Text) -> Ordering {
        self.as_str().cmp(other.as_str())
    }
}
