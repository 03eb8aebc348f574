ghost use Rattle.std.specs.Prelude.{◌≡◌, ℕ, ◌≤◌, ◌<◌, ◌↔◌, Bool, true, List as Items, IfOk, IsTrue, Some, SomeIff, string_bytes, length, ◌++◌, ◌∷◌, codes};
ghost use Rattle.std.specs.Str.{IsAscii};
ghost use Rattle.std.specs.List.{list_all};
ghost use Rattle.std.specs.Ordering.{nat_cmp, as_partial_cmp};
ghost use Rattle.std.specs.Cmp.Lexicographic.{slice_cmp};
ghost use Rattle.ax_types.specs.Letters as letters;
ghost use Rattle.ax_types.specs.declared.limits.TheConstants.{MAX_LIFE};

use crate::limits::{MAX_LIFE, MAX_NAME, MAX_TEXT};
use crate::{Duplicate, NoMemory};
use std::alloc::{AllocError, Global};
use std::cmp::Ordering;
use std::fmt;
use std::marker::{Model, PhantomData};

/// Whether each byte is one of `a-z 0-9 - _`.
fn are_name_letters(bytes: &[u8]) -> bool
    ensures { result ≡ list_all letters.is_name_byte bytes.now }
{
    bytes
        .iter()
        .all(|b| matches!(*b, b'a'..=b'z' | b'0'..=b'9' | b'-' | b'_'))
}

/// Whether each byte is one from 0x21 to 0x7e.
fn are_text_letters(bytes: &[u8]) -> bool
    ensures { result ≡ list_all letters.is_text_byte bytes.now }
{
    bytes.iter().all(|b| matches!(*b, b'!'..=b'~'))
}

/// The form that the bytes of a bounded text have. Bytes of the form are ASCII.
pub trait Form {
    ghost is_form: { Items ℕ → Bool };

    /// Whether the bytes have the form.
    fn fits(bytes: &[u8]) -> bool
        ensures { result ≡ is_form bytes.now };

    ghost ascii: { (bs : Items ℕ) → IsTrue (is_form bs) → IsAscii bs };
}

/// The form of a name: 1 to 32 bytes of `a-z 0-9 - _`.
pub struct NameForm;

impl Form for NameForm {
    ghost use Rattle.std.proofs.Common.{rules};
    ghost use Rattle.std.proofs.lemmas.Grind.{common_steps};

    ghost is_form = { letters.is_name };

    ghost ascii = { Prim.search (rules, common_steps) };

    fn fits(bytes: &[u8]) -> bool {
        1 <= bytes.len() && bytes.len() <= MAX_NAME && are_name_letters(bytes)
    }
}

/// The form of a key, which is that of a name.
pub struct KeyForm;

impl Form for KeyForm {
    ghost use Rattle.std.proofs.Common.{rules};
    ghost use Rattle.std.proofs.lemmas.Grind.{common_steps};

    ghost is_form = { letters.is_name };

    ghost ascii = { Prim.search (rules, common_steps) };

    fn fits(bytes: &[u8]) -> bool {
        NameForm::fits(bytes)
    }
}

/// The form of a text: 1 to 64 bytes from 0x21 to 0x7e.
pub struct TextForm;

impl Form for TextForm {
    ghost use Rattle.std.proofs.Common.{rules};
    ghost use Rattle.std.proofs.lemmas.Grind.{common_steps};

    ghost is_form = { letters.is_text };

    ghost ascii = { Prim.search (rules, common_steps) };

    fn fits(bytes: &[u8]) -> bool {
        1 <= bytes.len() && bytes.len() <= MAX_TEXT && are_text_letters(bytes)
    }
}

/// The text of bytes that are ASCII.
fn text_of(alloc: Global, bytes: &[u8]) -> Result<String, NoMemory>
    requires { IsAscii bytes.now }
    ensures { IfOk result (λ t. string_bytes t ≡ bytes.now) }
{
    match str::from_utf8(bytes) {
        Ok(text) => Ok(String::from_str(alloc, text)?),
        Err(_) => unreachable!(),
    }
}

/// A short text of a form, which contracts see as its bytes. Such texts are ordered by their bytes.
#[derive(Drop)]
pub struct Bounded<F: Form> {
    text: String,
    form: PhantomData<F>,
}

impl<F: Form> Model for Bounded<F> {
    ghost use Rattle.std.specs.Prelude.{ℕ, List as Items, string_bytes, IsTrue};

    ghost Value = { Items ℕ };

    ghost view = { λ a. string_bytes a.text };

    ghost invariant = { λ a. IsTrue (F.is_form (string_bytes a.text)) };
}

/// The name of a resource: 1 to 32 bytes of `a-z 0-9 - _`.
pub type Name = Bounded<NameForm>;

/// A map's or multimap's key: 1 to 32 bytes of `a-z 0-9 - _`.
pub type Key = Bounded<KeyForm>;

/// A text that is kept under a name or key: 1 to 64 bytes from 0x21 to 0x7e.
pub type Text = Bounded<TextForm>;

impl<F: Form> Bounded<F> {
    /// The text with these bytes; `None` exactly where they have not its form.
    pub fn read(alloc: Global, bytes: &[u8]) -> Result<Option<Self>, NoMemory>
        ensures { IfOk result (λ read. SomeIff read (IsTrue (F.is_form bytes.now)) bytes.now) }
    {
        if F::fits(bytes) {
            Ok(Some(Bounded {
                text: text_of(alloc, bytes)?,
                form: PhantomData,
            }))
        } else {
            Ok(None)
        }
    }

    /// The text.
    pub fn as_str(&self) -> &str
        ensures text { result.now ≡ self.now }
        ensures form { IsTrue (F.is_form self.now) }
    {
        self.text.as_str()
    }
}

impl<F: Form> Clone for Bounded<F> {
    ghost is_clone = { λ s t. t ≡ s };

    fn clone(&self) -> Result<Self, AllocError> {
        Ok(Bounded {
            text: self.text.clone()?,
            form: PhantomData,
        })
    }
}

impl<F: Form> Duplicate for Bounded<F> {
    fn copy(&self) -> Result<Self, NoMemory> {
        Ok(self.clone()?)
    }
}

impl<F: Form> fmt::Display for Bounded<F> {
    ghost output = { λ a. Some a };

    fn fmt<W: fmt::Write>(&self, f: &mut fmt::Formatter<W>) -> fmt::Result {
        f.write_str(self.text.as_str())
    }
}

impl<F: Form> PartialEq for Bounded<F> {
    ghost use Rattle.std.specs.Bool.{nat_eq};
    ghost use Rattle.std.specs.Cmp.{partial_equiv_from_equiv};
    ghost use Rattle.std.specs.Cmp.Lexicographic.{nat_list_eq_equiv, pointwise};

    ghost eq = { pointwise nat_eq };

    ghost laws = { partial_equiv_from_equiv nat_list_eq_equiv };

    fn eq(&self, other: &Bounded<F>) -> bool {
        self.text.as_str() == other.text.as_str()
    }
}

impl<F: Form> Eq for Bounded<F> {
    ghost use Rattle.std.specs.Cmp.Lexicographic.{nat_list_eq_equiv};

    ghost laws = { nat_list_eq_equiv };
}

impl<F: Form> PartialOrd for Bounded<F> {
    ghost use Rattle.std.specs.Cmp.Lexicographic.{slice_cmp, texts_po};

    ghost partial_cmp = { λ x y. Some (slice_cmp nat_cmp x y) };

    ghost laws = { texts_po };

    fn partial_cmp(&self, other: &Bounded<F>) -> Option<Ordering> {
        Some(self.cmp(other))
    }
}

impl<F: Form> Ord for Bounded<F> {
    ghost use Rattle.std.proofs.Common.{refl};
    ghost use Rattle.std.specs.Cmp.Lexicographic.{nat_list_cmp_total, texts_ties};

    ghost cmp = { slice_cmp nat_cmp };

    ghost total = { nat_list_cmp_total };

    ghost matches_partial_cmp = { λ x y. refl };

    ghost matches_eq = { texts_ties };

    fn cmp(&self, other: &Bounded<F>) -> Ordering {
        self.text.as_str().cmp(other.text.as_str())
    }
}

/// The life of a map's entry: 1 to 1,000,000,000 units of log time.
#[derive(Clone, Copy, PartialEq)]
pub struct Life {
    length: u64,
}

impl Model for Life {
    ghost use Rattle.std.specs.Prelude.{ℕ, ◌≤◌};
    ghost use Rattle.ax_types.specs.declared.limits.TheConstants.{MAX_LIFE};

    ghost Value = { ℕ };

    ghost view = { λ a. a.length };

    ghost invariant = { λ a. (1 ≤ a.length) × (a.length ≤ MAX_LIFE) };

    ghost inverse = { λ n. record { length = n } };
}

impl Life {
    /// The life of this length; `None` exactly outside 1 to 1,000,000,000.
    pub fn new(length: u64) -> Option<Life>
        ensures { SomeIff result ((1 ≤ length) × (length ≤ MAX_LIFE)) length }
    {
        if length == 0 || length > MAX_LIFE {
            return None;
        }
        Some(Life { length })
    }

    /// Its length, in units of log time.
    pub fn length(self) -> u64
        ensures length { result ≡ self }
        ensures within { (1 ≤ self) × (self ≤ MAX_LIFE) }
    {
        self.length
    }
}

impl fmt::Display for Life {
    ghost use Rattle.std.specs.Prelude.{Some};
    ghost use Rattle.std.specs.Fmt.{decimal};

    ghost output = { λ n. Some (decimal n) };

    fn fmt<W: fmt::Write>(&self, f: &mut fmt::Formatter<W>) -> fmt::Result {
        let length = self.length;
        write!(f, "{length}")
    }
}
