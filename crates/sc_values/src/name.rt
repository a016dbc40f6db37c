//! Names.

ghost use Rattle.std.specs.Prelude.{◌≡◌, ◌≤◌, ◌↔◌, ◌++◌, ◌||◌, IsTrue, Some, SomeIff, drop, length, nat_eq, refl};
ghost use Rattle.std.proofs.Common.{rules};
ghost use Rattle.std.specs.Ordering.{nat_cmp};
ghost use Rattle.std.specs.Hash as fed;
ghost use Rattle.std.specs.Cmp.{partial_equiv_from_equiv};
ghost use Rattle.std.specs.Cmp.Lexicographic.{pointwise, slice_cmp, nat_list_eq_equiv, nat_list_cmp_total, texts_ties};
ghost use Rattle.std.specs.Cmp.Lexicographic.{texts_po};
ghost use Rattle.std.specs.Cmp.Rules.{hashing};
ghost use Rattle.std.specs.List.{list_all};
ghost use Rattle.sc_values.specs.Limits.{name_limit};
ghost use Rattle.sc_values.specs.Name.{is_letter, is_digit, is_name, padded};

use crate::limits::NAME_LIMIT;
use std::cmp::Ordering;
use std::fmt::{self, Debug, Display, Formatter, Write};
use std::hash::{Hash, Hasher};
use std::marker::Model;

/// A name: one to 64 bytes, a letter or `_` first, then letters, digits and `_`. Reserved words are
/// names too. Contracts see its bytes.
#[derive(Clone, Copy)]
pub struct Name {
    // the bytes after the first `len` are 0
    bytes: [u8; NAME_LIMIT],
    len: usize,
}

impl Model for Name {
    ghost use Rattle.std.specs.Prelude.{◌≡◌, ℕ, ◌≤◌, List, length, take, IsTrue};
    ghost use Rattle.std.proofs.Common.{sym, arith};
    ghost use Rattle.std.proofs.lemmas.List.{length-take-le};
    ghost use Rattle.sc_values.specs.Limits.{name_limit};
    ghost use Rattle.sc_values.specs.Name.{is_name, padded};

    ghost Value = { List ℕ };

    ghost view = { λ n. take n.len n.bytes };

    ghost invariant = { λ n. (n.len ≤ name_limit) × (length n.bytes ≡ name_limit)
        × (n.bytes ≡ padded (take n.len n.bytes))
        × IsTrue (is_name (take n.len n.bytes)) };

    ghost inverse = { λ xs. record { bytes = padded xs; len = length xs } };

    ghost inverse_ok = { λ a h i. record {
      bytes = sym h.2 i;
      len = length-take-le a.len a.bytes (Prim.omega (arith, h.0, h.1)) i;
    } };
}

impl Name {
    /// The name that a text is. None: the text is no name.
    pub fn of(text: &str) -> Option<Name>
        ensures { SomeIff result (IsTrue (is_name text.now)) text.now }
    {
        Name::from_bytes(text.as_bytes())
    }

    /// The name of these bytes. None: they are no name.
    pub fn from_bytes(bytes: &[u8]) -> Option<Name>
        ensures { SomeIff result (IsTrue (is_name bytes.now)) bytes.now }
    {
        if is_spelt_as_name(bytes) {
            Some(Name {
                bytes: with_zeros(bytes),
                len: bytes.len(),
            })
        } else {
            None
        }
    }

    /// Its bytes.
    pub fn as_bytes(&self) -> &[u8]
        ensures value { result.now ≡ self.now }
        ensures name { IsTrue (is_name self.now) }
    {
        &self.bytes[..self.len]
    }

    /// Its text.
    pub fn as_str(&self) -> &str
        ensures { result.now ≡ self.now }
    {
        match str::from_utf8(self.as_bytes()) {
            Ok(text) => text,
            Err(_) => unreachable!(),
        }
    }
}

impl Display for Name {
    ghost output = { λ name. Some name };

    fn fmt<W: Write>(&self, f: &mut Formatter<W>) -> fmt::Result {
        f.write_str(self.as_str())
    }
}

impl Debug for Name {
    fn fmt<W: Write>(&self, f: &mut Formatter<W>) -> fmt::Result {
        Display::fmt(self, f)
    }
}

impl PartialEq for Name {
    ghost eq = { pointwise nat_eq };

    ghost laws = { partial_equiv_from_equiv nat_list_eq_equiv };

    fn eq(&self, other: &Name) -> bool {
        self.as_bytes() == other.as_bytes()
    }
}

impl Eq for Name {
    ghost laws = { nat_list_eq_equiv };
}

impl PartialOrd for Name {
    ghost partial_cmp = { λ a b. Some (slice_cmp nat_cmp a b) };

    ghost laws = { texts_po };

    fn partial_cmp(&self, other: &Name) -> Option<Ordering> {
        Some(self.cmp(other))
    }
}

// Names are in the order of their bytes.
impl Ord for Name {
    ghost cmp = { slice_cmp nat_cmp };

    ghost total = { nat_list_cmp_total };

    ghost matches_partial_cmp = { λ a b. refl };

    ghost matches_eq = { texts_ties };

    fn cmp(&self, other: &Name) -> Ordering {
        self.as_bytes().cmp(other.as_bytes())
    }
}

impl Hash for Name {
    ghost hash_input = { fed.slice fed.u8 };

    ghost respects_eq = { Prim.search (hashing, rules) };

    fn hash<H: Hasher>(&self, state: &mut H) {
        self.as_bytes().hash(state);
    }
}

fn is_letter_byte(byte: u8) -> bool
    ensures { result ≡ is_letter byte }
{
    byte.is_ascii_alphabetic() || byte == b'_'
}

fn is_digit_byte(byte: u8) -> bool
    ensures { result ≡ is_digit byte }
{
    byte.is_ascii_digit()
}

fn has_only_name_bytes(bytes: &[u8]) -> bool
    ensures { result ≡ list_all (λ byte. is_letter byte || is_digit byte) bytes.now }
{
    bytes
        .iter()
        .all(|byte| is_letter_byte(*byte) || is_digit_byte(*byte))
}

fn is_spelt_as_name(bytes: &[u8]) -> bool
    ensures { result ≡ is_name bytes.now }
{
    if bytes.is_empty() {
        return false;
    }
    let (first, rest) = bytes.split_at(1);
    is_letter_byte(first[0]) && has_only_name_bytes(rest) && bytes.len() <= NAME_LIMIT
}

// The bytes, and behind them zeros.
fn with_zeros(bytes: &[u8]) -> [u8; NAME_LIMIT]
    requires { length bytes.now ≤ name_limit }
    ensures { result ≡ padded bytes.now }
{
    let mut all = [0; NAME_LIMIT];
    write_front(&mut all, bytes);
    all
}

// Puts these bytes to the front.
pub(crate) fn write_front(target: &mut [u8], bytes: &[u8])
    requires { length bytes.now ≤ length target.old }
    ensures { target.new ≡ bytes.now ++ drop (length bytes.now) target.old }
{
    target[..bytes.len()].copy_from_slice(bytes);
}
