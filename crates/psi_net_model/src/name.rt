//! Names of queues, events and rewards.

ghost use Rattle.std.specs.Prelude.{◌≡◌, IsTrue, true, Option};
ghost use Rattle.std.specs.List.{list_all};
ghost use Rattle.std.specs.Str.{bytes_eq};
ghost use Rattle.std.specs.Cmp.{partial_equiv_from_equiv};
ghost use Rattle.std.specs.Cmp.Lexicographic.{nat_list_eq_equiv};
ghost use Rattle.std.specs.Hash as fed;
ghost use Rattle.std.specs.Cmp.Rules.{hashing};
ghost use Rattle.std.proofs.Common.{rules};
ghost use Rattle.psi_net_model.specs.Name.{is_name_byte, is_name, name_of};

use std::fmt;
use std::hash::{Hash, Hasher};
use std::marker::Model;

/// The name of a queue, an event or a reward: 1 to 32 bytes among the ASCII letters and digits, `_` and `-`.
///
/// It is seen as the list of its bytes. This crate alone makes names.
#[derive(Clone, Copy)]
pub struct Name {
    cells: [u8; 32],
    len: u8,
}

impl Model for Name {
    ghost use Rattle.std.specs.Prelude.{◌≡◌, ℕ, ◌-◌, ◌≤◌, ◌++◌, List, IsTrue, length, take, drop, replicate};
    ghost use Rattle.psi_net_model.specs.Name.{is_name};

    ghost Value = { List ℕ };

    ghost view = { λ n. take n.len n.cells };

    ghost invariant = { λ n. (n.len ≤ 32) × (length n.cells ≡ 32) × (drop n.len n.cells ≡ replicate (32 - n.len) 0) × IsTrue (is_name (take n.len n.cells)) };

    ghost inverse = { λ bytes. record { cells = bytes ++ replicate (32 - length bytes) 0; len = length bytes } };

    ghost use Rattle.psi_net_model.specs.Inner.NameLaws.{padded};

    ghost inverse_ok = { λ a h. padded a.cells a.len h.0 h.1 h.2 };
}

impl Name {
    /// Returns the bytes of the name, all of them ASCII.
    pub fn bytes(&self) -> &[u8]
        ensures value { result.now ≡ self.now }
        ensures form { IsTrue (is_name self.now) }
    {
        &self.cells[..self.len as usize]
    }
}

impl PartialEq for Name {
    ghost eq = { bytes_eq };

    ghost laws = { partial_equiv_from_equiv nat_list_eq_equiv };

    fn eq(&self, other: &Name) -> bool {
        self.bytes() == other.bytes()
    }
}

impl Eq for Name {
    ghost laws = { nat_list_eq_equiv };
}

impl Hash for Name {
    ghost hash_input = { fed.slice fed.u8 };

    ghost respects_eq = { Prim.search (hashing, rules) };

    fn hash<H: Hasher>(&self, state: &mut H) {
        self.bytes().hash(state);
    }
}

impl fmt::Debug for Name {
    fn fmt<W: fmt::Write>(&self, f: &mut fmt::Formatter<W>) -> fmt::Result {
        self.bytes().fmt(f)
    }
}

// Whether the byte may stand in a name.
fn is_name_byte(byte: u8) -> bool
    ensures { result ≡ is_name_byte byte }
{
    byte.is_ascii_alphanumeric() || byte == b'_' || byte == b'-'
}

// Whether each byte may stand in a name.
fn are_name_bytes(bytes: &[u8]) -> bool
    ensures { result ≡ list_all is_name_byte bytes.now }
{
    bytes.iter().all(|byte| is_name_byte(*byte))
}

// Whether the bytes have the form of a name.
#[tactic(auto, unfolding(crate::specs::Name::is_name))]
fn is_name(bytes: &[u8]) -> bool
    ensures { result ≡ is_name bytes.now }
{
    1 <= bytes.len() && bytes.len() <= 32 && are_name_bytes(bytes)
}

/// Returns the name of bytes that have the form of one.
#[tactic(auto, using(crate::proofs::CellsLemmas::few, crate::proofs::CellsLemmas::filled, crate::proofs::CellsLemmas::full, crate::proofs::CellsLemmas::front))]
pub fn name_from(bytes: &[u8]) -> Name
    requires { is_name bytes.now ≡ true }
    ensures { result ≡ bytes.now }
{
    let len = bytes.len();
    let mut cells = [0; 32];
    cells[..len].copy_from_slice(bytes);
    Name {
        cells,
        len: len as u8,
    }
}

/// Returns the name that a text is, or `None` where it hasn't the form of one: 1 to 32 bytes among the ASCII letters
/// and digits, `_` and `-`.
pub fn name_of(text: &str) -> Option<Name>
    ensures { result ≡ name_of text.now }
{
    if is_name(text.as_bytes()) {
        Some(name_from(text.as_bytes()))
    } else {
        None
    }
}
