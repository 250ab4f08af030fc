//! The table of samples that the words of `psi_states` ask for.

ghost use Rattle.std.specs.Prelude.{◌≡◌, Ok, Err, drop, map, string_bytes, IfOk, MatchResult};
ghost use Rattle.psi_command.specs.Tables.{first_words, table_asked, table_of, GivesTable, IsTableInRange};

use crate::words::cursor::Cursor;

/// A table of the samples of several streams, one row for each.
#[derive(Clone, Copy, Debug)]
pub struct Table<'w> {
    /// The name of the network file.
    pub net: &'w str,
    /// The seed of the random words.
    pub seed: u64,
    /// The number of the first stream of random words.
    pub first: u64,
    /// The number of streams, at least 1; the last of them is at most 2 to the power 64 less 1.
    pub count: u32,
    /// Of a closed network, the number of customers in all, 0 to 256.
    pub total: Option<u16>,
}

// The table of an open network that the first words ask for, with the words that are left; or the place of the word that
// offends.
#[tactic(auto, unfolding(crate::specs::Tables::first_words))]
pub(crate) fn first_words(words: &[String]) -> Result<(Table<'_>, Cursor<'_>), u8>
    ensures table { MatchResult result (λ read. first_words (map string_bytes words.now) ≡ Ok (table_asked read.0)) (λ place. first_words (map string_bytes words.now) ≡ Err place) }
    ensures ranges { IfOk result (λ read. IsTableInRange read.0) }
    ensures rest { IfOk result (λ read. map string_bytes read.1.left.now ≡ drop 4 (map string_bytes words.now)) }
    ensures place { IfOk result (λ read. read.1.place ≡ 5) }
{
    let mut words = Cursor::new(words);
    let net = words.next_text()?;
    let seed = words.next_number(u64::MAX)?;
    let first = words.next_number(u64::MAX)?;
    let count = words.next_count(u32::MAX, first)?;
    let table = Table {
        net,
        seed,
        first,
        count,
        total: None,
    };
    Ok((table, words))
}

/// The table that the words ask for, or the place of the word that offends, counted from 1. It does not allocate.
#[tactic(auto, unfolding(crate::specs::Tables::table_of))]
pub fn table_of(words: &[String]) -> Result<Table<'_>, u8>
    ensures table { GivesTable result (table_of (map string_bytes words.now)) }
    ensures ranges { IfOk result IsTableInRange }
{
    let (table, mut words) = first_words(words)?;
    let total = words.last_total()?;
    Ok(Table { total, ..table })
}
