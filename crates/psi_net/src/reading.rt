//! Reading a file.

ghost use Rattle.std.specs.Prelude.{◌≡◌, ◌≤◌, take, codes, Ok, IfOk, IfErr};
ghost use Rattle.psi_net_document.specs.Refusal.{Gives, top};
ghost use Rattle.psi_net.specs.Errors.{IsNetError, Reads};
ghost use Rattle.toml.specs.View.{view, table_view};
ghost use Rattle.psi_net_document.specs.Values.{seen, required};
ghost use Rattle.psi_net_model.specs.Draft.{drafted, unexpanded, IsWhole};
ghost use Rattle.psi_net_model.specs.Expansion.{AreSourced};
ghost use Rattle.psi_net.specs.Reading.{version_in, most_limit, numbers_of, document_network, file_text, text_network, network_of};

use crate::event_tables::events;
use crate::judged;
use crate::net_error::NetError;
use crate::queue_tables::queues;
use crate::reward_tables::rewards;
use psi_net_document::{
    MOST_NET_BYTES, NetCause, NetRefusal, Place, find, no_unknown, number_or, present, read,
};
use psi_net_model::{Draft, Net, expand};
use psi_state::{MOST_LIMIT, MOST_SPLIT};
use std::alloc::Global;
use toml::{Table, Value};

// `version`: the integer 1 or 2.
#[tactic(auto, unfolding(crate::specs::Reading::version_in))]
fn version_in(value: &Value) -> Result<u32, NetRefusal>
    ensures value { Gives (λ n. n) result (version_in (view value.now)) }
    ensures range { IfOk result (λ n. (1 ≤ n) × (n ≤ 2)) }
{
    match value {
        Value::Integer(number) => {
            if *number == 1 || *number == 2 {
                Ok(*number as u32)
            } else {
                Err(NetCause::Version.at_key(Place::TOP, "version"))
            }
        }
        _ => Err(NetCause::WrongType.at_key(Place::TOP, "version")),
    }
}

// `version`, which is required.
fn version(value: Option<&Value>) -> Result<u32, NetRefusal>
    ensures value { Gives (λ n. n) result (required top (codes "version") version_in (seen value.entry)) }
    ensures range { IfOk result (λ n. (1 ≤ n) × (n ≤ 2)) }
{
    let value = read!(present(Place::TOP, "version", value));
    version_in(value)
}

// The greatest `limit` in a file of this version.
fn most_limit(version: u32) -> u32
    ensures value { result ≡ most_limit version }
    ensures least { 18 ≤ result }
    ensures most { result ≤ 22 }
{
    if version == 1 { 20 } else { MOST_LIMIT }
}

// What the keys at the top say that are numbers.
#[derive(Clone, Copy)]
pub(crate) struct TopNumbers {
    pub(crate) version: u32,
    pub(crate) limit: u8,
    pub(crate) split: u16,
}

// The numbers at the top: `version`, and where no key at the top is unknown, `limit` and `split`.
#[tactic(auto, unfolding(crate::specs::Reading::numbers_of))]
fn top_numbers(table: &Table) -> Result<TopNumbers, NetRefusal>
    ensures { Gives (λ numbers. numbers) result (numbers_of (table_view table.now)) }
{
    let version = read!(version(find(table, "version")));
    let keys = &["version", "limit", "split", "queue", "event", "reward"];
    read!(no_unknown(Place::TOP, keys, &[], table));
    let most = most_limit(version);
    let limit = read!(number_or(Place::TOP, "limit", 18, 0, most, find(table, "limit")));
    let split = read!(number_or(
        Place::TOP,
        "split",
        256,
        1,
        MOST_SPLIT,
        find(table, "split")
    ));
    Ok(TopNumbers {
        version,
        limit: limit as u8,
        split: split as u16,
    })
}

// The network that a document says. Its events aren't expanded yet.
#[tactic(auto, unfolding(crate::specs::Reading::document_network))]
fn document(alloc: Global, table: &Table) -> Result<Draft, NetError>
    ensures network { Reads unexpanded result (document_network (table_view table.now)) }
    ensures whole { IfOk result IsWhole }
    ensures sources { IfOk result (λ draft. AreSourced draft.queues.items draft.events.items) }
{
    let numbers = judged!(top_numbers(table));
    let known = read!(queues(alloc, find(table, "queue")));
    let events = read!(events(alloc, numbers.version, &known, find(table, "event")));
    let rewards = read!(rewards(alloc, &known, find(table, "reward")));
    Ok(Draft {
        queues: known.queues,
        caps: known.caps,
        events,
        limit: numbers.limit,
        split: numbers.split,
        rewards,
    })
}

// The text of a file's bytes: not too many, and UTF-8.
#[tactic(auto, using(crate::proofs::TextsLemmas::valid, crate::proofs::TextsLemmas::invalid), unfolding(crate::specs::Reading::file_text))]
fn file_text(bytes: &[u8]) -> Result<&str, NetRefusal>
    ensures { Gives (λ text. text.now) result (file_text bytes.now) }
{
    if bytes.len() > MOST_NET_BYTES as usize {
        return Err(NetCause::TooLong.at_place(Place::TOP));
    }
    match std::str::from_utf8(bytes) {
        Ok(text) => Ok(text),
        Err(_) => Err(NetCause::NotToml.at_place(Place::TOP)),
    }
}

// What a text says. The TOML table is dropped here, so it is gone when events are expanded and the network is made.
#[tactic(auto, unfolding(crate::specs::Reading::text_network))]
fn text_draft(alloc: Global, text: &str) -> Result<Draft, NetError>
    ensures network { Reads unexpanded result (text_network text.now) }
    ensures whole { IfOk result IsWhole }
    ensures sources { IfOk result (λ draft. AreSourced draft.queues.items draft.events.items) }
{
    match toml::table_from_str(alloc, text) {
        Ok(table) => document(alloc, &table),
        Err(error) => {
            if error.is_memory() {
                Err(NetError::OutOfMemory)
            } else {
                Err(NetError::Refused(NetCause::NotToml.at_place(Place::TOP)))
            }
        }
    }
}

/// Returns the network of a file's bytes: a TOML 1.1 document of at most 1,048,576 bytes.
///
/// | Key at the top | Value | Default |
/// |---|---|---|
/// | `version` | 1 or 2 | required |
/// | `limit` | 0 to 20, in version 2 to 22: horizons are at most 2 to the power `limit` steps | 18 |
/// | `split` | 1 to 4,096: regions of at most this number of states are followed state by state | 256 |
/// | `queue` | array of 1 to 32 tables | required |
/// | `event` | array of 1 to 1,024 tables | required |
/// | `reward` | array of at most 64 tables | empty |
///
/// A queue has `name`, `capacity` (customers, 1 to 65,535) and `servers` (1 to the lesser of 64 and the
/// capacity, default 1). Queues are numbered from 0.
///
/// An event has `kind`, `name`, `rate` (1 to 1,048,576: how often it happens beside the others), and the
/// keys of its kind in this order. Names of events differ; an event and a queue may share one.
///
/// | Kind | Keys |
/// |---|---|
/// | `arrival` | `to`, list of at least one name |
/// | `service` | `from`, name; `to`, list, default empty; `full`, `"lost"` (default) or `"stay"` |
/// | `index` | `from`, optional name; `to`, list of at least one; `table`, a row for each target with as many integers from 0 to 1,000,000,000 as its capacity; `full`; `size`, default 1, and 1 beside `from` |
/// | `batch` | `to`, list of at least one; `size`, required |
/// | `negative` | `from`, optional name; `on`, name; `amount`, default 1 |
/// | `fork` | `from`, optional name; `to`, list of at least one |
/// | `join` | `from`, list of at least one; `to`, optional name |
/// | `guarded` (version 2) | `part`, array of 1 to 32 tables with `queue`, `least` (default 0), `most` (default the capacity), `shift` (default 0), `floor` (default 0), `ceiling` (default the capacity): customers from 0 to the capacity, but `shift` from -65,535 to 65,535 |
///
/// `size` and `amount` are from 1 to 65,535 customers, `size` at most the capacity of each target. A
/// service, an index, a negative event or a fork with `from` on a queue of s servers becomes s events of
/// the same rate, one for each server.
///
/// A reward has `kind`, `name`, `queues` (list of at least one name), and by its kind `weights`
/// (`linear`: an integer for each queue), `table` (`table`: a row for each queue, with an integer for 0
/// customers up to its capacity) or `level` (`above`: 0 to 65,535); `greatest` and `least` have no more.
/// Weights and table numbers are from -1,000,000,000 to 1,000,000,000.
///
/// A name is 1 to 32 bytes among the ASCII letters and digits, `_` and `-`. Other keys are refused.
///
/// # Errors
///
/// `Refused` with the first refusal in the order of the file's judging (see [`NetRefusal`]):
/// the length and the document; at the top `version`, unknown keys, `limit`, `split`, `queue`, `event`,
/// `reward`; in an array its tables in order; in a table unknown keys (of an event or a reward after
/// `kind`), then the keys as listed, and after those of an event the counts up to it: expanded events,
/// index values, total rate. `OutOfMemory` if an allocation fails.
#[tactic(auto, unfolding(crate::specs::Reading::network_of))]
pub fn net_of(alloc: Global, bytes: &[u8]) -> Result<Net, NetError>
    ensures network { IfOk result (λ net. network_of bytes.now ≡ Ok net) }
    ensures refused { IfErr result (λ error. IsNetError error (network_of bytes.now)) }
    // A file is judged by its first 1,048,577 bytes.
    ensures front { network_of bytes.now ≡ network_of (take 1048577 bytes.now) }
{
    let text = judged!(file_text(bytes));
    let draft = read!(text_draft(alloc, text));
    let draft = expand(alloc, draft)?;
    Ok(Net::made(alloc, draft)?)
}
