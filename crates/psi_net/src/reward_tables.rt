//! The array `reward`.

ghost use Rattle.std.specs.Prelude.{◌≡◌, ℕ, ◌≤◌, ◌<◌, ◌+◌, ◌∷◌, [], true, false, length, map, codes, IfOk, OnOk, All};
ghost use Rattle.std.specs.List.{list_any};
ghost use Rattle.std.specs.Str.{bytes_eq};
ghost use Rattle.psi_reward.specs.Rewards.{reward_caps};
ghost use Rattle.toml.specs.View.{view, table_view};
ghost use Rattle.psi_net_document.specs.Refusal.{Gives};
ghost use Rattle.psi_net.specs.Errors.{Reads};
ghost use Rattle.psi_net_document.specs.Values.{seen, no_unknown, required, each};
ghost use Rattle.psi_net_document.specs.Targets.{are_below};
ghost use Rattle.psi_net_model.specs.Draft.{named};
ghost use Rattle.psi_net.specs.RewardTables.{reward_named, reward_kind_in, reward_keys, integer_step, weights_in, grid_step, grid_in, reward_kind_of, reward_of, reward_step, rewards_in, rewards_of};

use crate::judged;
use crate::known_queues::KnownQueues;
use crate::net_error::NetError;
use crate::words::RewardWord;
use indexmap::IndexSet;
use psi_net_document::{
    NetCause, NetRefusal, Place, Section, array_in, counted_in, find, integer_in, no_unknown,
    present, read, required_name, required_number, required_targets, table_in, text_in,
    unless_taken,
};
use psi_net_model::{Name, RewardEntry, accepted_reward};
use psi_reward::{Grid, Numbers, RewardKind};
use psi_state::{MOST_CUSTOMERS, Queues, State};
use std::alloc::Global;
use toml::{Table, Value};

// The kind of reward that a text names.
fn reward_named(text: &str) -> Option<RewardWord>
    ensures { result ≡ reward_named text.now }
{
    match text {
        "linear" => Some(RewardWord::Linear),
        "table" => Some(RewardWord::Table),
        "greatest" => Some(RewardWord::Greatest),
        "least" => Some(RewardWord::Least),
        "above" => Some(RewardWord::Above),
        _ => None,
    }
}

// `kind`.
#[tactic(auto, unfolding(crate::specs::RewardTables::reward_kind_in))]
fn reward_word(place: Place, value: Option<&Value>) -> Result<RewardWord, NetRefusal>
    ensures { Gives (λ word. word) result (required place (codes "kind") (reward_kind_in place) (seen value.entry)) }
{
    let value = read!(present(place, "kind", value));
    let text = read!(text_in(place, "kind", value));
    reward_named(text).ok_or(NetCause::UnknownKind.at_key(place, "kind"))
}

// The keys of all rewards.
const ALL: [&str; 3] = ["kind", "name", "queues"];

// The table of a reward of this kind has no other keys than the kind's.
fn no_unknown_reward_key(place: Place, word: RewardWord, table: &Table) -> Result<(), NetRefusal>
    ensures { Gives (λ _. tt) result (no_unknown place (reward_keys word) (table_view table.now)) }
{
    match word {
        RewardWord::Linear => no_unknown(place, &ALL, &["weights"], table),
        RewardWord::Table => no_unknown(place, &ALL, &["table"], table),
        RewardWord::Greatest | RewardWord::Least => no_unknown(place, &ALL, &[], table),
        RewardWord::Above => no_unknown(place, &ALL, &["level"], table),
    }
}

// The greatest weight or number of a table; the least is its negative.
const MOST_NUMBER: u32 = 1_000_000_000;

// One integer more of the weights or of a row.
#[tactic(auto, unfolding(crate::specs::RewardTables::integer_step))]
fn push_integer(
    place: Place,
    key: &str,
    numbers: &mut Numbers,
    value: &Value,
) -> Result<(), NetError>
    ensures { (n : ℕ) → Reads (λ _. numbers.new) result (integer_step place key.now n numbers.old (view value.now)) }
{
    let number = judged!(integer_in(place, key, MOST_NUMBER, value));
    numbers.push(number)?;
    Ok(())
}

// The integers of an array.
#[tactic(auto, using(psi_net_document::proofs::TurnLemmas::turn, crate::proofs::ErrorLemmas::turn_errs, psi_net_document::proofs::TurnLemmas::turn_ends))]
fn all_integers(
    alloc: Global,
    place: Place,
    key: &str,
    values: &[Value],
) -> Result<Numbers, NetError>
    ensures { Reads (λ numbers. numbers) result (each (integer_step place key.now) 1 [] (map view values.now)) }
{
    let mut numbers = Numbers::new(alloc);
    for value in values {
        read!(push_integer(place, key, &mut numbers, value));
    }
    Ok(numbers)
}

// `weights`: as many integers as queues.
#[tactic(auto, unfolding(crate::specs::RewardTables::weights_in))]
fn weights(
    alloc: Global,
    place: Place,
    queues: &Queues,
    value: Option<&Value>,
) -> Result<Numbers, NetError>
    ensures { Reads (λ numbers. numbers) result (required place (codes "weights") (weights_in place (length queues.now)) (seen value.entry)) }
{
    let value = judged!(present(place, "weights", value));
    let values = judged!(counted_in(place, "weights", queues.len() as usize, value));
    all_integers(alloc, place, "weights", values)
}

// The row of `table` for the queue at this place, counted from 0, with the rows before it.
#[tactic(auto, using(psi_net_document::proofs::FoundLemmas::below_at), unfolding(crate::specs::RewardTables::grid_step))]
fn push_grid_row(
    alloc: Global,
    place: Place,
    caps: &State,
    queues: &Queues,
    number: u8,
    rows: &mut Grid,
    value: &Value,
) -> Result<(), NetError>
    requires among { are_below (length caps.now) queues.now ≡ true }
    requires next { number < length queues.now }
    requires count { length rows.old ≡ number }
    ensures value { (n : ℕ) → Reads (λ _. rows.new) result (grid_step place caps.now queues.now n rows.old (view value.now)) }
    ensures count { OnOk result (length rows.new ≡ number + 1) }
{
    let count = caps.get(queues.get(number)) as usize + 1;
    let values = judged!(counted_in(place, "table", count, value));
    let row = read!(all_integers(alloc, place, "table", values));
    rows.push(row)?;
    Ok(())
}

// `table`: one row for each queue.
#[tactic(auto, using(psi_net_document::proofs::TurnLemmas::turn, crate::proofs::ErrorLemmas::turn_errs, psi_net_document::proofs::TurnLemmas::turn_ends), unfolding(crate::specs::RewardTables::grid_in))]
fn grid(
    alloc: Global,
    place: Place,
    caps: &State,
    queues: &Queues,
    value: Option<&Value>,
) -> Result<Grid, NetError>
    requires { are_below (length caps.now) queues.now ≡ true }
    ensures { Reads (λ rows. rows) result (required place (codes "table") (grid_in place caps.now queues.now) (seen value.entry)) }
{
    let value = judged!(present(place, "table", value));
    let values = judged!(counted_in(place, "table", queues.len() as usize, value));
    let mut rows = Grid::new(alloc);
    for number in 0..queues.len() {
        let element = &values[number as usize];
        read!(push_grid_row(alloc, place, caps, queues, number, &mut rows, element));
    }
    Ok(rows)
}

// The key of its own that a kind has.
#[tactic(auto, unfolding(crate::specs::RewardTables::reward_kind_of))]
fn reward_kind_of(
    alloc: Global,
    place: Place,
    word: RewardWord,
    caps: &State,
    queues: Queues,
    table: &Table,
) -> Result<RewardKind, NetError>
    requires { are_below (length caps.now) queues ≡ true }
    ensures { Reads (λ kind. kind) result (reward_kind_of place word caps.now queues (table_view table.now)) }
{
    match word {
        RewardWord::Linear => {
            let weights = read!(weights(alloc, place, &queues, find(table, "weights")));
            Ok(RewardKind::Linear { queues, weights })
        }
        RewardWord::Table => {
            let table = read!(grid(alloc, place, caps, &queues, find(table, "table")));
            Ok(RewardKind::Table { queues, table })
        }
        RewardWord::Greatest => Ok(RewardKind::Greatest { queues }),
        RewardWord::Least => Ok(RewardKind::Least { queues }),
        RewardWord::Above => {
            let found = find(table, "level");
            let level = judged!(required_number(place, "level", 0, MOST_CUSTOMERS, found));
            Ok(RewardKind::Above {
                queues,
                level: level as u16,
            })
        }
    }
}

// A reward's table, with its place and the names of the rewards before it.
#[tactic(auto, using(crate::proofs::KeptRewardsLemmas::reward_kept), unfolding(crate::specs::RewardTables::reward_of))]
fn reward(
    alloc: Global,
    place: Place,
    earlier: &IndexSet<Name>,
    known: &KnownQueues,
    table: &Table,
) -> Result<RewardEntry, NetError>
    ensures value { Reads named result (reward_of place earlier.now.keys known.now.names.list.keys known.now.caps (table_view table.now)) }
    ensures fresh { IfOk result (λ value. list_any (bytes_eq value.name) earlier.now.keys ≡ false) }
    ensures caps { IfOk result (λ value. reward_caps value.reward ≡ known.now.caps) }
{
    let word = judged!(reward_word(place, find(table, "kind")));
    judged!(no_unknown_reward_key(place, word, table));
    let name = judged!(required_name(place, "name", find(table, "name")));
    judged!(unless_taken(place, earlier, name));
    let found = find(table, "queues");
    let queues = judged!(required_targets(place, "queues", &known.names, &Queues::empty(), found));
    let kind = read!(reward_kind_of(alloc, place, word, &known.caps, queues, table));
    Ok(RewardEntry {
        name,
        reward: accepted_reward(known.caps, kind),
    })
}

// One element of the array, with its number and the rewards before it.
#[tactic(auto, using(crate::proofs::KeptRewardsLemmas::named_more, crate::proofs::KeptRewardsLemmas::caps_more), unfolding(crate::specs::RewardTables::reward_step))]
fn push_reward(
    alloc: Global,
    number: u32,
    known: &KnownQueues,
    earlier: &mut IndexSet<Name>,
    rewards: &mut Vec<RewardEntry>,
    value: &Value,
) -> Result<(), NetError>
    requires names { earlier.old.keys ≡ map (λ r. r.name) (map named rewards.old.items) }
    requires caps { All (λ v. reward_caps v.reward ≡ known.now.caps) rewards.old.items }
    ensures value { Reads (λ _. map named rewards.new.items) result (reward_step known.now.names.list.keys known.now.caps number (map named rewards.old.items) (view value.now)) }
    ensures names { OnOk result (earlier.new.keys ≡ map (λ r. r.name) (map named rewards.new.items)) }
    ensures caps { OnOk result (All (λ v. reward_caps v.reward ≡ known.now.caps) rewards.new.items) }
{
    let place = Place {
        section: Section::Reward,
        number,
    };
    let table = judged!(table_in(place, value));
    let reward = read!(reward(alloc, place, earlier, known, table));
    earlier.insert(reward.name)?;
    rewards.push(reward)?;
    Ok(())
}

// The rewards of the array's elements.
#[tactic(auto, using(psi_net_document::proofs::TurnLemmas::turn, crate::proofs::ErrorLemmas::turn_errs, psi_net_document::proofs::TurnLemmas::turn_ends, crate::proofs::KeptRewardsLemmas::no_caps))]
fn all_rewards(
    alloc: Global,
    known: &KnownQueues,
    values: &[Value],
) -> Result<Vec<RewardEntry>, NetError>
    requires { length values.now ≤ 64 }
    ensures value { Reads (λ rewards. map named rewards.items) result (each (reward_step known.now.names.list.keys known.now.caps) 1 [] (map view values.now)) }
    ensures caps { IfOk result (λ rewards. All (λ v. reward_caps v.reward ≡ known.now.caps) rewards.items) }
{
    let mut earlier = IndexSet::new(alloc);
    let mut rewards = Vec::with_capacity(alloc, values.len())?;
    for (index, value) in values.iter().enumerate() {
        let number = index as u32 + 1;
        read!(push_reward(alloc, number, known, &mut earlier, &mut rewards, value));
    }
    Ok(rewards)
}

// `reward`: an array of at most 64 tables.
#[tactic(auto, using(crate::proofs::KeptRewardsLemmas::no_caps), unfolding(crate::specs::RewardTables::rewards_in))]
pub(crate) fn rewards(
    alloc: Global,
    known: &KnownQueues,
    value: Option<&Value>,
) -> Result<Vec<RewardEntry>, NetError>
    ensures value { Reads (λ rewards. map named rewards.items) result (rewards_of known.now.names.list.keys known.now.caps (seen value.entry)) }
    ensures caps { IfOk result (λ rewards. All (λ v. reward_caps v.reward ≡ known.now.caps) rewards.items) }
{
    match value {
        Some(value) => {
            let values = judged!(array_in(Place::TOP, "reward", value));
            if values.len() > 64 {
                return Err(NetError::Refused(NetCause::TooMany.at_key(Place::TOP, "reward")));
            }
            all_rewards(alloc, known, values)
        }
        None => Ok(Vec::new(alloc)),
    }
}
