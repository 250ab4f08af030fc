//! What keeps lists that it is given, or is lent them: files in memory, rewards, routes, kinds of events, lists of
//! states, tables of a file, and the words of a command.

ghost use Rattle.std.specs.Prelude.{◌≡◌, ◌∷◌, [], All, IfSome};
ghost use Rattle.psi_reward.specs.Refusing.{IsSmall};

use psi_command::command_of;
use psi_index::IndexTable;
use psi_io::MemoryShelf;
use psi_kinds::{Kind, Tables, lower, refusal_of};
use psi_log_format::StateList;
use psi_net_document::find;
use psi_net_model::{accepted_reward, index_values, source_of};
use psi_reward::{Grid, Numbers, Reward, RewardKind};
use psi_route::{Full, Route};
use psi_state::{Queues, State};
use std::alloc::Global;
use toml::table_from_str;

/// Makes the lists, and calls what keeps them or not; `None` where memory is wanting.
pub(crate) fn make(alloc: Global, calls: bool) -> Option<()> {
    if calls {
        call_empty(alloc);
        call_lowering(alloc);
    }
    make_weights(alloc, calls)?;
    make_grid(alloc, calls)?;
    make_route(alloc, calls)?;
    make_kind(alloc, calls)?;
    make_states(alloc, calls)?;
    make_document(alloc, calls)?;
    make_words(alloc, calls)
}

// The lists of nothing, which keep the allocator.
fn call_empty(alloc: Global) {
    let _shelf = MemoryShelf::new(alloc, Vec::new(alloc));
    let _lists = (Numbers::new(alloc), Grid::new(alloc), Tables::new(alloc));
    let _states = StateList::new(alloc, 32);
}

// The events of kinds without tables, which keep the allocator.
fn call_lowering(alloc: Global) {
    let _route = lower(alloc, caps(), &Kind::Arrival { to: first() });
    let _guarded = lower(
        alloc,
        caps(),
        &Kind::Join {
            from: first(),
            to: None,
        },
    );
}

// A queue with room for two customers.
fn caps() -> State
    ensures { result ≡ 2 ∷ [] }
{
    let mut caps = State::zero(1);
    caps.set(0, 2);
    caps
}

// The list of the queue 0.
fn first() -> Queues
    ensures { result ≡ 0 ∷ [] }
{
    let mut queues = Queues::empty();
    queues.push(0);
    queues
}

// One weight, of a reward that isn't refused.
fn make_weights(alloc: Global, calls: bool) -> Option<()> {
    let mut weights = Numbers::new(alloc);
    weights.push(1).ok()?;
    if calls {
        let kind = RewardKind::Linear {
            queues: first(),
            weights,
        };
        let _reward = accepted_reward(caps(), kind);
    }
    Some(())
}

// A number for no, one and two customers.
fn row(alloc: Global) -> Option<Numbers>
    ensures { IfSome result (All IsSmall) }
{
    let mut row = Numbers::new(alloc);
    row.push(3).ok()?;
    row.push(-1).ok()?;
    row.push(4).ok()?;
    Some(row)
}

// One row.
fn make_grid(alloc: Global, calls: bool) -> Option<()> {
    let row = row(alloc)?;
    let mut table = Grid::new(alloc);
    table.push(row).ok()?;
    if calls {
        let kind = RewardKind::Table {
            queues: first(),
            table,
        };
        let _reward = Reward::new(caps(), kind);
    }
    Some(())
}

// One table of an index for no and for one customer.
fn make_route(alloc: Global, calls: bool) -> Option<()> {
    let values = [5, 3].to_vec(alloc).ok()?;
    let table = IndexTable::new(alloc, values).ok()?;
    let mut tables = Vec::new(alloc);
    tables.push(table).ok()?;
    if calls {
        let _route = Route::new(caps(), None, 1, first(), tables, Full::Stay);
    }
    Some(())
}

// The same of a kind of event.
fn make_kind(alloc: Global, calls: bool) -> Option<()> {
    let values = [5, 3].to_vec(alloc).ok()?;
    let mut table = Tables::new(alloc);
    table.push(values).ok()?;
    if calls {
        let _rows = (table.len(), table.row(0).len());
        let kind = Kind::Index {
            from: None,
            to: first(),
            table,
            full: Full::Stay,
            size: 1,
        };
        let _refusal = refusal_of(&caps(), &kind);
        let _told = (kind.as_move(), source_of(&kind), index_values(&kind));
    }
    Some(())
}

// Two states of one queue.
fn make_states(alloc: Global, calls: bool) -> Option<()> {
    let mut states = StateList::new(alloc, 1);
    states.push(&State::zero(1)).ok()?;
    states.push(&caps()).ok()?;
    if calls {
        let _told = (states.len(), states.get(1), states.is_below_next(0));
        let _within = states.leq(0, &caps());
        states.clear();
    }
    Some(())
}

// A table of a file with one key.
fn make_document(alloc: Global, calls: bool) -> Option<()> {
    let table = table_from_str(alloc, "version = 2").ok()?;
    if calls {
        let _found = find(&table, "version");
    }
    Some(())
}

/// The words of a command of each name.
const COMMANDS: [&str; 9] = [
    "check net",
    "sample net 0 0 log",
    "report net 0 0 4",
    "trial 7",
    "couple net 0 0",
    "reward net 0 0 cost",
    "exact net 0 0 3",
    "closed net 0 0 6",
    "replay net log",
];

fn make_words(alloc: Global, calls: bool) -> Option<()> {
    for command in COMMANDS {
        let words = words_of(alloc, command)?;
        if calls {
            let _command = command_of(words.as_slice());
        }
    }
    Some(())
}

// The words of a text, which single spaces separate.
fn words_of(alloc: Global, text: &str) -> Option<Vec<String>> {
    let mut words = Vec::new(alloc);
    for word in text.split(' ') {
        words.push(String::from_str(alloc, word).ok()?).ok()?;
    }
    Some(words)
}
