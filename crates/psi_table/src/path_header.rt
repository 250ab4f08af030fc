//! The header of a table of paths.

ghost use Rattle.std.specs.Prelude.{◌≡◌, ◌≤◌, ◌∷◌, [], ◌++◌, length, codes, IfOk, OnOk};
ghost use Rattle.std.specs.Fmt.{decimal};
ghost use Rattle.std.specs.List.{flat_map};
ghost use Rattle.csv.specs.Records.{fields_of, partial_of};
ghost use Rattle.psi_table.specs.Paths.{event_columns, paths_header};
ghost use Rattle.psi_table.specs.PathLines.{paths_header_line};

use crate::header::{first_fields, push_queues, push_rewards, record_line};
use arrayvec::ArrayVec;
use csv::ByteRecord;
use itoa::Buffer;
use psi_net_model::{Name, Net, OutOfMemory};
use std::alloc::{AllocError, Global};

// Appends what a column of an event is called: a word of at most 8 bytes, the event's name and the number of its server.
fn push_column(
    header: &mut ByteRecord,
    word: &[u8],
    name: &Name,
    server: u16,
) -> Result<(), AllocError>
    requires short { length word.now ≤ 8 }
    requires whole { partial_of header.old ≡ [] }
    ensures fields { OnOk result (fields_of header.new ≡ fields_of header.old ++ (word.now ++ name.now ++ codes "." ++ decimal server) ∷ []) }
    ensures whole { OnOk result (partial_of header.new ≡ []) }
{
    let mut digits = Buffer::new();
    let mut column: ArrayVec<u8, 64> = ArrayVec::new();
    let _ = column.try_extend_from_slice(word);
    let _ = column.try_extend_from_slice(name.bytes());
    let _ = column.try_extend_from_slice(b".");
    let _ = column.try_extend_from_slice(digits.format(server).as_bytes());
    header.push_field(column.as_slice())
}

// Appends what the two columns of each event are called.
fn push_events(header: &mut ByteRecord, net: &Net) -> Result<(), AllocError>
    requires { partial_of header.old ≡ [] }
    ensures fields { OnOk result (fields_of header.new ≡ fields_of header.old ++ flat_map event_columns net.now.events) }
    ensures whole { OnOk result (partial_of header.new ≡ []) }
{
    for event in 0..net.events() {
        let name = net.event_name(event);
        let server = net.event_server(event);
        push_column(header, b"event.", &name, server)?;
        push_column(header, b"moved.", &name, server)?;
    }
    Ok(())
}

// The fields of the header.
fn paths_header(alloc: Global, net: &Net) -> Result<ByteRecord, AllocError>
    ensures { IfOk result (λ header. fields_of header ≡ paths_header net.now) }
{
    let mut header = first_fields(alloc)?;
    header.push_field(b"steps")?;
    push_queues(&mut header, net)?;
    push_rewards(&mut header, net)?;
    push_events(&mut header, net)?;
    Ok(header)
}

/// Returns the line of the header.
#[tactic(auto, unfolding(crate::specs::PathLines::paths_header_line))]
pub(crate) fn paths_header_line(alloc: Global, net: &Net) -> Result<Vec<u8>, OutOfMemory>
    ensures { IfOk result (λ line. line.items ≡ paths_header_line net.now) }
{
    let header = paths_header(alloc, net)?;
    record_line(alloc, &header)
}
