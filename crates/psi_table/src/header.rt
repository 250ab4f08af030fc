//! The header of a table.

ghost use Rattle.std.specs.Prelude.{◌≡◌, ◌≤◌, ◌∷◌, [], ◌++◌, length, map, codes, Some, IfOk, OnOk};
ghost use Rattle.csv.specs.Writing.{row_text, default_writer, text_written};
ghost use Rattle.csv.specs.Records.{fields_of, partial_of};
ghost use Rattle.psi_table.specs.Table.{header_fields};
ghost use Rattle.psi_table.specs.Lines.{header_line};

use arrayvec::ArrayVec;
use csv::{ByteRecord, Writer};
use psi_net_model::{Name, Net, OutOfMemory};
use std::alloc::{AllocError, Global};

// Appends what a column is called: a word of at most 8 bytes, and the name of a queue or a reward.
fn push_column(header: &mut ByteRecord, word: &[u8], name: &Name) -> Result<(), AllocError>
    requires short { length word.now ≤ 8 }
    requires whole { partial_of header.old ≡ [] }
    ensures fields { OnOk result (fields_of header.new ≡ fields_of header.old ++ (word.now ++ name.now) ∷ []) }
    ensures whole { OnOk result (partial_of header.new ≡ []) }
{
    let mut column: ArrayVec<u8, 40> = ArrayVec::new();
    let _ = column.try_extend_from_slice(word);
    let _ = column.try_extend_from_slice(name.bytes());
    header.push_field(column.as_slice())
}

/// Appends what the columns of the queues are called.
pub(crate) fn push_queues(header: &mut ByteRecord, net: &Net) -> Result<(), AllocError>
    requires { partial_of header.old ≡ [] }
    ensures fields { OnOk result (fields_of header.new ≡ fields_of header.old ++ map (λ q. codes "queue." ++ q.name) net.now.queues) }
    ensures whole { OnOk result (partial_of header.new ≡ []) }
{
    for queue in 0..net.queues() {
        push_column(header, b"queue.", &net.name(queue))?;
    }
    Ok(())
}

/// Appends what the columns of the rewards are called.
pub(crate) fn push_rewards(header: &mut ByteRecord, net: &Net) -> Result<(), AllocError>
    requires { partial_of header.old ≡ [] }
    ensures fields { OnOk result (fields_of header.new ≡ fields_of header.old ++ map (λ r. codes "reward." ++ r.name) net.now.rewards) }
    ensures whole { OnOk result (partial_of header.new ≡ []) }
{
    for reward in 0..net.rewards() {
        push_column(header, b"reward.", &net.reward_name(reward))?;
    }
    Ok(())
}

/// The fields with which a header begins.
pub(crate) fn first_fields(alloc: Global) -> Result<ByteRecord, AllocError>
    ensures fields { IfOk result (λ header. fields_of header ≡ codes "stream" ∷ codes "horizon" ∷ []) }
    ensures whole { IfOk result (λ header. partial_of header ≡ []) }
{
    let mut header = ByteRecord::new(alloc);
    header.push_field(b"stream")?;
    header.push_field(b"horizon")?;
    Ok(header)
}

// The fields of the header.
fn header_fields(alloc: Global, net: &Net) -> Result<ByteRecord, AllocError>
    ensures { IfOk result (λ header. fields_of header ≡ header_fields net.now) }
{
    let mut header = first_fields(alloc)?;
    push_queues(&mut header, net)?;
    push_rewards(&mut header, net)?;
    Ok(header)
}

// The text of a table.
fn into_text(table: Writer<Vec<u8>>) -> Result<Vec<u8>, OutOfMemory>
    ensures { IfOk result (λ text. text_written (λ v. Some v.items) table ≡ Some text.items) }
{
    match table.into_inner() {
        Ok(text) => Ok(text),
        Err(_) => Err(OutOfMemory),
    }
}

/// The line of a record's fields.
pub(crate) fn record_line(alloc: Global, fields: &ByteRecord) -> Result<Vec<u8>, OutOfMemory>
    ensures { IfOk result (λ line. line.items ≡ row_text default_writer (fields_of fields.now)) }
{
    let mut table = Writer::from_writer(Vec::new(alloc));
    match table.write_byte_record(fields) {
        Ok(()) => into_text(table),
        Err(_) => Err(OutOfMemory),
    }
}

/// The line of the header.
#[tactic(auto, unfolding(crate::specs::Lines::header_line))]
pub(crate) fn header_line(alloc: Global, net: &Net) -> Result<Vec<u8>, OutOfMemory>
    ensures { IfOk result (λ line. line.items ≡ header_line net.now) }
{
    let header = header_fields(alloc, net)?;
    record_line(alloc, &header)
}
