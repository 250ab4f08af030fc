//! Reading the files that a command names.

ghost use Rattle.std.specs.Prelude.{◌≡◌, ◌≤◌, ◌++◌, ℕ, List, [], ◌∷◌, Option, IfOk, IfErr, OnOk};
ghost use Rattle.psi_io.specs.Shelf.{AgreesSince};
ghost use Rattle.psi_program.specs.Seen.{seen_with};
ghost use Rattle.psi_program.specs.SeenBy.{shelf_call};
ghost use Rattle.psi_command.specs.Command.{net_file, log_file};
ghost use Rattle.psi_program.specs.Ending.{HasRead};
ghost use Rattle.psi_run.specs.Reads.{read_of};
ghost use Rattle.psi_reply.specs.Ended.{ending_of};
ghost use Rattle.psi_run.specs.Files.{IsNetAt, IsNoNet, IsTextAt, IsNoText};

use psi_io::{Consumer, Shelf, ShelfFault};
use psi_log_format::MOST_LOG_BYTES;
use psi_net::{Net, NetError, net_of};
use psi_net_document::MOST_NET_BYTES;
use psi_reply::Ending;
use std::alloc::Global;

/// Returns the network in the file of this name. Where there is none, the work ends the same whichever command
/// names the file: it is refused, a read of it failed in this call, or an allocation failed.
pub fn network_at<'w, F: Shelf>(
    alloc: Global,
    shelf: &mut F,
    name: &'w str,
) -> Result<Net, Ending<'w>>
    ensures network { (told : List ℕ → Option (List ℕ)) → AgreesSince told (F.gave shelf.old) (F.gave shelf.new) → IfOk result (IsNetAt told name.now) }
    ensures none { (told : List ℕ → Option (List ℕ)) → AgreesSince told (F.gave shelf.old) (F.gave shelf.new) → IfErr result (IsNoNet (seen_with (shelf_call F.gave F.asked F.faults shelf.old shelf.new) told)
        name.now) }
    // Where the shelf gives the file, no read of it failed, and no count rose.
    ensures read { F.gives shelf.old name.now → IfErr result (λ ending. HasRead (ending_of ending)) }
    ensures spared { F.gives shelf.old name.now → F.faults shelf.new ≡ F.faults shelf.old }
    // The answers agree with what the shelf's model has.
    ensures agrees { AgreesSince (F.told shelf.old) (F.gave shelf.old) (F.gave shelf.new) }
    // The file is read once, with its limit.
    ensures asked { F.asked shelf.new ≡ F.asked shelf.old ++ read_of (net_file name.now) ∷ [] }
    // What the shelf's model has and what the shelf gives stay as they were, and no count fell.
    ensures told { F.told shelf.new ≡ F.told shelf.old }
    ensures gives { (other : List ℕ) → F.gives shelf.old other → F.gives shelf.new other }
    ensures counts { (other : List ℕ) → F.faults shelf.old other ≤ F.faults shelf.new other }
{
    let bytes = match shelf.read(alloc, name, MOST_NET_BYTES) {
        Ok(bytes) => bytes,
        Err(ShelfFault::Failed) => return Err(Ending::NetUnread(name)),
        Err(ShelfFault::OutOfMemory) => return Err(Ending::OutOfMemory),
    };
    match net_of(alloc, bytes.as_slice()) {
        Ok(net) => Ok(net),
        Err(NetError::Refused(refusal)) => Err(Ending::NetRefused(refusal)),
        Err(NetError::OutOfMemory) => Err(Ending::OutOfMemory),
    }
}

/// Hands the bytes of the log in the file of this name to what has taken none yet; of a longer file than a log may be, no
/// more than show that it is too long. Where it takes not all, a read of the file failed in this call, or there was not
/// enough memory.
pub(crate) fn feed_log<'w, F: Shelf, C: Consumer>(
    shelf: &mut F,
    name: &'w str,
    to: &mut C,
) -> Result<(), Ending<'w>>
    requires { C.taken to.old ≡ [] }
    ensures text { (told : List ℕ → Option (List ℕ)) → AgreesSince told (F.gave shelf.old) (F.gave shelf.new) → OnOk result (IsTextAt told name.now (C.taken to.new)) }
    ensures none { (told : List ℕ → Option (List ℕ)) → AgreesSince told (F.gave shelf.old) (F.gave shelf.new) → IfErr result (IsNoText (seen_with (shelf_call F.gave F.asked F.faults shelf.old shelf.new) told)
        name.now) }
    ensures setting { C.setting to.new ≡ C.setting to.old }
    // Where the shelf gives the file, no read of it failed, and no count rose.
    ensures read { F.gives shelf.old name.now → IfErr result (λ ending. HasRead (ending_of ending)) }
    ensures spared { F.gives shelf.old name.now → F.faults shelf.new ≡ F.faults shelf.old }
    // The answers agree with what the shelf's model has.
    ensures agrees { AgreesSince (F.told shelf.old) (F.gave shelf.old) (F.gave shelf.new) }
    // The file is read once, with its limit.
    ensures asked { F.asked shelf.new ≡ F.asked shelf.old ++ read_of (log_file name.now) ∷ [] }
{
    match shelf.feed(name, MOST_LOG_BYTES, to) {
        Ok(()) => Ok(()),
        Err(ShelfFault::Failed) => Err(Ending::LogUnread(name)),
        Err(ShelfFault::OutOfMemory) => Err(Ending::OutOfMemory),
    }
}
