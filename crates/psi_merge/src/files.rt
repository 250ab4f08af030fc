//! The report of all files.

ghost use Rattle.std.specs.Prelude.{◌≡◌, ℕ, List, ◌∷◌, Option, Err, map, string_bytes, IfSome, IfErr};
ghost use Rattle.std.specs.List.{list_all};
ghost use Rattle.psi_report_reader.specs.declared.error.MergeError.{MergeError};
ghost use Rattle.psi_merge.specs.declared.status.Status.TheVariants as status;
ghost use Rattle.psi_io.specs.Shelf.{AgreesSince};
ghost use Rattle.psi_program.specs.Seen.{seen_with};
ghost use Rattle.psi_program.specs.SeenBy.{shelf_call};
ghost use Rattle.psi_program.specs.Reply.{line_reply};
ghost use Rattle.psi_merge.specs.Reply.{refused_line, merge_reply, report_at, with_file, with_files, whole_of, is_file};
ghost use Rattle.psi_merge.specs.Seen.{ReadsOnce};
ghost use Rattle.psi_merge.specs.Ended.{ending_of, MayEnd, IsUnreadOf, IsTold, IsFound, AreFound, IsEnding};
ghost use Rattle.psi_merge.specs.Spared.{AreNextGiven, AreGiven, HasRead};

use crate::ending::Ending;
use crate::lines::{refused_line, unmerged_line, unread_line};
use crate::reports::{MOST_BYTES, ReportCause, ReportError, report_in};
use psi_io::{Shelf, ShelfFault};
use psi_report::Report;
use psi_report_reader::{MergeError, merged};
use std::alloc::Global;

// The ending on a file that is no report.
fn refused(alloc: Global, name: &str, line: u64, cause: ReportCause) -> Ending
    ensures ending { MayEnd result (Err (line_reply status.Refused (refused_line name.now (record { line = line; cause = cause })))) }
    ensures told { IsTold result }
{
    match refused_line(alloc, name, line, cause) {
        Ok(text) => Ending::Refused(text),
        Err(_) => Ending::OutOfMemory,
    }
}

// What the lines on reports that aren't merged begin with.
const OTHER: &[u8] = b"psi_merge: other network line ";

const TOO_LARGE: &[u8] = b"psi_merge: too large line ";

// The ending on a report that isn't merged.
#[tactic(auto, unfolding(crate::specs::Reply::other_line, crate::specs::Reply::large_line))]
fn unmerged(alloc: Global, name: &str, error: MergeError) -> Ending
    ensures ending { IfSome (merge_reply name.now (Err error)) (MayEnd result) }
    ensures told { IsTold result }
    ensures memory { error ≡ MergeError.OutOfMemory → result ≡ Ending.OutOfMemory }
{
    match error {
        MergeError::OtherNetwork { line } => match unmerged_line(alloc, OTHER, line, name) {
            Ok(text) => Ending::OtherNetwork(text),
            Err(_) => Ending::OutOfMemory,
        },
        MergeError::TooLarge { line } => match unmerged_line(alloc, TOO_LARGE, line, name) {
            Ok(text) => Ending::TooLarge(text),
            Err(_) => Ending::OutOfMemory,
        },
        MergeError::OutOfMemory => Ending::OutOfMemory,
    }
}

// The ending on a file that couldn't be read.
fn unread(alloc: Global, name: &str) -> Ending
    ensures { IsUnreadOf name.now result }
{
    match unread_line(alloc, name) {
        Ok(text) => Ending::Unread(text),
        Err(_) => Ending::OutOfMemory,
    }
}

// The report of a file, or the ending where there is none.
fn report_at<F: Shelf>(alloc: Global, shelf: &mut F, name: &str) -> Result<Report, Ending>
    ensures found { (told : List ℕ → Option (List ℕ)) → AgreesSince told (F.gave shelf.old) (F.gave shelf.new) → IsFound (seen_with (shelf_call F.gave F.asked F.faults shelf.old shelf.new) told) name.now
        (report_at told name.now) result }
    // The file is read once, without a fault where the shelf gives it.
    ensures once { ReadsOnce F.told F.gave F.gives F.asked F.faults shelf.old shelf.new name.now (IfErr result HasRead) }
{
    let bytes = match shelf.read(alloc, name, MOST_BYTES) {
        Ok(bytes) => bytes,
        Err(ShelfFault::Failed) => return Err(unread(alloc, name)),
        Err(ShelfFault::OutOfMemory) => return Err(Ending::OutOfMemory),
    };
    match report_in(alloc, bytes.as_slice()) {
        Ok(report) => Ok(report),
        Err(ReportError::Refused { line, cause }) => Err(refused(alloc, name, line, cause)),
        Err(ReportError::OutOfMemory) => Err(Ending::OutOfMemory),
    }
}

// The report of those before it and of a file, or the ending where there is none.
fn with_file<F: Shelf>(
    alloc: Global,
    shelf: &mut F,
    whole: Report,
    name: &str,
) -> Result<Report, Ending>
    ensures found { (told : List ℕ → Option (List ℕ)) → AgreesSince told (F.gave shelf.old) (F.gave shelf.new) → IsFound (seen_with (shelf_call F.gave F.asked F.faults shelf.old shelf.new) told) name.now
        (with_file told whole name.now) result }
    // The file is read once, without a fault where the shelf gives it.
    ensures once { ReadsOnce F.told F.gave F.gives F.asked F.faults shelf.old shelf.new name.now (IfErr result HasRead) }
{
    let report = match report_at(alloc, shelf, name) {
        Ok(report) => report,
        Err(ending) => return Err(ending),
    };
    match merged(alloc, whole, report) {
        Ok(both) => Ok(both),
        Err(error) => Err(unmerged(alloc, name, error)),
    }
}

// The report of those before them and of files, or the ending where there is none.
fn with_files<F: Shelf>(
    alloc: Global,
    shelf: &mut F,
    first: Report,
    names: &[String],
) -> Result<Report, Ending>
    ensures found { (told : List ℕ → Option (List ℕ)) → AgreesSince told (F.gave shelf.old) (F.gave shelf.new) → AreFound (seen_with (shelf_call F.gave F.asked F.faults shelf.old shelf.new) told)
        (with_files told first) (map string_bytes names.now) result }
    // The answers agree with what the shelf's model has.
    ensures agrees { AgreesSince (F.told shelf.old) (F.gave shelf.old) (F.gave shelf.new) }
    // Where the shelf gives each file that is needed, no read failed, and no count rose.
    ensures read { AreNextGiven (F.gives shelf.old) (with_files (F.told shelf.old) first) (map string_bytes names.now) → IfErr result HasRead }
    ensures spared { AreNextGiven (F.gives shelf.old) (with_files (F.told shelf.old) first) (map string_bytes names.now) → F.faults shelf.new ≡ F.faults shelf.old }
{
    let mut whole = first;
    for name in names {
        match with_file(alloc, shelf, whole, name.as_str()) {
            Ok(both) => whole = both,
            Err(ending) => return Err(ending),
        }
    }
    Ok(whole)
}

// The report of all files, or the ending where there is none.
fn whole_of<F: Shelf>(
    alloc: Global,
    shelf: &mut F,
    first: &str,
    rest: &[String],
) -> Result<Report, Ending>
    ensures found { (told : List ℕ → Option (List ℕ)) → AgreesSince told (F.gave shelf.old) (F.gave shelf.new) → AreFound (seen_with (shelf_call F.gave F.asked F.faults shelf.old shelf.new) told)
        (whole_of told) (first.now ∷ map string_bytes rest.now) result }
    // The answers agree with what the shelf's model has.
    ensures agrees { AgreesSince (F.told shelf.old) (F.gave shelf.old) (F.gave shelf.new) }
    // Where the shelf gives each file that is needed, no read failed, and no count rose.
    ensures read { AreNextGiven (F.gives shelf.old) (whole_of (F.told shelf.old)) (first.now ∷ map string_bytes rest.now) → IfErr result HasRead }
    ensures spared { AreNextGiven (F.gives shelf.old) (whole_of (F.told shelf.old)) (first.now ∷ map string_bytes rest.now) → F.faults shelf.new ≡ F.faults shelf.old }
{
    match report_at(alloc, shelf, first) {
        Ok(report) => with_files(alloc, shelf, report, rest),
        Err(ending) => Err(ending),
    }
}

// Whether a word is a file's name: it doesn't begin with a minus sign.
fn is_file(word: &str) -> bool
    ensures { result ≡ is_file word.now }
{
    match word.as_bytes() {
        [byte, ..] => *byte != b'-',
        [] => true,
    }
}

// Whether all words are names of files.
fn all_files(words: &[String]) -> bool
    ensures { result ≡ list_all is_file (map string_bytes words.now) }
{
    for word in words {
        if !is_file(word.as_str()) {
            return false;
        }
    }
    true
}

/// The work for the words, before the first byte is written. Words that aren't names of files allocate nothing.
pub(crate) fn work<F: Shelf>(alloc: Global, words: &[String], shelf: &mut F) -> Ending
    ensures ending { (told : List ℕ → Option (List ℕ)) → AgreesSince told (F.gave shelf.old) (F.gave shelf.new) → IsEnding (seen_with (shelf_call F.gave F.asked F.faults shelf.old shelf.new) told) (map string_bytes words.now) (ending_of result) }
    // The answers agree with what the shelf's model has.
    ensures agrees { AgreesSince (F.told shelf.old) (F.gave shelf.old) (F.gave shelf.new) }
    // Where the shelf gives each file that is needed, no read failed, and no count rose.
    ensures read { AreGiven (F.gives shelf.old) (F.told shelf.old) (map string_bytes words.now) → HasRead result }
    ensures spared { AreGiven (F.gives shelf.old) (F.told shelf.old) (map string_bytes words.now) → F.faults shelf.new ≡ F.faults shelf.old }
{
    let [first, rest @ ..] = words else {
        return Ending::Usage;
    };
    if !all_files(words) {
        return Ending::Usage;
    }
    match whole_of(alloc, shelf, first.as_str(), rest) {
        Ok(report) => match report.text(alloc) {
            Ok(text) => Ending::Merged(text),
            Err(_) => Ending::OutOfMemory,
        },
        Err(ending) => ending,
    }
}
