//! The lines of err on files.

ghost use Rattle.std.specs.Prelude.{◌≡◌, ◌++◌, codes, OnOk, IfOk};
ghost use Rattle.std.specs.Fmt.{decimal};
ghost use Rattle.psi_merge.specs.Reply.{cause_text, refused_line, unread_line};

use crate::reports::ReportCause;
use itoa::Buffer;
use std::alloc::{AllocError, Global};

// The number and the name of a cause.
fn cause_text(cause: ReportCause) -> &'static [u8]
    ensures { result.now ≡ cause_text cause }
{
    match cause {
        ReportCause::TooLong => b"0 TooLong".as_slice(),
        ReportCause::Row => b"1 Row".as_slice(),
        ReportCause::Text => b"2 Text".as_slice(),
        ReportCause::Samples => b"3 Samples".as_slice(),
    }
}

// Appends a piece.
fn push(line: &mut Vec<u8>, piece: &[u8]) -> Result<(), AllocError>
    ensures { OnOk result (line.new.items ≡ line.old.items ++ piece.now) }
{
    line.extend_from_slice(piece)
}

// Appends the number of a line and the name of its file.
fn push_place(text: &mut Vec<u8>, line: u64, name: &str) -> Result<(), AllocError>
    ensures { OnOk result (text.new.items ≡ text.old.items ++ (decimal line ++ codes " " ++ name.now ++ codes "\n")) }
{
    let mut digits = Buffer::new();
    push(text, digits.format(line).as_bytes())?;
    push(text, b" ")?;
    push(text, name.as_bytes())?;
    push(text, b"\n")
}

/// The line on a file that is no report.
#[tactic(auto, unfolding(crate::specs::Reply::refused_line))]
pub(crate) fn refused_line(
    alloc: Global,
    name: &str,
    line: u64,
    cause: ReportCause,
) -> Result<Vec<u8>, AllocError>
    ensures { IfOk result (λ text. text.items ≡ refused_line name.now (record { line = line; cause = cause })) }
{
    let mut text = Vec::new(alloc);
    push(&mut text, b"psi_merge: refused ")?;
    push(&mut text, cause_text(cause))?;
    push(&mut text, b" line ")?;
    push_place(&mut text, line, name)?;
    Ok(text)
}

/// A line on a report that isn't merged: what of it, in which line, and its name.
pub(crate) fn unmerged_line(
    alloc: Global,
    what: &[u8],
    line: u64,
    name: &str,
) -> Result<Vec<u8>, AllocError>
    ensures { IfOk result (λ text. text.items ≡ what.now ++ decimal line ++ codes " " ++ name.now ++ codes "\n") }
{
    let mut text = Vec::new(alloc);
    push(&mut text, what)?;
    push_place(&mut text, line, name)?;
    Ok(text)
}

/// The line on a file that can't be read.
#[tactic(auto, unfolding(crate::specs::Reply::unread_line))]
pub(crate) fn unread_line(alloc: Global, name: &str) -> Result<Vec<u8>, AllocError>
    ensures { IfOk result (λ text. text.items ≡ unread_line name.now) }
{
    let mut text = Vec::new(alloc);
    push(&mut text, b"psi_merge: cannot read ")?;
    push(&mut text, name.as_bytes())?;
    push(&mut text, b"\n")?;
    Ok(text)
}
