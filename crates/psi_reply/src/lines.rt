//! The lines of err. Each is built on the stack, so that it does not allocate and is written as one piece.

ghost use Rattle.std.specs.Prelude.{◌≡◌, ℕ, List, ◌+◌, ◌≤◌, ◌++◌, [], length};
ghost use Rattle.psi_command.specs.Command.{net_file, log_file};
ghost use Rattle.arrayvec.specs.ArrayVec.{array_vec_len};
ghost use Rattle.psi_reply.specs.Lines.{refusal_name, section_name, key_text, usage_line, refused_line, grammar_name, verdict_name, log_line, log_refused_line, log_rejected_line, not_closed_line, unread_line, unknown_line, too_long_line, too_many_line, no_total_line, memory_line};

use arrayvec::ArrayVec;
use itoa::Buffer;
use psi_net_document::{NetRefusal, Section};
use psi_net_model::Name;

/// A line of err, on the stack. The longest is that of a refusal: its words and spaces have at most 46 bytes,
/// its two numbers at most 40 each, and its key at most 32.
pub type Line = ArrayVec<u8, 192>;

// Appends a piece that the line has room for.
fn push(line: &mut Line, piece: &[u8])
    requires { array_vec_len line.now + length piece.now ≤ 192 }
    ensures text { line.new.items ≡ line.old.items ++ piece.now }
    ensures count { array_vec_len line.new ≡ array_vec_len line.old + length piece.now }
{
    let _ = line.try_extend_from_slice(piece);
}

// A line that is always the same.
fn fixed_line(text: &[u8]) -> Line
    requires { length text.now ≤ 192 }
    ensures { result.items ≡ text.now }
{
    let mut line = Line::new();
    push(&mut line, text);
    line
}

/// Returns the line on a network file that can't be read.
pub fn network_unread_line() -> Line
    ensures { (name : List ℕ) → result.items ≡ unread_line (net_file name) }
{
    fixed_line(b"psi: cannot read network\n")
}

/// Returns the line on a log file that can't be read.
pub fn log_unread_line() -> Line
    ensures { (name : List ℕ) → result.items ≡ unread_line (log_file name) }
{
    fixed_line(b"psi: cannot read log\n")
}

/// Returns the line on a reward that the network hasn't.
pub fn unknown_line() -> Line
    ensures { result.items ≡ unknown_line }
{
    fixed_line(b"psi: unknown reward\n")
}

/// Returns the line on the log of a sample that would be too long.
pub fn too_long_line() -> Line
    ensures { result.items ≡ too_long_line }
{
    fixed_line(b"psi: log too long\n")
}

/// Returns the line on a network with more states than a table of them may have.
pub fn too_many_line() -> Line
    ensures { result.items ≡ too_many_line }
{
    fixed_line(b"psi: too many states\n")
}

/// Returns the line on a number of customers that the queues can't hold.
pub fn no_total_line() -> Line
    ensures { result.items ≡ no_total_line }
{
    fixed_line(b"psi: no state with this total\n")
}

/// Returns the line that reports out of memory.
pub fn memory_line() -> Line
    ensures { result.items ≡ memory_line }
{
    fixed_line(b"psi: out of memory\n")
}

/// Returns the line with the place of the word that offends.
#[tactic(auto, unfolding(crate::specs::Lines::usage_line))]
pub fn usage_line(place: u8) -> Line
    ensures { result.items ≡ usage_line place }
{
    let mut digits = Buffer::new();
    let mut line = Line::new();
    push(&mut line, b"psi: usage word ");
    push(&mut line, digits.format(place).as_bytes());
    push(&mut line, b"\n");
    line
}

// The name of a refusal's code.
fn refusal_name(code: u8) -> &'static str
    ensures name { result.now ≡ refusal_name code }
    ensures short { length result.now ≤ 14 }
{
    match code {
        0 => "TooLong",
        1 => "NotToml",
        2 => "Version",
        3 => "UnknownKey",
        4 => "MissingKey",
        5 => "WrongType",
        6 => "OutOfRange",
        7 => "TooMany",
        8 => "DuplicateName",
        9 => "UnknownQueue",
        10 => "UnknownKind",
        11 => "SelfTarget",
        12 => "RepeatedTarget",
        13 => "TableLength",
        14 => "BatchTooLarge",
        15 => "NoEvents",
        16 => "TotalTooLarge",
        _ => "EmptyGuard",
    }
}

// The part of the file that a refusal names.
fn section_name(section: Section) -> &'static str
    ensures name { result.now ≡ section_name section }
    ensures short { length result.now ≤ 6 }
{
    match section {
        Section::Top => "top",
        Section::Queue => "queue",
        Section::Event => "event",
        Section::Reward => "reward",
    }
}

// The key that a refusal names, or a dash.
fn key_text(key: &Option<Name>) -> &[u8]
    ensures text { result.now ≡ key_text key.now }
    ensures short { length result.now ≤ 32 }
{
    match key {
        Some(key) => key.bytes(),
        None => b"-",
    }
}

/// Returns the line with the cause and the place of a refusal.
#[tactic(auto, unfolding(crate::specs::Lines::refused_line))]
pub fn refused_line(refusal: &NetRefusal) -> Line
    ensures { result.items ≡ refused_line refusal.now }
{
    let mut code = Buffer::new();
    let mut number = Buffer::new();
    let mut line = Line::new();
    push(&mut line, b"psi: network refused ");
    push(&mut line, code.format(refusal.code).as_bytes());
    push(&mut line, b" ");
    push(&mut line, refusal_name(refusal.code).as_bytes());
    push(&mut line, b" ");
    push(&mut line, section_name(refusal.section).as_bytes());
    push(&mut line, b" ");
    push(&mut line, number.format(refusal.number).as_bytes());
    push(&mut line, b" ");
    push(&mut line, key_text(&refusal.key));
    push(&mut line, b"\n");
    line
}

// The name of a cause for which a text is refused as a log.
fn grammar_name(cause: u8) -> &'static str
    ensures name { result.now ≡ grammar_name cause }
    ensures short { length result.now ≤ 13 }
{
    match cause {
        1 => "NotLog",
        2 => "Version",
        3 => "Number",
        4 => "Shape",
        5 => "Truncated",
        6 => "TrailingText",
        _ => "TooLong",
    }
}

// The name of a cause for which a log is rejected.
fn verdict_name(cause: u8) -> &'static str
    ensures name { result.now ≡ verdict_name cause }
    ensures short { length result.now ≤ 13 }
{
    match cause {
        1 => "Header",
        2 => "StepNumber",
        3 => "WrongEvent",
        4 => "OutsideBox",
        5 => "NotCovered",
        6 => "SplitTooLarge",
        7 => "NotSingle",
        _ => "WrongState",
    }
}

// The line with what became of a log, the cause, and its line.
#[tactic(auto, unfolding(crate::specs::Lines::log_line))]
fn log_line(word: &[u8], cause: u8, name: &str, number: u32) -> Line
    requires word { length word.now ≤ 8 }
    requires name { length name.now ≤ 13 }
    ensures { result.items ≡ log_line word.now cause name.now number }
{
    let mut cause_digits = Buffer::new();
    let mut number_digits = Buffer::new();
    let mut line = Line::new();
    push(&mut line, b"psi: log ");
    push(&mut line, word);
    push(&mut line, b" ");
    push(&mut line, cause_digits.format(cause).as_bytes());
    push(&mut line, b" ");
    push(&mut line, name.as_bytes());
    push(&mut line, b" line ");
    push(&mut line, number_digits.format(number).as_bytes());
    push(&mut line, b"\n");
    line
}

/// Returns the line with the first line of a text that is no log, and the cause.
pub fn log_refused_line(line: u32, cause: u8) -> Line
    ensures { result.items ≡ log_refused_line line cause }
{
    log_line(b"refused", cause, grammar_name(cause), line)
}

/// Returns the line with the first line of a log that breaks a rule, and the cause.
pub fn log_rejected_line(line: u32, cause: u8) -> Line
    ensures { result.items ≡ log_rejected_line line cause }
{
    log_line(b"rejected", cause, verdict_name(cause), line)
}

/// Returns the line with the number of an event that isn't a move of one customer.
#[tactic(auto, unfolding(crate::specs::Lines::not_closed_line))]
pub fn not_closed_line(event: u16) -> Line
    ensures { result.items ≡ not_closed_line event }
{
    let mut digits = Buffer::new();
    let mut line = Line::new();
    push(&mut line, b"psi: not closed event ");
    push(&mut line, digits.format(event).as_bytes());
    push(&mut line, b"\n");
    line
}
