//! The command of the program's words.

ghost use Rattle.std.specs.Prelude.{◌≡◌, ◌+◌, ◌<◌, ◌∷◌, map, string_bytes, IfOk};
ghost use Rattle.psi_command.specs.Words.{sample_words, check_words, report_words, trial_words, couple_words, reward_words, exact_words, closed_words, replay_words, command_of};
ghost use Rattle.psi_command.specs.Request.{GivesCommand, AsksInRange};

pub(crate) mod cursor;
mod numeral;

use cursor::Cursor;

/// What is asked about the network in a file, with one text as the answer.
#[derive(Clone, Copy, Debug)]
pub enum Question<'w> {
    /// A sample, drawn from the words of this seed and stream.
    Sample {
        /// The seed of the random words.
        seed: u64,
        /// The number of the stream of random words.
        stream: u64,
    },
    /// The description of the network.
    Check,
    /// A report over samples, one for each of several streams.
    Report {
        /// The seed of the random words.
        seed: u64,
        /// The number of the first stream of random words.
        first: u64,
        /// The number of streams, 1 to 65,536; the last of them is at most 2 to the power 64 less 1.
        count: u32,
    },
    /// The least horizon of any length at which the network's runs couple.
    Couple {
        /// The seed of the random words.
        seed: u64,
        /// The number of the stream of random words.
        stream: u64,
    },
    /// The value of a reward of the network.
    Reward {
        /// The seed of the random words.
        seed: u64,
        /// The number of the stream of random words.
        stream: u64,
        /// The name of the reward.
        name: &'w str,
    },
    /// How the composed map of all states shrinks, and when it is constant.
    Exact {
        /// The seed of the random words.
        seed: u64,
        /// The number of the stream of random words.
        stream: u64,
        /// The exponent of the greatest horizon, 0 to 12.
        h: u8,
    },
    /// A sample of a closed network.
    Closed {
        /// The seed of the random words.
        seed: u64,
        /// The number of the stream of random words.
        stream: u64,
        /// The number of customers in all, 0 to 256.
        total: u16,
    },
    /// The verdict on a log.
    Replay {
        /// The name of the log file.
        log: &'w str,
    },
}

/// What the words ask for.
#[derive(Clone, Copy, Debug)]
pub enum Request<'w> {
    /// An answer about the network in the file of this name.
    About {
        /// The name of the network file.
        net: &'w str,
        /// What is asked.
        question: Question<'w>,
    },
    /// Four samples of the network that is made from this number.
    Trial {
        /// The number of the network, which is the seed of its samples too.
        number: u16,
    },
    /// The log of a sample of the network in the file of this name, drawn from the words of this seed and
    /// stream.
    Certify {
        /// The name of the network file.
        net: &'w str,
        /// The seed of the random words.
        seed: u64,
        /// The number of the stream of random words.
        stream: u64,
    },
}

// The sample, or its log, that the words after `sample` ask for, or the place of the word that offends.
fn sample_of<'w>(words: &mut Cursor<'w>) -> Result<Request<'w>, u8>
    requires { words.now.place ≡ 2 }
    ensures command { GivesCommand result (sample_words words.old.place (map string_bytes words.old.left.now)) }
    ensures ranges { IfOk result AsksInRange }
{
    let net = words.next_text()?;
    let seed = words.next_number(u64::MAX)?;
    let stream = words.next_number(u64::MAX)?;
    let log = words.next_last("log")?;
    words.finish()?;
    if log {
        return Ok(Request::Certify { net, seed, stream });
    }
    let question = Question::Sample { seed, stream };
    Ok(Request::About { net, question })
}

// The description that the words after `check` ask for, or the place of the word that offends.
fn check_of<'w>(words: &mut Cursor<'w>) -> Result<Request<'w>, u8>
    requires { words.now.place ≡ 2 }
    ensures command { GivesCommand result (check_words words.old.place (map string_bytes words.old.left.now)) }
    ensures ranges { IfOk result AsksInRange }
{
    let net = words.next_text()?;
    words.finish()?;
    let question = Question::Check;
    Ok(Request::About { net, question })
}

// The report that the words after `report` ask for, or the place of the word that offends.
fn report_of<'w>(words: &mut Cursor<'w>) -> Result<Request<'w>, u8>
    requires { words.now.place ≡ 2 }
    ensures command { GivesCommand result (report_words words.old.place (map string_bytes words.old.left.now)) }
    ensures ranges { IfOk result AsksInRange }
{
    let net = words.next_text()?;
    let seed = words.next_number(u64::MAX)?;
    let first = words.next_number(u64::MAX)?;
    let count = words.next_count(65_536, first)?;
    words.finish()?;
    let question = Question::Report { seed, first, count };
    Ok(Request::About { net, question })
}

// The trial that the words after `trial` ask for, or the place of the word that offends.
fn trial_of<'w>(words: &mut Cursor<'w>) -> Result<Request<'w>, u8>
    requires { words.now.place ≡ 2 }
    ensures command { GivesCommand result (trial_words words.old.place (map string_bytes words.old.left.now)) }
    ensures ranges { IfOk result AsksInRange }
{
    let number = words.next_number(65_535)?;
    words.finish()?;
    Ok(Request::Trial {
        number: number as u16,
    })
}

// The coupling that the words after `couple` ask for, or the place of the word that offends.
fn couple_of<'w>(words: &mut Cursor<'w>) -> Result<Request<'w>, u8>
    requires { words.now.place ≡ 2 }
    ensures command { GivesCommand result (couple_words words.old.place (map string_bytes words.old.left.now)) }
    ensures ranges { IfOk result AsksInRange }
{
    let net = words.next_text()?;
    let seed = words.next_number(u64::MAX)?;
    let stream = words.next_number(u64::MAX)?;
    words.finish()?;
    let question = Question::Couple { seed, stream };
    Ok(Request::About { net, question })
}

// The reward's value that the words after `reward` ask for, or the place of the word that offends.
fn reward_of<'w>(words: &mut Cursor<'w>) -> Result<Request<'w>, u8>
    requires { words.now.place ≡ 2 }
    ensures command { GivesCommand result (reward_words words.old.place (map string_bytes words.old.left.now)) }
    ensures ranges { IfOk result AsksInRange }
{
    let net = words.next_text()?;
    let seed = words.next_number(u64::MAX)?;
    let stream = words.next_number(u64::MAX)?;
    let name = words.next_text()?;
    words.finish()?;
    let question = Question::Reward { seed, stream, name };
    Ok(Request::About { net, question })
}

// The survey that the words after `exact` ask for, or the place of the word that offends.
fn exact_of<'w>(words: &mut Cursor<'w>) -> Result<Request<'w>, u8>
    requires { words.now.place ≡ 2 }
    ensures command { GivesCommand result (exact_words words.old.place (map string_bytes words.old.left.now)) }
    ensures ranges { IfOk result AsksInRange }
{
    let net = words.next_text()?;
    let seed = words.next_number(u64::MAX)?;
    let stream = words.next_number(u64::MAX)?;
    let h = words.next_number(12)? as u8;
    words.finish()?;
    let question = Question::Exact { seed, stream, h };
    Ok(Request::About { net, question })
}

// The sample of a closed network that the words after `closed` ask for, or the place of the word that offends.
fn closed_of<'w>(words: &mut Cursor<'w>) -> Result<Request<'w>, u8>
    requires { words.now.place ≡ 2 }
    ensures command { GivesCommand result (closed_words words.old.place (map string_bytes words.old.left.now)) }
    ensures ranges { IfOk result AsksInRange }
{
    let net = words.next_text()?;
    let seed = words.next_number(u64::MAX)?;
    let stream = words.next_number(u64::MAX)?;
    let total = words.next_number(256)? as u16;
    words.finish()?;
    let question = Question::Closed {
        seed,
        stream,
        total,
    };
    Ok(Request::About { net, question })
}

// The verdict that the words after `replay` ask for, or the place of the word that offends.
fn replay_of<'w>(words: &mut Cursor<'w>) -> Result<Request<'w>, u8>
    requires { words.now.place ≡ 2 }
    ensures command { GivesCommand result (replay_words words.old.place (map string_bytes words.old.left.now)) }
    ensures ranges { IfOk result AsksInRange }
{
    let net = words.next_text()?;
    let log = words.next_text()?;
    words.finish()?;
    let question = Question::Replay { log };
    Ok(Request::About { net, question })
}

// What the words after this first one ask for, or the place of the word that offends.
#[tactic(auto, unfolding(crate::specs::Words::command_of))]
fn request_of<'w>(command: &str, words: &mut Cursor<'w>) -> Result<Request<'w>, u8>
    requires { words.now.place ≡ 2 }
    ensures command { GivesCommand result (command_of (command.now ∷ map string_bytes words.old.left.now)) }
    ensures ranges { IfOk result AsksInRange }
{
    match command {
        "sample" => sample_of(words),
        "check" => check_of(words),
        "report" => report_of(words),
        "trial" => trial_of(words),
        "couple" => couple_of(words),
        "reward" => reward_of(words),
        "exact" => exact_of(words),
        "closed" => closed_of(words),
        "replay" => replay_of(words),
        _ => Err(1),
    }
}

/// The command of the words, or the place of the word that offends, counted from 1. It takes no memory.
#[tactic(auto, unfolding(crate::specs::Words::command_of))]
pub fn command_of(words: &[String]) -> Result<Request<'_>, u8>
    ensures command { GivesCommand result (command_of (map string_bytes words.now)) }
    ensures ranges { IfOk result AsksInRange }
{
    let mut words = Cursor::new(words);
    let command = words.next_text()?;
    request_of(command, &mut words)
}
