//! The call that does all that the program does.

ghost use Rattle.std.specs.Prelude.{◌≡◌, ◌≢◌, ℕ, ◌^◌, ◌<◌, ◌⊎◌, List, [], ◌∷◌, Some, Ok, map, codes, string_bytes};
ghost use Rattle.std.specs.Fmt.{decimal};
ghost use Rattle.psi_io.specs.Counts.{Rose};
ghost use Rattle.psi_program.specs.SeenBy.{shelf_seen, sink_seen, call_seen};
ghost use Rattle.psi_program.specs.Run.{HasRun};
ghost use Rattle.psi_net_model.specs.Network.{Network};
ghost use Rattle.psi_net.specs.Reading.{network_of};
ghost use Rattle.psi_command.specs.Status.{status_code, IsReplied};
ghost use Rattle.psi_command.specs.Command.{Command};
ghost use Rattle.psi_command.specs.Words.{command_of};
ghost use Rattle.psi_reply.specs.Sample.{IsSampled};
ghost use Rattle.psi_reply.specs.Reply.{Reply};
ghost use Rattle.psi_run.specs.Reply.{reply_to};
ghost use Rattle.psi_run.specs.Means.{Means};
ghost use Rattle.psi_run.specs.Reads.{AreGiven};
ghost use Rattle.psi_run.specs.Call.{AreTaken, IsRun};
ghost use Rattle.psi_run.specs.Run.{IsRunOf};

use crate::commands::perform;
use crate::writing::finish;
use psi_command::{Status, command_of};
use psi_io::{Shelf, Sink};
use psi_reply::Ending;
use std::alloc::Global;

/// Does what the words after the program's name ask for, and returns how it ended.
///
/// | Words | What it does |
/// |---|---|
/// | `check NET` | prints the description of the network in the file NET |
/// | `sample NET SEED STREAM` | prints the sample that this seed and stream draw of the network in the file NET |
/// | `report NET SEED FIRST COUNT` | samples with COUNT streams of this seed, from FIRST on, and prints the report of these samples |
/// | `trial NUMBER` | makes the network of NUMBER, samples it with the seed NUMBER and the streams 0 to 3, and prints the report |
/// | `couple NET SEED STREAM` | prints the least horizon, of any length, at which this seed and stream couple the network in the file NET |
/// | `reward NET SEED STREAM NAME` | prints the value of the reward NAME at time zero, as soon as all states have one |
/// | `exact NET SEED STREAM H` | follows all states of the network in the file NET through the last 2 to the power H steps, and prints how many are left and when one is |
/// | `closed NET SEED STREAM TOTAL` | prints the sample that this seed and stream draw of the closed network in the file NET among its states with TOTAL customers |
/// | `sample NET SEED STREAM log` | writes the log of the sample that this seed and stream draw of the network in the file NET |
/// | `replay NET LOG` | checks the log in the file LOG, whoever wrote it, for the network in the file NET |
///
/// NET, NAME and LOG are any texts. Numbers are `0` or digits without a leading zero: SEED, STREAM and FIRST are
/// at most 18,446,744,073,709,551,615, COUNT is 1 to 65,536 and the last stream is no greater than they may
/// be, NUMBER is at most 65,535, H at most 12, and TOTAL at most 256. The words are judged from the left; the
/// offending word is the first place, counted from 1, at which the word is missing, isn't the command or number
/// that must stand there, or is one too many.
///
/// | Status | Comes | Text |
/// |---|---|---|
/// | `Done` | the network is described | out: the description |
/// | `Done` | the sample is met | out: `met T`, `state S` |
/// | `Done` | the samples are counted | out: the report |
/// | `Done` | there is a least horizon | out: `coupled T`, `state S` |
/// | `Done` | the reward has one value | out: `reward-met T`, `value V` |
/// | `Done` | all states have met within M = 2 to the power H steps | out: `states N`, `image T N` for each T of 1, 2, 4, .., M, `constant T S`, and `region T` or `region none` |
/// | `Done` | the sample of the closed network is met | out: `met T`, `state S` |
/// | `Done` | the sample is met, and its log has at most 33,554,432 bytes | out: the log |
/// | `Done` | the log is accepted | out: `accepted T`, `state S` |
/// | `NotCoupled` | the sample isn't met, or there is no least horizon, within N = 2 to the power `limit` steps | out: `not coupled within N` |
/// | `NotCoupled` | the reward hasn't one value within N steps | out: `reward not coupled within N` |
/// | `NotCoupled` | not all states have met within M steps | out: the same lines, with `not constant within M` instead of `constant T S` |
/// | `NotCoupled` | the sample of the closed network isn't met within N steps | out: `not coupled within N` |
/// | `Usage` | the words aren't a command | err: `psi: usage word N` |
/// | `NetRefused` | the network file is refused | err: `psi: network refused CODE NAME SECTION NUMBER KEY` |
/// | `LogRefused` | LOG isn't the text of a log | err: `psi: log refused CAUSE NAME line N` |
/// | `LogRefused` | the log breaks a rule | err: `psi: log rejected CAUSE NAME line N` |
/// | `LogTooLong` | the sample is met, and its log would be longer | err: `psi: log too long` |
/// | `ReadFault` | the shelf's count of NET rose in this call | err: `psi: cannot read network` |
/// | `ReadFault` | the shelf's count of LOG rose in this call, and the network is accepted | err: `psi: cannot read log` |
/// | `WriteFault` | the count of out or of err rose in this call | a prefix of the text |
/// | `OutOfMemory` | an allocation failed | err: `psi: out of memory` |
/// | `UnknownReward` | the network has no reward NAME | err: `psi: unknown reward` |
/// | `TooManyStates` | the words are `exact`, and the network has more than 65,536 states | err: `psi: too many states` |
/// | `NotClosed` | the words are `closed`, and the network isn't closed: its event E, counted from 0, is the first that doesn't move one customer from a queue to another | err: `psi: not closed event E` |
/// | `NoSuchTotal` | the words are `closed`, the network is closed, and its capacities add up to less than TOTAL | err: `psi: no state with this total` |
///
/// The description has, in this order: `queues Q`; for each queue `queue NAME CAPACITY SERVERS`; `events E`,
/// the events after their expansion over servers; for each of these `event NAME K RATE monotone`, K being
/// the number of its server, or, where the event doesn't keep the componentwise order of states,
/// `event NAME K RATE upset X Y` with two states whose order it breaks; `modulus M`, the least power of two
/// that isn't below the total rate; `idle N`, the numbers below M that no event has; `limit H`; `split L`;
/// and `monotone yes` where every event is monotone, `monotone no` otherwise.
///
/// Each line ends with a line feed. S is the state's numbers in the queues' order, joined by commas. The
/// sample is that of coupling from the past (Propp and Wilson 1996) by regions of states (Bušić, Gaujal and
/// Vincent 2008): T is the least of 1, 2, 4, .., N such that the region that starts with all states T steps
/// before time zero ends with one state, and S is that state. Every longer run ends with S too; where none
/// is met, no run of up to N steps ends with one state. In a monotone network T is the least such that all
/// states that start T steps before time zero meet, and so it is where the network has at most `split`
/// states.
///
/// The report has comma-separated records of three fields (RFC 4180, with a line feed alone at each end):
/// `item,name,value`; how many samples there are, are met and aren't; each horizon that some sample has,
/// with how many have it; and for each queue and each reward its sum over the samples that are met, and its
/// least and its greatest value where one is met. A trial prints `trial NUMBER`, `queues Q`, `events E` and
/// `modulus M` before its report.
///
/// The least horizon T is that from 1 to N, a power of two or not, such that the region run of T ends with
/// one state, and no shorter one does; S is that state. The value of a reward is looked for at the horizons
/// 1, 2, 4, .., N: T is the least of them at which all states of the region have one value, V. In either
/// case every longer run ends with that state, or with states of that value.
///
/// `exact` follows each state by itself, so it shows what regions of states lose. N is the number of all
/// states, then for each T the number of states in which they are after the last T steps. In `constant T S`,
/// T is the least from 1 to M, a power of two or not, such that all states that start T steps before time
/// zero have met, and S is the state in which they met; every state that starts there or earlier is in S at
/// time zero. In `region T`, T is the least from 1 to M such that the region run of T ends with one state.
/// Where there is such a T, all states have met by then, and in a monotone network the two horizons are one.
/// M replaces the network's greatest horizon, which `exact` doesn't ask for.
///
/// A network is closed where each event, after the expansion over servers, is a service with one target at
/// which a customer stays where the target is full: then no step changes the number of all customers. Its
/// states with TOTAL customers are followed as a diagram of arcs, not one by one. T is the least of 1, 2, 4, ..,
/// N such that the run that begins with all of them T steps before time zero ends with one state, and S is
/// that state; every state with TOTAL customers that starts there or earlier is in S at time zero. Where none
/// of the runs ends with one state, the states may still have met.
///
/// The log is the run of the sample's horizon, in version 2 of its grammar: all states at its begin, for each
/// step its event and the region after it, and S. It certifies S: a log is accepted where it begins with all
/// states, each step has the event of its word under the log's own seed and stream, each region has all that
/// the event makes of the one before, and the last has one state, that of its last line. Then every state
/// that starts at the log's horizon T or earlier is S at time zero, whoever wrote the log. CAUSE, NAME and N
/// are the number and the name of the first cause, and the line, counted from 1; line 0 is the text as a
/// whole. A log that this call writes is accepted with the sample's T and S. It is written in pieces as its
/// lines come, after the run was done once to see how long it is.
///
/// All allocations come before the first byte is written. Arguments that aren't a command allocate nothing.
///
/// NET is read once, up to 1,048,576 bytes, and then LOG once, up to 33,554,432, where the network is accepted. No
/// other file is read, and none for `trial` and for words that aren't a command.
///
/// Where the shelf gives NET and LOG, and out and err take their texts, no count rises, and the status is
/// neither `ReadFault` nor `WriteFault`.
pub fn run<F: Shelf, O: Sink, E: Sink>(
    alloc: Global,
    words: &[String],
    shelf: &mut F,
    out: &mut O,
    err: &mut E,
) -> Status
    // What each status says of the words, the shelf and the sinks.
    ensures call { IsRun (call_seen (map string_bytes words.now) (shelf_seen F.told F.asked F.faults shelf.old shelf.new)
        (sink_seen O.held O.took O.faults out.old out.new) (sink_seen E.held E.took E.faults err.old err.new)) result }

    // The headline: where the words are those of a sample, the shelf's model has a file that reads as a network, no
    // count of faults rose in this call and memory didn't run out, what is printed is a sample of the network.
    ensures headline { (name : List ℕ) (seed stream : ℕ) (bytes : List ℕ) (net : Network)
        → map string_bytes words.now ≡ codes "sample" ∷ name ∷ decimal seed ∷ decimal stream ∷ [] → seed < 2 ^ 64 → stream < 2 ^ 64
        → F.told shelf.old name ≡ Some bytes → network_of bytes ≡ Ok net
        → ¬ (Rose (F.faults shelf.old name) (F.faults shelf.new name))
        → ¬ (Rose (O.faults out.old) (O.faults out.new)) → ¬ (Rose (E.faults err.old) (E.faults err.new))
        → result ≢ Status.OutOfMemory
        → IsSampled (O.held out.old) (O.held out.new) result net seed stream }

    // What crossed the edges is a run of the program: the same over the bytes that were read and accepted, whatever the
    // models of the shelf and the sinks have.
    ensures edge { HasRun IsRunOf (map string_bytes words.now)
        (record { gave = F.gave shelf.old; out = O.took out.old; err = E.took err.old; tally = record { asked = F.asked shelf.old; files = F.faults shelf.old; out = O.faults out.old; err = E.faults err.old } })
        (record { gave = F.gave shelf.new; out = O.took out.new; err = E.took err.new; tally = record { asked = F.asked shelf.new; files = F.faults shelf.new; out = O.faults out.new; err = E.faults err.new } })
        (status_code result) }

    // What a status of a reply means for the command, whatever counts rose.
    ensures means { (command : Command) → command_of (map string_bytes words.now) ≡ Ok command → IsReplied result
        → Means command (F.told shelf.old) (O.held out.old) (O.held out.new) result }

    // Where the shelf gives each file that the words name, and out and err take the reply's texts and the line that
    // reports out of memory, no count of faults rises in this call, and the status is the reply's or `OutOfMemory`.
    ensures spared { (reply : Reply) → reply_to (command_of (map string_bytes words.now)) (F.told shelf.old) ≡ Some reply
        → AreGiven (F.gives shelf.old) (command_of (map string_bytes words.now))
        → AreTaken (O.takes out.old) (E.takes err.old) (command_of (map string_bytes words.now)) reply
        → (F.faults shelf.new ≡ F.faults shelf.old) × (O.faults out.new ≡ O.faults out.old) × (E.faults err.new ≡ E.faults err.old)
        × ((result ≡ reply.status) ⊎ (result ≡ Status.OutOfMemory)) }
{
    match command_of(words) {
        Ok(request) => perform(alloc, request, shelf, out, err),
        Err(place) => finish(&Ending::Usage(place), out, err),
    }
}
