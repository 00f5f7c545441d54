//! The top call.
ghost use Rattle.std.specs.Prelude.{◌≡◌, ◌+◌, ◌<◌, ◌≤◌, ◌⊎◌, ℕ, List, false, length, take, Err, IfOk, IfErr, IfSome};
ghost use Rattle.std.specs.Io.KnownBytes.{Appends, Keeps};
ghost use Rattle.io_edge.specs.Causes.{Rose};
ghost use Rattle.dpe_words.specs.Line.{IsLine, texts_of};
ghost use Rattle.dpe_words.specs.Usage.{usage_line};
ghost use Rattle.dpe_top.specs.declared.status.Status.{Status};
ghost use Rattle.dpe_top.specs.declared.status.Outcome.{Outcome};
ghost use Rattle.dpe_top.specs.declared.status.Failure.{Failure};
ghost use Rattle.dpe_top.specs.Replies.{Replies};
ghost use Rattle.dpe_top.specs.Answers.{line};
ghost use Rattle.dpe_top.specs.Modes.{task_by};
ghost use Rattle.dpe_top.specs.Reply.{AtOnce, IsAnswered, IsReported, IsWellFormed, IsWhole, IsWithin, MayEnd, Reads, SomeTaken, Took, answer, answer_to, most_bytes, status_of, task};

use crate::INPUT_MAX;
use crate::lines::too_long_line;
use crate::modes::{certify, check, migrate, plan, replan, sample};
use crate::planning::Planning;
use crate::reply::Reply;
use crate::status::{Failure, Outcome, Status};
use dpe_words::{Mode, WordFault, settings, usage_line};
use io_edge::{ReadEnd, Sink, Source, read_all, write_all};
use planner::Gate;
use std::alloc::{AllocError, Global};
use std::thread::Threads;

/// The answer to the bytes, in a mode that reads them.
fn reply_to_bytes<R: Threads + Sync, G: Gate>(
    planning: &Planning<G, R>,
    bytes: &[u8],
) -> Result<Reply, AllocError>
    requires reads { Reads (task_by planning.now) }
    requires short { length bytes.now ≤ most_bytes }
    ensures said { IfOk result (Replies (answer_to (task_by planning.now) bytes.now)) }
{
    match planning.settings().mode {
        Mode::Plan | Mode::Narrow | Mode::Zigzag | Mode::Leftdeep => {
            plan::reply(planning, bytes)
        }
        Mode::Migrate => migrate::reply(planning.alloc(), bytes),
        Mode::Certify => certify::reply(planning, bytes),
        Mode::Check => check::reply(planning.alloc(), bytes),
        Mode::Reopt => replan::reply(planning, bytes),
        // it reads nothing
        Mode::Sample => unreachable!(),
    }
}

/// The answer to the bytes of the source, in a mode that reads them.
fn read_reply<R: Threads + Sync, S: Source, G: Gate>(
    planning: &Planning<G, R>,
    source: &mut S,
) -> Result<Reply, Failure>
    requires reads { Reads (task_by planning.now) }
    ensures said { IfOk result (λ r. IfSome (S.left source.old) (λ bytes. Replies (answer_to (task_by planning.now) bytes) r)) }
    ensures took { IfOk result (λ r. Took r.outcome (S.left source.old) (S.left source.new)) }
    ensures some { IfOk result (λ r. SomeTaken (S.left source.old) (S.left source.new) (λ bytes. Replies (answer_to (task_by planning.now) bytes) r)) }
    ensures kept { IfOk result (λ _. S.faults source.new ≡ S.faults source.old) }
    ensures err { IfErr result (λ e. MayEnd e (S.faults source.old) (S.faults source.new) (S.sure source.old) (S.left source.old) (S.left source.new)) }
{
    let alloc = planning.alloc();
    match read_all(alloc, source, INPUT_MAX) {
        Ok(bytes) => Ok(reply_to_bytes(planning, &bytes)?),
        Err(ReadEnd::TooLong) => Ok(Reply {
            outcome: Outcome::Input,
            text: too_long_line().as_bytes().to_vec(alloc)?,
        }),
        Err(ReadEnd::Fault) => Err(Failure::ReadFault),
        Err(ReadEnd::NoMemory) => Err(Failure::NoMemory),
    }
}

/// The line that says how the program is called.
fn usage_reply(alloc: Global) -> Result<Reply, AllocError>
    ensures { IfOk result (Replies (line Outcome.Usage usage_line)) }
{
    Ok(Reply {
        outcome: Outcome::Usage,
        text: usage_line().as_bytes().to_vec(alloc)?,
    })
}

/// The answer to the words over the source.
#[tactic(auto, unfolding(crate::specs::Reply::task))]
fn reply_to<R: Threads + Sync, S: Source, G: Gate>(
    rt: &R,
    alloc: Global,
    words: &[String],
    source: &mut S,
    gate: &G,
) -> Result<Reply, Failure>
    ensures said { IfOk result (λ r. IfSome (S.left source.old) (λ bytes. Replies (answer (texts_of words.now) bytes) r)) }
    ensures unread { AtOnce (task (texts_of words.now)) (λ said. (source.new ≡ source.old) × IfOk result (Replies said)) }
    ensures read { Reads (task (texts_of words.now)) → IfOk result (λ r. Took r.outcome (S.left source.old) (S.left source.new)) }
    ensures some { Reads (task (texts_of words.now))
        → IfOk result
        (λ r. SomeTaken (S.left source.old) (S.left source.new) (λ bytes. Replies (answer (texts_of words.now) bytes) r)) }
    ensures kept { IfOk result (λ _. S.faults source.new ≡ S.faults source.old) }
    ensures err { IfErr result (λ e. MayEnd e (S.faults source.old) (S.faults source.new) (S.sure source.old) (S.left source.old) (S.left source.new)) }
    ensures usage { IfOk result (λ r. status_of r.outcome ≡ Status.Usage → IsLine (texts_of words.now) → ⊥) }
    ensures fault { result ≡ Err Failure.ReadFault → Reads (task (texts_of words.now)) }
    ensures complete { IfOk result (λ r. IfSome (S.left source.old) (λ bytes. IsWellFormed (texts_of words.now) bytes → IsReported (status_of r.outcome))) }
{
    match settings(alloc, words) {
        Ok(settings) => {
            let planning = Planning::by(rt, alloc, &settings, gate);
            match settings.mode {
                Mode::Plan | Mode::Narrow | Mode::Zigzag | Mode::Leftdeep => {
                    read_reply(&planning, source)
                }
                Mode::Migrate | Mode::Certify | Mode::Check | Mode::Reopt => {
                    read_reply(&planning, source)
                }
                Mode::Sample => Ok(sample::reply(&planning)?),
            }
        }
        Err(WordFault::Usage) => Ok(usage_reply(alloc)?),
        Err(WordFault::NoMemory) => Err(Failure::NoMemory),
    }
}

/// Answers the words over the bytes of the source, into the sink.
///
/// The whole answer is made before any of it is written. The words come first, then reading, the bytes, planning
/// and writing. The gate is told of each draw and of each buffer.
pub fn dpe<R: Threads + Sync, S: Source, K: Sink, G: Gate>(
    rt: &R,
    alloc: Global,
    words: &[String],
    source: &mut S,
    sink: &mut K,
    gate: &G,
) -> Status
    // Where the source tells its bytes, the status and what is written are those of the definition.
    ensures whole { IsWhole result → IfSome (S.left source.old) (λ bytes.
        IsAnswered (answer (texts_of words.now) bytes) result (K.held sink.old) (K.held sink.new)) }

    // Where it doesn't, the same holds of some bytes, those that were taken from it.
    ensures some { Reads (task (texts_of words.now)) → IsWhole result → SomeTaken (S.left source.old) (S.left source.new) (λ bytes.
        IsAnswered (answer (texts_of words.now) bytes) result (K.held sink.old) (K.held sink.new)) }

    // The words alone decide whether the source is read.
    ensures unread { AtOnce (task (texts_of words.now)) (λ said. (source.new ≡ source.old)
        × (IsWhole result → IsAnswered said result (K.held sink.old) (K.held sink.new))) }
    ensures read { Reads (task (texts_of words.now)) → IsWhole result → (outcome : Outcome) × (result ≡ status_of outcome)
        × Took outcome (S.left source.old) (S.left source.new) }

    // Each other answer has its cause.
    ensures usage { result ≡ Status.Usage → IsLine (texts_of words.now) → ⊥ }
    ensures read_fault { result ≡ Status.ReadFault → Reads (task (texts_of words.now))
        × Rose (S.faults source.old) (S.faults source.new) × (S.sure source.old ≡ false)
        × IsWithin most_bytes (S.left source.old) (S.left source.new) × Keeps (K.held sink.old) (K.held sink.new) }
    ensures write_fault { result ≡ Status.WriteFault → Rose (K.faults sink.old) (K.faults sink.new)
        × ((outcome : Outcome) × (text : List ℕ) × AtOnce (task (texts_of words.now)) (λ said. said outcome text)
        × IfSome (S.left source.old) (λ bytes. answer (texts_of words.now) bytes outcome text)
        × (K.sure sink.old < length text)
        × ((n : ℕ) × (n < length text) × Appends (K.held sink.old) (K.held sink.new) (take n text))) }
    ensures unwritten { result ≡ Status.WriteFault → Reads (task (texts_of words.now)) → (unwritten : Outcome)
        × IfSome (S.left source.old) (λ bytes. (text : List ℕ) × answer (texts_of words.now) bytes unwritten text)
        × Took unwritten (S.left source.old) (S.left source.new) }
    ensures memory { result ≡ Status.NoMemory → IsWithin (most_bytes + 1) (S.left source.old) (S.left source.new)
        × Keeps (K.held sink.old) (K.held sink.new) }

    // A fault of either end shows in the status: else its count stands.
    ensures read_shown { (result ≡ Status.ReadFault) ⊎ (S.faults source.new ≡ S.faults source.old) }
    ensures write_shown { (result ≡ Status.WriteFault) ⊎ (K.faults sink.new ≡ K.faults sink.old) }

    // Bytes without a fault are reported on, where no end fails and there is memory.
    ensures complete { IfSome (S.left source.old) (λ bytes. IsWellFormed (texts_of words.now) bytes
        → (Rose (S.faults source.old) (S.faults source.new) → ⊥) → (Rose (K.faults sink.old) (K.faults sink.new) → ⊥)
        → IsReported result ⊎ (result ≡ Status.NoMemory)) }

    // Where the words alone decide, so is their answer given.
    ensures given { AtOnce (task (texts_of words.now)) (λ said. (Rose (K.faults sink.old) (K.faults sink.new) → ⊥)
        → IsAnswered said result (K.held sink.old) (K.held sink.new) ⊎ (result ≡ Status.NoMemory)) }
{
    let reply = match reply_to(rt, alloc, words, source, gate) {
        Ok(reply) => reply,
        Err(Failure::ReadFault) => return Status::ReadFault,
        Err(Failure::NoMemory) => return Status::NoMemory,
    };
    match write_all(sink, reply.text.as_slice()) {
        Ok(()) => reply.outcome.status(),
        Err(_) => Status::WriteFault,
    }
}
