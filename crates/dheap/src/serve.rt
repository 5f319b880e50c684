//! One run of the program, over any streams.
ghost use Rattle.std.specs.Prelude.{◌≡◌, ◌<◌, ◌≤◌, ◌↔◌, ℕ, List, map, string_bytes, IfSome, IfErr, OnOk, MatchOption};
ghost use Rattle.std.specs.Io.KnownBytes.{Keeps, IsAtEnd};
ghost use Rattle.dheap.specs.Faults.{TellsFirstBad, status_of};
ghost use Rattle.dheap.specs.Program.{Fails, Prints};
ghost use Rattle.dheap.specs.Script.{IsFirstBad, Say, lines_of};
ghost use Rattle.dheap.specs.Words.{IsArity};
ghost use Rattle.dheap.specs.declared.serve.script.line.Line.{Line};

mod answers;
pub(crate) mod fault;
mod script;

use answers::write_answers;
use dary_heap::DaryHeap;
use dary_heap::run::run;
use fault::Fault;
use script::read_commands;
use std::alloc::Global;
use std::io::{Read, Write};

/// Carries out the commands that `input` holds, writes the answers to `output`, and returns the status
/// that the program ends with.
///
/// `words` are the arguments after the program's own name: one digit from `1` to `8`, which is the arity
/// of the heap. The status is 0 if all went well. Otherwise a line on `errors` says what was met first:
/// other words (2), a bad line (1), a lack of memory (3) or a stream that failed (4). Nothing is written
/// to `output` before all commands have run. Whether `errors` can be written changes no status.
pub fn serve<R: Read, W: Write, E: Write>(
    alloc: Global,
    words: &[String],
    input: &mut R,
    output: &mut W,
    errors: &mut E,
) -> u8
    ensures status { result ≤ 4 }
    ensures usage { (result ≡ 2) ↔ ((d : ℕ) → ¬ (IsArity (map string_bytes words.now) d)) }

    // Nothing is read unless the arguments are right, and no message is written if all went well.
    ensures unread { result ≡ 2 → input.new ≡ input.old }
    ensures quiet { result ≡ 0 → errors.new ≡ errors.old }

    // If a line may be bad, all lines were read, and nothing was written.
    ensures whole { result < 2 → IsAtEnd (R.remaining input.new) }
    ensures silent { 0 < result → result < 3
        → Keeps (W.contents output.old) (W.contents output.new) }

    // If it is known what is read: a line is bad, or all are good and their answers are written.
    ensures bad { result ≡ 1 → IfSome (R.remaining input.old)
        (λ script. (number : ℕ) × IsFirstBad (lines_of script) number) }
    ensures printed { result ≡ 0 → IfSome (R.remaining input.old)
        (λ script. Prints script (W.contents output.old) (W.contents output.new)) }
{
    match try_serve(alloc, words, input, output) {
        Ok(()) => 0,
        Err(fault) => fault.report(errors),
    }
}

/// Checks the arguments, reads the script and runs it. Returns what ends the run early, if anything does.
fn try_serve<R: Read, W: Write>(
    alloc: Global,
    words: &[String],
    input: &mut R,
    output: &mut W,
) -> Result<(), Fault>
    ensures usage { IfErr result
        (λ fault. (status_of fault ≡ 2) ↔ ((d : ℕ) → ¬ (IsArity (map string_bytes words.now) d))) }
    ensures named { OnOk result ((d : ℕ) × IsArity (map string_bytes words.now) d) }
    ensures unread { IfErr result (λ fault. status_of fault ≡ 2 → input.new ≡ input.old) }
    ensures whole { OnOk result (IsAtEnd (R.remaining input.new)) }
    ensures read { IfErr result (λ fault. status_of fault ≡ 1 → IsAtEnd (R.remaining input.new)) }
    ensures bad { IfErr result (λ fault. status_of fault ≡ 1 → IfSome (R.remaining input.old)
        (λ script. TellsFirstBad script fault)) }
    ensures printed { OnOk result (IfSome (R.remaining input.old)
        (λ script. Prints script (W.contents output.old) (W.contents output.new))) }
    ensures silent { IfErr result
        (λ fault. status_of fault < 3 → Keeps (W.contents output.old) (W.contents output.new)) }
{
    let Some(arity) = arity(words) else {
        return Err(Fault::Usage);
    };
    let mut script = Vec::new(alloc);
    input.read_to_end(&mut script)?;
    run_at_arity(arity, alloc, script, output)
}

/// Returns the arity that the arguments name, if they are one digit from `1` to `8`.
fn arity(words: &[String]) -> Option<u8>
    ensures { MatchOption result ((d : ℕ) → ¬ (IsArity (map string_bytes words.now) d))
        (IsArity (map string_bytes words.now)) }
{
    let [word] = words else {
        return None;
    };
    match word.as_bytes() {
        [digit @ b'1'..=b'8'] => Some(*digit - b'0'),
        _ => None,
    }
}

/// Runs a script on a new heap of this arity, which the type of the heap has as a constant.
fn run_at_arity<W: Write>(
    arity: u8,
    alloc: Global,
    script: Vec<u8>,
    output: &mut W,
) -> Result<(), Fault>
    ensures failed { IfErr result
        (Fails script.items (W.contents output.old) (W.contents output.new)) }
    ensures printed { OnOk result
        (Prints script.items (W.contents output.old) (W.contents output.new)) }
{
    match arity {
        1 => run_script::<W, 1>(alloc, script, output),
        2 => run_script::<W, 2>(alloc, script, output),
        3 => run_script::<W, 3>(alloc, script, output),
        4 => run_script::<W, 4>(alloc, script, output),
        5 => run_script::<W, 5>(alloc, script, output),
        6 => run_script::<W, 6>(alloc, script, output),
        7 => run_script::<W, 7>(alloc, script, output),
        _ => run_script::<W, 8>(alloc, script, output),
    }
}

/// Reads the commands of a script, runs them on a new heap, and writes the answers.
fn run_script<W: Write, const D: usize>(
    alloc: Global,
    script: Vec<u8>,
    output: &mut W,
) -> Result<(), Fault>
    ensures failed { IfErr result
        (Fails script.items (W.contents output.old) (W.contents output.new)) }
    ensures printed { OnOk result
        (Prints script.items (W.contents output.old) (W.contents output.new)) }

    // If the output failed, all lines were good.
    ensures good { IfErr result (λ fault. status_of fault ≡ 4
        → (lines : List Line) × Say (lines_of script.items) lines) }
{
    let commands = read_commands(
        alloc,
        script.as_slice(),
        |bound: i64| move |item: &i64| *item >= bound,
    )?;
    // Its memory is free before the replies and the heap take some.
    drop(script);
    let mut heap = DaryHeap::<i64, D>::new(alloc);
    let Ok(replies) = run(alloc, &mut heap, commands) else {
        return Err(Fault::NoMemory);
    };
    if !write_answers(alloc, replies.as_slice(), output)? {
        return Err(Fault::NoMemory);
    }
    Ok(())
}
