//! Reads a script into commands.
ghost use Rattle.std.specs.Prelude.{◌≡◌, ◌⊎◌, ◌∷◌, ℕ, List, map, option_to_list, IfOk, IfSome, IfNone, IfErr};
ghost use Rattle.dary_heap.specs.Reading as read;
ghost use Rattle.dheap.specs.Faults.{TellsFirstBad, status_of};
ghost use Rattle.dheap.specs.Script.{CarryOut, CarryOutLine, Say, Says, lines_left, lines_of, words_of};
ghost use Rattle.dheap.specs.declared.serve.script.line.Line.{Line};

mod line;

use super::fault::Fault;
use dary_heap::run::Command;
use line::Line;
use std::alloc::Global;

/// Reads the commands of a script, with the predicates that `at_least` makes of bounds. Each line becomes
/// its command before the next one is read.
pub fn read_commands<const D: usize, P: FnMut(&i64) -> bool + Drop, F: Fn(i64) -> P>(
    alloc: Global,
    script: &[u8],
    at_least: F,
) -> Result<Vec<Command<i64, D, P>>, Fault>
    requires { F.IsAlwaysCallable at_least }
    ensures said { IfOk result (λ commands. (lines : List Line) × Say (lines_of script.now) lines
        × CarryOut (λ n p. F.post at_least n p) (read.commands commands.items) lines) }
    ensures fault { IfErr result (λ fault. (status_of fault ≡ 1) ⊎ (status_of fault ≡ 3)) }
    ensures bad { IfErr result (λ fault. status_of fault ≡ 1 → TellsFirstBad script.now fault) }
{
    let mut commands = Vec::new(alloc);
    let mut rest = Some(script);
    for number in 1..u64::MAX {
        let Some(here) = rest else {
            break;
        };
        let Some((line, after)) = read_line(here) else {
            return Err(Fault::BadLine(number));
        };
        if let Some(command) = command(line, &at_least) {
            commands.push(command)?;
        }
        rest = after;
    }
    Ok(commands)
}

/// Reads the first line and returns it with what comes after its line feed, or `None` if it is bad.
fn read_line(script: &[u8]) -> Option<(Line, Option<&[u8]>)>
    ensures bad { IfNone result ((text : List ℕ) × (rest : List (List ℕ))
        × (lines_of script.now ≡ text ∷ rest) × ((line : Line) → ¬ (Says (words_of text) line))) }
    ensures said { IfSome result (λ read. (text : List ℕ)
        × (lines_of script.now ≡ text ∷ lines_left read.1) × Says (words_of text) read.0) }
{
    if let Some((line, rest)) = line::plain(script) {
        return Some((line, Some(rest)));
    }
    let (text, rest) = first_line(script);
    Some((Line::parse(text)?, rest))
}

/// Returns the first line, and what comes after its line feed.
fn first_line(script: &[u8]) -> (&[u8], Option<&[u8]>)
    ensures { lines_of script.now ≡ result.0.now ∷ lines_left result.1 }
{
    match script.iter().position(|byte| *byte == b'\n') {
        Some(place) => (&script[..place], Some(&script[place + 1..])),
        None => (script, None),
    }
}

/// Returns the command of a line. A blank line has none.
fn command<const D: usize, P: FnMut(&i64) -> bool, F: Fn(i64) -> P>(
    line: Line,
    at_least: &F,
) -> Option<Command<i64, D, P>>
    requires { F.IsAlwaysCallable at_least.now }
    ensures { CarryOutLine (λ n p. F.post at_least.now n p)
        (map read.command (option_to_list result)) line }
{
    match line {
        Line::Blank => None,
        Line::Push(item) => Some(Command::Push(item)),
        Line::Pop => Some(Command::Pop),
        Line::Len => Some(Command::Len),
        Line::Test(bound) => Some(Command::Ask(at_least(bound))),
        Line::PopIf(bound) => Some(Command::PopIf(at_least(bound))),
        Line::Keep(bound) => Some(Command::Retain(at_least(bound))),
        Line::Sorted(count) => Some(Command::DrainSorted(count)),
    }
}
