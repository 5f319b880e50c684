//! The lines of a script.
ghost use Rattle.std.specs.Prelude.{◌≡◌, ◌<◌, ◌≤◌, ◌++◌, ℕ, List, [], ◌∷◌, length, take, IfSome, MatchOption, SomeIff};
ghost use Rattle.std.specs.Str.Parse.{AllDigits, IsNumeral, digits_value, signed_digits_value, without_leading_plus};
ghost use Rattle.dheap.specs.Script.{IsFirstLine, Says, is_blank, words_of};
ghost use Rattle.dheap.specs.Words.{IsCount, IsNumber};
ghost use Rattle.dheap.specs.declared.serve.script.line.Line.{Line};

use std::str;

/// A good line.
#[derive(Clone, Copy, Debug, PartialEq, Eq)]
pub enum Line {
    /// It has no words.
    Blank,
    /// Adds a number.
    Push(i64),
    /// Takes the greatest number out.
    Pop,
    /// Counts the numbers.
    Len,
    /// Asks whether the greatest number is at least this.
    Test(i64),
    /// Takes the greatest number out if it is at least this.
    PopIf(i64),
    /// Keeps the numbers that are at least this.
    Keep(i64),
    /// Takes all numbers out, and gives this many of the greatest, in descending order.
    Sorted(usize),
}

impl Line {
    /// Reads a line, unless it is bad.
    pub fn parse(line: &[u8]) -> Option<Line>
        ensures { MatchOption result ((l : Line) → ¬ (Says (words_of line.now) l))
            (Says (words_of line.now)) }
    {
        match first_words(line) {
            (None, _, _) => Some(Line::Blank),
            (Some(name), None, _) => alone(name),
            (Some(name), Some(argument), None) => with_argument(name, argument),
            _ => None,
        }
    }
}

/// Reads the first line of a script in one pass, and returns it with what comes after its line feed, if it
/// is plain: a push, a pop, a count or a test, with one space before its number, if it has one, no plus, at
/// most 19 digits, and a line feed at once after it. `None`: the line is not plain, so parse it.
pub fn plain(script: &[u8]) -> Option<(Line, &[u8])>
    ensures { IfSome result (λ read. IsFirstLine script.now read.0 read.1.now) }
{
    let (name, after) = script.split_first_chunk::<4>()?;
    match name {
        b"pop\n" => return Some((Line::Pop, after)),
        b"len\n" => return Some((Line::Len, after)),
        _ => {}
    }
    let (number, rest) = plain_number(after)?;
    match name {
        b"push" => Some((Line::Push(number), rest)),
        b"test" => Some((Line::Test(number), rest)),
        _ => None,
    }
}

/// The number that stands between a space and the first line feed, and what comes after that, if nothing
/// else stands there and the number has no plus.
fn plain_number(script: &[u8]) -> Option<(i64, &[u8])>
    ensures { IfSome result (λ read. (word : List ℕ) × (script.now ≡ 32 ∷ word ++ 10 ∷ read.1.now)
        × IsNumber word × (read.0 ≡ signed_digits_value 10 word)) }
{
    let word = script.strip_prefix(b" ")?;
    if let Some(digits) = word.strip_prefix(b"-") {
        let (size, rest) = plain_natural(digits)?;
        return Some((0i64.checked_sub_unsigned(size)?, rest));
    }
    let (size, rest) = plain_natural(word)?;
    Some((0i64.checked_add_unsigned(size)?, rest))
}

/// The number whose decimal digits, at least one and at most 19, are all that stands before the first line
/// feed, and what comes after that.
fn plain_natural(script: &[u8]) -> Option<(u64, &[u8])>
    ensures { IfSome result (λ read. (word : List ℕ) × (script.now ≡ word ++ 10 ∷ read.1.now)
        × IsNumeral 10 word × (read.0 ≡ digits_value 10 word)) }
{
    let (number, count) = leading_digits(script);
    match &script[count..] {
        [b'\n', rest @ ..] if count > 0 => Some((number, rest)),
        _ => None,
    }
}

/// The number that the leading digits write, at most 19 of them, and how many they are. With 19 digits it is
/// in range.
fn leading_digits(script: &[u8]) -> (u64, usize)
    ensures { (result.1 ≤ length script.now) × AllDigits 10 (take result.1 script.now)
        × (result.0 ≡ digits_value 10 (take result.1 script.now)) }
{
    let most = script.len().min(19);
    let mut number = 0;
    for place in 0..most {
        let byte = script[place];
        if !byte.is_ascii_digit() {
            return (number, place);
        }
        number = number * 10 + u64::from(byte - b'0');
    }
    (number, most)
}

/// The first three words, or those that there are.
fn first_words(line: &[u8]) -> (Option<&[u8]>, Option<&[u8]>, Option<&[u8]>)
    ensures { MatchOption result.0 (words_of line.now ≡ [])
        (λ first. MatchOption result.1 (words_of line.now ≡ first.now ∷ [])
        (λ second. MatchOption result.2 (words_of line.now ≡ first.now ∷ second.now ∷ [])
        (λ third. 2 < length (words_of line.now)))) }
{
    let mut words = line
        .split(|byte| is_blank(*byte))
        .filter(|word| !word.is_empty());
    let first = words.next();
    let second = words.next();
    let third = words.next();
    (first, second, third)
}

/// Whether a byte parts words.
fn is_blank(byte: u8) -> bool
    ensures { result ≡ is_blank byte }
{
    matches!(byte, b' ' | b'\t' | b'\r')
}

/// Reads a line of one word.
fn alone(name: &[u8]) -> Option<Line>
    ensures { MatchOption result ((l : Line) → ¬ (Says (name.now ∷ []) l)) (Says (name.now ∷ [])) }
{
    match name {
        b"pop" => Some(Line::Pop),
        b"len" => Some(Line::Len),
        _ => None,
    }
}

/// Reads a line of two words.
fn with_argument(name: &[u8], argument: &[u8]) -> Option<Line>
    ensures { MatchOption result ((l : Line) → ¬ (Says (name.now ∷ argument.now ∷ []) l))
        (Says (name.now ∷ argument.now ∷ [])) }
{
    match name {
        b"push" => number(argument).map(Line::Push),
        b"test" => number(argument).map(Line::Test),
        b"popif" => number(argument).map(Line::PopIf),
        b"keep" => number(argument).map(Line::Keep),
        b"sorted" => count(argument).map(Line::Sorted),
        _ => None,
    }
}

/// The number that a word writes, if it does.
#[tactic(auto, using(crate::proofs::Plain::no_number))]
fn number(word: &[u8]) -> Option<i64>
    ensures { SomeIff result (IsNumber word.now) (signed_digits_value 10 word.now) }
{
    str::from_utf8(word).ok()?.parse::<i64>().ok()
}

/// The count that a word writes, if it does.
#[tactic(auto, using(crate::proofs::Plain::no_count))]
fn count(word: &[u8]) -> Option<usize>
    ensures { SomeIff result (IsCount word.now) (digits_value 10 (without_leading_plus word.now)) }
{
    str::from_utf8(word).ok()?.parse::<usize>().ok()
}
