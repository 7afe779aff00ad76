//! The form of a table: its lines, one after the other.

ghost use Rattle.std.specs.Prelude.{ℕ, ◌≡◌, ◌≢◌, ◌+◌, ◌^◌, ◌<◌, ◌≤◌, ◌++◌, ◌∷◌, nat_eq, All, Bool, List, drop, length, MatchBool, MatchOption, MatchResult, IfOk, IfSome, position};
ghost use Rattle.std.specs.List.{position_or_len};
ghost use Rattle.order_bound.specs.TableText.{Entry, mark_text};
ghost use Rattle.order_bound.specs.TableForm.{IsForm, IsHead, IsBadForm};
ghost use Rattle.order_bound.specs.Reading.{symbols, entry_body, head_body, IsWordAt, IsNumberAt, HasNoNumber, IsMarkAt, IsLineAt, IsFeedless, IsFront, AreSymbols, IsNamedAt, HasNoNamed, IsTop, IsEntryAdded, AreRead, OnLine};

use ag_texts::{line_end, read_number};
use std::alloc::{AllocError, Global};

/// Why a text is not accepted.
#[derive(Clone, Copy)]
pub enum Stop {
    NoMemory,
    /// A check fails at this line.
    Line(u32),
}

impl From<AllocError> for Stop {
    ghost use Rattle.order_bound.specs.declared.reader.Stop.TheVariants.{NoMemory};

    ghost from_gives = { λ _ stop. stop ≡ NoMemory };

    fn from(_: AllocError) -> Stop {
        Stop::NoMemory
    }
}

/// A field of a line: its value, and the place after it.
#[derive(Clone, Copy)]
struct Number {
    value: u64,
    end: usize,
}

/// What stands at the front of a label line, and the place after it.
#[derive(Clone, Copy)]
struct Front {
    label: u64,
    pairs: u64,
    mark: bool,
    end: usize,
}

/// What the label lines say, in four columns. The dual lists stand in a row.
#[derive(Drop)]
pub struct Entries {
    pub labels: Vec<u64>,
    pub pairs: Vec<u64>,
    pub marks: Vec<bool>,
    pub duals: Vec<u8>,
}

/// What a text of the form says.
#[derive(Drop)]
pub struct Said {
    pub checked: u64,
    pub bound: u64,
    pub entries: Entries,
}

/// What the first two lines say, and the place after them.
#[derive(Clone, Copy)]
struct Top {
    checked: u64,
    bound: u64,
    end: usize,
}

/// The place after a word, where it stands at a place of a text.
fn after_word(text: &[u8], at: usize, word: &[u8]) -> Option<usize>
    requires { at ≤ length text.now }
    ensures { MatchOption result
        ((rest : List ℕ) → drop at text.now ≢ word.now ++ rest)
        (IsWordAt text.now at word.now) }
{
    if text[at..].starts_with(word) {
        Some(at + word.len())
    } else {
        None
    }
}

/// The place of the first space of a line at or after a place, or the line's end.
fn field_end(line: &[u8], from: usize) -> usize
    requires { from ≤ length line.now }
    ensures within { result ≤ length line.now }
    ensures first { result ≡ from + position_or_len (λ b. nat_eq b 32) (drop from line.now) }
{
    match first_space(&line[from..]) {
        Some(place) => from + place,
        None => line.len(),
    }
}

fn first_space(line: &[u8]) -> Option<usize>
    ensures place { result ≡ position (λ b. nat_eq b 32) line.now }
    ensures within { IfSome result (λ p. p < length line.now) }
{
    line.iter().position(|b| *b == b' ')
}

/// A space and a number, where they stand at a place of a line.
fn number_at(line: &[u8], at: usize) -> Option<Number>
    requires { at ≤ length line.now }
    ensures { MatchOption result (HasNoNumber (drop at line.now))
        (λ n. IsNumberAt line.now at n.value n.end) }
{
    let start = after_word(line, at, b" ")?;
    let end = field_end(line, start);
    let value = read_number(&line[start..end])?;
    Some(Number { value, end })
}

/// A space and a mark, where they stand at a place of a line.
fn mark_at(line: &[u8], at: usize) -> Option<(bool, usize)>
    requires { at ≤ length line.now }
    ensures { MatchOption result
        ((mark : Bool) (rest : List ℕ) → drop at line.now ≢ (32 ∷ mark_text mark) ++ rest)
        (λ m. IsMarkAt line.now at m.0 m.1) }
{
    if let Some(end) = after_word(line, at, b" c") {
        return Some((true, end));
    }
    let end = after_word(line, at, b" f")?;
    Some((false, end))
}

/// Label, pairs and mark of a label line.
fn front_of(line: &[u8]) -> Option<Front>
    ensures { MatchOption result
        ((label pairs : ℕ) (mark : Bool) (dual : List ℕ) → label < 10 ^ 19 → pairs < 10 ^ 19 →
        line.now ≢ entry_body label pairs mark dual)
        (λ x. IsFront line.now x.label x.pairs x.mark x.end) }
{
    let at = after_word(line, 0, b"label")?;
    let label = number_at(line, at)?;
    let pairs = number_at(line, label.end)?;
    let (mark, end) = mark_at(line, pairs.end)?;
    Some(Front {
        label: label.value,
        pairs: pairs.value,
        mark,
        end,
    })
}

/// Adds the symbols of a line from a place to its end, where they are n symbols below size; else tells that they are
/// not.
fn add_symbols(
    line: &[u8],
    at: usize,
    n: usize,
    size: u64,
    duals: &mut Vec<u8>,
) -> Result<bool, AllocError>
    requires place { at ≤ length line.now }
    requires size { size ≤ 256 }
    ensures { IfOk result (λ ok. MatchBool ok
        (AreSymbols size n line.now at duals.old.items duals.new.items)
        ((xs : List ℕ) → length xs ≡ n → All (λ x. x < size) xs → drop at line.now ≢ symbols xs)) }
{
    let mut at = at;
    for _ in 0..n {
        match number_at(line, at) {
            Some(symbol) if symbol.value < size => {
                duals.push(symbol.value as u8)?;
                at = symbol.end;
            }
            _ => return Ok(false),
        }
    }
    Ok(at == line.len())
}

/// Adds what a label line says, where it is of the form; else tells that it is not.
fn add_entry(line: &[u8], n: usize, size: u64, entries: &mut Entries) -> Result<bool, AllocError>
    requires { size ≤ 256 }
    ensures { IfOk result (λ ok. MatchBool ok
        (IsEntryAdded size n line.now entries.old entries.new)
        ((e : Entry) → IsForm size n e → line.now ≢ entry_body e.label e.pairs e.mark e.dual)) }
{
    let Some(front) = front_of(line) else {
        return Ok(false);
    };
    if !add_symbols(line, front.end, n, size, &mut entries.duals)? {
        return Ok(false);
    }
    entries.labels.push(front.label)?;
    entries.pairs.push(front.pairs)?;
    entries.marks.push(front.mark)?;
    Ok(true)
}

/// A name, a space and a number, where they stand at a place of a line.
fn named_number(line: &[u8], at: usize, name: &[u8]) -> Option<Number>
    requires { at ≤ length line.now }
    ensures { MatchOption result (HasNoNamed name.now (drop at line.now))
        (λ x. IsNamedAt line.now at name.now x.value x.end) }
{
    let start = after_word(line, at, name)?;
    number_at(line, start)
}

/// What the second line says, where it is of the form and counts n points. The end is the line's.
fn head_of(line: &[u8], n: u64) -> Option<Top>
    requires { n < 10 ^ 19 }
    ensures { MatchOption result
        ((checked bound : ℕ) → IsHead checked bound → line.now ≢ head_body n checked bound)
        (λ t. IsHead t.checked t.bound × (line.now ≡ head_body n t.checked t.bound)) }
{
    let points = named_number(line, 0, b"n")?;
    let checked = named_number(line, points.end, b" checked")?;
    let bound = named_number(line, checked.end, b" bound")?;
    if points.value != n {
        return None;
    }
    if bound.end != line.len() {
        return None;
    }
    Some(Top {
        checked: checked.value,
        bound: bound.value,
        end: bound.end,
    })
}

/// The end of the line at a place, where a line feed comes.
fn end_of_line(text: &[u8], at: usize) -> Option<usize>
    requires { at ≤ length text.now }
    ensures { MatchOption result (IsFeedless (drop at text.now)) (IsLineAt text.now at) }
{
    line_end(text, at)
}

/// The first two lines.
fn top_of(text: &[u8], n: u64) -> Result<Top, Stop>
    requires { n < 10 ^ 19 }
    ensures { MatchResult result
        (λ t. IsTop text.now n t.checked t.bound t.end)
        (λ stop. (size : ℕ) → OnLine stop (IsBadForm size n text.now)) }
{
    let Some(at) = after_word(text, 0, b"agcode-bound 1\n") else {
        return Err(Stop::Line(1));
    };
    let Some(end) = end_of_line(text, at) else {
        return Err(Stop::Line(2));
    };
    let Some(head) = head_of(&text[at..end], n) else {
        return Err(Stop::Line(2));
    };
    Ok(Top {
        checked: head.checked,
        bound: head.bound,
        end: end + 1,
    })
}

/// What the text of a table over n points says, whose symbols are below size.
pub fn read_table(alloc: Global, text: &[u8], n: u32, size: u64) -> Result<Said, Stop>
    requires few { n ≤ 1024 }
    requires size { size ≤ 256 }
    ensures { MatchResult result
        (λ s. AreRead size n text.now s.checked s.bound s.entries)
        (λ stop. OnLine stop (IsBadForm size n text.now)) }
{
    let top = top_of(text, u64::from(n))?;
    let mut entries = Entries {
        labels: Vec::new(alloc),
        pairs: Vec::new(alloc),
        marks: Vec::new(alloc),
        duals: Vec::new(alloc),
    };
    let mut at = top.end;
    for k in 0..n {
        let Some(end) = end_of_line(text, at) else {
            return Err(Stop::Line(k + 3));
        };
        if !add_entry(&text[at..end], n as usize, size, &mut entries)? {
            return Err(Stop::Line(k + 3));
        }
        at = end + 1;
    }
    if at != text.len() {
        return Err(Stop::Line(n + 3));
    }
    Ok(Said {
        checked: top.checked,
        bound: top.bound,
        entries,
    })
}
