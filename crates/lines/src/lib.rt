// The bench program's lines: bytes taken apart into calls, answers printed, input split into lines. Nothing here reads or writes.
#![tactic(auto)]

ghost use Rattle.std.specs.Prelude.{◌≡◌, ◌==◌, [], ◌∷◌, ◌+◌, ◌-◌, ◌≤◌, ◌<◌, min, max, length, take, position};
ghost use Rattle.std.proofs.lemmas.List.Edits.{sets};
ghost use Rattle.terms.specs.Words.{pick};
ghost use Rattle.lines.specs.Text.{fields_of, digits_of};
ghost use Rattle.lines.specs.Calls.{plain, call_of, line_of};
ghost use Rattle.lines.specs.Answers.{named_text, ended, text_of, written_count, written};
ghost use Rattle.lines.specs.Input.{line_end, room_for, held_with, line_bytes, step_of, held_after, last_of};
ghost use Rattle.lines.specs.Steps.{pushed, pushed_all, number_of, gathered};

use arrayvec::ArrayVec;

// A longer line is not well formed.
const LONGEST: usize = 255;

// The slots of a board.
const SLOTS: usize = 16;

// An admission's: period, budget, eight holds. No call has more.
const MOST_NUMBERS: usize = 10;

// What a line asks for. A line that asks for nothing is a case too: `line_of` gives each line one of these.
#[derive(Clone, Copy)]
pub enum Call {
    Open(u64),
    Admit(u64, u64),
    Start,
    Arrive(u64),
    Done(u64),
    Lock(u64, u64),
    Unlock(u64),
    Run(u64),
    Malformed,
}

// A call with its holds, which are 0 but for an admission.
#[derive(Clone, Copy)]
pub struct Line {
    pub call: Call,
    pub holds: [u64; 8],
}

impl Line {
    const MALFORMED: Line = Line {
        call: Call::Malformed,
        holds: [0; 8],
    };

    fn plain(call: Call) -> Line
        ensures { result ≡ plain call }
    {
        Line {
            call,
            holds: [0; 8],
        }
    }
}

// A digit more.
#[tactic(auto, unfolding(crate::specs::Steps::pushed))]
fn push(n: u64, byte: u8) -> Option<u64>
    ensures { result ≡ pushed n byte }
{
    if !byte.is_ascii_digit() {
        return None;
    }
    n.checked_mul(10)?.checked_add(u64::from(byte - b'0'))
}

// A field read as a number.
#[tactic(auto, using(crate::proofs::Decimal::number_empty, crate::proofs::Decimal::number_led, crate::proofs::Decimal::number_plain))]
fn read(s: &[u8]) -> Option<u64>
    ensures { result ≡ number_of s.now }
{
    match s {
        [] | [b'0', _, ..] => None,
        _ => digits(s),
    }
}

// A field's digits, read one by one.
#[tactic(auto, using(crate::proofs::Decimal::pushed_all_some, crate::proofs::Decimal::pushed_all_none, crate::proofs::Decimal::pushed_all_end))]
fn digits(s: &[u8]) -> Option<u64>
    ensures { result ≡ pushed_all 0 s.now }
{
    let mut n = 0;
    for byte in s {
        n = push(n, *byte)?;
    }
    Some(n)
}

// The fields, each a number.
fn gather(fields: &[u8]) -> Option<ArrayVec<u64, MOST_NUMBERS>>
    ensures { result ≡ gathered (fields_of fields.now) }
{
    let mut numbers = ArrayVec::new();
    for field in fields.split(|byte| *byte == b' ') {
        numbers.try_push(read(field)?).ok()?;
    }
    Some(numbers)
}

// Period, budget, eight holds.
#[tactic(auto, using(crate::proofs::Gathering::admission_eight, crate::proofs::Gathering::admission_other))]
fn admission(period: u64, budget: u64, holds: &[u64]) -> Line
    ensures { result ≡ call_of 65 (period ∷ budget ∷ holds.now) }
{
    match holds.try_into() {
        Ok(holds) => Line {
            call: Call::Admit(period, budget),
            holds,
        },
        Err(_) => Line::MALFORMED,
    }
}

// The call that a letter and numbers ask for.
#[tactic(auto, unfolding(crate::specs::Calls::call_of, crate::specs::Calls::call_by, crate::specs::Calls::asks))]
fn call_by(letter: u8, numbers: &[u64]) -> Line
    ensures { result ≡ call_of letter numbers.now }
{
    match (letter, numbers) {
        (b'F', [frame]) => Line::plain(Call::Open(*frame)),
        (b'A', [period, budget, holds @ ..]) => admission(*period, *budget, holds),
        (b'S', []) => Line::plain(Call::Start),
        (b'W', [slot]) => Line::plain(Call::Arrive(*slot)),
        (b'D', [slot]) => Line::plain(Call::Done(*slot)),
        (b'L', [slot, resource]) => Line::plain(Call::Lock(*slot, *resource)),
        (b'U', [slot]) => Line::plain(Call::Unlock(*slot)),
        (b'R', [ticks]) => Line::plain(Call::Run(*ticks)),
        _ => Line::MALFORMED,
    }
}

// A line without its end, taken apart.
#[tactic(auto, using(crate::proofs::Whole::line_long, crate::proofs::Whole::line_wordy))]
pub fn take_apart(line: &[u8]) -> Line
    ensures { result ≡ line_of line.now }
{
    if LONGEST < line.len() {
        return Line::MALFORMED;
    }
    match line {
        [letter] => call_by(*letter, &[]),
        [letter, b' ', fields @ ..] => match gather(fields) {
            Some(numbers) => call_by(*letter, &numbers),
            None => Line::MALFORMED,
        },
        _ => Line::MALFORMED,
    }
}

// How many digits a number has.
#[tactic(auto, using(crate::proofs::Spelling::width_is))]
fn width(n: u64) -> usize
    ensures is { result ≡ length (digits_of n) }
    ensures small { (1 ≤ result) × (result ≤ 20) }
{
    // From does not lead from u32 to usize.
    n.max(1).ilog10() as usize + 1
}

// Not by `write!`, as `print` says; that it fits is asked of its own place.
// A number's digits from a place on, and a byte behind them; the place behind that. The last digit comes first.
fn put(buffer: &mut [u8], at: usize, n: u64, then: u8) -> usize
    requires { at + length (digits_of n) < length buffer.old }
    ensures next { result ≡ at + length (ended (digits_of n) then) }
    ensures bytes { buffer.new ≡ sets buffer.old at (ended (digits_of n) then) }
{
    let end = at + width(n);
    let mut m = n;
    for place in (at..end).rev() {
        // A digit fits: no From from u64 to u8.
        buffer[place] = b'0' + (m % 10) as u8;
        m /= 10;
    }
    buffer[end] = then;
    end + 1
}

#[tactic(auto, unfolding(crate::specs::Answers::named_text))]
fn named_width(named: Option<usize>) -> usize
    ensures is { result ≡ length (named_text named) }
    ensures small { (1 ≤ result) × (result ≤ 20) }
{
    match named {
        // No From from usize to u64, here and below.
        Some(slot) if slot < SLOTS => width(slot as u64),
        _ => 1,
    }
}

#[tactic(auto, using(crate::proofs::Bytes::named_slot))]
fn put_named(buffer: &mut [u8], at: usize, named: Option<usize>, then: u8) -> usize
    requires { at + length (named_text named) < length buffer.old }
    ensures next { result ≡ at + length (ended (named_text named) then) }
    ensures bytes { buffer.new ≡ sets buffer.old at (ended (named_text named) then) }
{
    match named {
        Some(slot) if slot < SLOTS => put(buffer, at, slot as u64, then),
        _ => {
            buffer[at] = b'-';
            buffer[at + 1] = then;
            at + 2
        }
    }
}

// Not by `write!`: of a buffer that is too short nothing may change, so the length has to be known first.
// An answer's line, its number as document 01 has it: the clock, the named slot, 0 to 15, or "-", the answer's number and its value. The bytes written; 0 if the buffer is too short.
#[tactic(auto, using(crate::proofs::Bytes::ended_length, crate::proofs::Bytes::text_length, crate::proofs::Bytes::text_sets), unfolding(crate::specs::Answers::written_count, crate::specs::Answers::written))]
pub fn print(clock: u64, named: Option<usize>, number: u8, value: u64, buffer: &mut [u8]) -> usize
    ensures count { result ≡ written_count buffer.old (text_of clock named number value) }
    ensures bytes { buffer.new ≡ written buffer.old (text_of clock named number value) }
    ensures within { result ≤ length buffer.old }
{
    let number = u64::from(number);
    let size = width(clock) + named_width(named) + width(number) + width(value) + 4;
    if buffer.len() < size {
        return 0;
    }
    let i = put(buffer, 0, clock, b' ');
    let j = put_named(buffer, i, named, b' ');
    let k = put(buffer, j, number, b' ');
    put(buffer, k, value, b'\n')
}

// What a step through a block finds: a line, if one ended there; the place to go on from, and how many bytes are held now.
#[derive(Clone, Copy)]
pub struct Step {
    pub line: Option<Line>,
    pub next: usize,
    pub count: usize,
}

// The place of the first line end, if there is one.
fn line_end(s: &[u8]) -> Option<usize>
    ensures { result ≡ position (λ byte. byte == line_end) s.now }
{
    s.iter().position(|byte| *byte == b'\n')
}

// As many bytes of a stretch as find room, behind the first `count`; how many are held then.
#[tactic(auto, unfolding(crate::specs::Input::held_with))]
fn hold(held: &mut [u8], count: usize, part: &[u8]) -> usize
    ensures count { result ≡ count + room_for held.old count part.now }
    ensures bytes { held.new ≡ held_with held.old count part.now }
{
    let n = part.len().min(held.len().saturating_sub(count));
    if n == 0 {
        return count;
    }
    held[count..count + n].copy_from_slice(&part[..n]);
    count + n
}

// What is held, taken apart as a line.
fn line_held(held: &[u8], count: usize) -> Line
    ensures { result ≡ line_of (take count held.now) }
{
    take_apart(&held[..count.min(held.len())])
}

// A line that ends in a block, behind what is held of it.
#[tactic(auto, unfolding(crate::specs::Input::line_bytes))]
fn line_ended(held: &mut [u8], count: usize, part: &[u8]) -> Line
    ensures line { result ≡ line_of (line_bytes held.old count part.now) }
    ensures bytes { held.new ≡ pick (count == 0) held.old (held_with held.old count part.now) }
{
    if count == 0 {
        return take_apart(part);
    }
    let count = hold(held, count, part);
    line_held(held, count)
}

// One step through a block: `held` and `count` are lent apart, as `held_after` and `step_of` say them. Of a line that crosses the block's end as much is held as the buffer takes: with 256 bytes, enough to tell that it is too long.
#[tactic(auto, using(crate::proofs::Blocks::step_outside, crate::proofs::Blocks::step_rest, crate::proofs::Blocks::step_ended))]
pub fn next(block: &[u8], from: usize, held: &mut [u8], count: usize) -> Step
    ensures step { result ≡ step_of block.now from held.old count }
    ensures bytes { held.new ≡ held_after block.now from held.old count }
    ensures onward { (min (from + 1) (length block.now) ≤ result.next) × (result.next ≤ max from (length block.now)) }
{
    let Some(rest) = block.get(from..) else {
        return Step {
            line: None,
            next: from,
            count,
        };
    };
    let Some(size) = line_end(rest) else {
        return Step {
            line: None,
            next: block.len(),
            count: hold(held, count, rest),
        };
    };
    let line = line_ended(held, count, &rest[..size]);
    Step {
        line: Some(line),
        next: from + size + 1,
        count: 0,
    }
}

// At the input's end: what is held is a line of its own.
#[tactic(auto, unfolding(crate::specs::Input::last_of))]
pub fn last(held: &[u8], count: usize) -> Step
    ensures { result ≡ last_of held.now count }
{
    Step {
        line: (0 < count).then(|| line_held(held, count)),
        next: 0,
        count: 0,
    }
}
