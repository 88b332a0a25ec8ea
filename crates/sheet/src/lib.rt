// The sheet: a board's frame and table as tagged fields.
#![tactic(auto)]

ghost use Rattle.std.specs.Prelude.{◌≡◌, ◌+◌, ◌*◌, ◌≤◌, length};
ghost use Rattle.terms.specs.Words.{list};
ghost use Rattle.refusals.specs.declared.Refusal.TheVariants.{NotWellFormed};
ghost use Rattle.fields.specs.Numbers.{bytes_of, placed};
ghost use Rattle.fields.specs.Form.{servers_of};
ghost use Rattle.sheet.specs.Sheet.{holds_of, body_of, bodies_of, encode, written, filled};
ghost use Rattle.sheet.specs.Sheet.{number_at, entered, accepted, why_not, answered, onward, read_first, read_of};
ghost use Rattle.sheet.specs.Steps.{slot_bytes};

use board::{Answer, Board, Outcome};
use fields::{
    BadField, CLOSING_TAG, FRAME_FIELD, FRAME_SIZE, FRAME_TAG, HEAD_SIZE, SERVER_FIELD,
    SERVER_SIZE, SERVER_TAG,
};
use quantity::Length;
use refusals::Refusal;
use std::array;
use timing::Figures;

// The bytes of a number in a body.
const WORD: usize = 4;

// Why a sheet yields no board: the refusal, and the offset of the first bad field or of the refused one's tag.
#[derive(Clone, Copy)]
pub struct BadSheet {
    pub refusal: Refusal,
    pub offset: usize,
}

// A sheet that is not in form.
impl From<BadField> for BadSheet {
    ghost from_gives = { λ bad e. e ≡ record { refusal = NotWellFormed; offset = bad.offset } };

    fn from(bad: BadField) -> BadSheet {
        BadSheet {
            refusal: Refusal::NotWellFormed,
            offset: bad.offset,
        }
    }
}

// A length's four bytes from an offset on; nothing moves where they do not fit.
#[tactic(auto, using(fields::proofs::Placing::word_bytes))]
fn put_length(buffer: &mut [u8], at: usize, length: Length)
    ensures { buffer.new ≡ placed buffer.old at (bytes_of 4 length.0) }
{
    fields::put(buffer, at, &length.0.to_be_bytes());
}

// Each part asks that it fits from its own place on, here and below: a type for that would serve one function alone.
// The eight holds from an offset on.
#[tactic(auto, using(crate::proofs::Laws::placed_nothing, crate::proofs::Laws::holds_on), unfolding(crate::specs::Sheet::holds_of))]
fn put_holds(buffer: &mut [u8], at: usize, f: Figures)
    requires { at + 32 ≤ length buffer.old }
    ensures { buffer.new ≡ placed buffer.old at (holds_of f 8) }
{
    for r in 0..8 {
        put_length(buffer, at + WORD * usize::from(r), f.hold(r));
    }
}

// A server's body from an offset on.
#[tactic(auto, using(crate::proofs::Laws::body_on))]
fn put_body(buffer: &mut [u8], at: usize, f: Figures)
    requires { at + 40 ≤ length buffer.old }
    ensures { buffer.new ≡ placed buffer.old at (body_of f) }
{
    put_length(buffer, at, f.period);
    put_length(buffer, at + WORD, f.budget);
    put_holds(buffer, at + 2 * WORD, f);
}

// A slot's field from an offset on, if it is in the table; the answer is where the next one begins.
#[tactic(auto, using(crate::proofs::Laws::placed_nothing, crate::proofs::Laws::slot_length, crate::proofs::Laws::slot_out, crate::proofs::Laws::slot_on))]
fn put_slot(buffer: &mut [u8], at: usize, f: Figures) -> usize
    requires { at + length (slot_bytes f) ≤ length buffer.old }
    ensures { (result ≡ at + length (slot_bytes f)) × (buffer.new ≡ placed buffer.old at (slot_bytes f)) }
{
    if !f.is_present() {
        return at;
    }
    // A constant that fits: no From from usize to u16, here and for the frame.
    fields::put_head(buffer, at, SERVER_TAG, SERVER_SIZE as u16);
    put_body(buffer, at + HEAD_SIZE, f);
    at + SERVER_FIELD
}

// The servers' fields behind the frame's; the answer is where the closing field begins.
#[tactic(auto, using(crate::proofs::Laws::placed_nothing, crate::proofs::Laws::servers_none, crate::proofs::Laws::servers_longer, crate::proofs::Laws::servers_room, crate::proofs::Laws::servers_on))]
fn put_servers(buffer: &mut [u8], table: [Figures; 16]) -> usize
    requires { 7 + length (servers_of 2 (bodies_of table 16)) ≤ length buffer.old }
    ensures { (result ≡ 7 + length (servers_of 2 (bodies_of table 16))) × (buffer.new ≡ placed buffer.old 7 (servers_of 2 (bodies_of table 16))) }
{
    let mut at = FRAME_FIELD;
    for f in &table {
        at = put_slot(buffer, at, *f);
    }
    at
}

// A whole sheet into a buffer that has room for it.
#[tactic(auto, using(crate::proofs::Laws::encode_length, crate::proofs::Laws::servers_width, crate::proofs::Laws::sheet_on))]
fn put_sheet(buffer: &mut [u8], frame: Length, table: [Figures; 16])
    requires { length (encode frame.0 table) ≤ length buffer.old }
    ensures { buffer.new ≡ placed buffer.old 0 (encode frame.0 table) }
{
    fields::put_head(buffer, 0, FRAME_TAG, FRAME_SIZE as u16);
    put_length(buffer, HEAD_SIZE, frame);
    let end = put_servers(buffer, table);
    fields::put_head(buffer, end, CLOSING_TAG, 0);
}

// The servers in the table.
#[tactic(auto, using(crate::proofs::Laws::servers_counted))]
fn servers(table: [Figures; 16]) -> usize
    ensures { (result ≡ length (bodies_of table 16)) × (result ≤ 16) }
{
    table.iter().filter(|f| f.is_present()).count()
}

// Writing is allowed in either phase once a frame is set; the answer is the number of bytes written.
#[tactic(auto, using(fields::proofs::Placing::placed_out, crate::proofs::Laws::encode_length), unfolding(crate::specs::Sheet::written, crate::specs::Sheet::filled))]
pub fn write(board: Board, buffer: &mut [u8]) -> Result<usize, Refusal>
    ensures { (result ≡ written board (length buffer.old)) × (buffer.new ≡ filled board buffer.old) }
{
    if board.frame == Length::NONE {
        return Err(Refusal::WrongPhase);
    }
    let size = FRAME_FIELD + SERVER_FIELD * servers(board.table) + HEAD_SIZE;
    if buffer.len() < size {
        return Err(Refusal::BufferTooShort);
    }
    put_sheet(buffer, board.frame, board.table);
    Ok(size)
}

// The k-th number of a body.
#[tactic(auto, unfolding(crate::specs::Sheet::number_at))]
fn number_at(body: &[u8], k: usize) -> u64
    requires { 4 * k + 4 ≤ length body.now }
    ensures { result ≡ number_at body.now k }
{
    let start = WORD * k;
    let end = start + WORD;
    u64::from(fields::read4(&body[start..end]))
}

// The eight holds of a body.
#[tactic(auto, unfolding(terms::specs::Words::list))]
fn holds_in(body: &[u8]) -> [u64; 8]
    requires { 40 ≤ length body.now }
    ensures { result ≡ list (λ i. number_at body.now (i + 2)) 8 }
{
    array::from_fn(|r| number_at(body, r + 2))
}

// A server's body handed to admission.
#[tactic(auto, unfolding(crate::specs::Sheet::entered))]
fn enter(board: Board, body: &[u8]) -> Outcome
    requires { 40 ≤ length body.now }
    ensures { result ≡ entered board body.now }
{
    board.admit(number_at(body, 0), number_at(body, 1), holds_in(body))
}

// Why a call with another number than 0 yields no board. Opening and admitting give only refusals (`Plain`).
#[tactic(auto, unfolding(crate::specs::Sheet::why_not))]
fn why_not(answer: Answer) -> Refusal
    ensures { result ≡ why_not answer }
{
    match answer {
        Answer::Refused(why) => why,
        _ => Refusal::Other(answer.number()),
    }
}

// A call with a field: its board, or why the field at a tag is refused.
#[tactic(auto, using(crate::proofs::Answers::answered_refused, crate::proofs::Answers::answered_done))]
fn answered(o: Outcome, tag: usize) -> Result<Board, BadSheet>
    ensures { result ≡ answered o tag }
{
    if o.answer.number() != 0 {
        return Err(BadSheet {
            refusal: why_not(o.answer),
            offset: tag,
        });
    }
    Ok(o.board)
}

// Each step asks that the sheet has its own field, here and below: a type for that would serve one function alone.
// The frame.
#[tactic(auto, unfolding(crate::specs::Sheet::read_first))]
fn begin(sheet: &[u8]) -> Result<Board, BadSheet>
    requires { 7 ≤ length sheet.now }
    ensures { result ≡ read_first sheet.now 0 }
{
    let frame = fields::read4(&sheet[HEAD_SIZE..FRAME_FIELD]);
    answered(Board::blank().open(u64::from(frame)), 0)
}

// The i-th server: its body is the stretch of the sheet behind its head.
#[tactic(auto, unfolding(crate::specs::Sheet::onward))]
fn onward(board: Board, sheet: &[u8], i: usize) -> Result<Board, BadSheet>
    requires { 50 + 43 * i ≤ length sheet.now }
    ensures { result ≡ onward (accepted board) sheet.now i }
{
    let tag = FRAME_FIELD + SERVER_FIELD * i;
    let start = tag + HEAD_SIZE;
    let end = start + SERVER_SIZE;
    let o = enter(board, &sheet[start..end]);
    answered(o, tag)
}

// The frame and the first n servers.
#[tactic(auto, using(crate::proofs::Answers::first_next, crate::proofs::Answers::first_refused))]
fn read_first(sheet: &[u8], n: usize) -> Result<Board, BadSheet>
    requires { 7 + 43 * n ≤ length sheet.now }
    ensures { result ≡ read_first sheet.now n }
{
    let mut board = begin(sheet)?;
    for i in 0..n {
        board = onward(board, sheet, i)?;
    }
    Ok(board)
}

// Reading takes no earlier board and is allowed at any time.
#[tactic(auto, unfolding(crate::specs::Sheet::read_of, crate::specs::Sheet::read_as))]
pub fn read(sheet: &[u8]) -> Result<Board, BadSheet>
    ensures { result ≡ read_of sheet.now }
{
    read_first(sheet, fields::form_of(sheet)?)
}
