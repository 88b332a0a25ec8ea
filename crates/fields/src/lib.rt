// The sheet's tagged fields over slices of bytes: numbers, heads, the walk over the fields, and their writing.
#![tactic(auto)]

ghost use Rattle.std.specs.Prelude.{◌≡◌, ◌≤◌, length};
ghost use Rattle.fields.specs.Numbers.{number_in, placed};
ghost use Rattle.fields.specs.Fields.{head_at, head_of};
ghost use Rattle.fields.specs.Form.{place_at, form_from, form_with};
ghost use Rattle.fields.specs.Bodies.{body_fits};
ghost use Rattle.fields.specs.Old.{old_body, form_of};

// The tags of the frame's field, of a server's and of the closing one.
pub const FRAME_TAG: u8 = 1;

pub const SERVER_TAG: u8 = 2;

pub const CLOSING_TAG: u8 = 255;

// The bytes of a head, of the frame's body and of a server's, and of both with their heads.
pub const HEAD_SIZE: usize = 3;

pub const FRAME_SIZE: usize = 4;

pub const SERVER_SIZE: usize = 40;

pub const FRAME_FIELD: usize = HEAD_SIZE + FRAME_SIZE;

pub const SERVER_FIELD: usize = HEAD_SIZE + SERVER_SIZE;

// What stands at an offset: nothing, a field that is cut off, or a field's tag, its body's start and its body's length.
// No Option: the definition `head_at` tells nothing from a field that is cut off, which lie at different offsets.
#[derive(Clone, Copy)]
pub enum Head {
    Missing,
    Cut,
    Field { tag: u8, start: usize, size: usize },
}

// Why a sheet is not in form: the offset of its first bad field.
#[derive(Clone, Copy)]
pub struct BadField {
    pub offset: usize,
}

// The number that a part of four bytes is; a part of another width is 0, as `number_in` has it.
#[tactic(auto, using(crate::proofs::Numbers::number_four), unfolding(crate::specs::Numbers::number_in))]
pub fn read4(part: &[u8]) -> u32
    ensures { result ≡ number_in 4 part.now }
{
    match part.as_array() {
        Some(bytes) => u32::from_be_bytes(*bytes),
        None => 0,
    }
}

// The number that a part of two bytes is; a part of another width is 0 here too.
#[tactic(auto, using(crate::proofs::Numbers::number_two), unfolding(crate::specs::Numbers::number_in))]
pub fn read2(part: &[u8]) -> u16
    ensures { result ≡ number_in 2 part.now }
{
    match part.as_array() {
        Some(bytes) => u16::from_be_bytes(*bytes),
        None => 0,
    }
}

// Bytes from an offset on; nothing moves where they do not fit.
#[tactic(auto, using(crate::proofs::Placing::placed_part, crate::proofs::Placing::placed_out))]
pub fn put(buffer: &mut [u8], at: usize, bytes: &[u8])
    ensures { buffer.new ≡ placed buffer.old at bytes.now }
{
    if bytes.len() <= buffer.len() && at <= buffer.len() - bytes.len() {
        let end = at + bytes.len();
        buffer[at..end].copy_from_slice(bytes);
    }
}

// A field's head from an offset on; nothing moves where it does not fit.
#[tactic(auto, using(crate::proofs::Placing::placed_head))]
pub fn put_head(buffer: &mut [u8], at: usize, tag: u8, size: u16)
    ensures { buffer.new ≡ placed buffer.old at (head_of tag size) }
{
    let [high, low] = size.to_be_bytes();
    put(buffer, at, &[tag, high, low]);
}

// The field at an offset of the sheet.
#[tactic(auto, using(crate::proofs::Heads::head_missing, crate::proofs::Heads::head_cut, crate::proofs::Heads::head_whole, crate::proofs::Heads::length_read))]
pub fn head_at(sheet: &[u8], at: usize) -> Head
    ensures { result ≡ head_at sheet.now at }
{
    if sheet.len() <= at {
        return Head::Missing;
    }
    if sheet.len() - at < HEAD_SIZE {
        return Head::Cut;
    }
    let start = at + HEAD_SIZE;
    let size = usize::from(read2(&sheet[at + 1..start]));
    if sheet.len() - start < size {
        return Head::Cut;
    }
    Head::Field {
        tag: sheet[at],
        start,
        size,
    }
}

// Whether a body fits a server's field of the old form.
#[tactic(auto, unfolding(crate::specs::Old::old_body))]
fn old_body(body: &[u8]) -> bool
    ensures { result ≡ old_body body.now }
{
    body.len() == SERVER_SIZE
}

// Whether a body fits a server's field of a tag: the one test that is a form's own.
#[tactic(auto, unfolding(crate::specs::Bodies::body_fits))]
fn fits(tag: u8, body: &[u8]) -> bool
    ensures { result ≡ body_fits tag body.now }
{
    tag == SERVER_TAG && old_body(body)
}

// The sheet and the tag go from walk to step as in the definitions `form_from`, `place_at`.
// Where a server's field or the closing one is expected: the end of a server's, nothing at the closing one, or a bad field.
#[tactic(auto, using(crate::proofs::Heads::head_within), unfolding(crate::specs::Form::place_at, crate::specs::Form::place_of))]
fn place_at(sheet: &[u8], at: usize, tag: u8) -> Result<Option<usize>, BadField>
    ensures { result ≡ place_at tag (body_fits tag) sheet.now at }
{
    match head_at(sheet, at) {
        Head::Missing => Err(BadField {
            offset: sheet.len(),
        }),
        Head::Field {
            tag: found,
            start,
            size,
        } if found == tag => {
            let end = start + size;
            if !fits(tag, &sheet[start..end]) {
                return Err(BadField { offset: at });
            }
            Ok(Some(end))
        }
        Head::Field {
            tag: CLOSING_TAG,
            start,
            size: 0,
        } => {
            if start < sheet.len() {
                return Err(BadField { offset: start });
            }
            Ok(None)
        }
        _ => Err(BadField { offset: at }),
    }
}

// The servers' fields behind the frame's, counted as far as the closing one.
#[tactic(auto, using(crate::proofs::Places::server_end))]
fn form_from(sheet: &[u8], tag: u8) -> Result<usize, BadField>
    requires { 7 ≤ length sheet.now }
    ensures { result ≡ form_from tag (body_fits tag) sheet.now (length sheet.now) 7 0 }
{
    let mut at = FRAME_FIELD;
    let mut servers = 0;
    // The count is the answer.
    while let Some(end) = place_at(sheet, at, tag)? {
        at = end;
        servers += 1;
    }
    Ok(servers)
}

// The form of a whole sheet whose servers' fields have a tag.
#[tactic(auto, using(crate::proofs::Heads::head_within, crate::proofs::Heads::missing_end), unfolding(crate::specs::Form::form_with, crate::specs::Form::frame_then))]
fn form_with(sheet: &[u8], tag: u8) -> Result<usize, BadField>
    ensures { result ≡ form_with tag (body_fits tag) sheet.now }
{
    match head_at(sheet, 0) {
        Head::Field {
            tag: FRAME_TAG,
            size: FRAME_SIZE,
            ..
        } => form_from(sheet, tag),
        _ => Err(BadField { offset: 0 }),
    }
}

// A whole sheet of the old form: the number of its servers, or its first bad field.
#[tactic(auto, unfolding(crate::specs::Old::form_of, crate::specs::Bodies::body_fits))]
pub fn form_of(sheet: &[u8]) -> Result<usize, BadField>
    ensures { result ≡ form_of sheet.now }
{
    form_with(sheet, SERVER_TAG)
}
