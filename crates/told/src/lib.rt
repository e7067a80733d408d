// What saved bytes tell, in either form: the numbers in them, how many frames and entries, a frame's line in the contents; and filling a record that is loaded.
#![tactic(auto)]

ghost use Rattle.std.specs.Prelude.{◌≡◌, [], ◌∷◌, ◌+◌, ◌*◌, ◌<◌, ◌≤◌, eqb, length};
ghost use Rattle.rules.specs.Below.{sum};
ghost use Rattle.rules.specs.Rows.{flag};
ghost use Rattle.rules.specs.Words.{table_of};
ghost use Rattle.rules.specs.Sound.{Sound};
ghost use Rattle.rules.specs.Saved.{number_at, documents_in, document_at};
ghost use Rattle.told.specs.Answers.{loading_is};
ghost use Rattle.told.specs.Shapes.{Totals, Measured, Shaped, Sized, TellsOf, higher?, filled};

use base::{DocNo, FrameNo, Refusal};

// How many frames and entries bytes tell of.
#[derive(Clone, Copy)]
pub struct Shape {
    pub frames: usize,
    pub rows: usize,
}

// A frame that bytes tell of: how many entries come before its own, how many it has, its number, its parent, and which entry is shown.
#[derive(Clone, Copy)]
pub struct Entry {
    pub start: usize,
    pub docs: usize,
    pub frame: FrameNo,
    pub parent: DocNo,
    pub shown: u32,
}

// The number that four bytes spell.
pub fn number_at(bytes: &[u8], at: usize) -> u32
    requires { at + 4 ≤ length bytes.now }
    ensures { result ≡ number_at bytes.now at }
{
    u32::from_be_bytes([bytes[at], bytes[at + 1], bytes[at + 2], bytes[at + 3]])
}

// How many entries frame j has.
fn documents(bytes: &[u8], j: usize) -> usize
    requires { 28 + 16 * j ≤ length bytes.now }
    ensures { (result ≡ documents_in bytes.now j) × (result ≤ 4294967295) }
{
    number_at(bytes, 20 + 16 * j) as usize
}

// How many entries all frames have, if they are at most 512.
fn total(bytes: &[u8], frames: usize) -> Option<usize>
    requires { (frames ≤ 512) × (12 + 16 * frames ≤ length bytes.now) }
    ensures { Totals bytes.now frames result }
{
    let mut t = 0;
    for j in 0..frames {
        t += documents(bytes, j);
        if 512 < t {
            return None;
        }
    }
    Some(t)
}

// The shape of bytes, by their numbers of frames and entries, if the contents fit.
pub fn measure(bytes: &[u8]) -> Option<Shape>
    ensures { Measured bytes.now result }
{
    let len = bytes.len();
    if len < 12 {
        return None;
    }
    let frames = number_at(bytes, 0) as usize;
    if 512 < frames {
        return None;
    }
    if len < 12 + 16 * frames {
        return None;
    }
    let rows = total(bytes, frames)?;
    Some(Shape { frames, rows })
}

// Whether the length of bytes is that of their shape, where an entry of the bodies has so many bytes.
pub fn is_sized(bytes: &[u8], s: Shape, width: usize) -> bool
    requires { Shaped bytes.now s × (width ≤ 8) }
    ensures { result ≡ eqb (length bytes.now) (12 + 16 * s.frames + width * s.rows) }
{
    bytes.len() == 12 + 16 * s.frames + width * s.rows
}

// The document of entry i of those that the bytes tell, frame after frame.
pub fn document_at(bytes: &[u8], s: Shape, i: usize, width: usize) -> DocNo
    requires { Sized width bytes.now s × (4 ≤ width) × (width ≤ 8) × (i < s.rows) }
    ensures { result.0 ≡ document_at width bytes.now i }
{
    DocNo(number_at(bytes, 12 + 16 * s.frames + width * i))
}

// Whether entry k of a frame is the shown one, as 1 or 0.
pub fn shown_flag(k: usize, place: u32) -> u32
    ensures { result ≡ flag (eqb k place) }
{
    u32::from(k == place as usize)
}

// Reads what the bytes tell of frame j, which has `start` entries before it.
pub fn read_entry(bytes: &[u8], j: usize, start: usize) -> Entry
    requires { (j < number_at bytes.now 0) × (28 + 16 * j ≤ length bytes.now) × (start ≡ sum (documents_in bytes.now) j) }
    ensures { (result.start ≡ start) × TellsOf bytes.now j result }
{
    Entry {
        start,
        docs: documents(bytes, j),
        frame: FrameNo(number_at(bytes, 12 + 16 * j)),
        parent: DocNo(number_at(bytes, 16 + 16 * j)),
        shown: number_at(bytes, 24 + 16 * j),
    }
}

// Whether frame j has a higher number than the one before it.
pub fn is_higher(bytes: &[u8], j: usize, f: FrameNo) -> bool
    requires { 28 + 16 * j ≤ length bytes.now }
    ensures { result ≡ higher? bytes.now j f.0 }
{
    j == 0 || FrameNo(number_at(bytes, 16 * j - 4)) < f
}

// Fills words from a sound record with room for 512 rows, if they have room for its rows.
pub fn fill(words: &mut [u32], from: &[u32]) -> Result<usize, Refusal>
    requires { (7 ≤ length words.old) × (length from.now ≡ 2051) × Sound from.now }
    ensures { filled words.old (table_of from.now) ≡ record { answer = loading_is result; lent = words.new ∷ [] } }
{
    let n = rows::row_count(from);
    let c = rows::capacity(words);
    if c < n {
        return Err(Refusal::Full);
    }
    writes::copy(words, from, 3 + 4 * c);
    Ok(n)
}
