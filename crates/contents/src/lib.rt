// Contents: whether Back and Forward would work in a saved window, by the contents of its bytes alone, in either form.
//
// What bounds it: a turn for each frame, and at most 513, since each frame has a document and the one that comes to more than 512 ends it. No byte after the contents is read.
#![tactic(auto)]

ghost use Rattle.std.specs.Prelude.{◌≡◌, [], ◌+◌, ◌*◌, ◌≤◌, length};
ghost use Rattle.rules.specs.Saved.{number_at};
ghost use Rattle.rules.specs.Calls.{Call, outcome};
ghost use Rattle.laws.specs.Loading.{reading};
ghost use Rattle.contents.specs.Answers.{told_is};
ghost use Rattle.contents.specs.Sums.{Tallied};

use base::Refusal;

// The position of a saved window, and its steps; of several windows in one table, their sums.
#[derive(Clone, Copy)]
pub struct Told {
    pub position: usize,
    pub steps: usize,
}

// How many frames and documents the contents tell of, and the sum of their shown places.
#[derive(Clone, Copy)]
struct Sums {
    frames: usize,
    rows: usize,
    back: usize,
}

// The sums over the frames, as long as each shows one of its documents and there are at most 512 of these.
fn tally(bytes: &[u8], frames: usize) -> Option<Sums>
    requires { (frames ≡ number_at bytes.now 0) × (1 ≤ frames) × (12 + 16 * frames ≤ length bytes.now) }
    ensures { Tallied bytes.now result }
{
    let mut rows = 0;
    let mut back = 0;
    for j in 0..frames {
        let e = told::read_entry(bytes, j, rows);
        let shown = e.shown as usize;
        if e.docs <= shown {
            return None;
        }
        if 512 - rows < e.docs {
            return None;
        }
        rows += e.docs;
        back += shown;
    }
    Some(Sums { frames, rows, back })
}

// The sums of the contents, if there is a frame and the bytes hold them.
fn sum_up(bytes: &[u8]) -> Option<Sums>
    ensures { Tallied bytes.now result }
{
    let len = bytes.len();
    if len < 12 {
        return None;
    }
    let frames = told::number_at(bytes, 0) as usize;
    if frames == 0 {
        return None;
    }
    if len < 12 + 16 * frames {
        return None;
    }
    tally(bytes, frames)
}

// What the contents tell, if they are right and the bytes have the length of the form, in which an entry of the bodies has so many.
fn read(bytes: &[u8], width: usize) -> Result<Told, Refusal>
    requires { width ≤ 8 }
    ensures { reading width bytes.now ≡ record { answer = told_is result; lent = [] } }
{
    let s = sum_up(bytes).ok_or(Refusal::NotSaved)?;
    if bytes.len() != 12 + 16 * s.frames + width * s.rows {
        return Err(Refusal::NotSaved);
    }
    Ok(Told {
        position: s.back,
        steps: s.rows - s.frames,
    })
}

// The position and the steps of what the bytes of a saved window tell, by their contents.
pub fn contents(bytes: &[u8]) -> Result<Told, Refusal>
    ensures { outcome (Call.Contents bytes.now) ≡ record { answer = told_is result; lent = [] } }
{
    read(bytes, 8)
}

// The same of bytes of the old form.
pub fn contents_old(bytes: &[u8]) -> Result<Told, Refusal>
    ensures { outcome (Call.ContentsOld bytes.now) ≡ record { answer = told_is result; lent = [] } }
{
    read(bytes, 4)
}
