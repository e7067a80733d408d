// Fresh, Open, and a further window.
#![tactic(auto)]

ghost use Rattle.std.specs.Prelude.{◌≡◌, [], ◌∷◌, Ok};
ghost use Rattle.rules.specs.Calls.{Call, outcome};
ghost use Rattle.sound.specs.Check.{Settles, Judged};
ghost use Rattle.moves.specs.Answers.{fresh_is, opened_is, room_rungs, Appended};

use base::{DocNo, FrameNo, Refusal, Row, RowPlace};

// Writes the record of a new window: one document in the root frame.
pub fn fresh(words: &mut [u32]) -> Result<(), Refusal>
    ensures { outcome (Call.Fresh words.old) ≡ record { answer = fresh_is result; lent = words.new ∷ [] } }
{
    if words.len() < 7 {
        return Err(Refusal::ShortRecord);
    }
    let c = rows::capacity(words);
    let row = Row {
        document: DocNo(0),
        frame: FrameNo(0),
        parent: DocNo::NONE,
        shown: 1,
    };
    writes::put_head(words, 1, DocNo(1), FrameNo(1));
    writes::put_row(words, RowPlace(0), row);
    writes::clear(words, 7, 3 + 4 * c);
    Ok(())
}

// What Open and Tab answer: the numbers of the new document and its frame.
#[derive(Clone, Copy, Debug, PartialEq, Eq)]
pub struct Opened {
    pub document: DocNo,
    pub frame: FrameNo,
}

// Refusals 7 and 8.
fn judge_room(words: &[u32]) -> Result<(), Refusal>
    ensures { Settles (room_rungs words.now) result }
{
    if rows::capacity(words) <= rows::row_count(words) {
        return Err(Refusal::Full);
    }
    if rows::next_document(words) == DocNo::NONE
        || rows::next_frame_number(words) == FrameNo::NONE
    {
        return Err(Refusal::UsedUp);
    }
    Ok(())
}

// Whether a frame may be opened under a document.
fn judge_open(words: &[u32], parent: DocNo) -> Result<(), Refusal>
    ensures { Judged (Call.Open words.now parent.0) result }
{
    sound::examine(words)?;
    asks::judge_sight(words, parent)?;
    judge_room(words)
}

// Whether a window may be opened.
fn judge_window(words: &[u32]) -> Result<(), Refusal>
    ensures { Judged (Call.Tab words.now) result }
{
    sound::examine(words)?;
    judge_room(words)
}

// Appends the first row of a new frame: under a document, or of a window.
fn append_frame(words: &mut [u32], parent: DocNo) -> Opened
    requires { Judged (Call.Tab words.old) (Ok tt) }
    ensures { Appended words.old parent.0 result words.new }
{
    let n = rows::row_count(words);
    let document = rows::next_document(words);
    let frame = rows::next_frame_number(words);
    let row = Row {
        document,
        frame,
        parent,
        shown: 1,
    };
    writes::put_row(words, RowPlace(n), row);
    writes::put_head(words, n + 1, DocNo(document.0 + 1), FrameNo(frame.0 + 1));
    Opened { document, frame }
}

// Opens a frame under a visible document.
pub fn open_frame(words: &mut [u32], parent: DocNo) -> Result<Opened, Refusal>
    ensures { outcome (Call.Open words.old parent.0) ≡ record { answer = opened_is result; lent = words.new ∷ [] } }
{
    judge_open(words, parent)?;
    Ok(append_frame(words, parent))
}

// Opens a window: a root frame with one document.
pub fn open_window(words: &mut [u32]) -> Result<Opened, Refusal>
    ensures { outcome (Call.Tab words.old) ≡ record { answer = opened_is result; lent = words.new ∷ [] } }
{
    judge_window(words)?;
    Ok(append_frame(words, DocNo::NONE))
}
