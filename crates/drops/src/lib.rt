// Drop: a frame is taken out by its number, with all beneath it.
//
// What bounds it, for n rows: one pass over them, up to the frame's first row in search of it and from there on closing the gaps. On the way a row looks back for its parent
// among the rows kept so far, and not at all where that is the parent found last or the one missed last.
#![tactic(auto)]

ghost use Rattle.std.specs.Prelude.{◌≡◌, [], ◌∷◌, ◌-◌, length, Some};
ghost use Rattle.rules.specs.Moves.{dropped};
ghost use Rattle.rules.specs.Words.{table_of, rows_of, written};
ghost use Rattle.rules.specs.Calls.{Call, refusals, NoneGiven, outcome};
ghost use Rattle.sound.specs.Check.{Examined, Judged};
ghost use Rattle.drops.specs.Answers.{dropped_is};
ghost use Rattle.drops.specs.Frames.{first_place};

use base::{DocNo, FrameNo, Refusal, RowPlace};
use packs::Keeping;

// The first row of a frame, if it has one.
fn first_of(words: &[u32], frame: FrameNo) -> Option<RowPlace>
    requires { Examined words.now }
    ensures { result ≡ first_place (rows_of words.now) frame.0 }
{
    for i in 0..rows::row_count(words) {
        if reads::frame(words, RowPlace(i)) == frame {
            return Some(RowPlace(i));
        }
    }
    None
}

// Refusals 10 and 5, of a sound record in which the frame begins there.
fn judge(words: &[u32], frame: FrameNo, first: RowPlace) -> Result<(), Refusal>
    requires { Examined words.now × (first_place (rows_of words.now) frame.0 ≡ Some first) }
    ensures { Judged (Call.Drop words.now frame.0) result }
{
    let up = reads::parent(words, first);
    if up == DocNo::NONE {
        return Err(Refusal::RootFrame);
    }
    let above = packs::place_before(words, first.0, up);
    match asks::hiding(words, above) {
        Some(h) => Err(Refusal::Hidden(h)),
        None => Ok(()),
    }
}

// Takes the frame out where no refusal is given, of a sound record in which it begins there. How many rows went.
fn take_out(words: &mut [u32], first: RowPlace, frame: FrameNo) -> u32
    requires { Examined words.old × (first_place (rows_of words.old) frame.0 ≡ Some first) × NoneGiven (refusals (Call.Drop words.old frame.0)) }
    ensures { (result ≡ length (rows_of words.old) - length (dropped (table_of words.old) frame.0).rows) × (words.new ≡ written words.old (dropped (table_of words.old) frame.0)) }
{
    let n = rows::row_count(words);
    let next = rows::next_document(words);
    let top = rows::next_frame_number(words);
    let start = Keeping {
        rows: first.0,
        found: reads::parent(words, first),
        missed: reads::document(words, first),
    };
    let k = packs::close_gaps(words, frame, start);
    packs::end_rows(words, k, n, next, top);
    (n - k) as u32
}

// Drops a frame of a sound record. How many rows went.
fn drop_sound(words: &mut [u32], frame: FrameNo) -> Result<u32, Refusal>
    requires { Examined words.old }
    ensures { outcome (Call.Drop words.old frame.0) ≡ record { answer = dropped_is result; lent = words.new ∷ [] } }
{
    let Some(first) = first_of(words, frame) else {
        return Err(Refusal::Absent);
    };
    judge(words, frame, first)?;
    Ok(take_out(words, first, frame))
}

// Takes a frame out, with all beneath it. How many rows went.
pub fn drop_frame(words: &mut [u32], frame: FrameNo) -> Result<u32, Refusal>
    ensures { outcome (Call.Drop words.old frame.0) ≡ record { answer = dropped_is result; lent = words.new ∷ [] } }
{
    sound::examine(words)?;
    drop_sound(words, frame)
}
