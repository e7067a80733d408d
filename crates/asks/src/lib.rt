// The questions that name no window: visible, stretch; and what hides a document, for the calls that ask it.
#![tactic(auto)]

ghost use Rattle.std.specs.Prelude.{◌≡◌, [], ◌-◌, ◌/◌, ◌%◌, ◌<◌};
ghost use Rattle.rules.specs.Steps.{is_nobody, climb_at, hider_at, visible_at};
ghost use Rattle.rules.specs.Words.{rows_of};
ghost use Rattle.rules.specs.Asks.{own_list, stretched};
ghost use Rattle.rules.specs.Calls.{Call, outcome};
ghost use Rattle.reads.specs.Within.{Within};
ghost use Rattle.rows.specs.Readable.{readable_rows};
ghost use Rattle.asks.specs.Answers.{sight_is, sight_of, sight_rungs, hider_is, hider_by, Coded, stretch_is};
ghost use Rattle.sound.specs.Check.{Examined, Settles};

use base::{DocNo, Refusal, RowPlace};

// How a document is seen: who hides it, the nearest document, itself first and then upwards, that is not shown, or nobody; and how many parent links were followed to tell.
#[derive(Clone, Copy, Debug, PartialEq, Eq)]
pub struct Sight {
    pub hider: Option<DocNo>,
    pub links: u32,
}

// Nobody, as a number: the first that no document has.
const NOBODY: u64 = 4294967296;

// A parent link, as a number: beyond every document and nobody, so that a climb is one number, its links and who it ends with.
const LINK: u64 = 8589934592;

// The number of a document, in a wider type.
fn wide(d: DocNo) -> u64
    ensures { (result ≡ d.0) × (result < 4294967296) }
{
    d.0 as u64
}

// The climb from a row: it ends with the row itself, if that is not shown; once it is, the question goes to its parent, one link further.
fn ascend(words: &&[u32], at: RowPlace) -> u64
    requires { Within words.now.now at.0 }
    ensures { Coded (climb_at (rows_of words.now.now) at.0) result }
{
    // The words come behind a second reference, and the answer is one number: a header that is copied at each call, or an answer that is handed back
    // through memory, would keep the compiler from making a loop of it.
    let here = *words;
    if !reads::is_shown(here, at) {
        return wide(reads::document(here, at));
    }
    let up = reads::parent(here, at);
    if up == DocNo::NONE {
        return NOBODY;
    }
    match reads::find_below(here, at, up) {
        Some(above) => LINK + ascend(words, above),
        None => LINK + wide(DocNo::NONE),
    }
}

// The climb from any place: past the rows that the words hold it ends at once.
fn climbed(words: &[u32], at: RowPlace) -> u64
    ensures { Coded (climb_at (readable_rows words.now) at.0) result }
{
    if rows::readable_count(words) <= at.0 {
        return 0;
    }
    ascend(&words, at)
}

// Who a climb ends with: the document that hides, if one does.
fn told(code: u64) -> Option<DocNo>
    ensures { hider_is result ≡ hider_by (code % 8589934592) }
{
    let h = code % LINK;
    if h < NOBODY {
        return Some(DocNo(h as u32));
    }
    None
}

// Whether a climb ends with nobody.
fn is_nobody(code: u64) -> bool
    ensures { result ≡ is_nobody (hider_by (code % 8589934592)) }
{
    !(code % LINK < NOBODY)
}

// How many links a climb has followed.
fn links(code: u64) -> u32
    ensures { result ≡ code / 8589934592 }
{
    (code / LINK) as u32
}

// Who hides the document at any place, if somebody does.
pub fn hiding(words: &[u32], at: RowPlace) -> Option<DocNo>
    ensures { hider_is result ≡ hider_at (readable_rows words.now) at.0 }
{
    told(climbed(words, at))
}

// Whether the document at any place is visible.
pub fn climb(words: &[u32], at: RowPlace) -> bool
    ensures { result ≡ visible_at (readable_rows words.now) at.0 }
{
    is_nobody(climbed(words, at))
}

// How a document is seen, if it is there.
pub fn seen(words: &[u32], d: DocNo) -> Result<Sight, Refusal>
    ensures { result ≡ sight_of (readable_rows words.now) d.0 }
{
    let Some(at) = rows::find(words, d) else {
        return Err(Refusal::Absent);
    };
    let code = ascend(&words, at);
    Ok(Sight {
        hider: told(code),
        links: links(code),
    })
}

// How a document is seen.
pub fn visible(words: &[u32], d: DocNo) -> Result<Sight, Refusal>
    ensures { outcome (Call.Visible words.now d.0) ≡ record { answer = sight_is result; lent = [] } }
{
    sound::examine(words)?;
    seen(words, d)
}

// Refusals 4 and 5, of a sound record: the document is there, and visible.
pub fn judge_sight(words: &[u32], d: DocNo) -> Result<(), Refusal>
    ensures { Examined words.now → Settles (sight_rungs words.now d.0) result }
{
    match seen(words, d)?.hider {
        Some(h) => Err(Refusal::Hidden(h)),
        None => Ok(()),
    }
}

// The list that the sign picks.
fn own_list<'a>(taken: &'a [u32], upcoming: &'a [u32], delta: i32) -> &'a [u32]
    ensures { result.now ≡ own_list taken.now upcoming.now delta }
{
    if delta < 0 { taken } else { upcoming }
}

// The first entries of the caller's own list, as many as the magnitude of the amount; none where there are fewer.
pub fn stretch<'a>(taken: &'a [u32], upcoming: &'a [u32], delta: i32) -> &'a [u32]
    ensures { result.now ≡ stretched taken.now upcoming.now delta }
{
    let n = base::magnitude(delta);
    let list = own_list(taken, upcoming, delta);
    if n <= list.len() {
        &list[0..n]
    } else {
        &list[0..0]
    }
}

// How many entries the stretch by an amount has.
pub fn stretch_count<'a>(
    taken: &'a [u32],
    upcoming: &'a [u32],
    delta: i32,
) -> Result<usize, Refusal>
    ensures { outcome (Call.StretchCount taken.now upcoming.now delta) ≡ record { answer = stretch_is result; lent = [] } }
{
    let n = base::magnitude(delta);
    let list = own_list(taken, upcoming, delta);
    if list.len() < n {
        return Err(Refusal::Beyond);
    }
    Ok(n)
}
