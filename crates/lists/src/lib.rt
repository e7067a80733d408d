// Position and Lists: the questions that name a window by its root frame. In a record of several, Position counts the window's flags in one walk, and Lists first takes the
// window out into a record of its own.
#![tactic(auto)]

ghost use Rattle.std.specs.Prelude.{◌≡◌, [], ◌∷◌, length, ◌+◌, ◌-◌, ◌≤◌, ◌<◌};
ghost use Rattle.rules.specs.Words.{rows_of};
ghost use Rattle.rules.specs.Calls.{Call, outcome};
ghost use Rattle.reads.specs.Within.{Within};
ghost use Rattle.sound.specs.Check.{Examined};
ghost use Rattle.sound.specs.Survey.{Located};
ghost use Rattle.lists.specs.Answers.{standing_is, listed_is};
ghost use Rattle.lists.specs.Tallies.{Tallies};
ghost use Rattle.lists.specs.Listing.{taken_with, upcoming_with, Begun, TakensTo, TakensFrom, UpcomingsTo, UpcomingsFrom};

use base::{DocNo, FrameNo, Refusal, RowPlace};
use members::Known;
use sound::{Stand, Windows};

// Where the window stands: position, steps, and the length for scripts.
#[derive(Clone, Copy)]
pub struct Standing {
    pub position: usize,
    pub steps: usize,
    pub length: usize,
}

// Position, steps and length of a window in a sound record of one, which stands so.
fn position_alone(words: &[u32], s: Stand, root: FrameNo) -> Result<Standing, Refusal>
    requires { Located words.now s }
    ensures { outcome (Call.Position words.now root.0) ≡ record { answer = standing_is result; lent = [] } }
{
    if !extracts::is_only_root(words, s, root) {
        return Err(Refusal::NoRoot);
    }
    Ok(Standing {
        position: s.position,
        steps: s.steps,
        length: s.steps + 1,
    })
}

// What a walk over the rows has counted of a window: its hidden rows, which are as many as its steps, how many of them came before its latest shown step, which are its taken ones, a
// bound on the frame numbers, and what is known of the window.
#[derive(Clone, Copy)]
struct Tally {
    hidden: usize,
    taken: usize,
    high: FrameNo,
    known: Known,
}

// The tally with one row more.
fn tally_row(words: &[u32], at: RowPlace, root: FrameNo, t: Tally) -> Tally
    requires { Within words.now at.0 × Tallies root.0 (rows_of words.now) at.0 t }
    ensures { Tallies root.0 (rows_of words.now) (at.0 + 1) result }
{
    let m = members::belongs(words, at, root, t.known);
    let seen = Tally {
        high: reads::higher(t.high, reads::frame(words, at)),
        known: m.known,
        ..t
    };
    if !m.inside {
        return seen;
    }
    if sound::is_shown_step(words, at, t.high) {
        return Tally {
            taken: t.hidden,
            ..seen
        };
    }
    Tally {
        hidden: t.hidden + usize::from(!reads::is_shown(words, at)),
        ..seen
    }
}

// The tally of a window of a sound record.
fn count_window(words: &[u32], root: FrameNo) -> Tally
    requires { Examined words.now }
    ensures { Tallies root.0 (rows_of words.now) (length (rows_of words.now)) result }
{
    let mut t = Tally {
        hidden: 0,
        taken: 0,
        high: FrameNo(0),
        known: members::nothing_known(),
    };
    for i in 0..rows::row_count(words) {
        t = tally_row(words, RowPlace(i), root, t);
    }
    t
}

// Position, steps and length of a window in a sound record of several.
fn position_among(words: &[u32], root: FrameNo) -> Result<Standing, Refusal>
    requires { Examined words.now }
    ensures { outcome (Call.Position words.now root.0) ≡ record { answer = standing_is result; lent = [] } }
{
    if !extracts::has_root(words, root) {
        return Err(Refusal::NoRoot);
    }
    let t = count_window(words, root);
    Ok(Standing {
        position: t.taken,
        steps: t.hidden,
        length: t.hidden + 1,
    })
}

// Position, steps and length of a window.
pub fn position(words: &[u32], root: FrameNo) -> Result<Standing, Refusal>
    ensures { outcome (Call.Position words.now root.0) ≡ record { answer = standing_is result; lent = [] } }
{
    match sound::locate(words)? {
        Windows::One(s) => position_alone(words, s, root),
        Windows::Several => position_among(words, root),
    }
}

// How many steps are taken, and how many upcoming.
#[derive(Clone, Copy)]
pub struct Listed {
    pub taken: usize,
    pub upcoming: usize,
}

// Stores a step's document: the m-th step is taken where m is below the position, else upcoming.
fn list_step(
    step: bool,
    d: DocNo,
    m: usize,
    position: usize,
    taken: &mut [u32],
    upcoming: &mut [u32],
)
    ensures takens { taken.new ≡ taken_with step m position d.0 taken.old }
    ensures upcomings { upcoming.new ≡ upcoming_with step m position d.0 upcoming.old }
{
    if step {
        if m < position {
            writes::store(taken, position - 1 - m, d.0);
        } else {
            writes::store(upcoming, m - position, d.0);
        }
    }
}

// Stores the steps among the first rows, up to where every frame has begun. That place: all rows from there on are steps.
fn list_mixed(words: &[u32], s: Stand, taken: &mut [u32], upcoming: &mut [u32]) -> RowPlace
    requires { Located words.now s }
    ensures begun { Begun (rows_of words.now) result.0 }
    ensures takens { TakensTo (rows_of words.now) result.0 taken.old taken.new }
    ensures upcomings { UpcomingsTo (rows_of words.now) result.0 upcoming.old upcoming.new }
{
    let frames = s.frames;
    let mut m = 0;
    let mut high = FrameNo(0);
    let mut i = 0;
    while i - m < frames {
        let at = RowPlace(i);
        let step = reads::is_step(words, at, high);
        let d = reads::document(words, at);
        list_step(step, d, m, s.position, taken, upcoming);
        high = reads::higher(high, reads::frame(words, at));
        m += usize::from(step);
        i += 1;
    }
    RowPlace(i)
}

// Stores the taken steps from a place on, from which all rows are steps.
fn list_taken(words: &[u32], from: RowPlace, s: Stand, taken: &mut [u32])
    requires { Located words.now s × Begun (rows_of words.now) from.0 × (s.position ≤ length taken.old) }
    ensures { TakensFrom (rows_of words.now) from.0 taken.old taken.new }
{
    let end = s.upcoming.0;
    for i in from.0..end {
        taken[end - 1 - i] = reads::document(words, RowPlace(i)).0;
    }
}

// Stores the upcoming steps from a place on, from which all rows are steps.
fn list_upcoming(words: &[u32], from: RowPlace, s: Stand, upcoming: &mut [u32])
    requires { Located words.now s × Begun (rows_of words.now) from.0 × (s.steps - s.position ≤ length upcoming.old) }
    ensures { UpcomingsFrom (rows_of words.now) from.0 upcoming.old upcoming.new }
{
    let first = s.frames + s.position;
    let start = from.0.max(s.upcoming.0);
    for i in start..rows::row_count(words) {
        upcoming[i - first] = reads::document(words, RowPlace(i)).0;
    }
}

// Taken and upcoming steps of a window in a sound record of one, which stands so.
fn lists_alone(
    words: &[u32],
    s: Stand,
    root: FrameNo,
    taken: &mut [u32],
    upcoming: &mut [u32],
) -> Result<Listed, Refusal>
    requires { Located words.now s }
    ensures { outcome (Call.Lists words.now root.0 taken.old upcoming.old) ≡ record { answer = listed_is result; lent = taken.new ∷ upcoming.new ∷ [] } }
{
    if !extracts::is_only_root(words, s, root) {
        return Err(Refusal::NoRoot);
    }
    let ahead = s.steps - s.position;
    if taken.len() < s.position {
        return Err(Refusal::ShortBuffer);
    }
    if upcoming.len() < ahead {
        return Err(Refusal::ShortBuffer);
    }
    let begun = list_mixed(words, s, taken, upcoming);
    list_taken(words, begun, s, taken);
    list_upcoming(words, begun, s, upcoming);
    Ok(Listed {
        taken: s.position,
        upcoming: ahead,
    })
}

// The same in a sound record of several, by the window's own record. That record's words take the stack of this function alone: the compiler leaves it by itself.
#[inline(never)]
fn lists_among(
    words: &[u32],
    root: FrameNo,
    taken: &mut [u32],
    upcoming: &mut [u32],
) -> Result<Listed, Refusal>
    requires { Examined words.now }
    ensures { outcome (Call.Lists words.now root.0 taken.old upcoming.old) ≡ record { answer = listed_is result; lent = taken.new ∷ upcoming.new ∷ [] } }
{
    if !extracts::has_root(words, root) {
        return Err(Refusal::NoRoot);
    }
    let mut own = [0u32; 2051];
    extracts::take_out(words, root, extracts::first_other(words, root), &mut own);
    let s = extracts::stand_alone(&own);
    lists_alone(&own, s, root, taken, upcoming)
}

// Taken steps of a window, latest first, and upcoming steps, earliest first.
pub fn lists(
    words: &[u32],
    root: FrameNo,
    taken: &mut [u32],
    upcoming: &mut [u32],
) -> Result<Listed, Refusal>
    ensures { outcome (Call.Lists words.now root.0 taken.old upcoming.old) ≡ record { answer = listed_is result; lent = taken.new ∷ upcoming.new ∷ [] } }
{
    match sound::locate(words)? {
        Windows::One(s) => lists_alone(words, s, root, taken, upcoming),
        Windows::Several => lists_among(words, root, taken, upcoming),
    }
}
