// The test of S1 to S8 on arbitrary words, in one pass over the rows, with no array and no recursion. The pass tells besides where the window stands, where there is one.
//
// S7 is each window's own. Where no shown step of the table comes after an upcoming one, no window has such a step, and the pass is all that is asked; this is so of every
// sound record of one window. Else, and only where there are several windows, a walk goes on from the first upcoming step: for each window that has one, no later shown row
// of it may be a step. A window is looked at once for each time that the rows change to it from another.
//
// What bounds it, for n rows: each row looks back for the row before it in its frame and stops there, and not at all where its frame number is above every earlier one;
// a frame's first row looks back for its parent and stops there, and not at all where that is the parent found last. So at most two triangular scans (n * n / 2 row visits
// each); on records that the calls build both stop near the row.
//
// Where all documents rise, as they do until one is replaced, S2 asks nothing more than that the last is below word 1. Else a loop from the last row to the first looks, for a row
// whose document is neither below all later ones nor above them, whether it stands in a later row: a third triangular scan at most. In a record that the calls build only
// rows that were replaced before a later one look.
#![tactic(auto)]

ghost use Rattle.std.specs.Prelude.{◌≡◌, true, false, cond, ◌+◌, ◌-◌, ◌<◌, ◌≤◌, min, max, length};
ghost use Rattle.std.proofs.Math.Bool.{So};
ghost use Rattle.rules.specs.Below.{some_below, all_below};
ghost use Rattle.rules.specs.Rows.{none, doc_at, frame_at, parent_at, shown_at};
ghost use Rattle.rules.specs.Steps.{is_step};
ghost use Rattle.rules.specs.Words.{capacity, rows_of};
ghost use Rattle.rules.specs.Sound.{s2?, s8?, sound?};
ghost use Rattle.rules.specs.Calls.{short};
ghost use Rattle.reads.specs.Within.{Within};
ghost use Rattle.reads.specs.Under.{Under};
ghost use Rattle.windows.proofs.Counted.{shown_step_in};
ghost use Rattle.laws.proofs.Concealed.{shown_step};
ghost use Rattle.members.specs.Members.{Kin, Recalls};
ghost use Rattle.sound.specs.Quick.{bounded, linked, comes, comes_in, calm, row_fine, kept?, firm?, ordered, alone, Spans};
ghost use Rattle.sound.specs.Looks.{step_from, Sees, Looks};
ghost use Rattle.sound.specs.Pass.{Passed, Onward, Opens, StepAfter, TellsTo, Tells, late_of};
ghost use Rattle.sound.specs.Check.{check_of};
ghost use Rattle.sound.specs.Survey.{alone?, stand_of, survey_of};

use base::{DocNo, FrameNo, Refusal, RowPlace};
use members::{Known, Member};

// What a pass knows of the rows behind it: some upcoming, a shown step after an upcoming one, several root frames, how many shown, how many frames, a bound on the
// frame numbers, the parent found last; of the first upcoming one its place and how many frames had begun before it; and the latest step before that.
#[derive(Clone, Copy)]
pub struct Pass {
    pub late: bool,
    pub broken: bool,
    pub several: bool,
    pub shown: usize,
    pub frames: usize,
    pub high: FrameNo,
    pub known: DocNo,
    pub upcoming: RowPlace,
    pub begun: usize,
    pub last: RowPlace,
}

// Whether a row's frame number and flag are within their bounds.
fn is_bounded(words: &[u32], at: RowPlace, top: FrameNo) -> bool
    requires { Within words.now at.0 }
    ensures { result ≡ bounded (rows_of words.now) top.0 at.0 }
{
    (reads::frame(words, at) < top) & (reads::shown(words, at) <= 1)
}

// Whether a row's document stands in no later row, where theirs are from `low` to `high`: one outside needs no scan.
fn is_alone(words: &[u32], at: RowPlace, n: usize, low: DocNo, high: DocNo) -> bool
    requires { Within words.now at.0 × (n ≡ length (rows_of words.now)) × Spans (doc_at (rows_of words.now)) (at.0 + 1) (length (rows_of words.now)) low.0 high.0 }
    ensures { result ≡ alone (rows_of words.now) at.0 }
{
    let d = reads::document(words, at);
    if d < low {
        return true;
    }
    if high < d {
        return true;
    }
    match reads::find_below(words, RowPlace(n), d) {
        Some(last) => last == at,
        None => false,
    }
}

// S2, from the last row to the first.
fn documents_apart(words: &[u32], n: usize, next: DocNo) -> bool
    requires { Within words.now 0 × (n ≡ length (rows_of words.now)) }
    ensures { result ≡ s2? (rows_of words.now) next.0 }
{
    let mut low = reads::document(words, RowPlace(n - 1));
    let mut high = low;
    for i in (0..n - 1).rev() {
        let at = RowPlace(i);
        if !is_alone(words, at, n, low, high) {
            return false;
        }
        let d = reads::document(words, at);
        low = low.min(d);
        high = high.max(d);
    }
    high < next
}

// S2, where `last` is the last row's document and `rises` tells whether all rise.
fn documents_fit(words: &[u32], n: usize, rises: bool, last: DocNo, next: DocNo) -> bool
    requires { Within words.now 0 × (n ≡ length (rows_of words.now)) × (rises ≡ all_below n (ordered (rows_of words.now))) × (last.0 ≡ doc_at (rows_of words.now) (n - 1)) }
    ensures { result ≡ s2? (rows_of words.now) next.0 }
{
    if rises {
        return last < next;
    }
    documents_apart(words, n, next)
}

// The pass at the first row.
fn pass_start(words: &[u32]) -> Pass
    requires { Within words.now 0 × (shown_at (rows_of words.now) 0 ≤ 1) × (parent_at (rows_of words.now) 0 ≡ none) }
    ensures { Passed (rows_of words.now) 1 result }
{
    let at = RowPlace(0);
    Pass {
        late: false,
        broken: false,
        several: false,
        shown: reads::shown(words, at) as usize,
        frames: 1,
        high: reads::frame(words, at),
        known: reads::document(words, at),
        upcoming: at,
        begun: 0,
        last: at,
    }
}

// The pass with a step more, once some are upcoming: the place of the first one, and how many frames had begun before it.
fn pass_late(shown: u32, upcoming: RowPlace, begun: usize, p: Pass) -> Pass
    requires { (p.shown ≤ 512) × (shown ≤ 1) }
    ensures { result ≡ late_of shown upcoming begun p }
{
    Pass {
        late: true,
        broken: p.broken | (shown != 0),
        shown: p.shown + shown as usize,
        upcoming,
        begun,
        ..p
    }
}

// The pass with a step more, after the row before it in its frame.
fn pass_step(words: &[u32], at: RowPlace, prior: RowPlace, p: Pass) -> Option<Pass>
    requires { Within words.now at.0 × Onward (rows_of words.now) at.0 p × StepAfter (rows_of words.now) at.0 prior.0 }
    ensures { TellsTo (rows_of words.now) (at.0 + 1) (linked (rows_of words.now) at.0) result }
{
    if reads::parent(words, at) != reads::parent(words, prior) {
        return None;
    }
    let shown = reads::shown(words, at);
    if p.late {
        return Some(pass_late(shown, p.upcoming, p.begun, p));
    }
    if reads::is_shown(words, prior) {
        return Some(pass_late(shown, at, p.frames, p));
    }
    Some(Pass {
        late: false,
        shown: p.shown + shown as usize,
        last: at,
        ..p
    })
}

// The pass with the first row of a frame more, where there are several root frames then or not and this document was found last.
fn pass_open(words: &[u32], at: RowPlace, several: bool, known: DocNo, p: Pass) -> Pass
    requires { Within words.now at.0 × Onward (rows_of words.now) at.0 p × (is_step (rows_of words.now) at.0 ≡ false) × Opens (rows_of words.now) at.0 several known.0 p }
    ensures { Passed (rows_of words.now) (at.0 + 1) result }
{
    Pass {
        several,
        shown: p.shown + reads::shown(words, at) as usize,
        frames: p.frames + 1,
        high: reads::higher(p.high, reads::frame(words, at)),
        known,
        ..p
    }
}

// The pass with the first row of a frame more: a root row, one beneath the document found last, or one beneath a document that is looked for.
fn pass_first(words: &[u32], at: RowPlace, p: Pass) -> Option<Pass>
    requires { Within words.now at.0 × Onward (rows_of words.now) at.0 p × (0 < at.0) × (is_step (rows_of words.now) at.0 ≡ false) }
    ensures { TellsTo (rows_of words.now) (at.0 + 1) (linked (rows_of words.now) at.0) result }
{
    let up = reads::parent(words, at);
    if up == DocNo::NONE {
        return Some(pass_open(words, at, true, p.known, p));
    }
    if up == p.known {
        return Some(pass_open(words, at, p.several, up, p));
    }
    match reads::find_below(words, at, up) {
        Some(_) => Some(pass_open(words, at, p.several, up, p)),
        None => None,
    }
}

// The pass with one row more.
fn pass_row(words: &[u32], at: RowPlace, p: Pass) -> Option<Pass>
    requires { Within words.now at.0 × Onward (rows_of words.now) at.0 p × (0 < at.0) }
    ensures { TellsTo (rows_of words.now) (at.0 + 1) (linked (rows_of words.now) at.0) result }
{
    match reads::previous_under(words, at, p.high) {
        Some(prior) => pass_step(words, at, prior, p),
        None => pass_first(words, at, p),
    }
}

// Whether the record's first row keeps the rules.
fn is_root(words: &[u32], top: FrameNo) -> bool
    requires { Within words.now 0 }
    ensures { result ≡ row_fine (rows_of words.now) top.0 0 }
{
    let at = RowPlace(0);
    is_bounded(words, at, top) & (reads::parent(words, at) == DocNo::NONE)
}

// S2 to S6: whether every row keeps the rules, as many are shown as there are frames, and the documents fit.
fn rows_pass(words: &[u32], n: usize, top: FrameNo, next: DocNo) -> Option<Pass>
    requires { Within words.now 0 × (n ≡ length (rows_of words.now)) }
    ensures { Tells (rows_of words.now) (kept? (rows_of words.now) next.0 top.0) result }
{
    if !is_root(words, top) {
        return None;
    }
    let mut p = pass_start(words);
    let mut last = reads::document(words, RowPlace(0));
    let mut rises = true;
    for i in 1..n {
        let at = RowPlace(i);
        if !is_bounded(words, at, top) {
            return None;
        }
        p = pass_row(words, at, p)?;
        let d = reads::document(words, at);
        rises = rises & (last < d);
        last = d;
    }
    if p.shown != p.frames {
        return None;
    }
    if documents_fit(words, n, rises, last, next) {
        Some(p)
    } else {
        None
    }
}

// Whether the row before a row in its frame is shown, so that it is the first upcoming one of its frame; no earlier row has a frame number above `high`.
fn comes_at(words: &[u32], at: RowPlace, high: FrameNo) -> bool
    requires { Within words.now at.0 × Under (frame_at (rows_of words.now)) at.0 high.0 }
    ensures { result ≡ comes (rows_of words.now) at.0 }
{
    match reads::previous_under(words, at, high) {
        Some(prior) => reads::is_shown(words, prior),
        None => false,
    }
}

// Whether it is so and of a window. The window is asked last: it takes a climb.
pub fn comes_in(words: &[u32], at: RowPlace, root: FrameNo) -> bool
    requires { Within words.now at.0 }
    ensures { result ≡ comes_in root.0 (rows_of words.now) at.0 }
{
    if !comes_at(words, at, FrameNo::NONE) {
        return false;
    }
    reads::root_of(words, at) == root
}

// Whether a row is a shown step, where no earlier row has a frame number above `high`.
pub fn is_shown_step(words: &[u32], at: RowPlace, high: FrameNo) -> bool
    requires { Within words.now at.0 × Under (frame_at (rows_of words.now)) at.0 high.0 }
    ensures { result ≡ shown_step (rows_of words.now) at.0 }
{
    if !reads::is_shown(words, at) {
        return false;
    }
    reads::is_step(words, at, high)
}

// The highest frame number of the rows up to a place.
fn highest_upto(words: &[u32], at: RowPlace) -> FrameNo
    requires { Within words.now at.0 }
    ensures { Under (frame_at (rows_of words.now)) (at.0 + 1) result.0 }
{
    let mut high = reads::frame(words, at);
    for i in 0..at.0 {
        high = reads::higher(high, reads::frame(words, RowPlace(i)));
    }
    high
}

// Whether a row is a shown step of a window, and what is known of that then. The flag is asked first, and then the window.
fn step_within(words: &[u32], at: RowPlace, high: FrameNo, root: FrameNo, known: Known) -> Member
    requires { Within words.now at.0 × Under (frame_at (rows_of words.now)) at.0 high.0 × Recalls root.0 (rows_of words.now) known }
    ensures { (result.inside ≡ shown_step_in root.0 (rows_of words.now) at.0) × Recalls root.0 (rows_of words.now) result.known }
{
    if !reads::is_shown(words, at) {
        return Member {
            inside: false,
            known,
        };
    }
    let m = members::belongs(words, at, root, known);
    if !m.inside {
        return m;
    }
    Member {
        inside: reads::is_step(words, at, high),
        ..m
    }
}

// Whether a shown step of a window stands at a place or later.
fn step_from(words: &[u32], from: RowPlace, high: FrameNo, root: FrameNo, known: Known) -> bool
    requires { Within words.now from.0 × Under (frame_at (rows_of words.now)) from.0 high.0 × Recalls root.0 (rows_of words.now) known }
    ensures { result ≡ step_from root.0 (rows_of words.now) from.0 }
{
    let n = rows::row_count(words);
    let mut bound = high;
    let mut mind = known;
    for j in from.0..n {
        let at = RowPlace(j);
        let m = step_within(words, at, bound, root, mind);
        if m.inside {
            return true;
        }
        bound = reads::higher(bound, reads::frame(words, at));
        mind = m.known;
    }
    false
}

// A window of which a walk has found that no shown step stands later, and what it knows of it.
#[derive(Clone, Copy)]
struct Seen {
    root: FrameNo,
    known: Known,
}

// A look at the window of a row that comes: nothing, where a shown step of it stands at the row or later, else the window, seen.
fn look_on(words: &[u32], at: RowPlace, high: FrameNo) -> Option<Seen>
    requires { Within words.now at.0 × Under (frame_at (rows_of words.now)) at.0 high.0 × Kin (rows_of words.now) × So (comes (rows_of words.now) at.0) }
    ensures { Looks (rows_of words.now) at.0 result }
{
    let root = reads::root_of(words, at);
    let known = members::known_beneath(words, at);
    if step_from(words, at, high, root, known) {
        return None;
    }
    Some(Seen { root, known })
}

// A look at a row, in the same way: one of the window last looked at needs none, and the window stays that.
fn look_at(words: &[u32], at: RowPlace, high: FrameNo, seen: Seen) -> Option<Seen>
    requires { Within words.now at.0 × Under (frame_at (rows_of words.now)) at.0 high.0 × Sees (rows_of words.now) at.0 seen }
    ensures { Looks (rows_of words.now) at.0 result }
{
    let m = members::belongs(words, at, seen.root, seen.known);
    let next = Seen {
        known: m.known,
        ..seen
    };
    if m.inside {
        return Some(next);
    }
    if comes_at(words, at, high) {
        return look_on(words, at, high);
    }
    Some(next)
}

// S7, where `from` is the place of the first row that comes.
fn windows_calm(words: &[u32], from: RowPlace) -> bool
    requires { Within words.now from.0 × Kin (rows_of words.now) × So (comes (rows_of words.now) from.0) × (some_below from.0 (comes (rows_of words.now)) ≡ false) }
    ensures { result ≡ all_below (length (rows_of words.now)) (calm (rows_of words.now)) }
{
    let n = rows::row_count(words);
    let mut high = highest_upto(words, from);
    let Some(mut seen) = look_on(words, from, high) else {
        return false;
    };
    for i in from.0 + 1..n {
        let at = RowPlace(i);
        let Some(next) = look_at(words, at, high, seen) else {
            return false;
        };
        high = reads::higher(high, reads::frame(words, at));
        seen = next;
    }
    true
}

// S7, by what the pass knows of all rows: one window alone has no upcoming step before a shown one.
fn is_in_order(words: &[u32], p: Pass) -> bool
    requires { So (firm? words.now) × Passed (rows_of words.now) (length (rows_of words.now)) p }
    ensures { result ≡ all_below (length (rows_of words.now)) (calm (rows_of words.now)) }
{
    if !p.broken {
        return true;
    }
    if !p.several {
        return false;
    }
    windows_calm(words, p.upcoming)
}

// S8.
fn rest_zero(words: &[u32], n: usize, c: usize) -> bool
    requires { (n ≡ length (rows_of words.now)) × (c ≡ capacity words.now) × (n ≤ c) }
    ensures { result ≡ s8? words.now }
{
    let mut zero = true;
    for k in 3 + 4 * n..3 + 4 * c {
        zero = zero & (words[k] == 0);
    }
    zero
}

// S1 to S6 and S8, with what the pass knows where they hold.
fn test(words: &[u32]) -> Option<Pass>
    ensures { Tells (rows_of words.now) (firm? words.now) result }
{
    let c = rows::capacity(words);
    if c == 0 {
        return None;
    }
    let n = rows::row_count(words);
    if n == 0 {
        return None;
    }
    if c < n {
        return None;
    }
    if !rest_zero(words, n, c) {
        return None;
    }
    rows_pass(
        words,
        n,
        rows::next_frame_number(words),
        rows::next_document(words),
    )
}

// S1 to S8.
pub fn sound(words: &[u32]) -> bool
    ensures { result ≡ sound? words.now }
{
    match test(words) {
        Some(p) => is_in_order(words, p),
        None => false,
    }
}

// Whether the words are fewer than the least record's.
fn is_short(words: &[u32]) -> bool
    ensures { result ≡ short words.now }
{
    words.len() < 7
}

// Refusals 1 and 2, which nearly every call begins with.
pub fn examine(words: &[u32]) -> Result<(), Refusal>
    ensures { result ≡ check_of words.now }
{
    if is_short(words) {
        return Err(Refusal::ShortRecord);
    }
    if !sound(words) {
        return Err(Refusal::Unsound);
    }
    Ok(())
}

// Where the window stands: how many frames and how many steps there are, how many of these are taken, the place of the earliest upcoming one (the rows' end where there is
// none), and that of the latest taken one (0 where there is none).
#[derive(Clone, Copy)]
pub struct Stand {
    pub frames: usize,
    pub steps: usize,
    pub position: usize,
    pub upcoming: RowPlace,
    pub last: RowPlace,
}

// Where the one window of a sound record stands, by what the pass knows of all its rows.
fn stand_of(words: &[u32], p: Pass) -> Stand
    requires { (sound? words.now ≡ true) × (alone? (rows_of words.now) ≡ true) × Passed (rows_of words.now) (length (rows_of words.now)) p }
    ensures { result ≡ stand_of (rows_of words.now) }
{
    let n = rows::row_count(words);
    let start = if p.late { p.upcoming.0 } else { n };
    let begun = if p.late { p.begun } else { p.frames };
    Stand {
        frames: p.frames,
        steps: n - p.frames,
        position: start - begun,
        upcoming: RowPlace(start),
        last: p.last,
    }
}

// The windows of a sound record: one, which stands so, or several.
#[derive(Clone, Copy)]
pub enum Windows {
    One(Stand),
    Several,
}

// Refusals 1 and 2, or where the window stands or that there are several, by the one pass of the test.
pub fn locate(words: &[u32]) -> Result<Windows, Refusal>
    ensures { result ≡ survey_of words.now }
{
    if is_short(words) {
        return Err(Refusal::ShortRecord);
    }
    let Some(p) = test(words) else {
        return Err(Refusal::Unsound);
    };
    if !is_in_order(words, p) {
        return Err(Refusal::Unsound);
    }
    if p.several {
        return Ok(Windows::Several);
    }
    Ok(Windows::One(stand_of(words, p)))
}
