// Navigate: from a visible document every upcoming step of its window goes, with what is beneath it, and a new document comes.
//
// Where there is one window the pass of the test has told where its upcoming steps begin. Where there are several they are looked for, and from the first one on a row
// that is not shown goes where it is of the window, which its parent tells.
#![tactic(auto)]

ghost use Rattle.std.specs.Prelude.{◌≡◌, false, cond, [], ◌∷◌, ◌+◌, ◌<◌, ◌≤◌, length};
ghost use Rattle.std.proofs.Math.Bool.{So};
ghost use Rattle.rules.specs.Below.{some_below, earliest};
ghost use Rattle.rules.specs.Rows.{none, frame_at, place};
ghost use Rattle.rules.specs.Steps.{same, is_step, upcoming};
ghost use Rattle.rules.specs.Windows.{root_at};
ghost use Rattle.rules.specs.Moves.{upcoming_in, cleared, navigated};
ghost use Rattle.rules.specs.Words.{capacity, table_of, rows_of, written};
ghost use Rattle.rules.specs.Calls.{Call, full, refusals, NoneGiven, outcome};
ghost use Rattle.laws.specs.Alone.{cleared_all};
ghost use Rattle.reads.specs.Within.{Before, Within};
ghost use Rattle.sound.specs.Check.{Examined, Settles, Judged};
ghost use Rattle.sound.specs.Survey.{alone?, Located};
ghost use Rattle.packs.specs.Packing.{Over};
ghost use Rattle.asks.specs.Answers.{sight_rungs};
ghost use Rattle.navigates.specs.Answers.{navigated_is, room_rungs};
ghost use Rattle.navigates.specs.Packing.{joins, removal_end, Ends, settled};
ghost use Rattle.navigates.specs.Sides.{doc_side, side_of, recalled, Recalls, Turned};

use base::{DocNo, FrameNo, Refusal, Row, RowPlace};
use sound::{Stand, Windows};

// Whether no row is left after the removal: only where nothing goes and all rows are in use.
fn is_full(words: &[u32], s: Stand) -> bool
    requires { Located words.now s }
    ensures { result ≡ full words.now (cleared_all (rows_of words.now)) }
{
    rows::capacity(words) <= rows::row_count(words) && s.steps == s.position
}

// Refusals 7 and 8, where no row is left after the removal or some is.
fn judge_room(words: &[u32], filled: bool) -> Result<(), Refusal>
    ensures { Settles (room_rungs filled words.now) result }
{
    if filled {
        return Err(Refusal::Full);
    }
    if rows::next_document(words) == DocNo::NONE {
        return Err(Refusal::UsedUp);
    }
    Ok(())
}

// Whether Navigate is refused, and how, of a sound record that stands so.
fn judge(words: &[u32], s: Stand, from: DocNo) -> Result<(), Refusal>
    requires { Located words.now s }
    ensures { Judged (Call.Navigate words.now from.0) result }
{
    asks::judge_sight(words, from)?;
    judge_room(words, is_full(words, s))
}

// Whether one of the first k rows is of a row's frame.
fn frame_before(words: &[u32], at: RowPlace, k: usize) -> bool
    requires { Within words.now at.0 × (k ≤ at.0) }
    ensures { result ≡ some_below k (same (frame_at (rows_of words.now)) at.0) }
{
    reads::latest_of(words, RowPlace(k), reads::frame(words, at)).is_some()
}

// Whether a row stays, where the first k rows are those kept so far: it is the first of its frame among them, and it has no parent or that is one of them.
fn row_joins(words: &[u32], at: RowPlace, k: usize) -> bool
    requires { Within words.now at.0 × (k ≤ at.0) }
    ensures { result ≡ joins (rows_of words.now) k at.0 }
{
    !frame_before(words, at, k) && packs::parent_kept(words, at, k)
}

// A place from which on all rows are upcoming steps: that of the earliest, where no frame begins after it, else the rows' end.
fn removal_end(words: &[u32], s: Stand) -> RowPlace
    requires { Located words.now s }
    ensures { result.0 ≡ removal_end (rows_of words.now) }
{
    if s.frames + s.position == s.upcoming.0 {
        s.upcoming
    } else {
        RowPlace(rows::row_count(words))
    }
}

// Removes what goes and closes the gaps: the rows before the first upcoming step stay where they are, and none stays from `end` on. How many rows stay.
fn close_gaps(words: &mut [u32], start: RowPlace, end: RowPlace) -> usize
    requires { Examined words.old × So (alone? (rows_of words.old)) × ((table_of words.old).next_doc ≤ none) × (start.0 ≡ earliest (upcoming (rows_of words.old)) (length (rows_of words.old))) × Ends (rows_of words.old) end.0 }
    ensures { Over (cleared_all (rows_of words.old)) words.old result words.new }
{
    let mut k = start.0;
    for i in start.0..end.0 {
        let stays = row_joins(words, RowPlace(i), k);
        k = packs::keep_row(words, RowPlace(i), k, stays);
    }
    k
}

// Hides the row left, appends to the first k rows one of its frame and parent, and ends the record there, of which n rows were in use.
fn settle(words: &mut [u32], at: RowPlace, k: usize, n: usize, d: DocNo, next: FrameNo)
    requires { Within words.old at.0 × (k < capacity words.old) × (n ≤ capacity words.old) × (d.0 < none) }
    ensures { words.new ≡ settled words.old at.0 k n d.0 next.0 }
{
    let comes = Row {
        document: d,
        shown: 1,
        ..reads::row(words, at)
    };
    writes::put_flag(words, at, 0);
    writes::put_row(words, RowPlace(k), comes);
    packs::end_rows(words, k + 1, n, DocNo(d.0 + 1), next);
}

// Navigates where no refusal is given, in a sound record that stands so. The new document.
fn go_from(words: &mut [u32], s: Stand, from: DocNo) -> DocNo
    requires { Located words.old s × NoneGiven (refusals (Call.Navigate words.old from.0)) }
    ensures { (result.0 ≡ (table_of words.old).next_doc) × (words.new ≡ written words.old (navigated (table_of words.old) from.0)) }
{
    let n = rows::row_count(words);
    let d = rows::next_document(words);
    let next = rows::next_frame_number(words);
    let end = removal_end(words, s);
    let k = close_gaps(words, s.upcoming, end);
    let at = packs::place_before(words, k, from);
    settle(words, at, k, n, d, next);
    d
}

// Navigates in a sound record that stands so. The new document.
fn navigate_from(words: &mut [u32], s: Stand, from: DocNo) -> Result<DocNo, Refusal>
    requires { Located words.old s }
    ensures { outcome (Call.Navigate words.old from.0) ≡ record { answer = navigated_is result; lent = words.new ∷ [] } }
{
    judge(words, s, from)?;
    Ok(go_from(words, s, from))
}

// ONE WINDOW OF SEVERAL

// Where the search for a window's first upcoming step may begin, when a row of it is shown: right after that row, where it is a step.
fn search_start(words: &[u32], at: RowPlace) -> RowPlace
    requires { Within words.now at.0 }
    ensures { result.0 ≡ cond (is_step (rows_of words.now) at.0) (at.0 + 1) 0 }
{
    if reads::latest_of(words, at, reads::frame(words, at)).is_some() {
        RowPlace(at.0 + 1)
    } else {
        RowPlace(0)
    }
}

// Whether a row is an upcoming step of a window, where none before it is. A shown row needs no look.
fn is_first_gap(words: &[u32], at: RowPlace, root: FrameNo) -> bool
    requires { Examined words.now × ((table_of words.now).next_doc ≤ none) × (at.0 < length (rows_of words.now)) × (some_below at.0 (upcoming_in root.0 (rows_of words.now)) ≡ false) }
    ensures { result ≡ upcoming_in root.0 (rows_of words.now) at.0 }
{
    !reads::is_shown(words, at) && sound::comes_in(words, at, root)
}

// The first upcoming step of a window, where none stands before a place; the rows' end where there is none.
fn first_gap(words: &[u32], root: FrameNo, start: RowPlace) -> RowPlace
    requires { Examined words.now × ((table_of words.now).next_doc ≤ none) × (start.0 ≤ length (rows_of words.now)) × (some_below start.0 (upcoming_in root.0 (rows_of words.now)) ≡ false) }
    ensures { result.0 ≡ earliest (upcoming_in root.0 (rows_of words.now)) (length (rows_of words.now)) }
{
    let n = rows::row_count(words);
    for i in start.0..n {
        if is_first_gap(words, RowPlace(i), root) {
            return RowPlace(i);
        }
    }
    RowPlace(n)
}

// Whether no row is left after the removal from the first upcoming step of a window on.
fn is_full_beside(words: &[u32], root: FrameNo, gap: RowPlace) -> bool
    requires { Examined words.now × (gap.0 ≡ earliest (upcoming_in root.0 (rows_of words.now)) (length (rows_of words.now))) }
    ensures { result ≡ full words.now (cleared root.0 (rows_of words.now)) }
{
    let n = rows::row_count(words);
    rows::capacity(words) <= n && gap.0 == n
}

// Where a row stands to a window, as the rows kept so far tell: within it, outside it, or beneath a row that went.
#[derive(Clone, Copy, PartialEq, Eq)]
enum Side {
    Within,
    Outside,
    Lost,
}

// The parents that were last found within a window, found outside and missed: a row beneath one of them needs no look.
#[derive(Clone, Copy)]
struct Sides {
    within: DocNo,
    outside: DocNo,
    missed: DocNo,
}

// Where what lies in a document stands to a window, with the one of the first k rows that holds it.
fn doc_side(words: &[u32], k: usize, root: FrameNo, d: DocNo) -> Side
    requires { Before words.now k }
    ensures { result ≡ doc_side root.0 (rows_of words.now) k d.0 }
{
    match reads::find_below(words, RowPlace(k), d) {
        Some(above) if reads::root_of(words, above) == root => Side::Within,
        Some(_) => Side::Outside,
        None => Side::Lost,
    }
}

// Where a row stands to a window, where the first k rows are those kept so far.
fn side_of(words: &[u32], at: RowPlace, k: usize, root: FrameNo, known: Sides) -> Side
    requires { Within words.now at.0 × (k ≤ at.0) × Recalls root.0 (rows_of words.now) k known }
    ensures { result ≡ side_of root.0 (rows_of words.now) k at.0 }
{
    let up = reads::parent(words, at);
    if up == DocNo::NONE {
        return if reads::frame(words, at) == root {
            Side::Within
        } else {
            Side::Outside
        };
    }
    if up == known.within {
        return Side::Within;
    }
    if up == known.outside {
        return Side::Outside;
    }
    if up == known.missed {
        return Side::Lost;
    }
    doc_side(words, k, root, up)
}

// What is kept in mind after a row beneath this document.
fn recall(known: Sides, up: DocNo, side: Side) -> Sides
    ensures { result ≡ recalled known up side }
{
    match side {
        Side::Within => Sides {
            within: up,
            ..known
        },
        Side::Outside => Sides {
            outside: up,
            ..known
        },
        Side::Lost => Sides {
            missed: up,
            ..known
        },
    }
}

// Whether a row stays, and what is kept in mind then.
#[derive(Clone, Copy)]
struct Turn {
    stays: bool,
    known: Sides,
}

// Whether a row stays, from a window's first upcoming step on, where the first k rows are those kept so far: a shown one whose parent does, and of the others one outside.
fn row_turn(words: &[u32], at: RowPlace, k: usize, root: FrameNo, known: Sides) -> Turn
    requires { Within words.now at.0 × (k ≤ at.0) × Recalls root.0 (rows_of words.now) k known }
    ensures { Turned root.0 (rows_of words.now) k at.0 known result }
{
    if reads::is_shown(words, at) {
        return Turn {
            stays: packs::parent_kept(words, at, k),
            known,
        };
    }
    let side = side_of(words, at, k, root, known);
    Turn {
        stays: side == Side::Outside,
        known: recall(known, reads::parent(words, at), side),
    }
}

// Removes what goes from the first upcoming step of a window on, and closes the gaps. How many rows stay.
fn close_beside(words: &mut [u32], root: FrameNo, gap: RowPlace) -> usize
    requires { Examined words.old × ((table_of words.old).next_doc ≤ none) × (gap.0 ≡ earliest (upcoming_in root.0 (rows_of words.old)) (length (rows_of words.old))) }
    ensures { Over (cleared root.0 (rows_of words.old)) words.old result words.new }
{
    let n = rows::row_count(words);
    let mut known = Sides {
        within: DocNo::NONE,
        outside: DocNo::NONE,
        missed: DocNo::NONE,
    };
    let mut k = gap.0;
    for i in gap.0..n {
        let t = row_turn(words, RowPlace(i), k, root, known);
        k = packs::keep_row(words, RowPlace(i), k, t.stays);
        known = t.known;
    }
    k
}

// Navigates where no refusal is given, from a document of the window whose first upcoming step this is. The new document.
fn go_beside(words: &mut [u32], root: FrameNo, gap: RowPlace, from: DocNo) -> DocNo
    requires { Examined words.old × NoneGiven (refusals (Call.Navigate words.old from.0)) × (root.0 ≡ root_at (rows_of words.old) (place (rows_of words.old) from.0)) × (gap.0 ≡ earliest (upcoming_in root.0 (rows_of words.old)) (length (rows_of words.old))) }
    ensures { (result.0 ≡ (table_of words.old).next_doc) × (words.new ≡ written words.old (navigated (table_of words.old) from.0)) }
{
    let n = rows::row_count(words);
    let d = rows::next_document(words);
    let next = rows::next_frame_number(words);
    let k = close_beside(words, root, gap);
    let left = packs::place_before(words, k, from);
    settle(words, left, k, n, d, next);
    d
}

// Navigates from a visible document of one of several windows. The new document.
fn leave_beside(words: &mut [u32], from: DocNo) -> Result<DocNo, Refusal>
    requires { Examined words.old × NoneGiven (sight_rungs words.old from.0) }
    ensures { outcome (Call.Navigate words.old from.0) ≡ record { answer = navigated_is result; lent = words.new ∷ [] } }
{
    let at = packs::place_before(words, rows::row_count(words), from);
    let root = reads::root_of(words, at);
    let gap = first_gap(words, root, search_start(words, at));
    judge_room(words, is_full_beside(words, root, gap))?;
    Ok(go_beside(words, root, gap, from))
}

// Navigates in a sound record of several windows. The new document.
fn navigate_beside(words: &mut [u32], from: DocNo) -> Result<DocNo, Refusal>
    requires { Examined words.old }
    ensures { outcome (Call.Navigate words.old from.0) ≡ record { answer = navigated_is result; lent = words.new ∷ [] } }
{
    asks::judge_sight(words, from)?;
    leave_beside(words, from)
}

// Navigates from a document. The new document.
pub fn navigate(words: &mut [u32], from: DocNo) -> Result<DocNo, Refusal>
    ensures { outcome (Call.Navigate words.old from.0) ≡ record { answer = navigated_is result; lent = words.new ∷ [] } }
{
    match sound::locate(words)? {
        Windows::One(s) => navigate_from(words, s, from),
        Windows::Several => navigate_beside(words, from),
    }
}
