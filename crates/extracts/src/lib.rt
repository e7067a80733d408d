// A window taken out of a record of several into a record of its own, and its flags put back. Only calls that name a window come here, and only where there are several:
// the words of the copy, 3 + 4 * 512 = 2051, are lent by them.
//
// What bounds it, for n rows: the window's rows are copied in one walk, in which a row climbs unless its parent is one of those in mind (`members`). Where the window stands is
// read off its flags in one walk more. Putting the flags back is one walk over both records.
#![tactic(auto)]

ghost use Rattle.std.proofs.Math.Bool.{So};
ghost use Rattle.std.specs.Prelude.{◌≡◌, ◌+◌, ◌<◌, length, replicate, eqb};
ghost use Rattle.rules.specs.Rows.{row_at, frame_at};
ghost use Rattle.rules.specs.Windows.{is_root};
ghost use Rattle.rules.specs.Words.{capacity, rows_of, written};
ghost use Rattle.rules.specs.Calls.{window_in};
ghost use Rattle.reads.specs.Within.{Before, Within};
ghost use Rattle.members.specs.Members.{Recalls, Sided};
ghost use Rattle.sound.specs.Check.{Examined};
ghost use Rattle.sound.specs.Survey.{alone?, Located, stand_of};
ghost use Rattle.extracts.specs.Windows.{heads, other_root, FirstOther, Starts, Gathers, Gathered, Scans, Gives, PutBack};

use base::{DocNo, FrameNo, RowPlace};
use members::{Known, Member};
use sound::Stand;

// Whether a row is of a root frame, and that is this one.
fn is_head(words: &[u32], at: RowPlace, root: FrameNo) -> bool
    requires { Within words.now at.0 }
    ensures { result ≡ heads (rows_of words.now) root.0 at.0 }
{
    (reads::frame(words, at) == root) & (reads::parent(words, at) == DocNo::NONE)
}

// Whether a frame of a sound record is a root frame.
pub fn has_root(words: &[u32], root: FrameNo) -> bool
    requires { Examined words.now }
    ensures { result ≡ is_root (rows_of words.now) root.0 }
{
    let n = rows::row_count(words);
    (0..n).any(|i| is_head(words, RowPlace(i), root))
}

// The same of a record of one window: its root frame is that of the first row.
pub fn is_only_root(words: &[u32], s: Stand, root: FrameNo) -> bool
    requires { Located words.now s }
    ensures { result ≡ is_root (rows_of words.now) root.0 }
{
    reads::frame(words, RowPlace(0)) == root
}

// Whether a row is of a root frame, and that is another.
fn is_other(words: &[u32], at: RowPlace, root: FrameNo) -> bool
    requires { Within words.now at.0 }
    ensures { result ≡ other_root root.0 (rows_of words.now) at.0 }
{
    (reads::parent(words, at) == DocNo::NONE) & (reads::frame(words, at) != root)
}

// Whether the record begins with a root frame's row. Where it does not, the first row is of another root frame.
pub fn is_first(words: &[u32], root: FrameNo) -> bool
    requires { Examined words.now }
    ensures { result ≡ eqb (frame_at (rows_of words.now) 0) root.0 }
{
    reads::frame(words, RowPlace(0)) == root
}

// The first row of another root frame; the rows' end where there is none.
pub fn first_other(words: &[u32], root: FrameNo) -> RowPlace
    requires { Examined words.now }
    ensures { FirstOther (rows_of words.now) root.0 result.0 }
{
    let n = rows::row_count(words);
    let first = (0..n).find(|&i| is_other(words, RowPlace(i), root));
    RowPlace(first.unwrap_or(n))
}

// Whether a row is of a window, of which the first row of another root frame is told: the rows before that are.
fn belongs_past(words: &[u32], at: RowPlace, first: RowPlace, root: FrameNo, known: Known) -> Member
    requires { Within words.now at.0 × FirstOther (rows_of words.now) root.0 first.0 × Starts root.0 (rows_of words.now) × Recalls root.0 (rows_of words.now) known }
    ensures { Sided root.0 (rows_of words.now) at.0 result }
{
    if at < first {
        return Member {
            inside: true,
            known,
        };
    }
    members::belongs(words, at, root, known)
}

// Copies a row behind the k rows of another record, if it is to be there. How many there are then.
fn gather_row(words: &[u32], at: RowPlace, inside: bool, own: &mut [u32], k: usize) -> usize
    requires { Within words.now at.0 × (k < capacity own.old) }
    ensures { Gathers inside (row_at (rows_of words.now) at.0) k own.old result own.new }
{
    if !inside {
        return k;
    }
    writes::put_row(own, RowPlace(k), reads::row(words, at));
    k + 1
}

// Copies the rows of a window of a sound record, of which the first row of another root frame is told, into zero words with room for 512 rows. How many they are.
fn gather_rows(words: &[u32], root: FrameNo, first: RowPlace, own: &mut [u32]) -> usize
    requires { Examined words.now × FirstOther (rows_of words.now) root.0 first.0 × (own.old ≡ replicate 2051 0) }
    ensures { Gathered root.0 (rows_of words.now) (length (rows_of words.now)) result own.new }
{
    let mut known = members::nothing_known();
    let mut k = 0;
    for i in 0..rows::row_count(words) {
        let m = belongs_past(words, RowPlace(i), first, root, known);
        k = gather_row(words, RowPlace(i), m.inside, own, k);
        known = m.known;
    }
    k
}

// Takes a window of a sound record, of which the first row of another root frame is told, out into zero words with room for 512 rows.
pub fn take_out(words: &[u32], root: FrameNo, first: RowPlace, own: &mut [u32])
    requires { Examined words.now × FirstOther (rows_of words.now) root.0 first.0 × (own.old ≡ replicate 2051 0) }
    ensures { own.new ≡ written (replicate 2051 0) (window_in words.now root.0) }
{
    let k = gather_rows(words, root, first, own);
    let next = rows::next_document(words);
    let top = rows::next_frame_number(words);
    writes::put_head(own, k, next, top);
}

// WHERE A WINDOW STANDS, BY ITS FLAGS

// What a walk over the rows has found: how many are shown, how many hidden, how many of these came before the latest shown step, its place, the first hidden row after it (the walk's own place
// where there is none yet), and a bound on the frame numbers.
#[derive(Clone, Copy)]
struct Scan {
    shown: usize,
    hidden: usize,
    taken: usize,
    last: RowPlace,
    upcoming: RowPlace,
    high: FrameNo,
}

// The walk with one row more.
fn scan_row(own: &[u32], at: RowPlace, s: Scan) -> Scan
    requires { Within own.now at.0 × (0 < at.0) × Scans (rows_of own.now) at.0 s }
    ensures { Scans (rows_of own.now) (at.0 + 1) result }
{
    let high = reads::higher(s.high, reads::frame(own, at));
    if !reads::is_shown(own, at) {
        return Scan {
            hidden: s.hidden + 1,
            high,
            ..s
        };
    }
    let shown = s.shown + 1;
    let past = RowPlace(at.0 + 1);
    if reads::is_step(own, at, s.high) {
        return Scan {
            shown,
            taken: s.hidden,
            last: at,
            upcoming: past,
            high,
            ..s
        };
    }
    let upcoming = if s.upcoming == at { past } else { s.upcoming };
    Scan {
        shown,
        upcoming,
        high,
        ..s
    }
}

// The walk over all rows of a sound record.
fn scan_all(own: &[u32]) -> Scan
    requires { Examined own.now }
    ensures { Scans (rows_of own.now) (length (rows_of own.now)) result }
{
    let n = rows::row_count(own);
    let shown = reads::is_shown(own, RowPlace(0));
    let mut s = Scan {
        shown: usize::from(shown),
        hidden: usize::from(!shown),
        taken: 0,
        last: RowPlace(0),
        upcoming: RowPlace(1),
        high: reads::frame(own, RowPlace(0)),
    };
    for i in 1..n {
        s = scan_row(own, RowPlace(i), s);
    }
    s
}

// Where the window of a sound record of one window stands.
pub fn stand_alone(own: &[u32]) -> Stand
    requires { Examined own.now × So (alone? (rows_of own.now)) }
    ensures { result ≡ stand_of (rows_of own.now) }
{
    let s = scan_all(own);
    Stand {
        frames: s.shown,
        steps: s.hidden,
        position: s.taken,
        upcoming: s.upcoming,
        last: s.last,
    }
}

// Gives a row the flag of row k of another record if both hold one document. The row of that record that is next.
fn give_flag(words: &mut [u32], at: RowPlace, own: &[u32], k: usize) -> usize
    requires { Within words.old at.0 × Before own.now k }
    ensures { Gives words.old at.0 own.now k result words.new }
{
    if rows::row_count(own) <= k {
        return k;
    }
    if reads::document(words, at) != reads::document(own, RowPlace(k)) {
        return k;
    }
    writes::put_flag(words, at, reads::shown(own, RowPlace(k)));
    k + 1
}

// Puts the flags of a window's own record back: its rows stand in the record of several in their order, with their documents.
pub fn put_back(words: &mut [u32], own: &[u32])
    requires { Before words.old 0 × Before own.now 0 }
    ensures { PutBack words.old own.now words.new }
{
    let mut k = 0;
    for i in 0..rows::row_count(words) {
        k = give_flag(words, RowPlace(i), own, k);
    }
}
