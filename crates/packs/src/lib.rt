// Closing gaps in place: rows that stay are moved down over those that go, and the record ends after the last of them. What every removal has in common.
#![tactic(auto)]

ghost use Rattle.std.specs.Prelude.{◌≢◌, ◌≡◌, Bool, true, false, ◌+◌, ◌-◌, ◌*◌, ◌<◌, ◌≤◌, eqb, length, replicate};
ghost use Rattle.std.proofs.Math.Bool.{So};
ghost use Rattle.rules.specs.Below.{some_below};
ghost use Rattle.rules.specs.Rows.{Row, none, row_at, doc_at, parent_at, is_doc};
ghost use Rattle.rules.specs.Moves.{without};
ghost use Rattle.rules.specs.Words.{put, table_of, rows_of};
ghost use Rattle.rules.specs.Sound.{Sound};
ghost use Rattle.reads.specs.Within.{Before, Within};
ghost use Rattle.packs.specs.Packing.{doc_kept, parent_kept, last_parent, Moved, Knows, Turn, Begins, Over, ended};

use base::{DocNo, FrameNo, RowPlace};

// Whether a row has no parent, or one of the first k rows holds it.
pub fn parent_kept(words: &[u32], at: RowPlace, k: usize) -> bool
    requires { Within words.now at.0 × (k ≤ at.0) }
    ensures { result ≡ parent_kept (rows_of words.now) k at.0 }
{
    let up = reads::parent(words, at);
    up == DocNo::NONE || reads::find_below(words, RowPlace(k), up).is_some()
}

// The same, where one document is known to be none or held by the first k rows: a row with it for its parent needs no look.
pub fn parent_known(words: &[u32], at: RowPlace, k: usize, found: DocNo) -> bool
    requires { Within words.now at.0 × (k ≤ at.0) × (doc_kept (rows_of words.now) k found.0 ≡ true) }
    ensures { result ≡ parent_kept (rows_of words.now) k at.0 }
{
    reads::parent(words, at) == found || parent_kept(words, at, k)
}

// The parent of the last of the first k rows; where there is none, another document.
fn last_parent(words: &[u32], k: usize, other: DocNo) -> DocNo
    requires { Before words.now k }
    ensures { result.0 ≡ last_parent (rows_of words.now) k other.0 }
{
    if k == 0 {
        other
    } else {
        reads::parent(words, RowPlace(k - 1))
    }
}

// Moves a row down behind the k rows kept so far if it stays. How many are kept then.
pub fn keep_row(words: &mut [u32], at: RowPlace, k: usize, stays: bool) -> usize
    requires { Within words.old at.0 × (k ≤ at.0) }
    ensures { Moved stays words.old at.0 k result words.new }
{
    if !stays {
        return k;
    }
    let row = reads::row(words, at);
    writes::put_row(words, RowPlace(k), row);
    k + 1
}

// What closing the gaps keeps in mind: how many rows are kept, a document that is none or held by one of them, and one that is neither.
// The parent of the last row kept stands in the record. With the one found these are two, so that rows of two windows may come in turn and none needs a look.
#[derive(Clone, Copy)]
pub struct Keeping {
    pub rows: usize,
    pub found: DocNo,
    pub missed: DocNo,
}

// A turn at a row that does not pass and has another parent than the last row kept: it goes if its parent went, else that of the last row kept is the one found.
fn turn_other(words: &mut [u32], at: RowPlace, last: DocNo, kept: Keeping) -> Keeping
    requires { Within words.old at.0 × Knows (rows_of words.old) at.0 kept × (last.0 ≡ last_parent (rows_of words.old) kept.rows kept.found.0) × (parent_at (rows_of words.old) at.0 ≢ last.0) }
    ensures { Turn false words.old at.0 kept result words.new }
{
    let up = reads::parent(words, at);
    if !parent_known(words, at, kept.rows, kept.found) {
        return Keeping { missed: up, ..kept };
    }
    let rows = keep_row(words, at, kept.rows, true);
    Keeping {
        rows,
        found: last,
        ..kept
    }
}

// A turn at a row: it goes if it passes or its parent went, else it is moved down behind the rows kept so far.
// Its own parent is read before that of the last row kept: the compiler then writes the one read first, and no row waits for the write of the one before.
pub fn turn(words: &mut [u32], at: RowPlace, passes: bool, kept: Keeping) -> Keeping
    requires { Within words.old at.0 × Knows (rows_of words.old) at.0 kept }
    ensures { Turn passes words.old at.0 kept result words.new }
{
    if passes {
        return kept;
    }
    let up = reads::parent(words, at);
    if up == kept.missed {
        return kept;
    }
    let last = last_parent(words, kept.rows, kept.found);
    if up != last {
        return turn_other(words, at, last, kept);
    }
    let rows = keep_row(words, at, kept.rows, true);
    Keeping { rows, ..kept }
}

// What a removal empties: the rows right in it go, and all beneath each.
pub trait Emptied {
    // Whether a row is right in it.
    ghost has: { Self → Row → Bool };

    // The same, of the row at a place.
    fn has(self, words: &[u32], at: RowPlace) -> bool
        requires { Within words.now at.0 }
        ensures { result ≡ has self (row_at (rows_of words.now) at.0) };
}

// In a frame are its rows.
impl Emptied for FrameNo {
    ghost has = { λ f r. eqb r.frame f.0 };

    fn has(self, words: &[u32], at: RowPlace) -> bool {
        reads::frame(words, at) == self
    }
}

// In a document are the rows that have it for their parent.
impl Emptied for DocNo {
    ghost has = { λ d r. eqb r.parent d.0 };

    fn has(self, words: &[u32], at: RowPlace) -> bool {
        reads::parent(words, at) == self
    }
}

// Removes the rows that are right in something, with all beneath each, and closes the gaps. How many rows stay.
pub fn close_gaps<E: Emptied + Copy>(words: &mut [u32], emptied: E, start: Keeping) -> usize
    requires { Sound words.old × ((table_of words.old).next_doc ≤ none) × Begins (λ i. E.has emptied (row_at (rows_of words.old) i)) (rows_of words.old) start }
    ensures { Over (without (λ i. E.has emptied (row_at (rows_of words.old) i)) (rows_of words.old)) words.old result words.new }
{
    let n = rows::row_count(words);
    let mut kept = start;
    for i in start.rows..n {
        let passes = emptied.has(words, RowPlace(i));
        kept = turn(words, RowPlace(i), passes, kept);
    }
    kept.rows
}

// The row that holds a document, where one of the first k rows does.
pub fn place_before(words: &[u32], k: usize, d: DocNo) -> RowPlace
    requires { Before words.now k × So (some_below k (is_doc (rows_of words.now) d.0)) }
    ensures { (result.0 < k) × (doc_at (rows_of words.now) result.0 ≡ d.0) }
{
    reads::find_below(words, RowPlace(k), d).unwrap_or(RowPlace(0))
}

// Makes the words of the rows past the first k zero, up to n rows; none where n is no more.
pub fn clear_rows(words: &mut [u32], k: usize, n: usize)
    requires { (3 + 4 * n ≤ length words.old) × (n ≤ 512) × (k ≤ 512) }
    ensures { words.new ≡ put words.old (3 + 4 * k) (replicate (4 * (n - k)) 0) }
{
    if k < n {
        writes::clear(words, 3 + 4 * k, 3 + 4 * n);
    }
}

// Ends a record after its first k rows: the words of the others, up to n, become zero, and the head tells k and the next numbers.
pub fn end_rows(words: &mut [u32], k: usize, n: usize, next: DocNo, top: FrameNo)
    requires { (3 + 4 * n ≤ length words.old) × (n ≤ 512) × (k ≤ 512) }
    ensures { words.new ≡ ended words.old k n next.0 top.0 }
{
    clear_rows(words, k, n);
    writes::put_head(words, k, next, top);
}
