// Writing the record: a row, the three words before the rows, a row's document or flag, zeros, words copied. Each leaves every other word as it was.
#![tactic(auto)]

ghost use Rattle.std.specs.Prelude.{◌≡◌, [], ◌∷◌, ◌+◌, ◌-◌, ◌*◌, ◌<◌, ◌≤◌, length, replicate, set, take};
ghost use Rattle.rules.specs.Words.{capacity, put};

use base::{DocNo, FrameNo, Row, RowPlace};

// Writes a row.
pub fn put_row(words: &mut [u32], at: RowPlace, row: Row)
    requires { at.0 < capacity words.old }
    ensures { words.new ≡ put words.old (3 + 4 * at.0) (row.document.0 ∷ row.frame.0 ∷ row.parent.0 ∷ row.shown ∷ []) }
{
    let i = at.0;
    let k = 3 + 4 * i;
    words[k] = row.document.0;
    words[k + 1] = row.frame.0;
    words[k + 2] = row.parent.0;
    words[k + 3] = row.shown;
}

// Writes the document of a row.
pub fn put_document(words: &mut [u32], at: RowPlace, d: DocNo)
    requires { at.0 < capacity words.old }
    ensures { words.new ≡ put words.old (3 + 4 * at.0) (d.0 ∷ []) }
{
    let i = at.0;
    let k = 3 + 4 * i;
    words[k] = d.0;
}

// Writes the flag of a row.
pub fn put_flag(words: &mut [u32], at: RowPlace, shown: u32)
    requires { at.0 < capacity words.old }
    ensures { words.new ≡ put words.old (6 + 4 * at.0) (shown ∷ []) }
{
    let i = at.0;
    let k = 6 + 4 * i;
    words[k] = shown;
}

// Writes the rows in use and both next numbers.
pub fn put_head(words: &mut [u32], n: usize, d: DocNo, f: FrameNo)
    requires { (3 ≤ length words.old) × (n ≤ 512) }
    ensures { words.new ≡ put words.old 0 (n ∷ d.0 ∷ f.0 ∷ []) }
{
    words[0] = n as u32;
    words[1] = d.0;
    words[2] = f.0;
}

// Makes the words from one place up to another zero.
pub fn clear(words: &mut [u32], from: usize, to: usize)
    requires { (from ≤ to) × (to ≤ length words.old) }
    ensures { words.new ≡ put words.old from (replicate (to - from) 0) }
{
    for word in &mut words[from..to] {
        *word = 0;
    }
}

// Stores a value at a place, where there is one.
pub fn store(list: &mut [u32], k: usize, v: u32)
    ensures { list.new ≡ set list.old k v }
{
    if k < list.len() {
        list[k] = v;
    }
}

// Copies the words before a place.
pub fn copy(words: &mut [u32], from: &[u32], end: usize)
    requires { (end ≤ length words.old) × (end ≤ length from.now) }
    ensures { words.new ≡ put words.old 0 (take end from.now) }
{
    words[..end].copy_from_slice(&from[..end]);
}
