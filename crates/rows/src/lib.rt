// Reading any words as a record: capacity, numbers, rows, and what is found among them. A row is read where there is room for the rows in use; past them every number is 0.
#![tactic(auto)]

ghost use Rattle.std.specs.Prelude.{◌≡◌, length, get_or};
ghost use Rattle.rules.specs.Rows.{row_at, is_doc};
ghost use Rattle.rules.specs.Words.{capacity, table_of, rows_of};
ghost use Rattle.reads.specs.Found.{found_below};
ghost use Rattle.reads.specs.Within.{read_of};
ghost use Rattle.rows.specs.Readable.{readable_rows};

use base::{DocNo, FrameNo, Row, RowPlace};

// A word; 0 past the end.
fn word(words: &[u32], k: usize) -> u32
    ensures { result ≡ get_or words.now k 0 }
{
    words.get(k).copied().unwrap_or(0)
}

// How many rows the words have room for.
pub fn capacity(words: &[u32]) -> usize
    ensures { result ≡ capacity words.now }
{
    (words.len().saturating_sub(3) / 4).min(512)
}

// The rows in use.
pub fn row_count(words: &[u32]) -> usize
    ensures { result ≡ length (rows_of words.now) }
{
    word(words, 0) as usize
}

// The next document number.
pub fn next_document(words: &[u32]) -> DocNo
    ensures { result.0 ≡ (table_of words.now).next_doc }
{
    DocNo(word(words, 1))
}

// The next frame number.
pub fn next_frame_number(words: &[u32]) -> FrameNo
    ensures { result.0 ≡ (table_of words.now).next_frame }
{
    FrameNo(word(words, 2))
}

// How many rows can be read: those in use, or none where there is no room for them.
pub fn readable_count(words: &[u32]) -> usize
    ensures { result ≡ length (readable_rows words.now) }
{
    let n = row_count(words);
    if capacity(words) < n { 0 } else { n }
}

// A row; four zeros past those that can be read.
pub fn read_row(words: &[u32], at: RowPlace) -> Row
    ensures { result ≡ read_of (row_at (readable_rows words.now) at.0) }
{
    if readable_count(words) <= at.0 {
        return Row {
            document: DocNo(0),
            frame: FrameNo(0),
            parent: DocNo(0),
            shown: 0,
        };
    }
    reads::row(words, at)
}

// The row of a document.
pub fn find(words: &[u32], d: DocNo) -> Option<RowPlace>
    ensures { result ≡ found_below (is_doc (readable_rows words.now) d.0) (length (readable_rows words.now)) }
{
    let n = readable_count(words);
    if n == 0 {
        return None;
    }
    reads::find_below(words, RowPlace(n), d)
}
