// Numbers as the saved form has them, and what is made of a few: the numbers in front, a frame's line in the contents, a row's entry.
#![tactic(auto)]

ghost use Rattle.std.specs.Prelude.{◌≡◌, ◌+◌, ◌≤◌, length};
ghost use Rattle.rules.specs.Words.{rows_of};
ghost use Rattle.rules.specs.Saved.{number, entry};
ghost use Rattle.laws.specs.Writes.{Wrote};
ghost use Rattle.reads.specs.Within.{Within};
ghost use Rattle.numerals.specs.Lines.{head, line};

use base::{DocNo, FrameNo, RowPlace};

// Writes a number, big-endian, and answers the place after it.
pub fn put_number(bytes: &mut [u8], at: usize, x: u32) -> usize
    requires { at + 4 ≤ length bytes.old }
    ensures { Wrote bytes.old at (number x) bytes.new result × (result ≡ at + 4) }
{
    bytes[at..at + 4].copy_from_slice(&x.to_be_bytes());
    at + 4
}

// Writes the three numbers in front, and answers the place after them.
pub fn put_head(bytes: &mut [u8], count: u32, next: DocNo, top: FrameNo) -> usize
    requires { 12 ≤ length bytes.old }
    ensures { Wrote bytes.old 0 (head count next.0 top.0) bytes.new result × (result ≡ 12) }
{
    let p = put_number(bytes, 0, count);
    let q = put_number(bytes, p, next.0);
    put_number(bytes, q, top.0)
}

// Writes a frame's line in the contents, and answers the place after it.
pub fn put_line(
    bytes: &mut [u8],
    at: usize,
    f: FrameNo,
    parent: DocNo,
    docs: u32,
    place: u32,
) -> usize
    requires { at + 16 ≤ length bytes.old }
    ensures { Wrote bytes.old at (line f.0 parent.0 docs place) bytes.new result × (result ≡ at + 16) }
{
    let p = put_number(bytes, at, f.0);
    let q = put_number(bytes, p, parent.0);
    let r = put_number(bytes, q, docs);
    put_number(bytes, r, place)
}

// Writes the entry of a row, its document and its place, and answers the place after it.
pub fn put_entry(words: &[u32], row: RowPlace, bytes: &mut [u8], at: usize) -> usize
    requires { Within words.now row.0 × (at + 8 ≤ length bytes.old) }
    ensures { Wrote bytes.old at (entry (rows_of words.now) row.0) bytes.new result × (result ≡ at + 8) }
{
    let p = put_number(bytes, at, reads::document(words, row).0);
    put_number(bytes, p, row.0 as u32)
}
