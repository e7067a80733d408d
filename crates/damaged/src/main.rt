// Saved bytes, whole and damaged, loaded: what the loading calls answer, and whether a refused record reads as before. And the bytes themselves, byte by byte: of a record, in both
// forms; of one with a document replaced; of one with two windows; and of what was loaded from these, saved again.
//
// The bytes are those of document 01's record X: 4 frames, next numbers 6 and 4; frames (number, parent, documents, shown place) from byte 12 on, (0, none, 1, 0), (1, 0, 2, 0),
// (2, 1, 2, 1), (3, 0, 1, 0); then from byte 76 on documents, each with its row place, which is the same number: 0; 1, 5; 2, 4; 3. In the old form there are only the documents.
#![tactic(auto)]

ghost use Rattle.std.specs.Prelude.{◌<◌};

use base::{DocNo, Refusal};
use std::io;

// No parent.
const NONE: u32 = DocNo::NONE.0;

// Writes bytes, each as a number.
fn say_bytes(rt: &impl Print, bytes: &[u8]) -> io::Result<()> {
    for byte in bytes {
        print!(rt; " {byte}")?;
    }
    println!(rt; "")
}

// Document 01's record X.
fn record_x() -> [u32; 35] {
    [
        6, 6, 4, 0, 0, NONE, 1, 1, 1, 0, 1, 2, 2, 1, 0, 3, 3, 0, 1, 4, 2, 1, 1, 5, 1, 0, 0, 0, 0,
        0, 0, 0, 0, 0, 0,
    ]
}

// Documents 0 and 2 of root frame 0, of which 0 is shown, 1 and 3 of root frame 1, of which 3 is, and 4 in document 1: sound by windows, and not as one.
fn pair() -> [u32; 23] {
    [
        5, 5, 3, 0, 0, NONE, 1, 1, 1, NONE, 0, 2, 0, NONE, 0, 3, 1, NONE, 1, 4, 2, 1, 1,
    ]
}

// The two forms in which a record is saved.
#[derive(Clone, Copy)]
enum Version {
    New,
    Old,
}

// Bytes of a form: so many of these.
#[derive(Clone, Copy)]
struct Form {
    bytes: [u8; 125],
    len: usize,
    version: Version,
}

// A record as saved.
fn saved_of(rt: &impl Print, name: &str, words: &[u32]) -> io::Result<Form> {
    let mut bytes = [0u8; 125];
    let mut len = 0;
    match saved::save(words, &mut bytes) {
        Ok(n) => {
            println!(rt; "{name} has {n} bytes")?;
            len = n;
        }
        Err(_) => println!(rt; "{name} is refused")?,
    }
    Ok(Form {
        bytes,
        len,
        version: Version::New,
    })
}

// Writes the first n bytes, where there are so many.
fn say_first(rt: &impl Print, bytes: &[u8], n: usize) -> io::Result<()> {
    if n <= bytes.len() {
        say_bytes(rt, &bytes[0..n])?;
    }
    Ok(())
}

// Tells the bytes of a form.
fn tell(rt: &impl Print, f: Form) -> io::Result<()> {
    let bytes = f.bytes;
    say_first(rt, &bytes, f.len)
}

// X with document 1 replaced, as saved.
fn saved_renewed(rt: &impl Print) -> io::Result<Form> {
    let mut words = record_x();
    match replaces::replace(&mut words, DocNo(1)) {
        Ok(d) => println!(rt; "document 1 replaced by {d}")?,
        Err(_) => println!(rt; "document 1 not replaced")?,
    }
    saved_of(rt, "X with document 1 replaced", &words)
}

// Where byte k of the old form stands in the new one, after so many bytes of contents: these are the same, and of each entry the document comes first.
fn source(head: usize, k: usize) -> usize
    requires { k < 125 }
{
    if k < head {
        return k;
    }
    let i = k - head;
    k + 4 * (i / 4)
}

// A byte; 0 where there is none.
fn byte_at(bytes: &[u8], at: usize) -> u8 {
    if at < bytes.len() { bytes[at] } else { 0 }
}

// A record as it was saved in the old form, with so many bytes of contents and so many in all.
fn old_form(whole: Form, head: usize, len: usize) -> Form {
    let from = whole.bytes;
    let mut bytes = [0u8; 125];
    for k in 0..125 {
        bytes[k] = byte_at(&from, source(head, k));
    }
    Form {
        bytes,
        len,
        version: Version::Old,
    }
}

// Whether every word is 7.
fn all_sevens(words: &[u32]) -> bool {
    words.iter().all(|word| *word == 7)
}

// Loads bytes by the call of a form.
fn load(version: Version, words: &mut [u32], bytes: &[u8]) -> Result<usize, Refusal> {
    match version {
        Version::New => loads::load(words, bytes),
        Version::Old => loads_old::load_old(words, bytes),
    }
}

// Loads bytes over sevens, and tells the answer.
fn load_over(
    rt: &impl Print,
    name: &str,
    version: Version,
    words: &mut [u32],
    bytes: &[u8],
) -> io::Result<()> {
    match load(version, words, bytes) {
        Ok(n) => println!(rt; "{name}: {n} rows"),
        Err(r) => {
            let record = if all_sevens(words) { "kept" } else { "changed" };
            println!(rt; "{name}: refused {r}, record {record}")
        }
    }
}

// Loads the first n bytes, where there are so many.
fn load_first(
    rt: &impl Print,
    name: &str,
    version: Version,
    words: &mut [u32],
    bytes: &[u8],
    n: usize,
) -> io::Result<()> {
    if n <= bytes.len() {
        load_over(rt, name, version, words, &bytes[0..n])?;
    }
    Ok(())
}

// Loads the first n bytes of a form into a record of 8 rows.
fn cut(rt: &impl Print, name: &str, f: Form, n: usize) -> io::Result<()> {
    let bytes = f.bytes;
    let mut words = [7u32; 35];
    load_first(rt, name, f.version, &mut words, &bytes, n)
}

// Puts a byte, where there is one.
fn put(bytes: &mut [u8], at: usize, v: u8) {
    if at < bytes.len() {
        bytes[at] = v;
    }
}

// Loads bytes with two of them changed.
fn changed_twice(
    rt: &impl Print,
    name: &str,
    f: Form,
    at: usize,
    v: u8,
    and: usize,
    w: u8,
) -> io::Result<()> {
    let mut bytes = f.bytes;
    put(&mut bytes, at, v);
    put(&mut bytes, and, w);
    let mut words = [7u32; 35];
    load_first(rt, name, f.version, &mut words, &bytes, f.len)
}

// Loads bytes with one of them changed.
fn changed(rt: &impl Print, name: &str, f: Form, at: usize, v: u8) -> io::Result<()> {
    changed_twice(rt, name, f, at, v, at, v)
}

// Too few bytes, and too many.
fn lengths(rt: &impl Print, f: Form) -> io::Result<()> {
    let n = f.len;
    cut(rt, "whole", f, n)?;
    cut(rt, "no bytes", f, 0)?;
    cut(rt, "11 bytes", f, 11)?;
    cut(rt, "12 bytes", f, 12)?;
    if 4 <= n {
        cut(rt, "4 bytes fewer", f, n - 4)?;
        cut(rt, "a byte fewer", f, n - 1)?;
    }
    if n < 125 {
        cut(rt, "a byte more", f, n + 1)?;
    }
    Ok(())
}

// Counts that tell of another length, past 32 and 64 bits too.
fn counts(rt: &impl Print, f: Form) -> io::Result<()> {
    changed(rt, "no frame", f, 3, 0)?;
    changed(rt, "five frames", f, 3, 5)?;
    changed(rt, "2^28 frames more", f, 0, 16)?;
    changed(rt, "2^31 frames more", f, 0, 128)?;
    changed(rt, "a frame with no document", f, 23, 0)?;
    changed(rt, "2^30 documents more", f, 20, 64)?;
    changed_twice(rt, "2^32 bytes of documents", f, 20, 64, 36, 192)
}

// Frames that Save would not write so.
fn frames(rt: &impl Print, f: Form) -> io::Result<()> {
    changed_twice(rt, "frames out of order", f, 31, 2, 47, 1)?;
    changed(rt, "one frame twice", f, 47, 1)?;
    changed(rt, "shown place not below the count", f, 27, 1)?;
    changed(rt, "a shown place past 2^24", f, 40, 1)
}

// Entries that Save would not write so, and two documents in another order, which it would.
fn entries(rt: &impl Print, f: Form) -> io::Result<()> {
    changed(rt, "a document of two frames", f, 103, 1)?;
    changed_twice(rt, "a child before its parent", f, 87, 5, 95, 1)?;
    changed_twice(rt, "row places out of order", f, 91, 5, 99, 1)?;
    changed(rt, "a row place twice", f, 107, 1)?;
    changed(rt, "a row place past the rows", f, 123, 6)?;
    changed(rt, "a row place past 2^24", f, 120, 1)?;
    changed_twice(rt, "documents out of order", f, 103, 4, 111, 2)
}

// Documents that Save would not have written so.
fn documents(rt: &impl Print, f: Form) -> io::Result<()> {
    changed(rt, "a document of two frames", f, 91, 1)?;
    changed_twice(rt, "documents out of order", f, 91, 4, 95, 2)
}

// Bytes of the right shape that tell an unsound record, and two that tell a sound one.
fn records(rt: &impl Print, f: Form) -> io::Result<()> {
    changed(rt, "next document in use", f, 7, 5)?;
    changed(rt, "next frame in use", f, 11, 3)?;
    changed(rt, "a parent later than its child", f, 67, 4)?;
    changed(rt, "a parent that is not there", f, 67, 9)?;
    changed(rt, "a root with a parent", f, 16, 0)?;
    changed_twice(rt, "5 shown while 4 is upcoming", f, 43, 1, 59, 0)?;
    changed(rt, "another next document", f, 7, 9)?;
    changed(rt, "5 shown", f, 43, 1)
}

// Records with too little room: 3 goes before 7, 1 before both.
fn rooms(rt: &impl Print, f: Form) -> io::Result<()> {
    let bytes = f.bytes;
    let mut five = [7u32; 23];
    load_first(rt, "room for five", f.version, &mut five, &bytes, f.len)?;
    load_first(
        rt,
        "room for five, 99 bytes",
        f.version,
        &mut five,
        &bytes,
        99,
    )?;
    let mut six = [7u32; 6];
    load_first(rt, "6 words", f.version, &mut six, &bytes, f.len)?;
    load_first(rt, "6 words, no bytes", f.version, &mut six, &bytes, 0)?;
    let mut enough = [7u32; 27];
    load_first(rt, "room for six", f.version, &mut enough, &bytes, f.len)
}

// What both forms have alike.
fn either(rt: &impl Print, f: Form) -> io::Result<()> {
    lengths(rt, f)?;
    counts(rt, f)?;
    frames(rt, f)?;
    records(rt, f)?;
    rooms(rt, f)
}

// The other form.
fn other_version(version: Version) -> Version {
    match version {
        Version::New => Version::Old,
        Version::Old => Version::New,
    }
}

// The bytes of one form, given to the other's call.
fn other(rt: &impl Print, name: &str, f: Form) -> io::Result<()> {
    let bytes = f.bytes;
    let mut words = [7u32; 35];
    load_first(
        rt,
        name,
        other_version(f.version),
        &mut words,
        &bytes,
        f.len,
    )
}

// Loads bytes, saves the record that they tell, and tells the bytes.
fn again(rt: &impl Print, f: Form) -> io::Result<()> {
    let bytes = f.bytes;
    let mut words = [7u32; 35];
    load_first(rt, "loaded", f.version, &mut words, &bytes, f.len)?;
    let form = saved_of(rt, "what was loaded", &words)?;
    tell(rt, form)
}

fn main(rt: HostRuntime) -> io::Result<()> {
    let whole = saved_of(&rt, "X", &record_x())?;
    tell(&rt, whole)?;
    again(&rt, whole)?;
    either(&rt, whole)?;
    entries(&rt, whole)?;
    other(&rt, "to the old form's call", whole)?;
    println!(rt; "The old form")?;
    let old = old_form(whole, 76, 100);
    tell(&rt, old)?;
    again(&rt, old)?;
    either(&rt, old)?;
    documents(&rt, old)?;
    other(&rt, "to the new form's call", old)?;
    let renewed = saved_renewed(&rt)?;
    tell(&rt, renewed)?;
    again(&rt, renewed)?;
    other(&rt, "to the old form's call", renewed)?;
    let windows = saved_of(&rt, "A record of two windows", &pair())?;
    tell(&rt, windows)?;
    again(&rt, windows)?;
    cut(&rt, "in the old form", old_form(windows, 60, 80), 80)
}
