// What a host calls: each call answers 0 or the refusal's number, and its values through out words, which keep what they hold on refusal. What refusal 5
// carries is told through an out word of its own, the only one that a refusal writes.
#![tactic(auto)]

ghost use Rattle.std.specs.Prelude.{◌≡◌, [], ◌∷◌};
ghost use Rattle.rules.specs.Places.{Place as Paper};
ghost use Rattle.rules.specs.Calls.{Call, outcome};
ghost use Rattle.changes.specs.Changes.{plain};
ghost use Rattle.base.specs.Numbers.{number_of, carried_by};
ghost use Rattle.frame_history.specs.Face.{face, carried_or, hiding_face, face_over, Small, SmallContents, ToldDone, ToldCount, ToldDocument, ToldContents, place_outs, ToldPlace};

use base::{DocNo, FrameNo, Refusal};
use changes::ChangeRow;
use contents::Told;
use points::{Place, Point};

// The document that a refusal carries, or what was there.
fn carried_or(why: Refusal, old: u32) -> u32
    ensures { result ≡ carried_or (carried_by why) old }
{
    match why.carried() {
        Some(d) => d.0,
        None => old,
    }
}

// The number of a refusal, and through an out word the document that it carries.
fn refused(why: Refusal, hiding: &mut u32) -> u32
    ensures { (result ≡ number_of why) × (hiding.new ≡ carried_or (carried_by why) hiding.old) }
{
    *hiding = carried_or(why, *hiding);
    u32::from(why)
}

// What a host sees of an answer without values.
fn told_done(answer: Result<(), Refusal>) -> u32
    ensures { ToldDone answer result }
{
    match answer {
        Ok(()) => 0,
        Err(r) => u32::from(r),
    }
}

// What a host sees of an answer that is a count: that through its out word.
fn told_count(answer: Result<usize, Refusal>, count: &mut u32) -> u32
    requires { Small answer }
    ensures { ToldCount answer count.old count.new result }
{
    match answer {
        Ok(n) => {
            *count = n as u32;
            0
        }
        Err(r) => u32::from(r),
    }
}

// What a host sees of an answer that is a document: that through its out word, and through another the document that a refusal carries.
fn told_document(answer: Result<DocNo, Refusal>, document: &mut u32, hiding: &mut u32) -> u32
    ensures { ToldDocument answer document.old hiding.old document.new hiding.new result }
{
    match answer {
        Ok(d) => {
            *document = d.0;
            0
        }
        Err(why) => refused(why, hiding),
    }
}

// Writes the record of a new window: one document in the root frame.
pub fn frame_history_fresh(words: &mut [u32]) -> u32
    ensures { face (outcome (Call.Fresh words.old)) [] ≡ record { number = result; outs = []; lent = words.new ∷ [] } }
{
    let answer = moves::fresh(words);
    told_done(answer)
}

// Opens a frame under a visible document: the numbers of the new document and its frame.
pub fn frame_history_open(
    words: &mut [u32],
    parent: u32,
    document: &mut u32,
    frame: &mut u32,
    hiding: &mut u32,
) -> u32
    ensures { hiding_face (outcome (Call.Open words.old parent)) (document.old ∷ frame.old ∷ []) hiding.old
        ≡ record { seen = record { number = result; outs = document.new ∷ frame.new ∷ []; lent = words.new ∷ [] }; hiding = hiding.new } }
{
    match moves::open_frame(words, DocNo(parent)) {
        Ok(opened) => {
            *document = opened.document.0;
            *frame = opened.frame.0;
            0
        }
        Err(r) => refused(r, hiding),
    }
}

// Opens a window: the numbers of its document and its root frame.
pub fn frame_history_tab(words: &mut [u32], document: &mut u32, frame: &mut u32) -> u32
    ensures { face (outcome (Call.Tab words.old)) (document.old ∷ frame.old ∷ [])
        ≡ record { number = result; outs = document.new ∷ frame.new ∷ []; lent = words.new ∷ [] } }
{
    match moves::open_window(words) {
        Ok(window) => {
            *document = window.document.0;
            *frame = window.frame.0;
            0
        }
        Err(r) => u32::from(r),
    }
}

// Navigates from a visible document: the number of the new document.
pub fn frame_history_navigate(
    words: &mut [u32],
    from: u32,
    document: &mut u32,
    hiding: &mut u32,
) -> u32
    ensures { hiding_face (outcome (Call.Navigate words.old from)) (document.old ∷ []) hiding.old
        ≡ record { seen = record { number = result; outs = document.new ∷ []; lent = words.new ∷ [] }; hiding = hiding.new } }
{
    let answer = navigates::navigate(words, DocNo(from));
    told_document(answer, document, hiding)
}

// Takes a frame out, with all beneath it: how many rows went.
pub fn frame_history_drop(words: &mut [u32], frame: u32, removed: &mut u32, hiding: &mut u32) -> u32
    ensures { hiding_face (outcome (Call.Drop words.old frame)) (removed.old ∷ []) hiding.old
        ≡ record { seen = record { number = result; outs = removed.new ∷ []; lent = words.new ∷ [] }; hiding = hiding.new } }
{
    match drops::drop_frame(words, FrameNo(frame)) {
        Ok(n) => {
            *removed = n;
            0
        }
        Err(r) => refused(r, hiding),
    }
}

// Replaces a visible document in its own row: the number of the new one.
pub fn frame_history_replace(
    words: &mut [u32],
    document: u32,
    replacement: &mut u32,
    hiding: &mut u32,
) -> u32
    ensures { hiding_face (outcome (Call.Replace words.old document)) (replacement.old ∷ []) hiding.old
        ≡ record { seen = record { number = result; outs = replacement.new ∷ []; lent = words.new ∷ [] }; hiding = hiding.new } }
{
    let answer = replaces::replace(words, DocNo(document));
    told_document(answer, replacement, hiding)
}

// Traverses a window by a signed amount: how many change rows are written, of four words each.
pub fn frame_history_traverse(
    words: &mut [u32],
    root: u32,
    delta: i32,
    changes: &mut [u32],
    count: &mut u32,
) -> u32
    ensures { face (outcome (Call.Traverse words.old root delta changes.old)) (count.old ∷ [])
        ≡ record { number = result; outs = count.new ∷ []; lent = words.new ∷ changes.new ∷ [] } }
{
    let answer = traverses::traverse(words, FrameNo(root), delta, changes);
    told_count(answer, count)
}

// Traverses a window by a signed amount: how many change rows are written, into rows lent as structs.
pub fn frame_history_traverse_rows(
    words: &mut [u32],
    root: u32,
    delta: i32,
    rows: &mut [ChangeRow],
    count: &mut u32,
) -> u32
    ensures { face (outcome (Call.Traverse words.old root delta (plain rows.old))) (count.old ∷ [])
        ≡ record { number = result; outs = count.new ∷ []; lent = words.new ∷ plain rows.new ∷ [] } }
{
    let answer = changes::traverse(words, FrameNo(root), delta, rows);
    told_count(answer, count)
}

// Position and steps of a window, and the length for scripts.
pub fn frame_history_position(
    words: &[u32],
    root: u32,
    position: &mut u32,
    steps: &mut u32,
    length: &mut u32,
) -> u32
    ensures { face (outcome (Call.Position words.now root)) (position.old ∷ steps.old ∷ length.old ∷ [])
        ≡ record { number = result; outs = position.new ∷ steps.new ∷ length.new ∷ []; lent = [] } }
{
    match lists::position(words, FrameNo(root)) {
        Ok(s) => {
            *position = s.position as u32;
            *steps = s.steps as u32;
            *length = s.length as u32;
            0
        }
        Err(r) => u32::from(r),
    }
}

// Whether a document is visible: 1 or 0; who hides it; and how many parent links were followed.
pub fn frame_history_visible(
    words: &[u32],
    document: u32,
    answer: &mut u32,
    hiding: &mut u32,
    links: &mut u32,
) -> u32
    ensures { face (outcome (Call.Visible words.now document)) (answer.old ∷ hiding.old ∷ links.old ∷ [])
        ≡ record { number = result; outs = answer.new ∷ hiding.new ∷ links.new ∷ []; lent = [] } }
{
    match asks::visible(words, DocNo(document)) {
        Ok(sight) => {
            match sight.hider {
                None => {
                    *answer = 1;
                    *hiding = DocNo::NONE.0;
                }
                Some(h) => {
                    *answer = 0;
                    *hiding = h.0;
                }
            }
            *links = sight.links;
            0
        }
        Err(r) => u32::from(r),
    }
}

// Taken steps of a window, latest first, and upcoming ones, earliest first: how many of each are written.
pub fn frame_history_lists(
    words: &[u32],
    root: u32,
    taken: &mut [u32],
    upcoming: &mut [u32],
    takens: &mut u32,
    upcomings: &mut u32,
) -> u32
    ensures { face (outcome (Call.Lists words.now root taken.old upcoming.old)) (takens.old ∷ upcomings.old ∷ [])
        ≡ record { number = result; outs = takens.new ∷ upcomings.new ∷ []; lent = taken.new ∷ upcoming.new ∷ [] } }
{
    match lists::lists(words, FrameNo(root), taken, upcoming) {
        Ok(listed) => {
            *takens = listed.taken as u32;
            *upcomings = listed.upcoming as u32;
            0
        }
        Err(r) => u32::from(r),
    }
}

// How many entries the stretch by an amount has of the caller's own lists.
pub fn frame_history_stretch<'a>(
    taken: &'a [u32],
    upcoming: &'a [u32],
    delta: i32,
    count: &mut u32,
) -> u32
    ensures { face (outcome (Call.StretchCount taken.now upcoming.now delta)) (count.old ∷ [])
        ≡ record { number = result; outs = count.new ∷ []; lent = [] } }
{
    let answer = asks::stretch_count(taken, upcoming, delta);
    told_count(answer, count)
}

// The visible documents of a window with their depths: how many pairs are written, of two words each.
pub fn frame_history_outline(words: &[u32], root: u32, pairs: &mut [u32], count: &mut u32) -> u32
    ensures { face (outcome (Call.Outline words.now root pairs.old)) (count.old ∷ [])
        ≡ record { number = result; outs = count.new ∷ []; lent = pairs.new ∷ [] } }
{
    let answer = outlines::outline(words, FrameNo(root), pairs);
    told_count(answer, count)
}

// Writes the saved form of a record: its length in bytes.
pub fn frame_history_save(words: &[u32], bytes: &mut [u8], length: &mut u32) -> u32
    ensures { face (outcome (Call.Save words.now bytes.old)) (length.old ∷ [])
        ≡ record { number = result; outs = length.new ∷ []; lent = bytes.new ∷ [] } }
{
    let answer = saved::save(words, bytes);
    told_count(answer, length)
}

// Fills a record from bytes that Save wrote: how many rows it has.
pub fn frame_history_load(words: &mut [u32], bytes: &[u8], rows: &mut u32) -> u32
    ensures { face (outcome (Call.Load words.old bytes.now)) (rows.old ∷ [])
        ≡ record { number = result; outs = rows.new ∷ []; lent = words.new ∷ [] } }
{
    let answer = loads::load(words, bytes);
    told_count(answer, rows)
}

// Fills a record from bytes of the old form: how many rows it has.
pub fn frame_history_load_old(words: &mut [u32], bytes: &[u8], rows: &mut u32) -> u32
    ensures { face (outcome (Call.LoadOld words.old bytes.now)) (rows.old ∷ [])
        ≡ record { number = result; outs = rows.new ∷ []; lent = words.new ∷ [] } }
{
    let answer = loads_old::load_old(words, bytes);
    told_count(answer, rows)
}

// What a host sees of the contents: position and steps through their out words.
fn told_contents(answer: Result<Told, Refusal>, position: &mut u32, steps: &mut u32) -> u32
    requires { SmallContents answer }
    ensures { ToldContents answer position.old steps.old position.new steps.new result }
{
    match answer {
        Ok(told) => {
            *position = told.position as u32;
            *steps = told.steps as u32;
            0
        }
        Err(r) => u32::from(r),
    }
}

// Whether Back and Forward would work in a saved window, by the contents of its bytes: its position and its steps.
pub fn frame_history_contents(bytes: &[u8], position: &mut u32, steps: &mut u32) -> u32
    ensures { face (outcome (Call.Contents bytes.now)) (position.old ∷ steps.old ∷ [])
        ≡ record { number = result; outs = position.new ∷ steps.new ∷ []; lent = [] } }
{
    let answer = contents::contents(bytes);
    told_contents(answer, position, steps)
}

// The same of bytes of the old form.
pub fn frame_history_contents_old(bytes: &[u8], position: &mut u32, steps: &mut u32) -> u32
    ensures { face (outcome (Call.ContentsOld bytes.now)) (position.old ∷ steps.old ∷ [])
        ≡ record { number = result; outs = position.new ∷ steps.new ∷ []; lent = [] } }
{
    let answer = contents::contents_old(bytes);
    told_contents(answer, position, steps)
}

// Sets that the page of a document places itself.
pub fn frame_history_place_itself(words: &[u32], places: &mut [u64], document: u32) -> u32
    ensures { face (outcome (Call.SetPlace words.now places.old document Paper.itself)) []
        ≡ record { number = result; outs = []; lent = places.new ∷ [] } }
{
    let answer = places::set_place(words, places, DocNo(document), Place::Itself);
    told_done(answer)
}

// Sets a document's place at a point.
pub fn frame_history_place_at(words: &[u32], places: &mut [u64], document: u32, point: Point) -> u32
    ensures { face (outcome (Call.SetPlace words.now places.old document (Paper.at point.x point.y))) []
        ≡ record { number = result; outs = []; lent = places.new ∷ [] } }
{
    let answer = places::set_place(words, places, DocNo(document), Place::At(point));
    told_done(answer)
}

// What a host sees of a place: its kind, and the point through its out doubles, which keep what they hold where the page places itself.
fn told_place(answer: Result<Place, Refusal>, kind: &mut u32, x: &mut f64, y: &mut f64) -> u32
    ensures { ToldPlace answer (place_outs kind.old x.old y.old) (place_outs kind.new x.new y.new) result }
{
    match answer {
        Ok(place) => match place {
            Place::Itself => {
                *kind = 0;
                0
            }
            Place::At(p) => {
                *kind = 1;
                *x = p.x;
                *y = p.y;
                0
            }
        },
        Err(r) => u32::from(r),
    }
}

// A document's place: 0 where the page places itself, or 1 and the point.
pub fn frame_history_place(
    words: &[u32],
    places: &[u64],
    document: u32,
    kind: &mut u32,
    x: &mut f64,
    y: &mut f64,
) -> u32
    ensures { face_over (outcome (Call.AskPlace words.now places.now document)) (place_outs kind.old x.old y.old)
        ≡ record { number = result; outs = place_outs kind.new x.new y.new; lent = [] } }
{
    let answer = places::place(words, places, DocNo(document));
    told_place(answer, kind, x, y)
}

// A document's place at a page zoom.
pub fn frame_history_place_at_zoom(
    words: &[u32],
    places: &[u64],
    document: u32,
    zoom: f64,
    kind: &mut u32,
    x: &mut f64,
    y: &mut f64,
) -> u32
    ensures { face_over (outcome (Call.AskAtZoom words.now places.now document zoom)) (place_outs kind.old x.old y.old)
        ≡ record { number = result; outs = place_outs kind.new x.new y.new; lent = [] } }
{
    let answer = places::place_at_zoom(words, places, DocNo(document), zoom);
    told_place(answer, kind, x, y)
}
