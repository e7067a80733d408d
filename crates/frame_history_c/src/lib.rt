// The calls of `frame_history` as C links them: each symbol is that function, with its promise.
#![tactic(auto)]

ghost use Rattle.std.specs.Prelude.{◌≡◌, [], ◌∷◌};
ghost use Rattle.rules.specs.Places.{Place as Paper};
ghost use Rattle.rules.specs.Calls.{Call, outcome};
ghost use Rattle.changes.specs.Changes.{plain};
ghost use Rattle.frame_history.specs.Face.{face, hiding_face, face_over, place_outs};

use changes::ChangeRow;
use points::Point;

// Writes the record of a new window: one document in the root frame.
#[unsafe(no_mangle)]
pub extern "C" fn frame_history_fresh(words: &mut [u32]) -> u32
    ensures { face (outcome (Call.Fresh words.old)) [] ≡ record { number = result; outs = []; lent = words.new ∷ [] } }
{
    frame_history::frame_history_fresh(words)
}

// Opens a frame under a visible document: the numbers of the new document and its frame.
#[unsafe(no_mangle)]
pub extern "C" fn frame_history_open(
    words: &mut [u32],
    parent: u32,
    document: &mut u32,
    frame: &mut u32,
    hiding: &mut u32,
) -> u32
    ensures { hiding_face (outcome (Call.Open words.old parent)) (document.old ∷ frame.old ∷ []) hiding.old
        ≡ record { seen = record { number = result; outs = document.new ∷ frame.new ∷ []; lent = words.new ∷ [] }; hiding = hiding.new } }
{
    frame_history::frame_history_open(words, parent, document, frame, hiding)
}

// Opens a window: the numbers of its document and its root frame.
#[unsafe(no_mangle)]
pub extern "C" fn frame_history_tab(words: &mut [u32], document: &mut u32, frame: &mut u32) -> u32
    ensures { face (outcome (Call.Tab words.old)) (document.old ∷ frame.old ∷ [])
        ≡ record { number = result; outs = document.new ∷ frame.new ∷ []; lent = words.new ∷ [] } }
{
    frame_history::frame_history_tab(words, document, frame)
}

// Navigates from a visible document: the number of the new document.
#[unsafe(no_mangle)]
pub extern "C" fn frame_history_navigate(
    words: &mut [u32],
    from: u32,
    document: &mut u32,
    hiding: &mut u32,
) -> u32
    ensures { hiding_face (outcome (Call.Navigate words.old from)) (document.old ∷ []) hiding.old
        ≡ record { seen = record { number = result; outs = document.new ∷ []; lent = words.new ∷ [] }; hiding = hiding.new } }
{
    frame_history::frame_history_navigate(words, from, document, hiding)
}

// Takes a frame out, with all beneath it: how many rows went.
#[unsafe(no_mangle)]
pub extern "C" fn frame_history_drop(
    words: &mut [u32],
    frame: u32,
    removed: &mut u32,
    hiding: &mut u32,
) -> u32
    ensures { hiding_face (outcome (Call.Drop words.old frame)) (removed.old ∷ []) hiding.old
        ≡ record { seen = record { number = result; outs = removed.new ∷ []; lent = words.new ∷ [] }; hiding = hiding.new } }
{
    frame_history::frame_history_drop(words, frame, removed, hiding)
}

// Replaces a visible document in its own row: the number of the new one.
#[unsafe(no_mangle)]
pub extern "C" fn frame_history_replace(
    words: &mut [u32],
    document: u32,
    replacement: &mut u32,
    hiding: &mut u32,
) -> u32
    ensures { hiding_face (outcome (Call.Replace words.old document)) (replacement.old ∷ []) hiding.old
        ≡ record { seen = record { number = result; outs = replacement.new ∷ []; lent = words.new ∷ [] }; hiding = hiding.new } }
{
    frame_history::frame_history_replace(words, document, replacement, hiding)
}

// Traverses a window by a signed amount: how many change rows are written, of four words each.
#[unsafe(no_mangle)]
pub extern "C" fn frame_history_traverse(
    words: &mut [u32],
    root: u32,
    delta: i32,
    changes: &mut [u32],
    count: &mut u32,
) -> u32
    ensures { face (outcome (Call.Traverse words.old root delta changes.old)) (count.old ∷ [])
        ≡ record { number = result; outs = count.new ∷ []; lent = words.new ∷ changes.new ∷ [] } }
{
    frame_history::frame_history_traverse(words, root, delta, changes, count)
}

// Traverses a window by a signed amount: how many change rows are written, into rows lent as structs.
#[unsafe(no_mangle)]
pub extern "C" fn frame_history_traverse_rows(
    words: &mut [u32],
    root: u32,
    delta: i32,
    rows: &mut [ChangeRow],
    count: &mut u32,
) -> u32
    ensures { face (outcome (Call.Traverse words.old root delta (plain rows.old))) (count.old ∷ [])
        ≡ record { number = result; outs = count.new ∷ []; lent = words.new ∷ plain rows.new ∷ [] } }
{
    frame_history::frame_history_traverse_rows(words, root, delta, rows, count)
}

// Position and steps of a window, and the length for scripts.
#[unsafe(no_mangle)]
pub extern "C" fn frame_history_position(
    words: &[u32],
    root: u32,
    position: &mut u32,
    steps: &mut u32,
    length: &mut u32,
) -> u32
    ensures { face (outcome (Call.Position words.now root)) (position.old ∷ steps.old ∷ length.old ∷ [])
        ≡ record { number = result; outs = position.new ∷ steps.new ∷ length.new ∷ []; lent = [] } }
{
    frame_history::frame_history_position(words, root, position, steps, length)
}

// Whether a document is visible: 1 or 0; who hides it; and how many parent links were followed.
#[unsafe(no_mangle)]
pub extern "C" fn frame_history_visible(
    words: &[u32],
    document: u32,
    answer: &mut u32,
    hiding: &mut u32,
    links: &mut u32,
) -> u32
    ensures { face (outcome (Call.Visible words.now document)) (answer.old ∷ hiding.old ∷ links.old ∷ [])
        ≡ record { number = result; outs = answer.new ∷ hiding.new ∷ links.new ∷ []; lent = [] } }
{
    frame_history::frame_history_visible(words, document, answer, hiding, links)
}

// Taken steps of a window, latest first, and upcoming ones, earliest first: how many of each are written.
#[unsafe(no_mangle)]
pub extern "C" fn frame_history_lists(
    words: &[u32],
    root: u32,
    taken: &mut [u32],
    upcoming: &mut [u32],
    takens: &mut u32,
    upcomings: &mut u32,
) -> u32
    ensures { face (outcome (Call.Lists words.now root taken.old upcoming.old)) (takens.old ∷ upcomings.old ∷ [])
        ≡ record { number = result; outs = takens.new ∷ upcomings.new ∷ []; lent = taken.new ∷ upcoming.new ∷ [] } }
{
    frame_history::frame_history_lists(words, root, taken, upcoming, takens, upcomings)
}

// How many entries the stretch by an amount has of the caller's own lists.
#[unsafe(no_mangle)]
pub extern "C" fn frame_history_stretch<'a>(
    taken: &'a [u32],
    upcoming: &'a [u32],
    delta: i32,
    count: &mut u32,
) -> u32
    ensures { face (outcome (Call.StretchCount taken.now upcoming.now delta)) (count.old ∷ [])
        ≡ record { number = result; outs = count.new ∷ []; lent = [] } }
{
    frame_history::frame_history_stretch(taken, upcoming, delta, count)
}

// The visible documents of a window with their depths: how many pairs are written, of two words each.
#[unsafe(no_mangle)]
pub extern "C" fn frame_history_outline(
    words: &[u32],
    root: u32,
    pairs: &mut [u32],
    count: &mut u32,
) -> u32
    ensures { face (outcome (Call.Outline words.now root pairs.old)) (count.old ∷ [])
        ≡ record { number = result; outs = count.new ∷ []; lent = pairs.new ∷ [] } }
{
    frame_history::frame_history_outline(words, root, pairs, count)
}

// Writes the saved form of a record: its length in bytes.
#[unsafe(no_mangle)]
pub extern "C" fn frame_history_save(words: &[u32], bytes: &mut [u8], length: &mut u32) -> u32
    ensures { face (outcome (Call.Save words.now bytes.old)) (length.old ∷ [])
        ≡ record { number = result; outs = length.new ∷ []; lent = bytes.new ∷ [] } }
{
    frame_history::frame_history_save(words, bytes, length)
}

// Fills a record from bytes that Save wrote: how many rows it has.
#[unsafe(no_mangle)]
pub extern "C" fn frame_history_load(words: &mut [u32], bytes: &[u8], rows: &mut u32) -> u32
    ensures { face (outcome (Call.Load words.old bytes.now)) (rows.old ∷ [])
        ≡ record { number = result; outs = rows.new ∷ []; lent = words.new ∷ [] } }
{
    frame_history::frame_history_load(words, bytes, rows)
}

// Fills a record from bytes of the old form: how many rows it has.
#[unsafe(no_mangle)]
pub extern "C" fn frame_history_load_old(words: &mut [u32], bytes: &[u8], rows: &mut u32) -> u32
    ensures { face (outcome (Call.LoadOld words.old bytes.now)) (rows.old ∷ [])
        ≡ record { number = result; outs = rows.new ∷ []; lent = words.new ∷ [] } }
{
    frame_history::frame_history_load_old(words, bytes, rows)
}

// Whether Back and Forward would work in a saved window, by the contents of its bytes: its position and its steps.
#[unsafe(no_mangle)]
pub extern "C" fn frame_history_contents(bytes: &[u8], position: &mut u32, steps: &mut u32) -> u32
    ensures { face (outcome (Call.Contents bytes.now)) (position.old ∷ steps.old ∷ [])
        ≡ record { number = result; outs = position.new ∷ steps.new ∷ []; lent = [] } }
{
    frame_history::frame_history_contents(bytes, position, steps)
}

// The same of bytes of the old form.
#[unsafe(no_mangle)]
pub extern "C" fn frame_history_contents_old(
    bytes: &[u8],
    position: &mut u32,
    steps: &mut u32,
) -> u32
    ensures { face (outcome (Call.ContentsOld bytes.now)) (position.old ∷ steps.old ∷ [])
        ≡ record { number = result; outs = position.new ∷ steps.new ∷ []; lent = [] } }
{
    frame_history::frame_history_contents_old(bytes, position, steps)
}

// Sets that the page of a document places itself.
#[unsafe(no_mangle)]
pub extern "C" fn frame_history_place_itself(
    words: &[u32],
    places: &mut [u64],
    document: u32,
) -> u32
    ensures { face (outcome (Call.SetPlace words.now places.old document Paper.itself)) []
        ≡ record { number = result; outs = []; lent = places.new ∷ [] } }
{
    frame_history::frame_history_place_itself(words, places, document)
}

// Sets a document's place at a point.
#[unsafe(no_mangle)]
pub extern "C" fn frame_history_place_at(
    words: &[u32],
    places: &mut [u64],
    document: u32,
    point: Point,
) -> u32
    ensures { face (outcome (Call.SetPlace words.now places.old document (Paper.at point.x point.y))) []
        ≡ record { number = result; outs = []; lent = places.new ∷ [] } }
{
    frame_history::frame_history_place_at(words, places, document, point)
}

// A document's place: 0 where the page places itself, or 1 and the point.
#[unsafe(no_mangle)]
pub extern "C" fn frame_history_place(
    words: &[u32],
    places: &[u64],
    document: u32,
    kind: &mut u32,
    x: &mut f64,
    y: &mut f64,
) -> u32
    ensures { face_over (outcome (Call.AskPlace words.now places.now document)) (place_outs kind.old x.old y.old)
        ≡ record { number = result; outs = place_outs kind.new x.new y.new; lent = [] } }
{
    frame_history::frame_history_place(words, places, document, kind, x, y)
}

// A document's place at a page zoom.
#[unsafe(no_mangle)]
pub extern "C" fn frame_history_place_at_zoom(
    words: &[u32],
    places: &[u64],
    document: u32,
    zoom: f64,
    kind: &mut u32,
    x: &mut f64,
    y: &mut f64,
) -> u32
    ensures { face_over (outcome (Call.AskAtZoom words.now places.now document zoom)) (place_outs kind.old x.old y.old)
        ≡ record { number = result; outs = place_outs kind.new x.new y.new; lent = [] } }
{
    frame_history::frame_history_place_at_zoom(words, places, document, zoom, kind, x, y)
}
