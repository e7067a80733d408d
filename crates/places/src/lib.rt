// Scroll places: a store that the host lends, of four words an entry, and what is set and asked in it.
//
// What bounds it, for n rows and e entries: the test of the store looks at each entry once, and from one whose document is not above all earlier ones through those before it; freeing looks
// from each entry through the rows. So asking takes e looks where the documents rise and at most e * e / 2, and setting 2 * e * n more; as many entries as the record has room for rows are
// always enough.
#![tactic(auto)]

ghost use Rattle.std.specs.Prelude.{Ok, ◌≡◌, true, [], ◌∷◌, ◌+◌, ◌*◌, ◌≤◌, ◌<◌, get_or};
ghost use Rattle.std.proofs.Math.Bool.{So};
ghost use Rattle.rules.specs.Below.{earliest};
ghost use Rattle.rules.specs.Rows.{none, in_record};
ghost use Rattle.rules.specs.Words.{put, rows_of};
ghost use Rattle.rules.specs.Places.{finite_place, place_words, entries, is_of, place_in, place_of, sane, fine_at, fine?, gone_in, free_at, freed, spot};
ghost use Rattle.rules.specs.Calls.{Call, outcome};
ghost use Rattle.sound.specs.Check.{Examined, Judged};
ghost use Rattle.points.specs.Points.{place_given};
ghost use Rattle.places.specs.Answers.{placed_is, setting_is, zoomed_is, Goes};
ghost use Rattle.places.specs.Store.{Reaches};

use base::{DocNo, Refusal};
use points::{Place, Point};

// The document word of an entry: the number of a document, or any other of 64 bits.
#[derive(Clone, Copy, PartialEq, Eq, PartialOrd, Ord)]
struct Owner(u64);

// An entry of this one is free.
const FREE: u64 = 4294967295;

// A document as an entry has it.
impl From<DocNo> for Owner {
    ghost from_gives = { λ d owner. owner.0 ≡ d.0 };

    fn from(d: DocNo) -> Owner {
        Owner(u64::from(d.0))
    }
}

// How many entries a store has.
fn entry_count(places: &[u64]) -> usize
    ensures { result ≡ entries places.now }
{
    places.len() / 4
}

// The parts of an entry, by their place in it.
const DOCUMENT: usize = 0;

const KIND: usize = 1;

const X: usize = 2;

const Y: usize = 3;

// A part of an entry.
fn word_of(places: &[u64], i: usize, part: usize) -> u64
    requires { (i < entries places.now) × (part < 4) }
    ensures { result ≡ get_or places.now (4 * i + part) 0 }
{
    places[4 * i + part]
}

// Whether an entry is of a document.
fn is_of(places: &[u64], i: usize, d: Owner) -> bool
    requires { i < entries places.now }
    ensures { result ≡ is_of places.now d.0 i }
{
    word_of(places, i, DOCUMENT) == d.0
}

// The first of so many entries that is of a document; their number where none is.
fn entry_below(places: &[u64], n: usize, d: Owner) -> usize
    requires { n ≤ entries places.now }
    ensures { result ≡ earliest (is_of places.now d.0) n }
{
    for i in 0..n {
        if is_of(places, i, d) {
            return i;
        }
    }
    n
}

// Whether an entry's kind is 0 or 1, and its point finite if it is 1.
fn is_sane(places: &[u64], i: usize) -> bool
    requires { i < entries places.now }
    ensures { result ≡ sane places.now i }
{
    let kind = word_of(places, i, KIND);
    if kind == 1 {
        let x = word_of(places, i, X);
        let y = word_of(places, i, Y);
        return points::is_finite_bits(x) & points::is_finite_bits(y);
    }
    kind == 0
}

// Whether an entry is free, or sane and of a document that no earlier one is of: one above all of theirs is not looked for.
fn is_fine(places: &[u64], i: usize, high: Owner) -> bool
    requires { (i < entries places.now) × Reaches places.now i high.0 }
    ensures { result ≡ fine_at places.now i }
{
    let d = word_of(places, i, DOCUMENT);
    if d == FREE {
        return true;
    }
    if !is_sane(places, i) {
        return false;
    }
    if high.0 < d {
        return true;
    }
    i <= entry_below(places, i, Owner(d))
}

// The highest document of the entries up to one, free ones aside, by that of those before it.
fn higher(places: &[u64], i: usize, high: Owner) -> Owner
    requires { (i < entries places.now) × Reaches places.now i high.0 }
    ensures { Reaches places.now (i + 1) result.0 }
{
    let d = word_of(places, i, DOCUMENT);
    if d == FREE {
        return high;
    }
    if d < high.0 {
        return high;
    }
    Owner(d)
}

// The test of the store: refusal 15 where it fails.
fn are_fine(places: &[u64]) -> bool
    ensures { result ≡ fine? places.now }
{
    let n = entry_count(places);
    let mut high = Owner(0);
    for i in 0..n {
        if !is_fine(places, i, high) {
            return false;
        }
        high = higher(places, i, high);
    }
    true
}

// The place that an entry holds.
fn read_place(places: &[u64], i: usize) -> Place
    requires { (i < entries places.now) × (finite_place (place_in places.now i) ≡ true) }
    ensures { place_given result ≡ place_in places.now i }
{
    if word_of(places, i, KIND) == 1 {
        let x = points::double_of(word_of(places, i, X));
        let y = points::double_of(word_of(places, i, Y));
        return Place::At(Point { x, y });
    }
    Place::Itself
}

// A document's place in a store that passes the test.
fn place_of(places: &[u64], d: DocNo) -> Place
    requires { So (fine? places.now) × (d.0 < none) }
    ensures { place_given result ≡ place_of places.now d.0 }
{
    let n = entry_count(places);
    let i = entry_below(places, n, Owner::from(d));
    if i < n {
        return read_place(places, i);
    }
    Place::Itself
}

// Whether a document is in a sound record: only where its number is below the next one.
fn in_record(words: &[u32], d: Owner) -> bool
    requires { Examined words.now }
    ensures { result ≡ in_record (rows_of words.now) d.0 }
{
    let top = Owner::from(rows::next_document(words));
    if top <= d {
        return false;
    }
    rows::find(words, DocNo(d.0 as u32)).is_some()
}

// Refusals 15 and 4 of a sound record.
fn judge_sound(words: &[u32], places: &[u64], d: DocNo) -> Result<(), Refusal>
    requires { Examined words.now }
    ensures { Judged (Call.AskPlace words.now places.now d.0) result }
{
    if !are_fine(places) {
        return Err(Refusal::BadPlaces);
    }
    if !in_record(words, Owner::from(d)) {
        return Err(Refusal::Absent);
    }
    Ok(())
}

// Refusals 1, 2, 15 and 4, which all three calls begin with.
fn judge(words: &[u32], places: &[u64], d: DocNo) -> Result<(), Refusal>
    ensures { Judged (Call.AskPlace words.now places.now d.0) result }
{
    sound::examine(words)?;
    judge_sound(words, places, d)
}

// A document's place.
pub fn place(words: &[u32], places: &[u64], d: DocNo) -> Result<Place, Refusal>
    ensures { outcome (Call.AskPlace words.now places.now d.0) ≡ record { answer = placed_is result; lent = [] } }
{
    judge(words, places, d)?;
    Ok(place_of(places, d))
}

// A place at a zoom, if the zoom and the products are finite.
fn zoomed(place: Place, zoom: f64) -> Result<Place, Refusal>
    ensures { placed_is result ≡ zoomed_is zoom (place_given place) }
{
    if !points::is_finite(zoom) {
        return Err(Refusal::NotFinite);
    }
    let scaled = points::scale(place, zoom);
    if !points::is_finite_place(scaled) {
        return Err(Refusal::NotFinite);
    }
    Ok(scaled)
}

// A document's place at a page zoom.
pub fn place_at_zoom(words: &[u32], places: &[u64], d: DocNo, zoom: f64) -> Result<Place, Refusal>
    ensures { outcome (Call.AskAtZoom words.now places.now d.0 zoom) ≡ record { answer = placed_is result; lent = [] } }
{
    judge(words, places, d)?;
    zoomed(place_of(places, d), zoom)
}

// Whether an entry is free once the entries of gone documents are.
fn is_gone(words: &[u32], places: &[u64], i: usize) -> bool
    requires { Examined words.now × (i < entries places.now) }
    ensures { result ≡ gone_in (rows_of words.now) places.now i }
{
    !in_record(words, Owner(word_of(places, i, DOCUMENT)))
}

// The first such entry; past the last where there is none.
fn first_gone(words: &[u32], places: &[u64]) -> usize
    requires { Examined words.now }
    ensures { result ≡ earliest (gone_in (rows_of words.now) places.now) (entries places.now) }
{
    let n = entry_count(places);
    for i in 0..n {
        if is_gone(words, places, i) {
            return i;
        }
    }
    n
}

// The entry that a document's place goes to: its own, or the first that is free after freeing. Nothing is freed yet.
fn spot_of(words: &[u32], places: &[u64], d: DocNo) -> usize
    requires { Examined words.now × So (in_record (rows_of words.now) d.0) }
    ensures { result ≡ spot (freed (rows_of words.now) places.now) d.0 }
{
    let n = entry_count(places);
    let own = entry_below(places, n, Owner::from(d));
    if own < n {
        return own;
    }
    first_gone(words, places)
}

// Refusals 11 and 12, and the entry.
fn judge_place(words: &[u32], places: &[u64], d: DocNo, place: Place) -> Result<usize, Refusal>
    requires { Judged (Call.AskPlace words.now places.now d.0) (Ok tt) }
    ensures { Goes words.now places.now d.0 place result }
{
    if !points::is_finite_place(place) {
        return Err(Refusal::NotFinite);
    }
    let i = spot_of(words, places, d);
    if entry_count(places) <= i {
        return Err(Refusal::NoEntry);
    }
    Ok(i)
}

// All refusals of a setting, and the entry.
fn judge_setting(words: &[u32], places: &[u64], d: DocNo, place: Place) -> Result<usize, Refusal>
    ensures { Goes words.now places.now d.0 place result }
{
    judge(words, places, d)?;
    judge_place(words, places, d, place)
}

// Frees an entry whose document is gone.
fn free_at(words: &[u32], places: &mut [u64], i: usize)
    requires { Examined words.now × (i < entries places.old) }
    ensures { places.new ≡ free_at (rows_of words.now) i places.old }
{
    if is_gone(words, places, i) {
        places[4 * i] = FREE;
    }
}

// Frees the entries of gone documents.
fn free_gone(words: &[u32], places: &mut [u64])
    requires { Examined words.now }
    ensures { places.new ≡ freed (rows_of words.now) places.old }
{
    let n = entry_count(places);
    for i in 0..n {
        free_at(words, places, i);
    }
}

// Writes an entry: its document, its kind, and the point if it has one.
fn put_place(places: &mut [u64], i: usize, d: DocNo, place: Place)
    requires { (i < entries places.old) × (finite_place (place_given place) ≡ true) }
    ensures { places.new ≡ put places.old (4 * i) (d.0 ∷ place_words (place_given place)) }
{
    let k = 4 * i;
    places[k] = Owner::from(d).0;
    match place {
        Place::Itself => {
            places[k + KIND] = 0;
        }
        Place::At(p) => {
            places[k + KIND] = 1;
            places[k + X] = points::bits_of(p.x);
            places[k + Y] = points::bits_of(p.y);
        }
    }
}

// Sets a document's place.
pub fn set_place(words: &[u32], places: &mut [u64], d: DocNo, place: Place) -> Result<(), Refusal>
    ensures { outcome (Call.SetPlace words.now places.old d.0 (place_given place)) ≡ record { answer = setting_is result; lent = places.new ∷ [] } }
{
    // Not `?`: an edit that frees before it refuses is planted in the arm of the refusal.
    match judge_setting(words, places, d, place) {
        Err(r) => Err(r),
        Ok(i) => {
            free_gone(words, places);
            put_place(places, i, d, place);
            Ok(())
        }
    }
}
