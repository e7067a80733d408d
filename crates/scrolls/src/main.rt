// The cases of scroll places, run on document 01's record X: every call's answer, and the words of the store after each setting.
#![tactic(auto)]

use base::{DocNo, Refusal};
use points::{Place, Point};
use std::io;

// No parent.
const NONE: u32 = DocNo::NONE.0;

// An entry that is free.
const FREE: u64 = 4294967295;

// The bits of 0.1, 3 and 1e308, of the infinity and of a NaN.
const TENTH: u64 = 0x3fb999999999999a;

const THREE: u64 = 0x4008000000000000;

const HUGE: u64 = 0x7fe1ccf385ebc8a0;

const ENDLESS: u64 = 0x7ff0000000000000;

const ODD: u64 = 0x7ff8000000000abc;

// The words of two entries.
fn say_store(rt: &impl Print, store: &[u64; 8]) -> io::Result<()> {
    let [d, kind, x, y, d2, kind2, x2, y2] = *store;
    println!(rt; "  store {d} {kind} {x} {y}, {d2} {kind2} {x2} {y2}")
}

// A place: its kind, and the bits of a point, as they stand in an entry that it is set in.
fn say_place(rt: &impl Print, words: &[u32], place: Place) -> io::Result<()> {
    let mut entry = [FREE, 0, 0, 0];
    match places::set_place(words, &mut entry, DocNo(0), place) {
        Ok(()) => println!(rt; " {} {} {}", entry[1], entry[2], entry[3]),
        Err(r) => println!(rt; " refused {r}"),
    }
}

// An answer, told.
fn say_placed(rt: &impl Print, words: &[u32], answer: Result<Place, Refusal>) -> io::Result<()> {
    match answer {
        Ok(place) => say_place(rt, words, place),
        Err(r) => println!(rt; " refused {r}"),
    }
}

// A setting, told.
fn set(rt: &impl Print, words: &[u32], store: &mut [u64], d: u32, place: Place) -> io::Result<()> {
    print!(rt; "  set {d}:")?;
    match places::set_place(words, store, DocNo(d), place) {
        Ok(()) => println!(rt; " done"),
        Err(r) => println!(rt; " refused {r}"),
    }
}

// A question, told.
fn ask(rt: &impl Print, words: &[u32], store: &[u64], d: u32) -> io::Result<()> {
    print!(rt; "  ask {d}:")?;
    let answer = places::place(words, store, DocNo(d));
    say_placed(rt, words, answer)
}

// A question at a zoom, told.
fn ask_at_zoom(rt: &impl Print, words: &[u32], store: &[u64], d: u32, zoom: f64) -> io::Result<()> {
    print!(rt; "  ask at a zoom {d}:")?;
    let answer = places::place_at_zoom(words, store, DocNo(d), zoom);
    say_placed(rt, words, answer)
}

// A point.
fn at(x: f64, y: f64) -> Place {
    Place::At(Point { x, y })
}

// Document 01's record X.
fn record_x() -> [u32; 27] {
    [
        6, 6, 4, 0, 0, NONE, 1, 1, 1, 0, 1, 2, 2, 1, 0, 3, 3, 0, 1, 4, 2, 1, 1, 5, 1, 0, 0,
    ]
}

// A hidden document takes the first free entry, and gets -0 and 1.5 back.
fn first_free(rt: &impl Print) -> io::Result<()> {
    println!(rt; "first free")?;
    let words = record_x();
    let mut store = [FREE, 2, 5, 6, FREE, 0, 7, 8];
    set(rt, &words, &mut store, 2, at(-0.0, 1.5))?;
    say_store(rt, &store)?;
    ask(rt, &words, &store, 2)?;
    ask(rt, &words, &store, 4)
}

// A document keeps its own entry, though a free one stands before it; kind 0 keeps the doubles.
fn own_entry(rt: &impl Print) -> io::Result<()> {
    println!(rt; "own entry")?;
    let words = record_x();
    let mut store = [FREE, 0, 5, 6, 4, 0, ENDLESS, ODD];
    set(rt, &words, &mut store, 4, at(1.5, 0.1))?;
    say_store(rt, &store)?;
    set(rt, &words, &mut store, 4, Place::Itself)?;
    say_store(rt, &store)?;
    ask(rt, &words, &store, 4)
}

// Document 9 is gone: its entry is freed, where its document alone changes, and taken; 4294967300 is not 4.
fn gone(rt: &impl Print) -> io::Result<()> {
    println!(rt; "gone")?;
    let words = record_x();
    let mut one = [4, 1, TENTH, THREE, 9, 1, HUGE, TENTH];
    set(rt, &words, &mut one, 4, at(3.0, 0.1))?;
    say_store(rt, &one)?;
    let mut two = [4, 1, TENTH, THREE, 9, 1, HUGE, TENTH];
    set(rt, &words, &mut two, 1, Place::Itself)?;
    say_store(rt, &two)?;
    let mut three = [4294967300, 1, TENTH, THREE, FREE, 0, 5, 6];
    set(rt, &words, &mut three, 4, Place::Itself)?;
    say_store(rt, &three)
}

// Each coordinate times the zoom, rounded once; what is not finite is refused, also where the page places itself.
fn zooms(rt: &impl Print) -> io::Result<()> {
    println!(rt; "zooms")?;
    let words = record_x();
    let store = [4, 1, TENTH, THREE, 0, 1, TENTH, HUGE];
    ask_at_zoom(rt, &words, &store, 4, 3.0)?;
    ask_at_zoom(rt, &words, &store, 4, 1.0)?;
    ask_at_zoom(rt, &words, &store, 4, -0.0)?;
    ask_at_zoom(rt, &words, &store, 0, 3.0)?;
    ask_at_zoom(rt, &words, &store, 1, 3.0)?;
    ask_at_zoom(rt, &words, &store, 1, 1.0 / 0.0)?;
    ask_at_zoom(rt, &words, &store, 9, 0.0 / 0.0)
}

// A document twice, a kind of 2 and a point that is infinite are refused by 15, before 4; a free entry may hold anything.
fn bad_stores(rt: &impl Print) -> io::Result<()> {
    println!(rt; "bad stores")?;
    let words = record_x();
    ask(rt, &words, &[9, 0, 0, 0, 9, 1, TENTH, THREE], 9)?;
    ask(rt, &words, &[4, 2, 0, 0, FREE, 0, 0, 0], 4)?;
    ask(rt, &words, &[4, 1, 0, ENDLESS, FREE, 0, 0, 0], 4)?;
    ask(rt, &words, &[FREE, 2, ENDLESS, ODD, FREE, 1, ODD, 0], 4)?;
    ask(rt, &words, &[FREE, 2, ENDLESS, ODD, FREE, 1, ODD, 0], NONE)
}

// Refused, a setting leaves every word, also those that it would have freed.
fn refused(rt: &impl Print) -> io::Result<()> {
    println!(rt; "refused")?;
    let words = record_x();
    let mut store = [4, 1, TENTH, THREE, 9, 1, HUGE, TENTH];
    set(rt, &words, &mut store, 1, at(0.0 / 0.0, 3.0))?;
    say_store(rt, &store)?;
    set(rt, &words, &mut store, 9, Place::Itself)?;
    say_store(rt, &store)?;
    let mut full = [4, 1, TENTH, THREE, 5, 0, 0, 0];
    set(rt, &words, &mut full, 1, at(3.0, 0.1))?;
    say_store(rt, &full)
}

fn main(rt: HostRuntime) -> io::Result<()> {
    first_free(&rt)?;
    own_entry(&rt)?;
    gone(&rt)?;
    zooms(&rt)?;
    bad_stores(&rt)?;
    refused(&rt)
}
