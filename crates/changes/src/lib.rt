// Traverse for a host that lends its change rows as structs. The record is moved and the answer found on plain words (`shift`); here
// the rows are only filled, one by one, by rising frame number.
//
// Where there are several windows, the one that is named is taken out (`extracts`), once to go and once more for each change row, which is read there: no array is held where the rows
// are lent.
#![tactic(auto)]

ghost use Rattle.std.proofs.Math.Bool.{So};
ghost use Rattle.std.specs.Prelude.{[], ◌∷◌, ◌≡◌, length};
ghost use Rattle.rules.specs.Words.{put};
ghost use Rattle.rules.specs.Calls.{Call, outcome};
ghost use Rattle.sound.specs.Check.{Examined};
ghost use Rattle.sound.specs.Survey.{Located};
ghost use Rattle.traverses.specs.Answers.{traversed_is};
ghost use Rattle.changes.specs.Changes.{plain, Awaits, Follows, AwaitsOn, FollowsOn, Fits, route_text, Routes};

use base::{DocNo, FrameNo, Refusal};
use sound::{Stand, Windows};
use traverses::{Span, Trip};

// A change row: a frame, its document before and after, and 1 if the latter is visible then, else 0.
#[repr(C)]
#[derive(Clone, Copy)]
pub struct ChangeRow {
    pub frame: FrameNo,
    pub before: DocNo,
    pub after: DocNo,
    pub load: u32,
}

// Where a window went, its root frame, and whether other windows stand beside it.
#[derive(Clone, Copy)]
struct Route {
    trip: Trip,
    root: FrameNo,
    among: bool,
}

// Moves a sound record of one window.
fn shift_alone(
    words: &mut [u32],
    s: Stand,
    root: FrameNo,
    delta: i32,
    room: usize,
) -> Result<Route, Refusal>
    requires { Located words.old s }
    ensures { Routes words.old root.0 delta room result words.new }
{
    if !extracts::is_only_root(words, s, root) {
        return Err(Refusal::NoRoot);
    }
    let trip = traverses::shift_sound(words, s, delta, room)?;
    Ok(Route {
        trip,
        root,
        among: false,
    })
}

// Moves a window of a sound record of several by its own record, and puts its flags back if it went. Its words take stack only here: the compiler leaves it a function of its own.
#[inline(never)]
fn shift_among(words: &mut [u32], root: FrameNo, delta: i32, room: usize) -> Result<Route, Refusal>
    requires { Examined words.old }
    ensures { Routes words.old root.0 delta room result words.new }
{
    if !extracts::has_root(words, root) {
        return Err(Refusal::NoRoot);
    }
    let mut own = [0u32; 2051];
    extracts::take_out(words, root, extracts::first_other(words, root), &mut own);
    let s = extracts::stand_alone(&own);
    let trip = traverses::shift_sound(&mut own, s, delta, room)?;
    extracts::put_back(words, &own);
    Ok(Route {
        trip,
        root,
        among: true,
    })
}

// Moves a window by a signed amount, if there is room for so many change rows; it writes no change row.
fn shift(words: &mut [u32], root: FrameNo, delta: i32, room: usize) -> Result<Route, Refusal>
    ensures { Routes words.old root.0 delta room result words.new }
{
    match sound::locate(words)? {
        Windows::One(s) => shift_alone(words, s, root, delta, room),
        Windows::Several => shift_among(words, root, delta, room),
    }
}

// The first change row between two places of a record of one window, among the frames from a number on.
fn row_between(words: &[u32], span: Span, from: FrameNo) -> ChangeRow
    requires { Awaits words.now span.before.0 span.after.0 from.0 }
    ensures { Follows words.now span.before.0 span.after.0 from.0 result }
{
    let c = traverses::next_change(words, from, span).unwrap();
    ChangeRow {
        frame: c.frame,
        before: reads::document(words, c.old),
        after: reads::document(words, c.new),
        load: u32::from(asks::climb(words, c.new)),
    }
}

// The first change row of a route in a window among others, read in that taken out. Its words too take stack only here.
#[inline(never)]
fn row_among(words: &[u32], route: Route, from: FrameNo) -> ChangeRow
    requires { AwaitsOn words.now route from.0 × So route.among }
    ensures { FollowsOn words.now route from.0 result }
{
    let mut own = [0u32; 2051];
    let first = extracts::first_other(words, route.root);
    extracts::take_out(words, route.root, first, &mut own);
    row_between(&own, route.trip.span, from)
}

// The first change row of a route among the frames from a number on.
fn next_row(words: &[u32], route: Route, from: FrameNo) -> ChangeRow
    requires { AwaitsOn words.now route from.0 }
    ensures { FollowsOn words.now route from.0 result }
{
    if route.among {
        row_among(words, route, from)
    } else {
        row_between(words, route.trip.span, from)
    }
}

// Writes the change rows of a route, by rising frame number.
fn fill(rows: &mut [ChangeRow], words: &[u32], route: Route)
    requires { Fits words.now route (length rows.old) }
    ensures { plain rows.new ≡ put (plain rows.old) 0 (route_text words.now route) }
{
    let mut from = route.trip.first;
    for row in &mut rows[..route.trip.count] {
        *row = next_row(words, route, from);
        from = FrameNo(row.frame.0 + 1);
    }
}

// Traverses a window by a signed amount, and writes the change rows into the rows lent. How many they are.
pub fn traverse(
    words: &mut [u32],
    root: FrameNo,
    delta: i32,
    rows: &mut [ChangeRow],
) -> Result<usize, Refusal>
    ensures { outcome (Call.Traverse words.old root.0 delta (plain rows.old)) ≡ record { answer = traversed_is result; lent = words.new ∷ plain rows.new ∷ [] } }
{
    let route = shift(words, root, delta, rows.len())?;
    fill(rows, words, route);
    Ok(route.trip.count)
}
