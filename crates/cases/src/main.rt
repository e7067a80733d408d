// Document 01's P1 to P12, the cases of Drop, of who hides a document, of Replace and of two windows, run: every call's answer, and of the record at the end the position
// and length of window 0 and the visible documents.
#![tactic(auto)]

use base::{DocNo, FrameNo, Refusal};
use moves::Opened;
use std::io;

// No parent.
const NONE: u32 = DocNo::NONE.0;

// Fresh, told.
fn fresh(rt: &impl Print, words: &mut [u32]) -> io::Result<()> {
    print!(rt; "  fresh: ")?;
    match moves::fresh(words) {
        Ok(()) => println!(rt; "done"),
        Err(r) => println!(rt; "refused {r}"),
    }
}

// The numbers of what was opened.
fn say_opened(rt: &impl Print, answer: Result<Opened, Refusal>) -> io::Result<()> {
    match answer {
        Ok(opened) => println!(rt; "document {}, frame {}", opened.document, opened.frame),
        Err(r) => println!(rt; "refused {r}"),
    }
}

// Open, told.
fn open(rt: &impl Print, words: &mut [u32], parent: u32) -> io::Result<()> {
    print!(rt; "  open {parent}: ")?;
    say_opened(rt, moves::open_frame(words, DocNo(parent)))
}

// A new window, told.
fn tab(rt: &impl Print, words: &mut [u32]) -> io::Result<()> {
    print!(rt; "  tab: ")?;
    say_opened(rt, moves::open_window(words))
}

// Navigate, told.
fn navigate(rt: &impl Print, words: &mut [u32], from: u32) -> io::Result<()> {
    print!(rt; "  navigate {from}: ")?;
    match navigates::navigate(words, DocNo(from)) {
        Ok(d) => println!(rt; "document {d}"),
        Err(r) => println!(rt; "refused {r}"),
    }
}

// Drop, told.
fn take_out(rt: &impl Print, words: &mut [u32], frame: u32) -> io::Result<()> {
    print!(rt; "  drop {frame}: ")?;
    match drops::drop_frame(words, FrameNo(frame)) {
        Ok(n) => println!(rt; "{n} rows went"),
        Err(r) => println!(rt; "refused {r}"),
    }
}

// Replace, told.
fn replace(rt: &impl Print, words: &mut [u32], document: u32) -> io::Result<()> {
    print!(rt; "  replace {document}: ")?;
    match replaces::replace(words, DocNo(document)) {
        Ok(d) => println!(rt; "document {d}"),
        Err(r) => println!(rt; "refused {r}"),
    }
}

// Four words: a change row, or two pairs of an outline.
fn say_four(rt: &impl Print, row: &[u32; 4]) -> io::Result<()> {
    let [a, b, c, d] = *row;
    println!(rt; " ({a}, {b}, {c}, {d})")
}

// Traverse's answer, with one change row.
fn say_traversed(rt: &impl Print, words: &mut [u32], root: u32, delta: i32) -> io::Result<()> {
    print!(rt; ": ")?;
    let mut row = [9u32; 4];
    match traverses::traverse(words, FrameNo(root), delta, &mut row) {
        Ok(n) => {
            print!(rt; "{n} changed")?;
            say_four(rt, &row)
        }
        Err(r) => println!(rt; "refused {r}"),
    }
}

// Traverse of window 0, told.
fn go(rt: &impl Print, words: &mut [u32], delta: i32) -> io::Result<()> {
    print!(rt; "  go {delta:+}")?;
    say_traversed(rt, words, 0, delta)
}

// Traverse of the window with this root frame, told.
fn go_in(rt: &impl Print, words: &mut [u32], root: u32, delta: i32) -> io::Result<()> {
    print!(rt; "  go {delta:+} in {root}")?;
    say_traversed(rt, words, root, delta)
}

// Visible, told, and how many links the climb followed.
fn ask(rt: &impl Print, words: &[u32], d: u32) -> io::Result<()> {
    print!(rt; "  visible {d}: ")?;
    let sight = match asks::visible(words, DocNo(d)) {
        Ok(sight) => sight,
        Err(r) => return println!(rt; "refused {r}"),
    };
    match sight.hider {
        None => println!(rt; "yes, links {}", sight.links),
        Some(h) => println!(rt; "hidden by {h}, links {}", sight.links),
    }
}

// Those of documents 0 to 8 that are visible.
fn say_documents(rt: &impl Print, words: &[u32]) -> io::Result<()> {
    for d in 0..9 {
        if let Ok(sight) = asks::visible(words, DocNo(d)) {
            if sight.hider.is_none() {
                print!(rt; " {d}")?;
            }
        }
    }
    Ok(())
}

// Position, steps and length of window 0, and the visible documents of a record.
fn stand(rt: &impl Print, words: &[u32]) -> io::Result<()> {
    match lists::position(words, FrameNo(0)) {
        Ok(s) => {
            print!(rt;
                "  position {} of {}, length {}, visible",
                s.position, s.steps, s.length
            )?;
            say_documents(rt, words)?;
            println!(rt; "")
        }
        Err(r) => {
            print!(rt; "  position: ")?;
            println!(rt; "refused {r}")
        }
    }
}

// Position, steps and length of the window with this root frame.
fn stand_in(rt: &impl Print, words: &[u32], root: u32) -> io::Result<()> {
    print!(rt; "  window {root}: ")?;
    match lists::position(words, FrameNo(root)) {
        Ok(s) => println!(rt;
            "position {} of {}, length {}",
            s.position, s.steps, s.length
        ),
        Err(r) => println!(rt; "refused {r}"),
    }
}

// Lists, told, with room for one step in each.
fn list(rt: &impl Print, words: &[u32], root: u32) -> io::Result<()> {
    print!(rt; "  lists of {root}: ")?;
    let mut taken = [9u32; 1];
    let mut upcoming = [9u32; 1];
    match lists::lists(words, FrameNo(root), &mut taken, &mut upcoming) {
        Ok(l) => println!(rt;
            "{} taken ({}), {} upcoming ({})",
            l.taken, taken[0], l.upcoming, upcoming[0]
        ),
        Err(r) => println!(rt; "refused {r}"),
    }
}

// Outline, told, with room for two documents.
fn outline(rt: &impl Print, words: &[u32], root: u32) -> io::Result<()> {
    print!(rt; "  outline of {root}: ")?;
    let mut pairs = [9u32; 4];
    match outlines::outline(words, FrameNo(root), &mut pairs) {
        Ok(n) => {
            print!(rt; "{n} visible")?;
            say_four(rt, &pairs)
        }
        Err(r) => println!(rt; "refused {r}"),
    }
}

// Document 01's record X.
fn record_x() -> [u32; 35] {
    [
        6, 6, 4, 0, 0, NONE, 1, 1, 1, 0, 1, 2, 2, 1, 0, 3, 3, 0, 1, 4, 2, 1, 1, 5, 1, 0, 0, 0, 0,
        0, 0, 0, 0, 0, 0,
    ]
}

// "P1. X: sound, position 1 of 2, visible 0,1,3,4."
fn p1(rt: &impl Print) -> io::Result<()> {
    println!(rt; "P1")?;
    stand(rt, &record_x())
}

// "P2. X by -1: 2 shown instead of 4; one change row (2, 4, 2, 1)."
fn p2(rt: &impl Print) -> io::Result<()> {
    println!(rt; "P2")?;
    let mut words = record_x();
    go(rt, &mut words, -1)?;
    stand(rt, &words)
}

// "P3. X by +1: row (1, 1, 5, 1); 4 is shown, not visible."
fn p3(rt: &impl Print) -> io::Result<()> {
    println!(rt; "P3")?;
    let mut words = record_x();
    go(rt, &mut words, 1)?;
    stand(rt, &words)
}

// "P4. X by +2, and by -2: refused 6."
fn p4(rt: &impl Print) -> io::Result<()> {
    println!(rt; "P4")?;
    let mut words = record_x();
    go(rt, &mut words, 2)?;
    go(rt, &mut words, -2)?;
    stand(rt, &words)
}

// "P5. X by -2147483648: refused 6."
fn p5(rt: &impl Print) -> io::Result<()> {
    println!(rt; "P5")?;
    let mut words = record_x();
    go(rt, &mut words, -2147483648)?;
    stand(rt, &words)
}

// "P6. Navigate X from 1: 5 goes, 6 comes, position 2 of 2, visible 0,3,6."
// "P7. P6 by -1: visible 0,1,3,4."
fn p6_and_p7(rt: &impl Print) -> io::Result<()> {
    println!(rt; "P6")?;
    let mut words = record_x();
    navigate(rt, &mut words, 1)?;
    stand(rt, &words)?;
    println!(rt; "P7")?;
    go(rt, &mut words, -1)?;
    stand(rt, &words)
}

// "P8. Navigate X from 2: refused 5; from 9: refused 4."
fn p8(rt: &impl Print) -> io::Result<()> {
    println!(rt; "P8")?;
    let mut words = record_x();
    navigate(rt, &mut words, 2)?;
    navigate(rt, &mut words, 9)?;
    stand(rt, &words)
}

// P9: "Documents 0 to 4, frames {0}, {1,3}, {2,4} numbered 0 to 2, parents none,0,0,0,0, shown 0,1,4, next 5 and 3, C = 8".
fn record_nine() -> [u32; 35] {
    [
        5, 5, 3, 0, 0, NONE, 1, 1, 1, 0, 1, 2, 2, 0, 0, 3, 1, 0, 0, 4, 2, 0, 1, 0, 0, 0, 0, 0, 0,
        0, 0, 0, 0, 0, 0,
    ]
}

// "P9. [..] refused 2 (S7)."
fn p9(rt: &impl Print) -> io::Result<()> {
    println!(rt; "P9")?;
    stand(rt, &record_nine())
}

// "P10. C = 8; fresh, open 0, navigate 0, open 2, by -1: visible 0,1."
// "P11. P10, navigate 1: 2 and 3 go, the new one is 4." "The visible set does return."
fn p10_and_p11(rt: &impl Print) -> io::Result<()> {
    println!(rt; "P10")?;
    let mut words = [7u32; 35];
    fresh(rt, &mut words)?;
    open(rt, &mut words, 0)?;
    navigate(rt, &mut words, 0)?;
    open(rt, &mut words, 2)?;
    go(rt, &mut words, -1)?;
    stand(rt, &words)?;
    println!(rt; "P11")?;
    navigate(rt, &mut words, 1)?;
    stand(rt, &words)?;
    go(rt, &mut words, -1)?;
    stand(rt, &words)
}

// "P12. C = 3; fresh, open 0, navigate 1, navigate 2: the last refused 7."
fn p12(rt: &impl Print) -> io::Result<()> {
    println!(rt; "P12")?;
    let mut words = [7u32; 15];
    fresh(rt, &mut words)?;
    open(rt, &mut words, 0)?;
    navigate(rt, &mut words, 1)?;
    navigate(rt, &mut words, 2)?;
    stand(rt, &words)
}

// "Instead by -1, navigate 1: accepted, number 3."
fn p12_instead(rt: &impl Print) -> io::Result<()> {
    println!(rt; "P12, instead")?;
    let mut words = [7u32; 15];
    fresh(rt, &mut words)?;
    open(rt, &mut words, 0)?;
    navigate(rt, &mut words, 1)?;
    go(rt, &mut words, -1)?;
    navigate(rt, &mut words, 1)?;
    stand(rt, &words)
}

// X without frame 1, and with it frame 2, which lies in document 1; and without frame 2.
fn d1_and_d2(rt: &impl Print) -> io::Result<()> {
    println!(rt; "D1")?;
    let mut one = record_x();
    take_out(rt, &mut one, 1)?;
    stand(rt, &one)?;
    println!(rt; "D2")?;
    let mut two = record_x();
    take_out(rt, &mut two, 2)?;
    stand(rt, &two)
}

// The root frame, and frames that are in no row.
fn d3(rt: &impl Print) -> io::Result<()> {
    println!(rt; "D3")?;
    let mut words = record_x();
    take_out(rt, &mut words, 0)?;
    take_out(rt, &mut words, 9)?;
    take_out(rt, &mut words, 4)?;
    stand(rt, &words)
}

// X by +1: frame 2 lies in a hidden document; frame 1 goes with what is hidden in it.
fn d4_and_d5(rt: &impl Print) -> io::Result<()> {
    println!(rt; "D4")?;
    let mut words = record_x();
    go(rt, &mut words, 1)?;
    take_out(rt, &mut words, 2)?;
    stand(rt, &words)?;
    println!(rt; "D5")?;
    take_out(rt, &mut words, 1)?;
    stand(rt, &words)
}

// X by -1: the step of frame 2 is upcoming.
fn d6(rt: &impl Print) -> io::Result<()> {
    println!(rt; "D6")?;
    let mut words = record_x();
    go(rt, &mut words, -1)?;
    take_out(rt, &mut words, 2)?;
    stand(rt, &words)
}

// Open, drop, open: neither number comes back; on a full table a drop makes room.
fn d8_and_d9(rt: &impl Print) -> io::Result<()> {
    println!(rt; "D8")?;
    let mut words = [7u32; 35];
    fresh(rt, &mut words)?;
    open(rt, &mut words, 0)?;
    take_out(rt, &mut words, 1)?;
    open(rt, &mut words, 0)?;
    stand(rt, &words)?;
    println!(rt; "D9")?;
    let mut few = [7u32; 11];
    fresh(rt, &mut few)?;
    open(rt, &mut few, 0)?;
    open(rt, &mut few, 0)?;
    take_out(rt, &mut few, 1)?;
    open(rt, &mut few, 0)?;
    stand(rt, &few)
}

// A frame in a shown document beneath a hidden one.
fn d10(rt: &impl Print) -> io::Result<()> {
    println!(rt; "D10")?;
    let mut words = [7u32; 35];
    fresh(rt, &mut words)?;
    open(rt, &mut words, 0)?;
    navigate(rt, &mut words, 0)?;
    open(rt, &mut words, 2)?;
    open(rt, &mut words, 3)?;
    go(rt, &mut words, -1)?;
    take_out(rt, &mut words, 3)?;
    take_out(rt, &mut words, 2)?;
    take_out(rt, &mut words, 1)?;
    stand(rt, &words)
}

// 1 and 3 of frame 1 lie in document 0, 2 in 1, 5 in 2. Of 0 and 4 the latter is shown, of 1 and 3 too: 2 and 5 are shown, and hidden by 1.
fn record_nested() -> [u32; 27] {
    [
        6, 6, 4, 0, 0, NONE, 0, 1, 1, 0, 0, 2, 2, 1, 1, 3, 1, 0, 1, 4, 0, NONE, 1, 5, 3, 2, 1,
    ]
}

// "the nearest document, itself first and then upwards, that isn't shown"; refusal 5 "carries that number too".
fn nested(rt: &impl Print) -> io::Result<()> {
    println!(rt; "Nested")?;
    let mut words = record_nested();
    ask(rt, &words, 0)?;
    ask(rt, &words, 1)?;
    ask(rt, &words, 2)?;
    ask(rt, &words, 3)?;
    ask(rt, &words, 4)?;
    ask(rt, &words, 5)?;
    ask(rt, &words, 6)?;
    open(rt, &mut words, 2)?;
    navigate(rt, &mut words, 3)?;
    take_out(rt, &mut words, 3)?;
    take_out(rt, &mut words, 1)?;
    stand(rt, &words)
}

// A login page: of a fresh window, and of one that came to it by a link.
fn r1_and_r2(rt: &impl Print) -> io::Result<()> {
    println!(rt; "R1")?;
    let mut words = [7u32; 35];
    fresh(rt, &mut words)?;
    replace(rt, &mut words, 0)?;
    go(rt, &mut words, -1)?;
    stand(rt, &words)?;
    println!(rt; "R2")?;
    let mut linked = [7u32; 35];
    fresh(rt, &mut linked)?;
    navigate(rt, &mut linked, 0)?;
    replace(rt, &mut linked, 1)?;
    go(rt, &mut linked, -1)?;
    go(rt, &mut linked, 1)?;
    stand(rt, &linked)
}

// X, document 1, beneath which a step is taken; replaced twice.
fn r3_and_r4(rt: &impl Print) -> io::Result<()> {
    println!(rt; "R3")?;
    let mut words = record_x();
    replace(rt, &mut words, 1)?;
    stand(rt, &words)?;
    println!(rt; "R4")?;
    replace(rt, &mut words, 6)?;
    replace(rt, &mut words, 6)?;
    stand(rt, &words)
}

// X: a taken step with nothing beneath it, the root, and documents that are in no row or not visible.
fn r5_to_r7(rt: &impl Print) -> io::Result<()> {
    println!(rt; "R5")?;
    let mut step = record_x();
    replace(rt, &mut step, 4)?;
    stand(rt, &step)?;
    println!(rt; "R6")?;
    let mut root = record_x();
    replace(rt, &mut root, 0)?;
    stand(rt, &root)?;
    println!(rt; "R7")?;
    let mut words = record_x();
    replace(rt, &mut words, 9)?;
    replace(rt, &mut words, 2)?;
    replace(rt, &mut words, 5)?;
    stand(rt, &words)
}

// Documents 1, 3, 6 in frame 1, of which 3 is shown, and 2, 4, 5 in frame 2, of which 4 is: two steps are upcoming.
fn crossing() -> [u32; 31] {
    [
        7, 7, 3, 0, 0, NONE, 1, 1, 1, 0, 0, 2, 2, 0, 0, 3, 1, 0, 1, 4, 2, 0, 1, 5, 2, 0, 0, 6, 1,
        0, 0,
    ]
}

// Upcoming steps of both frames stay, and go on.
fn r8_and_r9(rt: &impl Print) -> io::Result<()> {
    println!(rt; "R8")?;
    let mut words = crossing();
    replace(rt, &mut words, 3)?;
    stand(rt, &words)?;
    println!(rt; "R9")?;
    go(rt, &mut words, 1)?;
    go(rt, &mut words, 1)?;
    replace(rt, &mut words, 5)?;
    stand(rt, &words)
}

// An upcoming step of the root frame stays; no number comes back, and no row more is needed.
fn r10_and_r11(rt: &impl Print) -> io::Result<()> {
    println!(rt; "R10")?;
    let mut words = [7u32; 35];
    fresh(rt, &mut words)?;
    navigate(rt, &mut words, 0)?;
    go(rt, &mut words, -1)?;
    replace(rt, &mut words, 0)?;
    stand(rt, &words)?;
    println!(rt; "R11")?;
    let mut few = [7u32; 11];
    fresh(rt, &mut few)?;
    open(rt, &mut few, 0)?;
    replace(rt, &mut few, 1)?;
    replace(rt, &mut few, 0)?;
    open(rt, &mut few, 3)?;
    stand(rt, &few)
}

// A card with root frame 1 beside the main window: steps in turn, and Back in either.
fn w1_and_w2(rt: &impl Print) -> io::Result<()> {
    println!(rt; "W1")?;
    let mut card = [7u32; 35];
    fresh(rt, &mut card)?;
    tab(rt, &mut card)?;
    navigate(rt, &mut card, 0)?;
    navigate(rt, &mut card, 1)?;
    go_in(rt, &mut card, 1, -1)?;
    stand(rt, &card)?;
    stand_in(rt, &card, 1)?;
    println!(rt; "W2")?;
    let mut main = [7u32; 35];
    fresh(rt, &mut main)?;
    tab(rt, &mut main)?;
    navigate(rt, &mut main, 0)?;
    navigate(rt, &mut main, 1)?;
    go(rt, &mut main, -1)?;
    stand(rt, &main)?;
    stand_in(rt, &main, 1)
}

// A frame beneath a root frame, and a number of no frame; neither window can be dropped.
fn w3_and_w4(rt: &impl Print) -> io::Result<()> {
    println!(rt; "W3")?;
    let mut words = record_x();
    go_in(rt, &mut words, 1, -1)?;
    go_in(rt, &mut words, 9, -1)?;
    stand(rt, &words)?;
    println!(rt; "W4")?;
    let mut two = [7u32; 35];
    fresh(rt, &mut two)?;
    tab(rt, &mut two)?;
    take_out(rt, &mut two, 1)?;
    take_out(rt, &mut two, 0)?;
    stand(rt, &two)
}

// Step 2 of the card is upcoming, and 3 lies in it.
fn ahead_in_card(rt: &impl Print) -> io::Result<[u32; 35]> {
    let mut words = [7u32; 35];
    fresh(rt, &mut words)?;
    tab(rt, &mut words)?;
    navigate(rt, &mut words, 1)?;
    open(rt, &mut words, 2)?;
    go_in(rt, &mut words, 1, -1)?;
    Ok(words)
}

// Navigating in the main window keeps both; navigating in the card clears both.
fn w5_and_w6(rt: &impl Print) -> io::Result<()> {
    println!(rt; "W5")?;
    let mut kept = ahead_in_card(rt)?;
    navigate(rt, &mut kept, 0)?;
    stand(rt, &kept)?;
    stand_in(rt, &kept, 1)?;
    println!(rt; "W6")?;
    let mut cleared = ahead_in_card(rt)?;
    navigate(rt, &mut cleared, 1)?;
    stand(rt, &cleared)?;
    stand_in(rt, &cleared, 1)
}

// A full table whose only upcoming step is the card's: there is room for a step in the card alone.
fn w7(rt: &impl Print) -> io::Result<()> {
    println!(rt; "W7")?;
    let mut words = [7u32; 15];
    fresh(rt, &mut words)?;
    tab(rt, &mut words)?;
    navigate(rt, &mut words, 1)?;
    go_in(rt, &mut words, 1, -1)?;
    navigate(rt, &mut words, 0)?;
    navigate(rt, &mut words, 1)?;
    stand(rt, &words)
}

// What is opened under the card's document is the card's; replacing and dropping there leave the main window.
fn w8(rt: &impl Print) -> io::Result<()> {
    println!(rt; "W8")?;
    let mut words = [7u32; 35];
    fresh(rt, &mut words)?;
    tab(rt, &mut words)?;
    open(rt, &mut words, 1)?;
    navigate(rt, &mut words, 0)?;
    replace(rt, &mut words, 1)?;
    open(rt, &mut words, 4)?;
    take_out(rt, &mut words, 3)?;
    stand(rt, &words)
}

// Fresh with other next numbers.
fn next(d: u32, f: u32) -> [u32; 11] {
    [1, d, f, 0, 0, NONE, 1, 0, 0, 0, 0]
}

// Frame 0 lies in the document of frame 1; the table is full, and all numbers are used.
fn swapped() -> [u32; 11] {
    [2, NONE, NONE, 0, 1, NONE, 1, 1, 0, 0, 1]
}

// "opening a window gives 1, 2, 7 and 8": in this order.
fn tabs(rt: &impl Print) -> io::Result<()> {
    println!(rt; "Tabs")?;
    let mut one = next(1, 1);
    tab(rt, &mut one)?;
    let mut six = [0u32; 6];
    tab(rt, &mut six)?;
    let mut nine = record_nine();
    tab(rt, &mut nine)?;
    let mut full = swapped();
    tab(rt, &mut full)?;
    let mut documents = next(NONE, 1);
    tab(rt, &mut documents)?;
    let mut frames = next(1, NONE);
    tab(rt, &mut frames)
}

// Documents 0 and 2 of root frame 0, of which 0 is shown, 1 and 3 of root frame 1, of which 3 is, and 4 in document 1. As one window it were unsound, as P9 is.
fn pair() -> [u32; 23] {
    [
        5, 5, 3, 0, 0, NONE, 1, 1, 1, NONE, 0, 2, 0, NONE, 0, 3, 1, NONE, 1, 4, 2, 1, 1,
    ]
}

// "S7, position, steps, traversal [..] hold per window".
fn windows_apart(rt: &impl Print) -> io::Result<()> {
    println!(rt; "Windows")?;
    let mut words = pair();
    stand(rt, &words)?;
    stand_in(rt, &words, 1)?;
    list(rt, &words, 0)?;
    list(rt, &words, 1)?;
    go_in(rt, &mut words, 1, 1)?;
    go_in(rt, &mut words, 1, -1)?;
    stand(rt, &words)?;
    stand_in(rt, &words, 1)?;
    outline(rt, &words, 0)?;
    outline(rt, &words, 1)?;
    let mut again = pair();
    go(rt, &mut again, 1)?;
    stand(rt, &again)?;
    stand_in(rt, &again, 1)
}

// "13 when no root frame has that number, after 2"; the root frame is the one without a parent, whatever its number.
fn no_window(rt: &impl Print) -> io::Result<()> {
    println!(rt; "No window")?;
    let mut words = record_x();
    stand_in(rt, &words, 1)?;
    go_in(rt, &mut words, 9, 5)?;
    list(rt, &words, 9)?;
    outline(rt, &words, 1)?;
    let mut nine = record_nine();
    stand_in(rt, &nine, 9)?;
    go_in(rt, &mut nine, 9, 0)?;
    list(rt, &nine, 9)?;
    outline(rt, &nine, 9)?;
    stand_in(rt, &[0u32; 6], 9)?;
    let other = swapped();
    stand_in(rt, &other, 1)?;
    stand_in(rt, &other, 0)
}

// Record of 6 words, and of 7.
fn small_records(rt: &impl Print) -> io::Result<()> {
    println!(rt; "6 words")?;
    let mut six = [7u32; 6];
    fresh(rt, &mut six)?;
    println!(rt; "7 words")?;
    let mut seven = [7u32; 7];
    fresh(rt, &mut seven)?;
    open(rt, &mut seven, 0)
}

fn main(rt: HostRuntime) -> io::Result<()> {
    p1(&rt)?;
    p2(&rt)?;
    p3(&rt)?;
    p4(&rt)?;
    p5(&rt)?;
    p6_and_p7(&rt)?;
    p8(&rt)?;
    p9(&rt)?;
    p10_and_p11(&rt)?;
    p12(&rt)?;
    p12_instead(&rt)?;
    d1_and_d2(&rt)?;
    d3(&rt)?;
    d4_and_d5(&rt)?;
    d6(&rt)?;
    d8_and_d9(&rt)?;
    d10(&rt)?;
    nested(&rt)?;
    r1_and_r2(&rt)?;
    r3_and_r4(&rt)?;
    r5_to_r7(&rt)?;
    r8_and_r9(&rt)?;
    r10_and_r11(&rt)?;
    w1_and_w2(&rt)?;
    w3_and_w4(&rt)?;
    w5_and_w6(&rt)?;
    w7(&rt)?;
    w8(&rt)?;
    tabs(&rt)?;
    windows_apart(&rt)?;
    no_window(&rt)?;
    small_records(&rt)
}
