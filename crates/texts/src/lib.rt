// A script's whole text, read in parts: where its lines end, and what is printed for them.
//
// `read_line` ends a line, whatever is done with it then; `feed` and `finish` answer it as a line of a script.
#![tactic(auto)]

ghost use Rattle.std.specs.Prelude.{◌≡◌, ◌+◌, ◌≤◌, min, length, set, take};
ghost use Rattle.base.specs.Numbers.{number_of, carried_by};
ghost use Rattle.laws.specs.Writes.{Wrote};
ghost use Rattle.lines.specs.Reply.{Said, reply_is, answer_text};
ghost use Rattle.texts.specs.Cuts.{grown, Cuts};
ghost use Rattle.texts.specs.Feeds.{Answered, Settled, Feeds, Finishes};

use base::{DocNo, FrameNo, Refusal};
use lines::{Progress, Reply};

// Where a reading of a text has come to: the place after what was read, how many bytes of the line are kept, and whether the line has ended.
#[derive(Clone, Copy)]
pub struct Cut {
    pub at: usize,
    pub kept: usize,
    pub ended: bool,
}

// Keeps a byte of a line, where there is room for it. How many are kept then.
fn keep(line: &mut [u8], kept: usize, b: u8) -> usize
    ensures { (line.new ≡ set line.old kept b) × (result ≡ grown (length line.old) kept 1) }
{
    if kept < line.len() {
        line[kept] = b;
        return kept + 1;
    }
    kept
}

// Reads a text from a place on, up to the end of its line or of the text, and keeps of the line what there is room for.
pub fn read_line(text: &[u8], from: usize, line: &mut [u8], kept: usize) -> Cut
    ensures { Cuts text.now from line.old kept result line.new }
{
    let mut len = kept;
    for i in from..text.len() {
        let b = text[i];
        if b == b'\n' {
            return Cut {
                at: i + 1,
                kept: len,
                ended: true,
            };
        }
        len = keep(line, len, b);
    }
    Cut {
        at: from.max(text.len()),
        kept: len,
        ended: false,
    }
}

// Puts the answer to an accepted call into out, and says where it ends.
fn put_ok(out: &mut [u8], at: usize, v: usize, progress: Progress) -> usize
    requires { at + 67 ≤ length out.old }
    ensures { Wrote out.old at (answer_text (Said.ok v progress.position progress.steps)) out.new result × (result ≤ at + 67) }
{
    lines::put_answer(out, at, Reply::Ok(v, progress))
}

// Puts the answer to `tab` into out, and says where it ends.
fn put_tab(out: &mut [u8], at: usize, d: DocNo, f: FrameNo, progress: Progress) -> usize
    requires { at + 67 ≤ length out.old }
    ensures { Wrote out.old at (answer_text (Said.tabbed d.0 f.0 progress.position progress.steps)) out.new result × (result ≤ at + 67) }
{
    lines::put_answer(out, at, Reply::Tab(d, f, progress))
}

// Puts the answer to a refused call into out, and says where it ends.
fn put_no(out: &mut [u8], at: usize, why: Refusal, progress: Progress) -> usize
    requires { at + 67 ≤ length out.old }
    ensures { Wrote out.old at (answer_text (Said.denied (number_of why) (carried_by why) progress.position progress.steps)) out.new result × (result ≤ at + 67) }
{
    // What the refusal carries is a number of 32 bits, so that the answer is no longer than others.
    why.carried();
    lines::put_answer(out, at, Reply::No(why, progress))
}

// Puts an answer into out, where 67 bytes are left, which are room for any, and says where it ends.
fn put_reply(out: &mut [u8], at: usize, reply: Reply) -> usize
    requires { at + 67 ≤ length out.old }
    ensures { Wrote out.old at (answer_text (reply_is reply)) out.new result × (result ≤ at + 67) }
{
    match reply {
        Reply::Ok(v, progress) => put_ok(out, at, v, progress),
        Reply::Tab(d, f, progress) => put_tab(out, at, d, f, progress),
        Reply::No(why, progress) => put_no(out, at, why, progress),
        Reply::Bad => lines::put_answer(out, at, Reply::Bad),
    }
}

// Does what a line of a script asks, and puts the answer into out from `used` on. Where it ends.
fn answer_line(
    line: &[u8],
    words: &mut [u32],
    changes: &mut [u32],
    out: &mut [u8],
    used: usize,
) -> usize
    requires { used + 67 ≤ length out.old }
    ensures { Answered words.old changes.old line.now out.old used words.new changes.new out.new result }
{
    let reply = turns::turn(words, changes, line);
    put_reply(out, used, reply)
}

// How many bytes of a line are kept, and how many bytes of answers are there.
#[derive(Clone, Copy)]
pub struct Place {
    pub kept: usize,
    pub used: usize,
}

// Answers the line that was read, where it has ended.
fn settle(
    c: Cut,
    line: &[u8],
    words: &mut [u32],
    changes: &mut [u32],
    out: &mut [u8],
    used: usize,
) -> Place
    requires { used + 67 ≤ length out.old }
    ensures { Settled c words.old changes.old line.now out.old used words.new changes.new out.new result }
{
    if !c.ended {
        return Place { kept: c.kept, used };
    }
    let n = c.kept.min(line.len());
    let end = answer_line(&line[..n], words, changes, out, used);
    Place { kept: 0, used: end }
}

// How much of a part of a text was read, how many bytes of its last line are kept, and how many bytes of answers there are.
#[derive(Clone, Copy)]
pub struct Fed {
    pub taken: usize,
    pub kept: usize,
    pub used: usize,
}

// Feeds a part of a text: answers its lines one after the other into out, until all is read or out has no room for another answer.
pub fn feed(
    text: &[u8],
    line: &mut [u8],
    kept: usize,
    words: &mut [u32],
    changes: &mut [u32],
    out: &mut [u8],
) -> Fed
    ensures { Feeds text.now words.old changes.old line.old kept out.old result words.new changes.new line.new out.new }
{
    let mut at = 0;
    let mut len = kept;
    let mut used = 0;
    let wide = 65 <= line.len();
    while wide & (at < text.len()) & (67 <= out.len() - used) {
        let c = read_line(text, at, line, len);
        let p = settle(c, line, words, changes, out, used);
        at = c.at;
        len = p.kept;
        used = p.used;
    }
    Fed {
        taken: at,
        kept: len,
        used,
    }
}

// Answers the last line of a text, where it lacks its newline. How many bytes of answers there are; nothing, where out or the line's buffer is too short.
pub fn finish(
    line: &[u8],
    kept: usize,
    words: &mut [u32],
    changes: &mut [u32],
    out: &mut [u8],
) -> Option<usize>
    ensures { Finishes words.old changes.old line.now kept out.old result words.new changes.new out.new }
{
    if out.len() < 67 {
        return None;
    }
    let n = kept.min(line.len());
    if n == 0 {
        return Some(0);
    }
    Some(answer_line(&line[..n], words, changes, out, 0))
}
