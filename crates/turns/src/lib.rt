// What one line of a script does to a record, and what it is answered.
#![tactic(auto)]

ghost use Rattle.std.specs.Prelude.{◌≡◌};
ghost use Rattle.rules.specs.Calls.{Call, outcome};
ghost use Rattle.lines.specs.Reply.{reply_is};
ghost use Rattle.turns.specs.Turns.{replied, one_number, two_numbers, standing, Leaves, gone, turned};

use base::{DocNo, FrameNo, Refusal};
use lines::{Command, Progress, Reply};

// What an accepted call tells: a number, or a new window's document and root frame.
#[derive(Clone, Copy)]
enum Value {
    Number(usize),
    Window(DocNo, FrameNo),
}

// The answer to a call: what it tells, or why it was refused, and how far window 0 has come. Where Position itself refuses, it is that refusal at 0/0.
fn reply(words: &[u32], told: Result<Value, Refusal>) -> Reply
    ensures { reply_is result ≡ replied (standing words.now) told }
{
    let at = match lists::position(words, FrameNo(0)) {
        Ok(s) => Progress {
            position: s.position,
            steps: s.steps,
        },
        Err(r) => {
            return Reply::No(
                r,
                Progress {
                    position: 0,
                    steps: 0,
                },
            );
        }
    };
    match told {
        Ok(Value::Number(v)) => Reply::Ok(v, at),
        Ok(Value::Window(d, f)) => Reply::Tab(d, f, at),
        Err(why) => Reply::No(why, at),
    }
}

// `open P`
fn open_line(words: &mut [u32], parent: DocNo) -> Reply
    ensures { Leaves one_number (outcome (Call.Open words.old parent.0)) (reply_is result) words.new }
{
    match moves::open_frame(words, parent) {
        Ok(opened) => reply(words, Ok(Value::Number(opened.document.0 as usize))),
        Err(r) => reply(words, Err(r)),
    }
}

// `nav D`
fn nav_line(words: &mut [u32], from: DocNo) -> Reply
    ensures { Leaves one_number (outcome (Call.Navigate words.old from.0)) (reply_is result) words.new }
{
    match navigates::navigate(words, from) {
        Ok(d) => reply(words, Ok(Value::Number(d.0 as usize))),
        Err(r) => reply(words, Err(r)),
    }
}

// `go N R`
fn go_line(words: &mut [u32], changes: &mut [u32], root: FrameNo, delta: i32) -> Reply
    ensures { gone (outcome (Call.Traverse words.old root.0 delta changes.old)) ≡ record { said = reply_is result; words = words.new; changes = changes.new } }
{
    match traverses::traverse(words, root, delta, changes) {
        Ok(n) => reply(words, Ok(Value::Number(n))),
        Err(r) => reply(words, Err(r)),
    }
}

// `drop F`
fn drop_line(words: &mut [u32], frame: FrameNo) -> Reply
    ensures { Leaves one_number (outcome (Call.Drop words.old frame.0)) (reply_is result) words.new }
{
    match drops::drop_frame(words, frame) {
        Ok(n) => reply(words, Ok(Value::Number(n as usize))),
        Err(r) => reply(words, Err(r)),
    }
}

// `replace D`
fn replace_line(words: &mut [u32], d: DocNo) -> Reply
    ensures { Leaves one_number (outcome (Call.Replace words.old d.0)) (reply_is result) words.new }
{
    match replaces::replace(words, d) {
        Ok(m) => reply(words, Ok(Value::Number(m.0 as usize))),
        Err(r) => reply(words, Err(r)),
    }
}

// `tab`
fn tab_line(words: &mut [u32]) -> Reply
    ensures { Leaves two_numbers (outcome (Call.Tab words.old)) (reply_is result) words.new }
{
    match moves::open_window(words) {
        Ok(opened) => reply(words, Ok(Value::Window(opened.document, opened.frame))),
        Err(r) => reply(words, Err(r)),
    }
}

// What a line does: the record and the change words are then those of the definition, and the answer too.
pub fn turn(words: &mut [u32], changes: &mut [u32], line: &[u8]) -> Reply
    ensures { turned words.old changes.old line.now ≡ record { said = reply_is result; words = words.new; changes = changes.new } }
{
    let Some(command) = lines::parse(line) else {
        return Reply::Bad;
    };
    match command {
        Command::Open(p) => open_line(words, p),
        Command::Nav(d) => nav_line(words, d),
        Command::Go(root, delta) => go_line(words, changes, root, delta),
        Command::Drop(f) => drop_line(words, f),
        Command::Replace(d) => replace_line(words, d),
        Command::Tab => tab_line(words),
    }
}
