// One line of a script: what it asks, and the text of the line that answers it.
#![tactic(auto)]

ghost use Rattle.std.specs.Prelude.{true, [], ◌∷◌, ◌++◌, ◌≡◌, ◌==◌, ◌+◌, ◌<◌, ◌≤◌, length, position};
ghost use Rattle.std.specs.List.{list_all};
ghost use Rattle.std.specs.Char.{is_ascii_digit};
ghost use Rattle.lines.specs.Decimal.{decimal, leading_zero?, decimal?, numeral as numeral_of};
ghost use Rattle.lines.specs.Lines.{going_by as going_by_of, going as going_of, worded as worded_of, parse as parse_of, command_is};
ghost use Rattle.laws.specs.Writes.{Wrote};
ghost use Rattle.base.specs.Numbers.{number_of, carried_by};
ghost use Rattle.lines.specs.Reply.{reply_is, end_text, tab_text, denied_text, answer_text};

use base::{DocNo, FrameNo, Refusal};

// What a line asks.
#[derive(Clone, Copy, Debug, PartialEq, Eq)]
pub enum Command {
    Open(DocNo),
    Nav(DocNo),
    Go(FrameNo, i32),
    Drop(FrameNo),
    Replace(DocNo),
    Tab,
}

// How far a window has come: the steps taken, of how many in all.
#[derive(Clone, Copy, Debug, PartialEq, Eq)]
pub struct Progress {
    pub position: usize,
    pub steps: usize,
}

// An answer: a number, a new window's document and root frame, or a refusal, with how far window 0 has come; or that the line is none of a script.
#[derive(Clone, Copy, Debug, PartialEq, Eq)]
pub enum Reply {
    Ok(usize, Progress),
    Tab(DocNo, FrameNo, Progress),
    No(Refusal, Progress),
    Bad,
}

// Whether every byte is a digit.
fn all_digits(text: &[u8]) -> bool
    ensures { result ≡ list_all is_ascii_digit text.now }
{
    text.iter().all(|b| b.is_ascii_digit())
}

// Whether a text has a zero with more after it.
fn leads_zero(text: &[u8]) -> bool
    ensures { result ≡ leading_zero? text.now }
{
    text.len() > 1 && text[0] == b'0'
}

// Whether a text is a decimal without leading zeros.
fn is_decimal(text: &[u8]) -> bool
    ensures { result ≡ decimal? text.now }
{
    !text.is_empty() && !leads_zero(text) && all_digits(text)
}

// The number that a text spells, if it is a decimal and the number at most top: what is above top is never carried on.
pub fn numeral(text: &[u8], top: u32) -> Option<u32>
    ensures { result ≡ numeral_of top text.now }
{
    if !is_decimal(text) {
        return None;
    }
    let mut n: u64 = 0;
    for b in text {
        n = n * 10 + u64::from(*b - b'0');
        if n > u64::from(top) {
            return None;
        }
    }
    Some(n as u32)
}

// What a text asks that is the amount to go by in a window: never `-0`.
fn going_by(root: FrameNo, text: &[u8]) -> Option<Command>
    ensures { command_is result ≡ going_by_of root.0 text.now }
{
    if let Some(digits) = text.strip_prefix(b"-") {
        let n = numeral(digits, i32::MAX as u32 + 1)?;
        if n == 0 {
            return None;
        }
        return Some(Command::Go(root, -i64::from(n) as i32));
    }
    let n = numeral(text, i32::MAX as u32)?;
    Some(Command::Go(root, n as i32))
}

// The place of a text's first blank, if it has one.
fn blank(text: &[u8]) -> Option<usize>
    ensures { result ≡ position (λ b. b == 32) text.now }
{
    text.iter().position(|b| *b == b' ')
}

// What the text after `go ` asks: in the window of the root frame named after a blank, in that of root frame 0 where none is.
fn going(text: &[u8]) -> Option<Command>
    ensures { command_is result ≡ going_of text.now }
{
    let Some(at) = blank(text) else {
        return going_by(FrameNo(0), text);
    };
    let root = numeral(&text[at + 1..], u32::MAX)?;
    going_by(FrameNo(root), &text[..at])
}

// What a line asks by its first word.
fn worded(line: &[u8]) -> Option<Command>
    ensures { command_is result ≡ worded_of line.now }
{
    if let Some(rest) = line.strip_prefix(b"open ") {
        return Some(Command::Open(DocNo(numeral(rest, u32::MAX)?)));
    }
    if let Some(rest) = line.strip_prefix(b"nav ") {
        return Some(Command::Nav(DocNo(numeral(rest, u32::MAX)?)));
    }
    if let Some(rest) = line.strip_prefix(b"go ") {
        return going(rest);
    }
    if let Some(rest) = line.strip_prefix(b"drop ") {
        return Some(Command::Drop(FrameNo(numeral(rest, u32::MAX)?)));
    }
    if let Some(rest) = line.strip_prefix(b"replace ") {
        return Some(Command::Replace(DocNo(numeral(rest, u32::MAX)?)));
    }
    (line == b"tab".as_slice()).then_some(Command::Tab)
}

// What a line asks, if it is a line of a script.
pub fn parse(line: &[u8]) -> Option<Command>
    ensures { command_is result ≡ parse_of line.now }
{
    if line.len() > 64 {
        return None;
    }
    worded(line)
}

// Writes one byte, and answers the place after it.
fn put_byte(out: &mut [u8], at: usize, b: u8) -> usize
    requires { at < length out.old }
    ensures { Wrote out.old at (b ∷ []) out.new result }
{
    out[at] = b;
    at + 1
}

// Writes a text, and answers the place after it.
fn put_text(out: &mut [u8], at: usize, text: &[u8]) -> usize
    requires { at + length text.now ≤ length out.old }
    ensures { Wrote out.old at text.now out.new result }
{
    let end = at + text.len();
    out[at..end].copy_from_slice(text);
    end
}

// Writes a number's decimal: the digits before the last, then the last.
pub fn put_decimal(out: &mut [u8], at: usize, n: usize) -> usize
    requires { at + length (decimal n) ≤ length out.old }
    ensures { Wrote out.old at (decimal n) out.new result }
{
    if n < 10 {
        return put_byte(out, at, b'0' + n as u8);
    }
    let k = put_decimal(out, at, n / 10);
    put_byte(out, k, b'0' + (n % 10) as u8)
}

// Writes a byte and a number's decimal.
fn put_number(out: &mut [u8], at: usize, mark: u8, n: usize) -> usize
    requires { at + length (mark ∷ decimal n) ≤ length out.old }
    ensures { Wrote out.old at (mark ∷ decimal n) out.new result }
{
    let k = put_byte(out, at, mark);
    put_decimal(out, k, n)
}

// Writes a number, position/steps, and the newline.
fn put_end(out: &mut [u8], at: usize, n: usize, progress: Progress) -> usize
    requires { at + length (end_text n progress.position progress.steps) ≤ length out.old }
    ensures { Wrote out.old at (end_text n progress.position progress.steps) out.new result }
{
    let i = put_number(out, at, b' ', n);
    let j = put_number(out, i, b' ', progress.position);
    let k = put_number(out, j, b'/', progress.steps);
    put_byte(out, k, b'\n')
}

// Writes a word, a number, position/steps, and the newline.
fn put_status(out: &mut [u8], at: usize, word: &[u8], n: usize, progress: Progress) -> usize
    requires { at + length (word.now ++ end_text n progress.position progress.steps) ≤ length out.old }
    ensures { Wrote out.old at (word.now ++ end_text n progress.position progress.steps) out.new result }
{
    let i = put_text(out, at, word);
    put_end(out, i, n, progress)
}

// Writes what tells a new window: `ok D F`, position/steps, and the newline.
fn put_tab(out: &mut [u8], at: usize, d: DocNo, f: FrameNo, progress: Progress) -> usize
    requires { at + length (tab_text d.0 f.0 progress.position progress.steps) ≤ length out.old }
    ensures { Wrote out.old at (tab_text d.0 f.0 progress.position progress.steps) out.new result }
{
    let i = put_text(out, at, b"ok");
    let j = put_number(out, i, b' ', d.0 as usize);
    put_end(out, j, f.0 as usize, progress)
}

// Writes a refusal with what it carries: `no K` or `no K at D`, position/steps, and the newline.
fn put_refusal(out: &mut [u8], at: usize, why: Refusal, progress: Progress) -> usize
    requires { at + length (denied_text (number_of why) (carried_by why) progress.position progress.steps) ≤ length out.old }
    ensures { Wrote out.old at (denied_text (number_of why) (carried_by why) progress.position progress.steps) out.new result }
{
    let k = u32::from(why) as usize;
    let Some(d) = why.carried() else {
        return put_status(out, at, b"no", k, progress);
    };
    let i = put_text(out, at, b"no");
    let j = put_number(out, i, b' ', k);
    put_status(out, j, b" at", d.0 as usize, progress)
}

// Writes an answer with its newline, and answers the place after it.
pub fn put_answer(out: &mut [u8], at: usize, reply: Reply) -> usize
    requires { at + length (answer_text (reply_is reply)) ≤ length out.old }
    ensures { Wrote out.old at (answer_text (reply_is reply)) out.new result }
{
    match reply {
        Reply::Ok(v, progress) => put_status(out, at, b"ok", v, progress),
        Reply::Tab(d, f, progress) => put_tab(out, at, d, f, progress),
        Reply::No(why, progress) => put_refusal(out, at, why, progress),
        Reply::Bad => put_text(out, at, b"bad\n"),
    }
}
