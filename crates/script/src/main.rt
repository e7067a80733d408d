// Prints the answers to the lines of standard input. What is printed for a text is what `texts` promises; here it is read and written.
#![tactic(auto)]

ghost use Rattle.std.specs.Prelude.{◌≤◌, ◌<◌, length, take, IfOk, OnOk, IfSome};
ghost use Rattle.std.specs.Io.KnownBytes.{Appends};
ghost use Rattle.texts.specs.Texts.{unended, lines_of, answers, script_text};
ghost use Rattle.texts.specs.Feeds.{reader};
ghost use Rattle.script.specs.Runs.{Answers, ReadsOnce};

use anyhow::{Context, Result, bail};
use std::io::{Read, Write};
use std::process::ExitCode;

// Writes a part of the answers.
fn print<W: Write>(output: &mut W, text: &[u8]) -> Result<()>
    ensures { OnOk result (Appends (W.contents output.old) (W.contents output.new) text.now) }
{
    output
        .write_all(text)
        .context("script: cannot write to standard output")
}

// Answers the lines of a part of the input, and writes the answers as often as out is full. How many bytes of the last line are kept.
fn answer<W: Write>(
    output: &mut W,
    text: &[u8],
    line: &mut [u8],
    kept: usize,
    words: &mut [u32],
    changes: &mut [u32],
    out: &mut [u8],
) -> Result<usize>
    requires { (65 ≤ length line.old) × (67 ≤ length out.old) }
    ensures { IfOk result (λ n. Answers (reader words.old changes.old line.old kept) text.now (reader words.new changes.new line.new n)
        (W.contents output.old) (W.contents output.new)) }
{
    let mut at = 0;
    let mut len = kept;
    while at < text.len() {
        let f = texts::feed(&text[at..], line, len, words, changes, out);
        print(output, &out[..f.used])?;
        at += f.taken;
        len = f.kept;
    }
    Ok(len)
}

// What a read came to: with so many bytes of the last line kept there is more, or the input has ended.
#[derive(Clone, Copy)]
enum Input {
    More(usize),
    End(usize),
}

// Reads once, and answers what was read.
fn take<R: Read, W: Write>(
    input: &mut R,
    output: &mut W,
    buf: &mut [u8],
    line: &mut [u8],
    kept: usize,
    words: &mut [u32],
    changes: &mut [u32],
    out: &mut [u8],
) -> Result<Input>
    requires { (65 ≤ length line.old) × (67 ≤ length out.old) }
    ensures { IfOk result (λ i. ReadsOnce i (length buf.old) (R.remaining input.old) (R.remaining input.new)
        (reader words.old changes.old line.old kept) (reader words.new changes.new line.new)
        (W.contents output.old) (W.contents output.new)) }
{
    let n = input
        .read(buf)
        .context("script: cannot read standard input")?;
    if n == 0 {
        return Ok(Input::End(kept));
    }
    let len = answer(output, &buf[..n], line, kept, words, changes, out)?;
    Ok(Input::More(len))
}

// Answers the last line, where it lacks its newline.
fn finish<W: Write>(
    output: &mut W,
    line: &[u8],
    kept: usize,
    words: &mut [u32],
    changes: &mut [u32],
    out: &mut [u8],
) -> Result<()>
    ensures { OnOk result (67 ≤ length out.old
        → Appends (W.contents output.old) (W.contents output.new) (answers words.old changes.old (unended (take kept line.now)))) }
{
    let Some(used) = texts::finish(line, kept, words, changes, out) else {
        return Ok(());
    };
    print(output, &out[..used])
}

// Reads until the input ends or fails. A proved loop has to end, so the reads are counted up to a number that no run comes to.
fn run<R: Read, W: Write>(
    input: &mut R,
    output: &mut W,
    buf: &mut [u8],
    line: &mut [u8],
    words: &mut [u32],
    changes: &mut [u32],
    out: &mut [u8],
) -> Result<()>
    requires { (65 ≤ length line.old) × (67 ≤ length out.old) }
    ensures { OnOk result (0 < length buf.old → IfSome (R.remaining input.old)
        (λ text. Appends (W.contents output.old) (W.contents output.new) (answers words.old changes.old (lines_of text)))) }
{
    let mut kept = 0;
    for _ in 0..u64::MAX {
        match take(input, output, buf, line, kept, words, changes, out)? {
            Input::More(n) => {
                kept = n;
            }
            Input::End(n) => {
                return finish(output, line, n, words, changes, out);
            }
        }
    }
    bail!("script: standard input does not end")
}

// Answers all lines of an input, starting from Fresh with room for 512 rows.
fn answer_all<R: Read, W: Write>(input: &mut R, output: &mut W) -> Result<()>
    ensures { OnOk result (IfSome (R.remaining input.old)
        (λ text. Appends (W.contents output.old) (W.contents output.new) (script_text text))) }
{
    let mut buf = [0u8; 65536];
    let mut out = [0u8; 65536];
    let mut line = [0u8; 65];
    let mut words = [0u32; 2051];
    let mut changes = [0u32; 2048];
    // Not refused: there is room.
    let _ = moves::fresh(&mut words);
    run(
        input,
        output,
        &mut buf,
        &mut line,
        &mut words,
        &mut changes,
        &mut out,
    )
}

// A read or a write that fails is told on standard error.
fn main(rt: HostRuntime) -> ExitCode {
    match answer_all(&mut rt.stdin(), &mut rt.stdout()) {
        Ok(()) => ExitCode::SUCCESS,
        Err(e) => {
            let _ = rt.eprintln(e);
            ExitCode::FAILURE
        }
    }
}
