// Replace: a visible document gives way to a new one in its own row. What is beneath it goes, and every other row stays, upcoming steps too.
//
// What bounds it, for n rows: one pass over the rows after the document's own, closing the gaps. On the way a row looks back for its parent among the rows kept so far, and not at
// all where that is the parent found last or the one missed last.
#![tactic(auto)]

ghost use Rattle.std.specs.Prelude.{◌≡◌, [], ◌∷◌};
ghost use Rattle.rules.specs.Moves.{replaced};
ghost use Rattle.rules.specs.Words.{table_of, written};
ghost use Rattle.rules.specs.Calls.{Call, refusals, NoneGiven, outcome};
ghost use Rattle.sound.specs.Check.{Examined, Settles, Judged};
ghost use Rattle.replaces.specs.Answers.{replaced_is, number_rungs};

use base::{DocNo, Refusal};
use packs::Keeping;

// Refusal 8.
fn judge_number(words: &[u32]) -> Result<(), Refusal>
    ensures { Settles (number_rungs words.now) result }
{
    if rows::next_document(words) == DocNo::NONE {
        return Err(Refusal::UsedUp);
    }
    Ok(())
}

// Whether Replace is refused, and how, of a sound record.
fn judge(words: &[u32], d: DocNo) -> Result<(), Refusal>
    requires { Examined words.now }
    ensures { Judged (Call.Replace words.now d.0) result }
{
    asks::judge_sight(words, d)?;
    judge_number(words)
}

// Replaces where no refusal is given. The new document.
fn go_on(words: &mut [u32], d: DocNo) -> DocNo
    requires { NoneGiven (refusals (Call.Replace words.old d.0)) }
    ensures { (result.0 ≡ (table_of words.old).next_doc) × (words.new ≡ written words.old (replaced (table_of words.old) d.0)) }
{
    let n = rows::row_count(words);
    let m = rows::next_document(words);
    let top = rows::next_frame_number(words);
    let at = packs::place_before(words, n, d);
    // The rows up to the document's own stay where they are.
    let start = Keeping {
        rows: at.0 + 1,
        found: d,
        missed: m,
    };
    let k = packs::close_gaps(words, d, start);
    writes::put_document(words, at, m);
    packs::end_rows(words, k, n, DocNo(m.0 + 1), top);
    m
}

// Replaces a document of a sound record. The new document.
fn replace_sound(words: &mut [u32], d: DocNo) -> Result<DocNo, Refusal>
    requires { Examined words.old }
    ensures { outcome (Call.Replace words.old d.0) ≡ record { answer = replaced_is result; lent = words.new ∷ [] } }
{
    judge(words, d)?;
    Ok(go_on(words, d))
}

// Replaces a document in its own row. The new document.
pub fn replace(words: &mut [u32], d: DocNo) -> Result<DocNo, Refusal>
    ensures { outcome (Call.Replace words.old d.0) ≡ record { answer = replaced_is result; lent = words.new ∷ [] } }
{
    sound::examine(words)?;
    replace_sound(words, d)
}
