// Which rows of a table are of a window, row after row. A row is of its parent's window, so what was found of one holds of all with its parent: a walk keeps in mind
// the parent last found within the window and the one last found outside it, and climbs only from a row that has neither.
#![tactic(auto)]

ghost use Rattle.std.specs.Prelude.{◌≡◌};
ghost use Rattle.rules.specs.Windows.{root_at};
ghost use Rattle.rules.specs.Words.{rows_of};
ghost use Rattle.reads.specs.Within.{Within};
ghost use Rattle.members.specs.Members.{Kin, Recalls, Sided, nothing, learned};

use base::{DocNo, FrameNo, RowPlace};

// The parents of rows that were last found within the window and outside it; none where there was no such row.
#[derive(Clone, Copy)]
pub struct Known {
    pub within: DocNo,
    pub outside: DocNo,
}

// Whether a row is of the window, and what is known then.
#[derive(Clone, Copy)]
pub struct Member {
    pub inside: bool,
    pub known: Known,
}

// Before the first row.
pub fn nothing_known() -> Known
    ensures { result ≡ nothing }
{
    Known {
        within: DocNo::NONE,
        outside: DocNo::NONE,
    }
}

// What a row tells of its own window: the rows beneath its parent are of it.
pub fn known_beneath(words: &[u32], at: RowPlace) -> Known
    requires { Within words.now at.0 × Kin (rows_of words.now) }
    ensures { Recalls (root_at (rows_of words.now) at.0) (rows_of words.now) result }
{
    Known {
        within: reads::parent(words, at),
        outside: DocNo::NONE,
    }
}

// What is known after a row beneath this document.
fn learn(known: Known, up: DocNo, inside: bool) -> Known
    ensures { result ≡ learned known up inside }
{
    if inside {
        Known {
            within: up,
            ..known
        }
    } else {
        Known {
            outside: up,
            ..known
        }
    }
}

// Whether a row is of the window of a root frame.
pub fn belongs(words: &[u32], at: RowPlace, root: FrameNo, known: Known) -> Member
    requires { Within words.now at.0 × Recalls root.0 (rows_of words.now) known }
    ensures { Sided root.0 (rows_of words.now) at.0 result }
{
    let up = reads::parent(words, at);
    if up == DocNo::NONE {
        let inside = reads::frame(words, at) == root;
        return Member { inside, known };
    }
    let within = known.within;
    if up == within {
        return Member {
            inside: true,
            known,
        };
    }
    let outside = known.outside;
    if up == outside {
        return Member {
            inside: false,
            known,
        };
    }
    let inside = reads::root_of(words, at) == root;
    let known = learn(known, up, inside);
    Member { inside, known }
}
