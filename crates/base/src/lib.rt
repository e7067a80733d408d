// The numbers that are kept apart, the ways to say no, and the magnitude of a signed amount.
#![tactic(auto)]

ghost use Rattle.std.specs.Prelude.{◌≡◌, nat_abs};
ghost use Rattle.base.specs.Numbers.{number_of, carried_by, carried_is, Narrow, IsNumberOf};

use std::fmt;

// The number of a document.
#[repr(C)]
#[derive(Clone, Copy, Debug, PartialEq, Eq, PartialOrd, Ord)]
pub struct DocNo(pub u32);

impl DocNo {
    // No document: no parent, and as the next number that all are used.
    pub const NONE: DocNo = DocNo(4294967295);
}

impl fmt::Display for DocNo {
    fn fmt<W: fmt::Write>(&self, f: &mut fmt::Formatter<W>) -> fmt::Result {
        self.0.fmt(f)
    }
}

// The number of a frame.
#[repr(C)]
#[derive(Clone, Copy, Debug, PartialEq, Eq, PartialOrd, Ord)]
pub struct FrameNo(pub u32);

impl FrameNo {
    // No frame: as the next number that all are used.
    pub const NONE: FrameNo = FrameNo(4294967295);
}

impl fmt::Display for FrameNo {
    fn fmt<W: fmt::Write>(&self, f: &mut fmt::Formatter<W>) -> fmt::Result {
        self.0.fmt(f)
    }
}

// The place of a row in the record, counted from 0.
#[derive(Clone, Copy, Debug, PartialEq, Eq, PartialOrd, Ord)]
pub struct RowPlace(pub usize);

// A row: its document, its frame, its parent document, and the word that tells whether it is shown.
#[derive(Clone, Copy, Debug, PartialEq, Eq)]
pub struct Row {
    pub document: DocNo,
    pub frame: FrameNo,
    pub parent: DocNo,
    pub shown: u32,
}

// Why a call is refused, by the paper's table "Nine ways to say no" with what document 02 adds.
#[derive(Clone, Copy, Debug, PartialEq, Eq)]
pub enum Refusal {
    // record under 7 words
    ShortRecord,
    // record unsound
    Unsound,
    // saved bytes are not such bytes
    NotSaved,
    // document not in the record; for removal, the frame
    Absent,
    // document there, not visible; for removal, the one that holds the frame: with who hides it
    Hidden(DocNo),
    // position + delta below 0 or above steps; a list shorter than the magnitude of delta
    Beyond,
    // no row left
    Full,
    // the next document number, or the next frame number, is 4294967295
    UsedUp,
    // a lent answer buffer is too short
    ShortBuffer,
    // the root frame cannot be taken out
    RootFrame,
    // a given coordinate, a zoom or a product is NaN or infinite
    NotFinite,
    // no entry for the place, even after freeing
    NoEntry,
    // no root frame has the number
    NoRoot,
    // the entries of the store of places that are not free hold a document twice, a kind above 1 or a point that is not finite
    BadPlaces,
}

// The paper's number of a refusal.
impl From<Refusal> for u32 {
    ghost from_gives = { IsNumberOf };

    fn from(refusal: Refusal) -> u32 {
        match refusal {
            Refusal::ShortRecord => 1,
            Refusal::Unsound => 2,
            Refusal::NotSaved => 3,
            Refusal::Absent => 4,
            Refusal::Hidden(_) => 5,
            Refusal::Beyond => 6,
            Refusal::Full => 7,
            Refusal::UsedUp => 8,
            Refusal::ShortBuffer => 9,
            Refusal::RootFrame => 10,
            Refusal::NotFinite => 11,
            Refusal::NoEntry => 12,
            Refusal::NoRoot => 13,
            Refusal::BadPlaces => 15,
        }
    }
}

impl Refusal {
    // The document that a refusal carries, if it does: who hides the one that was asked for.
    pub fn carried(self) -> Option<DocNo>
        ensures is { carried_is result ≡ carried_by self }
        ensures narrow { Narrow (carried_by self) }
    {
        match self {
            Refusal::Hidden(d) => Some(d),
            _ => None,
        }
    }
}

// The number of a refusal, and at which document where it carries one.
impl fmt::Display for Refusal {
    fn fmt<W: fmt::Write>(&self, f: &mut fmt::Formatter<W>) -> fmt::Result {
        let number = u32::from(*self);
        match self.carried() {
            Some(d) => write!(f, "{number} at {d}"),
            None => write!(f, "{number}"),
        }
    }
}

// The magnitude of an amount: the least number has one too, and it fits 32 bits without a sign.
pub fn magnitude(delta: i32) -> usize
    ensures { result ≡ nat_abs delta }
{
    delta.unsigned_abs() as usize
}
