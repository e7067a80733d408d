// Doubles as scroll places have them: which are finite, their bits, a point and a place by value, and a place at a zoom.
#![tactic(auto)]

ghost use Rattle.std.specs.Prelude.{◌≡◌, true};
ghost use Rattle.std.specs.Float.{binary64};
ghost use Rattle.std.specs.Float.Ieee.{of_bits, to_bits};
ghost use Rattle.rules.specs.Places.{finite, finite_place, scaled};
ghost use Rattle.points.specs.Points.{place_given};

// Whether a double is neither NaN nor infinite: a NaN is neither above nor below anything. Of an infinity the two comparisons raise no flag of the host's;
// `x.is_finite()` takes it from itself, which is an invalid operation, and a host that traps these would be ended.
pub fn is_finite(x: f64) -> bool
    ensures { result ≡ finite x }
{
    (f64::NEG_INFINITY < x) & (x < f64::INFINITY)
}

// Whether bits are those of a finite double: without the sign they lie below those of the infinity.
pub fn is_finite_bits(bits: u64) -> bool
    ensures { result ≡ finite (of_bits binary64 bits) }
{
    bits % 0x8000_0000_0000_0000 < 0x7ff0_0000_0000_0000
}

// The double of these bits, if it is finite.
pub fn double_of(bits: u64) -> f64
    requires { finite (of_bits binary64 bits) ≡ true }
    ensures { result ≡ of_bits binary64 bits }
{
    f64::from_bits(bits)
}

// The bits of a finite double.
pub fn bits_of(x: f64) -> u64
    requires { finite x ≡ true }
    ensures { result ≡ to_bits binary64 x }
{
    x.to_bits()
}

// A point in CSS pixels.
#[repr(C)]
#[derive(Clone, Copy)]
pub struct Point {
    pub x: f64,
    pub y: f64,
}

// Where a page stands: it places itself, or at a point.
#[derive(Clone, Copy)]
pub enum Place {
    Itself,
    At(Point),
}

// Whether no coordinate of a place is NaN or infinite.
pub fn is_finite_place(place: Place) -> bool
    ensures { result ≡ finite_place (place_given place) }
{
    match place {
        Place::Itself => true,
        Place::At(p) => is_finite(p.x) && is_finite(p.y),
    }
}

// A place at a zoom: each coordinate times the zoom, rounded once.
pub fn scale(place: Place, zoom: f64) -> Place
    ensures { place_given result ≡ scaled zoom (place_given place) }
{
    match place {
        Place::Itself => Place::Itself,
        Place::At(p) => Place::At(Point {
            x: p.x * zoom,
            y: p.y * zoom,
        }),
    }
}
