// The messages of the price strip: their sizes, their fields, and what each brings.
ghost use Rattle.std.specs.Prelude.{◌≡◌, ◌+◌, ◌≤◌, ◌<◌, length, Some};
ghost use Rattle.ground.specs.Choice.{one_of, all};
ghost use Rattle.wire.specs.Units.{msg_type};
ghost use Rattle.strips.specs.Forms.{place, is_strip, strip_sized, directions, brings, listed_field, listed_strip};
ghost use Rattle.strips.specs.Words.{value_count};
ghost use Rattle.strips.specs.Code.Shapes.{shape, shape_if, source, source_in, field_of, fields_from, Inside, Spans, Sized};

use super::{Shape, Sort, Source};

// Where an imbalance has its direction, and the direction with which its quantity does not count.
const DIRECTION_AT: usize = 8;

const SPACE: u64 = 32;

// A message's size, its first value and how many it brings.
fn shape(size: usize, first: usize, count: usize) -> Option<Shape>
    ensures { result ≡ Some (shape size first count) }
{
    Some(Shape { size, first, count })
}

// The shape of a type, where it is one of the strip's. The types are the exchange's numbers, and become an Option here, where they are read.
#[tactic(auto, using(crate::proofs::Lists::shape_none), unfolding(crate::specs::Code::Shapes::shape_of, crate::specs::Forms::form_of, crate::specs::Forms::is_strip, ground::specs::Choice::pick, ground::specs::Choice::one_of))]
fn shape_of(t: u64) -> Option<Shape>
    ensures { result ≡ shape_if t }
{
    match t {
        40 => shape(12, 0, 1),
        41 => shape(20, 1, 2),
        43 => shape(20, 3, 3),
        56 => shape(20, 6, 2),
        62 => shape(16, 8, 1),
        _ => None,
    }
}

// A place in a message, and what the field there brings.
fn source(at: usize, sort: Sort) -> Source
    ensures { result ≡ source at sort }
{
    Source { at, sort }
}

// Where value k comes from.
#[tactic(auto, unfolding(crate::specs::Code::Shapes::field_of, crate::specs::Forms::fields_of))]
fn source_of(k: usize) -> Source
    requires { k < value_count }
    ensures { result ≡ source_in (field_of k) }
{
    match k {
        0 | 1 | 3 | 8 => source(8, Sort::Price),
        2 => source(12, Sort::Quantity),
        4 => source(12, Sort::Price),
        5 => source(16, Sort::Price),
        6 => source(DIRECTION_AT, Sort::Direction),
        _ => source(10, Sort::Imbalance),
    }
}

// What value k is.
pub(crate) fn sort_of(k: usize) -> Sort
    requires { k < value_count }
    ensures { result ≡ (field_of k).sort }
{
    source_of(k).sort
}

// The shape of a message.
pub(crate) fn shape_in(m: &[u8]) -> Option<Shape>
    ensures { result ≡ shape_if (msg_type m.now) }
{
    shape_of(wire::number_at::<2>(m, 2))
}

// Whether a type is one of the strip's.
#[tactic(auto, using(crate::proofs::Lists::shape_strip))]
pub fn is_strip(t: u64) -> bool
    ensures { result ≡ is_strip t }
{
    shape_of(t).is_some()
}

// Whether a message has the size of its type; of a type that is none of the strip's it has to be empty.
#[tactic(auto, using(crate::proofs::Lists::sizes))]
pub fn is_sized(m: &[u8]) -> bool
    ensures { result ≡ strip_sized m.now }
{
    match shape_in(m) {
        Some(shape) => m.len() == shape.size,
        None => m.is_empty(),
    }
}

// Whether a byte is N, B, S or a space: the exchange's bytes, which become a bool here, where they are read.
#[tactic(auto, unfolding(ground::specs::Choice::one_of))]
pub(crate) fn is_direction(n: u64) -> bool
    ensures { result ≡ one_of n directions }
{
    matches!(n, 78 | 66 | 83 | SPACE)
}

// An imbalance's quantity: 0 beside a space.
#[tactic(auto, using(crate::proofs::Lists::quantities))]
fn imbalance_in(m: &[u8], at: usize) -> u64
    requires { (12 ≤ length m.now) × (at + 8 ≤ length m.now) }
    ensures { result ≡ brings m.now (place at 8 Sort.Imbalance 7) }
{
    if wire::number_in::<1>(m, DIRECTION_AT) == SPACE {
        0
    } else {
        wire::u64_in(m, at)
    }
}

// What a message that has value k brings for it.
#[tactic(auto, using(crate::proofs::Lists::sorts_told), unfolding(crate::specs::Forms::value_of, crate::specs::Code::Shapes::width_of))]
pub(crate) fn value_in(m: &[u8], k: usize) -> u64
    requires { (k < value_count) × Inside m.now (field_of k) }
    ensures { result ≡ brings m.now (field_of k) }
{
    let Source { at, sort } = source_of(k);
    match sort {
        Sort::Price => wire::biased(wire::number_in::<4>(m, at)),
        Sort::Quantity => wire::u64_in(m, at),
        Sort::Direction => wire::number_in::<1>(m, at),
        Sort::Imbalance => imbalance_in(m, at),
    }
}

// Whether the field of value k is listed, in a message that has it: of a direction alone anything is asked.
#[tactic(auto, using(crate::proofs::Lists::sorts_told), unfolding(crate::specs::Forms::listed_as, crate::specs::Code::Shapes::width_of))]
fn is_field_listed(m: &[u8], k: usize) -> bool
    requires { (k < value_count) × Inside m.now (field_of k) }
    ensures { result ≡ listed_field m.now (field_of k) }
{
    let Source { at, sort } = source_of(k);
    match sort {
        Sort::Direction => is_direction(wire::number_in::<1>(m, at)),
        Sort::Price | Sort::Quantity | Sort::Imbalance => true,
    }
}

// Whether all fields of a message of a shape are listed.
fn all_listed(m: &[u8], shape: Shape) -> bool
    requires { Spans m.now shape.first shape.count }
    ensures { result ≡ all (listed_field m.now) (fields_from shape.first shape.count) }
{
    (shape.first..shape.first + shape.count).all(|k| is_field_listed(m, k))
}

// Whether the code and all fields of a strip message of the right size are listed. The size is a clause, here and below, and no type: the message is the
// caller's slice, and its size is judged by itself (is_sized; feed's wrong_size).
#[tactic(auto, using(crate::proofs::Lists::listing))]
pub fn is_listed(m: &[u8]) -> bool
    requires { Sized m.now }
    ensures { result ≡ listed_strip m.now }
{
    let Some(shape) = shape_in(m) else {
        return false;
    };
    wire::is_code(wire::number_in::<4>(m, wire::CODE_AT)) && all_listed(m, shape)
}
