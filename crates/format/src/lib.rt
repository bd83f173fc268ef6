// The bytes of a rebuild job: its fields are found, or that there is no job.
#![tactic(auto)]

ghost use Rattle.std.specs.Prelude.{◌≡◌, ◌<◌, ◌≤◌, length, MatchOption};
ghost use Rattle.format.specs.Format.{two_bytes_of};
ghost use Rattle.format.specs.Parts.{tag_number, NoField, NoSized, FieldFirst, NoNumbers, Begins, NoTail, Ends};
ghost use Rattle.format.specs.Reading.{Reads};

use codes::Shape;

// How many lost cell numbers a job may have.
pub const MOST_LOST: usize = 2048;

// How many bytes they take, two each.
const MOST_LOST_BYTES: usize = 2 * MOST_LOST;

// How many bytes of stripe a job may have.
pub const MOST_STRIPE: usize = 32768;

// The cell size of a job without field 03.
const ABSENT_CELL: usize = 1024;

// The fields of a job and of its answer, by their tags.
#[derive(Clone, Copy)]
pub enum Tag {
    Code = 1,
    Prime = 2,
    CellSize = 3,
    Lost = 4,
    Stripe = 5,
    Answer = 6,
}

impl From<Tag> for u8 {
    ghost from_gives = { λ tag n. n ≡ tag_number tag };

    fn from(tag: Tag) -> u8 {
        tag as u8
    }
}

// The shape of a job's stripe, the lost cell numbers in two bytes each, and the stripe.
#[derive(Clone, Copy)]
pub struct Fields<'a> {
    pub shape: Shape,
    pub lost: &'a [[u8; 2]],
    pub stripe: &'a [u8],
}

// The number in two bytes, high byte first.
pub fn two_bytes(bytes: [u8; 2]) -> usize
    ensures { (two_bytes_of result ≡ bytes) × (result < 65536) }
{
    usize::from(u16::from_be_bytes(bytes))
}

// The content of the field with this tag and at most so many bytes of it at the start of the bytes, and what follows it.
fn find_field(bytes: &[u8], tag: Tag, most: usize) -> Option<(&[u8], &[u8])>
    ensures { MatchOption result (NoField bytes.now (tag_number tag) most)
        (λ p. FieldFirst bytes.now (tag_number tag) p.0.now p.1.now × (length p.0.now ≤ most)) }
{
    let [found, high, low, rest @ ..] = bytes else {
        return None;
    };
    let size = two_bytes([*high, *low]);
    if *found != u8::from(tag) || most < size {
        return None;
    }
    rest.split_at_checked(size)
}

// The same of a field whose content has this length.
fn find_sized<const N: usize>(bytes: &[u8], tag: Tag) -> Option<(&[u8; N], &[u8])>
    ensures { MatchOption result (NoSized bytes.now (tag_number tag) N)
        (λ p. FieldFirst bytes.now (tag_number tag) p.0.now p.1.now × (length p.0.now ≡ N)) }
{
    let (content, rest) = find_field(bytes, tag, N)?;
    Some((content.as_array()?, rest))
}

// Reads fields 01, 02 and 03 at the start of the input: the shape that they give, and what follows. Field 03 may be absent.
fn read_numbers(input: &[u8]) -> Option<(Shape, &[u8])>
    ensures { MatchOption result (NoNumbers input.now) (λ p. Begins input.now p.0 p.1.now) }
{
    let (&[code], rest) = find_sized::<1>(input, Tag::Code)?;
    let (&[p], rest) = find_sized::<1>(rest, Tag::Prime)?;
    let (cell, rest) = match find_sized(rest, Tag::CellSize) {
        Some((&cell, rest)) => (two_bytes(cell), rest),
        None => (ABSENT_CELL, rest),
    };
    let shape = Shape {
        code: usize::from(code),
        p: usize::from(p),
        cell,
        width: None,
    };
    Some((shape, rest))
}

// Reads fields 04 and 05, which nothing follows: the lost cell numbers, in two bytes each, and the stripe.
fn read_tail(bytes: &[u8]) -> Option<(&[[u8; 2]], &[u8])>
    ensures { MatchOption result (NoTail bytes.now) (λ p. Ends bytes.now p.0.now p.1.now) }
{
    let Some((content, rest)) = find_field(bytes, Tag::Lost, MOST_LOST_BYTES) else {
        return None;
    };
    let (lost, []) = content.as_chunks::<2>() else {
        return None;
    };
    let (stripe, []) = find_field(rest, Tag::Stripe, MOST_STRIPE)? else {
        return None;
    };
    Some((lost, stripe))
}

// Reads a job: its numbers and its end, which make up the whole input.
pub fn read_job(input: &[u8]) -> Option<Fields>
    ensures { Reads input.now result }
{
    let (shape, rest) = read_numbers(input)?;
    let (lost, stripe) = read_tail(rest)?;
    Some(Fields {
        shape,
        lost,
        stripe,
    })
}
