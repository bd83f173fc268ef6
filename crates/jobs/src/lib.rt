// A rebuild job as a function on bytes: its fields are read, the lost cells rebuilt, and the answer's fields written.
#![tactic(auto)]

ghost use Rattle.std.specs.Prelude.{◌≡◌, ◌+◌, ◌≤◌, ◌<◌, length};
ghost use Rattle.refusals.specs.Number.{number};
ghost use Rattle.format.specs.Format.{most_lost, most_stripe, Job, field};
ghost use Rattle.format.specs.Parts.{tag_number};
ghost use Rattle.format.specs.Reading.{Holds};
ghost use Rattle.jobs.specs.Carrying.{Lists, Rebuilt, Stored};
ghost use Rattle.jobs.specs.Answer.{bytes_of, Carried, PutInto, AnswersInto};

use format::{Fields, Tag};
use refusals::Refusal;

// Reads the numbers of the lost cells, two bytes each. By index: of a `zip` over `iter_mut` no fact says what the list ends as, and the proof
// didn't close.
fn read_lost(pairs: &[[u8; 2]], lost: &mut [usize; format::MOST_LOST])
    requires { (length pairs.now ≤ most_lost) × (length lost.old ≡ most_lost) }
    ensures { Lists pairs.now lost.new }
{
    for (k, pair) in pairs.iter().enumerate() {
        lost[k] = format::two_bytes(*pair);
    }
}

// Stores a field from `at` on: its tag, the length of its content in two bytes, high byte first, and the content.
fn put_field(output: &mut [u8], at: usize, tag: Tag, content: &[u8])
    requires { (length content.now < 65536) × (at + 3 + length content.now ≤ length output.old) }
    ensures { Stored output.old at (field (tag_number tag) content.now) output.new }
{
    let [high, low] = (content.len() as u16).to_be_bytes();
    let head = [u8::from(tag), high, low];
    xor::put_run(output, at, &head);
    xor::put_run(output, at + 3, content);
}

// How long an answer is: field 06 has four bytes, and field 05, which no refusal has, three more than the stripe.
fn answer_size(answer: Result<&[u8], Refusal>) -> usize
    requires { length (bytes_of answer) ≤ 7 + most_stripe }
    ensures { result ≡ length (bytes_of answer.entry) }
{
    match answer {
        Ok(stripe) => stripe.len() + 7,
        Err(_) => 4,
    }
}

// Writes the answer's fields at the start of the output where there is room for all of them. Answers how long they are.
fn write_answer(answer: Result<&[u8], Refusal>, output: &mut [u8]) -> usize
    requires { length (bytes_of answer) ≤ 7 + most_stripe }
    ensures { PutInto (bytes_of answer.entry) output.old result output.new }
{
    let size = answer_size(answer);
    if output.len() < size {
        return size;
    }
    match answer {
        Ok(stripe) => {
            put_field(output, 0, Tag::Answer, &[0]);
            put_field(output, 4, Tag::Stripe, stripe);
        }
        Err(refusal) => put_field(output, 0, Tag::Answer, &[usize::from(refusal) as u8]),
    }
    size
}

// Rebuilds the lost cells of a job in a copy of its stripe, made in the lent bytes.
fn rebuild_job(f: Fields, stripe: &mut [u8]) -> Result<(), Refusal>
    requires { ((j : Job) × Holds j f) × (length stripe.old ≡ length f.stripe.now) }
    ensures { Rebuilt f.entry (number result) stripe.new }
{
    xor::put_run(stripe, 0, f.stripe);
    let mut lost = [0usize; format::MOST_LOST];
    read_lost(f.lost, &mut lost);
    rebuild::cells(f.shape, stripe, &lost[..f.lost.len()])
}

// Rebuilds the lost cells of the job whose fields these are, in lent bytes with room for every stripe. Gives its stripe.
fn carry_out<'a>(f: Fields, space: &'a mut [u8]) -> Result<&'a [u8], Refusal>
    requires { ((j : Job) × Holds j f) × (length space.old ≡ most_stripe) }
    ensures { (j : Job) → Holds j f.entry → Carried j (bytes_of result) }
{
    let stripe = &mut space[..f.stripe.len()];
    rebuild_job(f, stripe)?;
    Ok(stripe)
}

// The job: reads a rebuild job from bytes, rebuilds its lost cells, and writes the answer. Answers how long the answer is: with room for it the lent
// bytes begin with it, else they are as they were.
pub fn answer(input: &[u8], output: &mut [u8]) -> usize
    ensures { AnswersInto input.now output.old result output.new }
{
    let Some(f) = format::read_job(input) else {
        return write_answer(Err(Refusal::NoJob), output);
    };
    // room for a stripe is made only where there is a job
    let mut space = [0u8; format::MOST_STRIPE];
    let answer = carry_out(f, &mut space);
    write_answer(answer, output)
}
