// The library for C: include/zijraduf.h declares these functions. Each hands its arguments to the Rattle call and answers as that does.
#![tactic(auto)]

ghost use Rattle.std.specs.Prelude.{◌≡◌, length};
ghost use Rattle.refusals.specs.Number.{number};
ghost use Rattle.stripe.specs.Encode.{Encodes};
ghost use Rattle.stripe.specs.Broken.{Counts};
ghost use Rattle.stripe.specs.Write.{Writes};
ghost use Rattle.bad.specs.Bad.{Finds};
ghost use Rattle.plan.specs.Plans.{Plans};
ghost use Rattle.balance.specs.Balances.{Balances};
ghost use Rattle.spare.specs.Run.{RunsByPlan};
ghost use Rattle.show.specs.Show.{Shown};
ghost use Rattle.jobs.specs.Answer.{AnswersInto};
ghost use Rattle.rebuild.specs.Rebuild.{RebuildsCells, RebuildsColumns};
ghost use Rattle.zijraduf.specs.Export.{shape_from, Told, InNumbers, count_in_numbers, found_in_numbers, plan_in_numbers, shown_in_numbers};

use bad::BadColumn;
use codes::Shape;
use plan::ReadPlan;
use refusals::Refusal;
use show::ShownAt;

// What describes a stripe, in numbers: its code, its prime, the bytes in a cell, and a number m of data columns, where `given` is not 0.
#[repr(C)]
#[derive(Clone, Copy)]
pub struct ShapeNumbers {
    pub code: usize,
    pub p: usize,
    pub cell: usize,
    pub given: usize,
    pub m: usize,
}

// A refusal number, or 0 and a count.
#[repr(C)]
#[derive(Clone, Copy)]
pub struct Count {
    pub refusal: usize,
    pub count: usize,
}

// A refusal number, or 0 and what bad column finds: 1 clean, 2 a column, 3 unexplained; and the column.
#[repr(C)]
#[derive(Clone, Copy)]
pub struct Found {
    pub refusal: usize,
    pub finding: usize,
    pub column: usize,
}

// A refusal number, or 0 and a plan: the mask of the rows taken by diagonal, and how many distinct cells are read.
#[repr(C)]
#[derive(Clone, Copy)]
pub struct Planned {
    pub refusal: usize,
    pub rows: u64,
    pub reads: usize,
}

// A refusal number, or 0 and the part of a lent buffer that is a cell: 1 the stripe or 2 the spare, where the part starts, how long it is.
#[repr(C)]
#[derive(Clone, Copy)]
pub struct Part {
    pub refusal: usize,
    pub buffer: usize,
    pub offset: usize,
    pub length: usize,
}

impl From<ShapeNumbers> for Shape {
    ghost from_gives = { λ numbers shape. shape ≡ shape_from numbers };

    fn from(numbers: ShapeNumbers) -> Shape {
        Shape {
            code: numbers.code,
            p: numbers.p,
            cell: numbers.cell,
            width: (numbers.given != 0).then_some(numbers.m),
        }
    }
}

impl From<Result<usize, Refusal>> for Count {
    ghost from_gives = { λ answer count. count ≡ count_in_numbers answer };

    fn from(answer: Result<usize, Refusal>) -> Count {
        match answer {
            Ok(count) => Count { refusal: 0, count },
            Err(refusal) => Count {
                refusal: refusal.into(),
                count: 0,
            },
        }
    }
}

impl From<Result<BadColumn, Refusal>> for Found {
    ghost from_gives = { λ answer found. found ≡ found_in_numbers answer };

    fn from(answer: Result<BadColumn, Refusal>) -> Found {
        match answer {
            Ok(BadColumn::Clean) => Found {
                refusal: 0,
                finding: 1,
                column: 0,
            },
            Ok(BadColumn::Column(column)) => Found {
                refusal: 0,
                finding: 2,
                column,
            },
            Ok(BadColumn::Unexplained) => Found {
                refusal: 0,
                finding: 3,
                column: 0,
            },
            Err(refusal) => Found {
                refusal: refusal.into(),
                finding: 0,
                column: 0,
            },
        }
    }
}

impl From<Result<ReadPlan, Refusal>> for Planned {
    ghost from_gives = { λ answer planned. planned ≡ plan_in_numbers answer };

    fn from(answer: Result<ReadPlan, Refusal>) -> Planned {
        match answer {
            Ok(plan) => Planned {
                refusal: 0,
                rows: plan.rows,
                reads: plan.reads,
            },
            Err(refusal) => Planned {
                refusal: refusal.into(),
                rows: 0,
                reads: 0,
            },
        }
    }
}

// Where a cell of this shape lies, or a refusal, in four numbers. No `From`: the length is the shape's.
fn part_from(shape: Shape, answer: Result<ShownAt, Refusal>) -> Part
    ensures { result ≡ shown_in_numbers shape answer }
{
    let length = shape.cell;
    match answer {
        Ok(ShownAt::Stripe(offset)) => Part {
            refusal: 0,
            buffer: 1,
            offset,
            length,
        },
        Ok(ShownAt::Spare(offset)) => Part {
            refusal: 0,
            buffer: 2,
            offset,
            length,
        },
        Err(refusal) => Part {
            refusal: refusal.into(),
            buffer: 0,
            offset: 0,
            length: 0,
        },
    }
}

// The number of an answer: 0, or that of the refusal. No `From`: both types are of others.
fn number(answer: Result<(), Refusal>) -> usize
    ensures { result ≡ number answer }
{
    match answer {
        Ok(()) => 0,
        Err(refusal) => refusal.into(),
    }
}

// Encode.
#[unsafe(no_mangle)]
pub extern "C" fn zijraduf_encode(shape: ShapeNumbers, stripe: &mut [u8]) -> usize
    ensures { Told shape (λ s. Encodes s stripe.old result stripe.new) }
{
    number(stripe::encode(shape.into(), stripe))
}

// Broken.
#[unsafe(no_mangle)]
pub extern "C" fn zijraduf_broken(shape: ShapeNumbers, stripe: &[u8]) -> Count
    ensures { Told shape (λ s. InNumbers count_in_numbers (Counts s stripe.now) result) }
{
    stripe::broken(shape.into(), stripe).into()
}

// Small write.
#[unsafe(no_mangle)]
pub extern "C" fn zijraduf_write(
    shape: ShapeNumbers,
    stripe: &mut [u8],
    row: usize,
    column: usize,
    bytes: &[u8],
) -> Count
    ensures { Told shape (λ s. InNumbers count_in_numbers (Writes s row column bytes.now stripe.old
        stripe.new) result) }
{
    stripe::write(shape.into(), stripe, row, column, bytes).into()
}

// Rebuild cells.
#[unsafe(no_mangle)]
pub extern "C" fn zijraduf_rebuild_cells(
    shape: ShapeNumbers,
    stripe: &mut [u8],
    lost: &[usize],
) -> usize
    ensures { Told shape (λ s. RebuildsCells s lost.now stripe.old result stripe.new) }
{
    number(rebuild::cells(shape.into(), stripe, lost))
}

// Rebuild columns.
#[unsafe(no_mangle)]
pub extern "C" fn zijraduf_rebuild_columns(
    shape: ShapeNumbers,
    stripe: &mut [u8],
    a: usize,
    b: usize,
) -> usize
    ensures { Told shape (λ s. RebuildsColumns s a b stripe.old result stripe.new) }
{
    number(rebuild::columns(shape.into(), stripe, a, b))
}

// Bad column.
#[unsafe(no_mangle)]
pub extern "C" fn zijraduf_bad_column(shape: ShapeNumbers, stripe: &[u8]) -> Found
    ensures { Told shape (λ s. InNumbers found_in_numbers (Finds s stripe.now) result) }
{
    bad::bad_column(shape.into(), stripe).into()
}

// Plan.
#[unsafe(no_mangle)]
pub extern "C" fn zijraduf_plan(shape: ShapeNumbers, k: usize) -> Planned
    ensures { Told shape (λ s. InNumbers plan_in_numbers (Plans s k) result) }
{
    plan::plan(shape.into(), k).into()
}

// Balanced plan.
#[unsafe(no_mangle)]
pub extern "C" fn zijraduf_balanced_plan(shape: ShapeNumbers, k: usize) -> Planned
    ensures { Told shape (λ s. InNumbers plan_in_numbers (Balances s k) result) }
{
    balance::balanced_plan(shape.into(), k).into()
}

// Run by plan.
#[unsafe(no_mangle)]
pub extern "C" fn zijraduf_run(
    shape: ShapeNumbers,
    stripe: &[u8],
    k: usize,
    plan: u64,
    spare: &mut [u8],
    first: usize,
    budget: usize,
) -> Count
    ensures { Told shape (λ s. InNumbers count_in_numbers (RunsByPlan s k plan first budget stripe.now spare.old
        spare.new) result) }
{
    let answer = spare::run(shape.into(), stripe, k, plan, spare, first, budget);
    answer.into()
}

// Show.
#[unsafe(no_mangle)]
pub extern "C" fn zijraduf_show(
    shape: ShapeNumbers,
    stripe: &[u8],
    spare: &[u8],
    k: usize,
    done: usize,
    row: usize,
    column: usize,
) -> Part
    ensures { Told shape (λ s. InNumbers (shown_in_numbers s) (Shown s (length stripe.now)
        (length spare.now) k done row column) result) }
{
    let shape = Shape::from(shape);
    part_from(
        shape,
        show::shown_at(shape, stripe.len(), spare.len(), k, done, row, column),
    )
}

// Job.
#[unsafe(no_mangle)]
pub extern "C" fn zijraduf_job(input: &[u8], output: &mut [u8]) -> usize
    ensures { AnswersInto input.now output.old result output.new }
{
    jobs::answer(input, output)
}
