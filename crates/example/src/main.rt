// The calls from Rattle, on small stripes: RDP with p = 3 and cells of one byte, 2 rows and 4 columns, then a shelf of five disks, then
// EVENODD, then a balanced plan.
#![tactic(auto)]

use bad::BadColumn;
use codes::{Code, Shape};
use refusals::Refusal;
use std::io;
use std::io::Print;

// Writes a line: what was asked, and the number that came.
fn tell(out: &impl Print, what: &str, number: usize) -> io::Result<()> {
    println!(out; "{what}: {number}")
}

// Writes a line: what was asked, and 0 where it was done or else the number of the refusal.
fn tell_done(out: &impl Print, what: &str, answer: Result<(), Refusal>) -> io::Result<()> {
    match answer {
        Ok(()) => tell(out, what, 0),
        Err(why) => tell(out, what, usize::from(why)),
    }
}

// Writes a line: what was asked, and how many came or else why it was refused.
fn tell_count(out: &impl Print, what: &str, answer: Result<usize, Refusal>) -> io::Result<()> {
    match answer {
        Ok(count) => tell(out, what, count),
        Err(why) => println!(out; "{what}: {why}"),
    }
}

// Plans the rebuild of a lost column, makes the first step, and looks at two of its cells meanwhile.
fn rebuild_column(out: &impl Print, shape: Shape, stripe: &[u8], k: usize) -> io::Result<()> {
    let plan = match spare::plan(shape, k) {
        Ok(plan) => plan,
        Err(why) => return println!(out; "plan: {why}"),
    };
    tell(out, "cells that the plan reads", plan.reads)?;
    let mut spare = [0u8; 2];
    let run = spare::run(shape, stripe, k, plan.rows, &mut spare, 0, 1);
    tell_count(out, "rows rebuilt", run)?;
    let cell = show::show(shape, stripe, &spare, k, 1, 0, k);
    tell(out, "bytes shown of row 0, which is done", cell.len())?;
    match show::show_reason(shape, stripe, &spare, k, 1, 1, k) {
        Some(why) => tell(
            out,
            "row 1, which is not, is refused with",
            usize::from(why),
        ),
        None => Ok(()),
    }
}

// A shelf of five disks: of RDP with p = 5 the first three data columns and the parity columns.
fn five_disks(out: &impl Print) -> io::Result<()> {
    let shape = Shape {
        code: Code::Rdp as usize,
        p: 5,
        cell: 1,
        width: Some(3),
    };
    let mut stripe = [7u8; 20];
    tell_done(out, "encode five disks", stripe::encode(shape, &mut stripe))?;
    stripe[8] = 0xEE;
    tell_done(
        out,
        "disks 2 and 4 lost",
        rebuild::columns(shape, &mut stripe, 2, 4),
    )?;
    tell_count(
        out,
        "equations that fail then",
        stripe::broken(shape, &stripe),
    )?;
    tell_done(
        out,
        "disks 2 and 5 lost",
        rebuild::columns(shape, &mut stripe, 2, 5),
    )
}

// EVENODD with p = 3: three disks of data and two of parity. Row 1 of disk 1 is one of the cells of S.
fn evenodd(out: &impl Print) -> io::Result<()> {
    let shape = Shape {
        code: Code::Evenodd as usize,
        p: 3,
        cell: 1,
        width: None,
    };
    let mut stripe = [1u8; 10];
    tell_done(out, "encode EVENODD", stripe::encode(shape, &mut stripe))?;
    let written = stripe::write(shape, &mut stripe, 1, 1, &[0x00u8]);
    tell_count(out, "parity cells that depend on row 1, disk 1", written)?;
    tell_done(
        out,
        "its disks 1 and 2 lost",
        rebuild::columns(shape, &mut stripe, 1, 2),
    )
}

// RDP with p = 7, disk 0 lost: the balanced plan reads as many cells of each other disk but the last.
fn balanced(out: &impl Print) -> io::Result<()> {
    let shape = Shape {
        code: Code::Rdp as usize,
        p: 7,
        cell: 1,
        width: None,
    };
    match balance::balanced_plan(shape, 0) {
        Ok(plan) => {
            tell(out, "mask of the balanced plan", plan.rows as usize)?;
            tell(out, "cells that it reads", plan.reads)
        }
        Err(why) => println!(out; "balanced plan: {why}"),
    }
}

// Each call once, or more often; the program ends where it can't write.
fn calls(out: &impl Print) -> io::Result<()> {
    let shape = Shape {
        code: Code::Rdp as usize,
        p: 3,
        cell: 1,
        width: None,
    };
    let mut stripe = [0x01u8, 0x04, 0x02, 0x08, 0, 0, 0, 0];
    tell_done(out, "encode", stripe::encode(shape, &mut stripe))?;
    let written = stripe::write(shape, &mut stripe, 1, 0, &[0x00u8]);
    tell_count(out, "parity cells that depend on row 1, column 0", written)?;
    rebuild_column(out, shape, &stripe, 1)?;
    stripe[0] = 0xEE;
    match bad::bad_column(shape, &stripe) {
        Ok(BadColumn::Clean) => tell(out, "clean", 0)?,
        Ok(BadColumn::Column(column)) => tell(out, "bad column", column)?,
        Ok(BadColumn::Unexplained) => tell(out, "unexplained", 0)?,
        Err(why) => println!(out; "bad column: {why}")?,
    }
    tell_done(
        out,
        "columns 0 and 1 lost",
        rebuild::columns(shape, &mut stripe, 0, 1),
    )?;
    tell_done(
        out,
        "a cell lost with both its parity cells",
        rebuild::cells(shape, &mut stripe, &[0usize, 4, 6]),
    )?;
    five_disks(out)?;
    evenodd(out)?;
    balanced(out)
}

fn main(rt: HostRuntime) -> io::Result<()> {
    calls(&rt)
}
