// The balanced plans, one for each prime and column.
ghost use Rattle.std.specs.Prelude.{◌≡◌, true, ◌<◌};
ghost use Rattle.balance.specs.Balance.{offered};
ghost use Rattle.balance.specs.Table.{plans_before, plan_at};

// By rising prime, and for each by rising column. The project's rules name a table here.
const PLANS: [u64; 94] = [
    // p = 3
    2, 1, 2,
    // p = 7
    22, 22, 44, 22, 49, 44, 22,
    // p = 11
    570, 233, 570, 570, 570, 466, 233, 466, 570, 233, 570,
    // p = 19
    199410, 22419, 22419, 199410, 199410, 199410, 199410, 22419, 199410, 179352, 199410, 44838,
    22419, 22419, 44838, 199410, 199410, 89676, 199410,
    // p = 23
    340830, 340830, 340830, 340830, 681660, 340830, 681660, 340830, 340830, 1363320, 681660,
    340830, 340830, 1363320, 681660, 340830, 681660, 340830, 2517953, 2726640, 1363320, 681660,
    340830,
    // p = 31
    303908790, 303908790, 607817580, 303908790, 303908790, 607817580, 303908790, 303908790,
    303908790, 303908790, 283786673, 567573346, 607817580, 303908790, 607817580, 303908790,
    607817580, 303908790, 303908790, 303908790, 567573346, 283786673, 491238948, 607817580,
    303908790, 122809737, 607817580, 303908790, 283786673, 607817580, 303908790,
];

// Where the plans of a prime start.
fn first_plan(p: usize) -> usize
    requires { offered p ≡ true }
    ensures { result ≡ plans_before p }
{
    match p {
        3 => 0,
        7 => 3,
        11 => 10,
        19 => 21,
        23 => 40,
        _ => 63,
    }
}

// The balanced plan of a prime for column k.
pub fn plan_of(p: usize, k: usize) -> u64
    requires { (offered p ≡ true) × (k < p) }
    ensures { result ≡ plan_at p k }
{
    PLANS[first_plan(p) + k]
}
