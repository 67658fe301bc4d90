// Answers as a code and numbers, for callers in other languages: 0, or the refusal's line and number as one; and numbers written to a slice,
// as many as it has room for.
#![tactic(auto)]

ghost use Rattle.std.specs.Prelude.{◌≡◌, ◌≤◌, Err, Ok};
ghost use Rattle.line.specs.Refusal.{line_of};
ghost use Rattle.codes.specs.Numbers.{read_code, numbers_of, worth_code, worth_numbers, judge_code, judge_numbers, bounds_numbers, search_code, search_numbers, roll_code, roll_numbers, turned_code, recipe_code, recipe_numbers, index_code, totals_numbers, report_code, report_numbers, put};
ghost use Rattle.codes.specs.Inside.{SmallSummary, SmallBounds, SmallReading, SmallExact, SmallOpinion, SmallBounded, SmallRolled, SmallTurned, SmallMade, SmallIndexed, SmallReported};
ghost use Rattle.report.specs.Inside.{SmallTotals};

use judge::Decision;
use line::Refusal;
use report::Totals;
use report_call::Unreported;
use rolled::RolledOut;
use search_call::Bounds;
use table::Summary;
use worth::Exact;

// Writes the values to the front of `numbers`, as many as it has room for. A loop over the few that there are: by `copy_from_slice` the benchmark's archive would
// need `memcpy` from outside.
fn put<T: Copy>(values: &[T], numbers: &mut [T])
    ensures { numbers.new ≡ put 0 values.now numbers.old }
{
    for (i, value) in values.iter().enumerate() {
        if i < numbers.len() {
            numbers[i] = *value;
        }
    }
}

// The line and the number of a refusal as one.
fn refusal_code(r: Refusal) -> u64
    requires { line_of r ≤ 1024 }
    ensures { result ≡ read_code (Err r) }
{
    100 * (r.line() as u64) + r.number()
}

// The numbers that a caller gets.

fn table_numbers(t: Summary) -> [i64; 8]
    requires { SmallSummary t }
    ensures { result ≡ numbers_of (Ok t) }
{
    [
        t.nodes as i64,
        t.total as i64,
        t.lowest,
        t.highest,
        t.chances as i64,
        t.grain as i64,
        t.leaves as i64,
        t.second as i64,
    ]
}

fn bounds_numbers(b: Bounds) -> [i64; 7]
    requires { SmallBounds b }
    ensures { result ≡ bounds_numbers b }
{
    [
        b.low,
        b.high,
        search_call::node_number(b.play) as i64,
        b.leaves as i64,
        b.grain as i64,
        b.difference,
        i64::from(b.spent),
    ]
}

fn totals_numbers(t: Totals) -> [i64; 5]
    requires { SmallTotals t }
    ensures { result ≡ totals_numbers t }
{
    [
        t.positions as i64,
        t.max.decisions as i64,
        t.max.sum as i64,
        t.min.decisions as i64,
        t.min.sum as i64,
    ]
}

// What a call answers, as a code and numbers; where it is refused, no number is written.

pub fn put_reading(r: Result<Summary, Refusal>, numbers: &mut [i64]) -> u64
    requires { SmallReading r }
    ensures code { result ≡ read_code r }
    ensures numbers { numbers.new ≡ put 0 (numbers_of r) numbers.old }
{
    match r {
        Err(r) => return refusal_code(r),
        Ok(t) => put(&table_numbers(t), numbers),
    }
    0
}

pub fn put_exact(e: Result<Exact, Refusal>, numbers: &mut [i64]) -> u64
    requires { SmallExact e }
    ensures code { result ≡ worth_code e }
    ensures numbers { numbers.new ≡ put 0 (worth_numbers e) numbers.old }
{
    match e {
        Err(r) => return refusal_code(r),
        Ok(w) => put(&[w.grains, w.grain as i64], numbers),
    }
    0
}

pub fn put_opinion(o: Result<Option<Decision>, Refusal>, numbers: &mut [u64]) -> u64
    requires { SmallOpinion o }
    ensures code { result ≡ judge_code o }
    ensures numbers { numbers.new ≡ put 0 (judge_numbers o) numbers.old }
{
    match o {
        Err(r) => return refusal_code(r),
        Ok(None) => put(&[0], numbers),
        Ok(Some(d)) => put(&[1, d.loss, d.level], numbers),
    }
    0
}

pub fn put_bounded(b: Result<Bounds, Refusal>, numbers: &mut [i64]) -> u64
    requires { SmallBounded b }
    ensures code { result ≡ search_code b }
    ensures numbers { numbers.new ≡ put 0 (search_numbers b) numbers.old }
{
    match b {
        Err(r) => return refusal_code(r),
        Ok(b) => put(&bounds_numbers(b), numbers),
    }
    0
}

pub fn put_rolled(r: Result<RolledOut, Refusal>, numbers: &mut [i64]) -> u64
    requires { SmallRolled r }
    ensures code { result ≡ roll_code r }
    ensures numbers { numbers.new ≡ put 0 (roll_numbers r) numbers.old }
{
    match r {
        Err(r) => return refusal_code(r),
        Ok(o) => put(&[o.worth, o.leaves as i64], numbers),
    }
    0
}

// Turning has no numbers.
pub fn turned_code(t: Result<usize, Refusal>) -> u64
    requires { SmallTurned t }
    ensures { result ≡ turned_code t }
{
    match t {
        Err(r) => refusal_code(r),
        Ok(_) => 0,
    }
}

// Neither has building an index.
pub fn index_code(i: Result<(), Refusal>) -> u64
    requires { SmallIndexed i }
    ensures { result ≡ index_code i }
{
    match i {
        Err(r) => refusal_code(r),
        Ok(()) => 0,
    }
}

// A recipe has one number, that of the bytes written.
pub fn put_made(m: Result<usize, Refusal>, numbers: &mut [i64]) -> u64
    requires { SmallMade m }
    ensures code { result ≡ recipe_code m }
    ensures numbers { numbers.new ≡ put 0 (recipe_numbers m) numbers.old }
{
    match m {
        Err(r) => return refusal_code(r),
        Ok(n) => put(&[n as i64], numbers),
    }
    0
}

// The report's code has the position too.
pub fn put_reported(r: Result<Totals, Unreported>, numbers: &mut [i64]) -> u64
    requires { SmallReported r }
    ensures code { result ≡ report_code r }
    ensures numbers { numbers.new ≡ put 0 (report_numbers r) numbers.old }
{
    match r {
        Err(u) => return 1000000 * (u.position as u64) + refusal_code(u.refusal),
        Ok(t) => put(&totals_numbers(t), numbers),
    }
    0
}
