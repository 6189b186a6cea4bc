//! The library for C and Rust: each function passes on to a proved call, and returns 0 or the number of the refusal.
//! include/zilmorga.h says the same to a C compiler.
#![tactic(auto)]

mod numbers;

ghost use Rattle.std.specs.Prelude.{◌≡◌, length};
ghost use Rattle.pair.specs.Calls as calls;
ghost use Rattle.equations.specs.Series.{phi, psi, pair_series};
ghost use Rattle.report.specs.Forms.{outcome_of, buffer_of};
ghost use Rattle.report.specs.Report.{ordinary};
ghost use Rattle.composite.specs.Composite.{composite};
ghost use Rattle.slots.specs.declared.Sort.TheVariants.{Ordinary, Composite};
ghost use Rattle.cases.specs.Conditions.{status_of};
ghost use Rattle.deck.specs.DeckCase.{read_of};
ghost use Rattle.totals.specs.Totals.{total_of};
ghost use Rattle.zilmorga.specs.Numbers.{numbers_of};
ghost use Rattle.zilmorga.specs.Calls.{left, leaves, told, read_told, on_one_pair, on_two_pairs, comparison, units, units_left};

use crate::numbers::{compared, number_of, pair_from, put, put_order};
use cases::numbers::{REFUSED, UNSUMMED};
use cases::{Status, Told};
use pair::{Chain, Pair};
use slots::Sort;

// The number, with line and field written.
fn put_told(t: Told, line: &mut usize, field: &mut usize) -> u32
    ensures { told result line.new field.new ≡ t }
{
    *line = t.line;
    *field = t.field;
    t.number
}

// The report of an ordinary deck: 0, the report's length and 0; or number, line and field of the refusal, and the report as it was.
#[unsafe(no_mangle)]
pub extern "C" fn zilmorga_report(
    deck: &[u8],
    report: &mut [u8],
    line: &mut usize,
    field: &mut usize,
) -> u32
    ensures field_after { told result line.new field.new ≡ outcome_of ordinary deck.now (length report.old) }
    ensures report_after { report.new ≡ buffer_of ordinary deck.now report.old }
{
    let told = report::report(deck, report);
    put_told(told, line, field)
}

// The report of the one person whose life stages a composite's deck has, told as that of an ordinary deck is.
#[unsafe(no_mangle)]
pub extern "C" fn zilmorga_composite_report(
    deck: &[u8],
    report: &mut [u8],
    line: &mut usize,
    field: &mut usize,
) -> u32
    ensures field_after { told result line.new field.new ≡ outcome_of composite deck.now (length report.old) }
    ensures report_after { report.new ≡ buffer_of composite deck.now report.old }
{
    let told = composite::report(deck, report);
    put_told(told, line, field)
}

// Where a deck of this sort stops, if it does.
#[tactic(auto, unfolding(cases::specs::Conditions::status_of))]
fn read_status(deck: &[u8], sort: Sort) -> Status
    ensures { result ≡ status_of (read_of sort deck.now) }
{
    deck::read(deck, sort)?;
    Ok(())
}

// A deck of this sort read alone: 0, 0 and 0; or number, line and field of the refusal.
#[tactic(auto, unfolding(crate::specs::Calls::read_told))]
fn read_alone(deck: &[u8], sort: Sort, line: &mut usize, field: &mut usize) -> u32
    ensures { told result line.new field.new ≡ read_told sort deck.now }
{
    put_told(cases::tell(read_status(deck, sort)), line, field)
}

// An ordinary deck read alone.
#[unsafe(no_mangle)]
pub extern "C" fn zilmorga_read(deck: &[u8], line: &mut usize, field: &mut usize) -> u32
    ensures { told result line.new field.new ≡ read_told Ordinary deck.now }
{
    read_alone(deck, Sort::Ordinary, line, field)
}

// A composite's deck read alone.
#[unsafe(no_mangle)]
pub extern "C" fn zilmorga_composite_read(deck: &[u8], line: &mut usize, field: &mut usize) -> u32
    ensures { told result line.new field.new ≡ read_told Composite deck.now }
{
    read_alone(deck, Sort::Composite, line, field)
}

// The sum of a list of units; 52, and sum as it was, for more than 96 numbers or one above 1E+16.
#[unsafe(no_mangle)]
pub extern "C" fn zilmorga_total(list: &[u64], sum: &mut u64) -> u32
    ensures { left result sum.new ≡ leaves (λ n. n) (total_of list.now) sum.old }
{
    match totals::total(list) {
        Ok(n) => {
            *sum = n;
            0
        }
        Err(_) => UNSUMMED,
    }
}

// The pair of a number as printed.
#[unsafe(no_mangle)]
pub extern "C" fn zilmorga_entry(digits: u64, power: i32, out: &mut [i64; 4]) -> u32
    ensures { left result out.new ≡ leaves numbers_of (calls.entry digits power) out.old }
{
    put(Pair::entry(digits, power), out)
}

// 1 less a number as printed, from its digits.
#[unsafe(no_mangle)]
pub extern "C" fn zilmorga_one_minus_entry(digits: u64, power: i32, out: &mut [i64; 4]) -> u32
    ensures { left result out.new ≡ leaves numbers_of (calls.one_minus_entry digits power) out.old }
{
    put(Pair::one_minus_entry(digits, power), out)
}

#[unsafe(no_mangle)]
pub extern "C" fn zilmorga_sum(a: &[i64; 4], b: &[i64; 4], out: &mut [i64; 4]) -> u32
    ensures { left result out.new ≡ on_two_pairs calls.sum a.now b.now out.old }
{
    let x = pair_from(a);
    let y = pair_from(b);
    put(x.plus(y), out)
}

#[unsafe(no_mangle)]
pub extern "C" fn zilmorga_product(a: &[i64; 4], b: &[i64; 4], out: &mut [i64; 4]) -> u32
    ensures { left result out.new ≡ on_two_pairs calls.product a.now b.now out.old }
{
    let x = pair_from(a);
    let y = pair_from(b);
    put(x.times(y), out)
}

#[unsafe(no_mangle)]
pub extern "C" fn zilmorga_quotient(a: &[i64; 4], b: &[i64; 4], out: &mut [i64; 4]) -> u32
    ensures { left result out.new ≡ on_two_pairs calls.quotient a.now b.now out.old }
{
    let x = pair_from(a);
    let y = pair_from(b);
    put(x.over(y), out)
}

// 1 − f.
#[unsafe(no_mangle)]
pub extern "C" fn zilmorga_one_minus(f: &[i64; 4], out: &mut [i64; 4]) -> u32
    ensures { left result out.new ≡ on_one_pair calls.one_minus f.now out.old }
{
    put(pair_from(f).one_minus(), out)
}

// φ at x.
#[unsafe(no_mangle)]
pub extern "C" fn zilmorga_series(x: &[i64; 4], out: &mut [i64; 4]) -> u32
    ensures { left result out.new ≡ on_one_pair (λ p. pair_series phi (calls.is p)) x.now out.old }
{
    let Ok(p) = pair_from(x) else {
        return REFUSED;
    };
    put(media::series(p), out)
}

// ψ at x.
#[unsafe(no_mangle)]
pub extern "C" fn zilmorga_mean_series(x: &[i64; 4], out: &mut [i64; 4]) -> u32
    ensures { left result out.new ≡ on_one_pair (λ p. pair_series psi (calls.is p)) x.now out.old }
{
    let Ok(p) = pair_from(x) else {
        return REFUSED;
    };
    put(media::mean_series(p), out)
}

// Whether a working number is at most a bound: 1 or 0.
#[unsafe(no_mangle)]
pub extern "C" fn zilmorga_compare(end: &[i64; 2], bound: &[i64; 2], at_most: &mut u32) -> u32
    ensures { left result at_most.new ≡ comparison end.now bound.now at_most.old }
{
    let x = number_of(end[0], end[1]);
    let y = number_of(bound[0], bound[1]);
    put_order(compared(x, y), at_most)
}

// The ends of a pair in units of 10^unit: the low end down, the high end up.
#[unsafe(no_mangle)]
pub extern "C" fn zilmorga_in_units(p: &[i64; 4], unit: i32, low: &mut u64, high: &mut u64) -> u32
    ensures { left result (units low.new high.new) ≡ units_left p.now unit (units low.old high.old) }
{
    let Ok(q) = pair_from(p) else {
        return REFUSED;
    };
    match q.in_units(unit) {
        Ok(n) => {
            *low = n.low;
            *high = n.high;
            0
        }
        Err(_) => REFUSED,
    }
}
