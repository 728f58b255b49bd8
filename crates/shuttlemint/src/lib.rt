// The face for C and Rust. A float goes over as its bit pattern, so that every NaN pattern may; a slice as a pointer and a length.
// No function asks anything of its caller: each refuses instead, by document 01's numbers.
#![tactic(auto)]

ghost use Rattle.std.specs.Prelude.{◌≡◌, true, false, length};
ghost use Rattle.std.specs.Float.Ieee.{to_bits, of_bits};
ghost use Rattle.std.specs.Float.{binary64};
ghost use Rattle.root.specs.Root.{root_of};
ghost use Rattle.fused.specs.Fused.{fused_of};
ghost use Rattle.whole.specs.Whole.{magnitude_of, round_of};
ghost use Rattle.floor.specs.Floor.{trunc_of, floor_of};
ghost use Rattle.remainder.specs.Remainder.{remainder_of};
ghost use Rattle.answer.specs.Answer.{refusal_of, value_of};
ghost use Rattle.angle.specs.Sine.{sine_of};
ghost use Rattle.angle.specs.Cosine.{cosine_of};
ghost use Rattle.logarithm.specs.Logarithm.{logarithm_of};
ghost use Rattle.sheet.specs.Functions.{counted_of};
ghost use Rattle.ledger.specs.Calls.{blank_refusal, blank_of, row_refusal, times_of, total_refusal, total_of, count_of};
ghost use Rattle.inspection.specs.Rows.{class_in};
ghost use Rattle.sheet.specs.Edit.{edit_refusal, edit_of};
ghost use Rattle.conversion.specs.Conversion.{stopped_of, stop_of, converted_of};
ghost use Rattle.shuttlemint.specs.Face.{evaluate_refusal, evaluate_out, row_place_of};

use answer::Refusal;
use conversion::{Stop, Way};
use sheet::Entry;

// The number of what refuses a call, 0 where nothing does.
// Kept: the C interface, whose numbers these are.
fn number(done: Result<(), Refusal>) -> u8
    ensures { result ≡ refusal_of done }
{
    match done {
        Ok(()) => 0,
        Err(refusal) => refusal.number(),
    }
}

// The number of what refuses a conversion, 0 where nothing does, and the row that it is about.
// Kept: the C interface, whose numbers these are.
fn stop_number(done: Result<(), Stop>) -> u8
    ensures { result ≡ (stopped_of done).refusal }
{
    match done {
        Ok(()) => 0,
        Err(stop) => stop.refusal.number(),
    }
}

fn stop_row(done: Result<(), Stop>) -> u32
    ensures { result ≡ (stopped_of done).row }
{
    match done {
        Ok(()) => 0,
        Err(stop) => stop.row,
    }
}

#[unsafe(no_mangle)]
pub extern "C" fn sm_magnitude(x: u64) -> u64
    ensures { result ≡ to_bits binary64 (magnitude_of (of_bits binary64 x)) }
{
    bits::to_pattern(whole::magnitude(bits::from_pattern(x)))
}

#[unsafe(no_mangle)]
pub extern "C" fn sm_trunc(x: u64) -> u64
    ensures { result ≡ to_bits binary64 (trunc_of (of_bits binary64 x)) }
{
    bits::to_pattern(floor::trunc(bits::from_pattern(x)))
}

#[unsafe(no_mangle)]
pub extern "C" fn sm_floor(x: u64) -> u64
    ensures { result ≡ to_bits binary64 (floor_of (of_bits binary64 x)) }
{
    bits::to_pattern(floor::floor(bits::from_pattern(x)))
}

#[unsafe(no_mangle)]
pub extern "C" fn sm_round(x: u64) -> u64
    ensures { result ≡ to_bits binary64 (round_of (of_bits binary64 x)) }
{
    bits::to_pattern(whole::round(bits::from_pattern(x)))
}

#[unsafe(no_mangle)]
pub extern "C" fn sm_root(x: u64) -> u64
    ensures { result ≡ to_bits binary64 (root_of (of_bits binary64 x)) }
{
    bits::to_pattern(root::root(bits::from_pattern(x)))
}

#[unsafe(no_mangle)]
pub extern "C" fn sm_fused(x: u64, y: u64, z: u64) -> u64
    ensures { result ≡ to_bits binary64 (fused_of (of_bits binary64 x) (of_bits binary64 y) (of_bits binary64 z)) }
{
    bits::to_pattern(fused::fused(
        bits::from_pattern(x),
        bits::from_pattern(y),
        bits::from_pattern(z),
    ))
}

#[unsafe(no_mangle)]
pub extern "C" fn sm_remainder(x: u64, y: u64) -> u64
    ensures { result ≡ to_bits binary64 (remainder_of (of_bits binary64 x) (of_bits binary64 y)) }
{
    bits::to_pattern(remainder::remainder(bits::from_pattern(x), bits::from_pattern(y)))
}

// Sine, cosine and logarithm: a refused argument has NaN for its value.
// Kept: the C interface has a name for each.
#[unsafe(no_mangle)]
pub extern "C" fn sm_sine(x: u64) -> u64
    ensures { result ≡ to_bits binary64 (value_of (sine_of (of_bits binary64 x))) }
{
    bits::to_pattern(answer::value(angle::sine(bits::from_pattern(x))))
}

// Kept: the C interface has a name for each.
#[unsafe(no_mangle)]
pub extern "C" fn sm_cosine(x: u64) -> u64
    ensures { result ≡ to_bits binary64 (value_of (cosine_of (of_bits binary64 x))) }
{
    bits::to_pattern(answer::value(cosine::cosine(bits::from_pattern(x))))
}

// Kept: the C interface has a name for each.
#[unsafe(no_mangle)]
pub extern "C" fn sm_logarithm(x: u64) -> u64
    ensures { result ≡ to_bits binary64 (value_of (logarithm_of (of_bits binary64 x))) }
{
    bits::to_pattern(answer::value(logarithm::logarithm(bits::from_pattern(x))))
}

// The function of this number; its two answers' patterns go to out[0] and out[1]. Another length of `out` is refused with 7.
#[unsafe(no_mangle)]
pub extern "C" fn sm_evaluate(function: u8, a: u64, b: u64, c: u64, out: &mut [u64]) -> u8
    ensures { (result ≡ evaluate_refusal (length out.old) function a b c) × (out.new ≡ evaluate_out out.old function a b c) }
{
    if out.len() != 2 {
        return 7;
    }
    let z = answer::read(sheet::evaluate(function, a, b, c));
    out[0] = bits::to_pattern(z.first);
    out[1] = bits::to_pattern(z.second);
    z.refusal
}

// How many rounds the recipes made that the function asks, all calls together; a refused answer has its rounds too.
#[unsafe(no_mangle)]
pub extern "C" fn sm_rounds(function: u8, a: u64, b: u64, c: u64) -> usize
    ensures { result ≡ (counted_of function a b c).rounds }
{
    sheet::counted(function, a, b, c).rounds
}

#[unsafe(no_mangle)]
pub extern "C" fn sm_blank(sheet: &mut [u8], rows: u32) -> u8
    ensures { (result ≡ blank_refusal sheet.old rows) × (sheet.new ≡ blank_of sheet.old rows) }
{
    number(ledger::make_blank(sheet, rows))
}

#[unsafe(no_mangle)]
pub extern "C" fn sm_edit(
    sheet: &mut [u8],
    row: u32,
    function: u8,
    a: u64,
    b: u64,
    c: u64,
    times: u16,
) -> u8
    ensures { (result ≡ edit_refusal sheet.old row function) × (sheet.new ≡ edit_of sheet.old row (record { function = function; a = a; b = b; c = c; times = times })) }
{
    let entry = Entry {
        function,
        a,
        b,
        c,
        times,
    };
    number(sheet::edit(sheet, row, entry))
}

// Where the row's own 48 bytes start in the lent sheet; its length where the read is refused, so that no byte stands there.
#[unsafe(no_mangle)]
pub extern "C" fn sm_row_at(sheet: &[u8], row: u32) -> usize
    ensures { result ≡ row_place_of sheet.now row }
{
    if ledger::row_refusal(sheet, row).is_err() {
        return sheet.len();
    }
    ledger::row_place(row)
}

// 7 or 8, or 0: the row can be read.
#[unsafe(no_mangle)]
pub extern "C" fn sm_row_refusal(sheet: &[u8], row: u32) -> u8
    ensures { result ≡ row_refusal sheet.now row }
{
    number(ledger::row_refusal(sheet, row))
}

// The row's class, as `sm_count` numbers them; 5 where a NaN first answer leaves it none, or the row can't be read.
// Kept: the C interface, whose numbers these are.
#[unsafe(no_mangle)]
pub extern "C" fn sm_row_class(sheet: &[u8], row: u32) -> usize
    ensures { result ≡ class_in sheet.now row }
{
    inspection::class_number(inspection::row_class(sheet, row))
}

// How often the row was driven, as its bytes say; in a sheet that says 1, whose rows keep no times, once, and a blank row never. 0 where the row can't be read.
// Kept: the C interface, whose numbers these are.
#[unsafe(no_mangle)]
pub extern "C" fn sm_row_times(sheet: &[u8], row: u32) -> u16
    ensures { result ≡ times_of sheet.now row }
{
    ledger::row_times(sheet, row)
}

// A sheet that says 1 made one that says 3, in its own bytes: 7, 10, or 0. Refused, it is as it was.
#[unsafe(no_mangle)]
pub extern "C" fn sm_forth(sheet: &mut [u8]) -> u8
    ensures { (result ≡ (stop_of true sheet.old).refusal) × (sheet.new ≡ converted_of true sheet.old) }
{
    stop_number(conversion::convert(sheet, Way::Forth))
}

// And the way back: 7, 10, 17, or 0.
#[unsafe(no_mangle)]
pub extern "C" fn sm_back(sheet: &mut [u8]) -> u8
    ensures { (result ≡ (stop_of false sheet.old).refusal) × (sheet.new ≡ converted_of false sheet.old) }
{
    stop_number(conversion::convert(sheet, Way::Back))
}

// The row that such a refusal of the sheet as it is would be about; the number of rows where 10 is about the counts, and 0 where no row is meant.
// Kept: the C interface, whose numbers these are.
#[unsafe(no_mangle)]
pub extern "C" fn sm_forth_row(sheet: &[u8]) -> u32
    ensures { result ≡ (stop_of true sheet.now).row }
{
    stop_row(conversion::refusal(sheet, Way::Forth))
}

#[unsafe(no_mangle)]
pub extern "C" fn sm_back_row(sheet: &[u8]) -> u32
    ensures { result ≡ (stop_of false sheet.now).row }
{
    stop_row(conversion::refusal(sheet, Way::Back))
}

// How many rows are blank (0), finite (1), +∞ (2), -∞ (3) or refused (4), by the sheet's own counts; 0 for another class or where `sm_total_refusal` is not 0.
// Kept: the C interface, whose numbers these are.
#[unsafe(no_mangle)]
pub extern "C" fn sm_count(sheet: &[u8], class: u8) -> u32
    ensures { result ≡ count_of sheet.now class }
{
    ledger::count(sheet, class)
}

// The pattern of the total rounded once; +0 where `sm_total_refusal` is not 0.
// Kept: the C interface, whose numbers these are.
#[unsafe(no_mangle)]
pub extern "C" fn sm_total(sheet: &[u8]) -> u64
    ensures { result ≡ to_bits binary64 (total_of sheet.now) }
{
    bits::to_pattern(ledger::total(sheet))
}

// 7, or 0: the bytes are a sheet.
#[unsafe(no_mangle)]
pub extern "C" fn sm_total_refusal(sheet: &[u8]) -> u8
    ensures { result ≡ total_refusal sheet.now }
{
    number(ledger::total_refusal(sheet))
}
