// The calls of the crate abi for programs in C and Rust: each has the name, the parameters and the clauses of the call there, whose comment says what it
// does. A slice is a pointer and then a length in C; include/margin_engine.h declares them.
#![tactic(auto)]

ghost use Rattle.std.specs.Prelude.{◌≡◌, length};
ghost use Rattle.table.specs.Table.{read_text, answer};
ghost use Rattle.table.specs.Slices.{laid, fitted, kinds_of, stops_of, weights_of, heights_of, decoded};
ghost use Rattle.worth.specs.Call.{exact_call};
ghost use Rattle.judge.specs.Call.{judge_call};
ghost use Rattle.search_call.specs.Call.{search_call, search_reads, within_call, within_reads};
ghost use Rattle.index.specs.Index.{written};
ghost use Rattle.index_call.specs.Call.{room_in, index_call, index_lows, index_highs, indexed_call, indexed_reads};
ghost use Rattle.rolled.specs.Call.{roll_call, roll_reads, roll_store};
ghost use Rattle.rollout_call.specs.Records.{recorded};
ghost use Rattle.report_call.specs.Call as files;
ghost use Rattle.report_call.specs.Call.{report_call, report_kinds, report_losses, report_marks};
ghost use Rattle.turn_call.specs.Call.{turn_call, turn_bytes};
ghost use Rattle.recipe_call.specs.Call.{recipe_call, recipe_bytes};
ghost use Rattle.codes.specs.Numbers.{read_code, numbers_of, worth_code, worth_numbers, judge_code, judge_numbers, search_code, search_numbers, index_code, roll_code, roll_numbers, turned_code, recipe_code, recipe_numbers, report_code, report_numbers, put};

use rollout_call::Record;

#[unsafe(no_mangle)]
pub extern "C" fn margin_read(
    text: &[u8],
    numbers: &mut [i64],
    kind: &mut [u8],
    stop: &mut [u16],
    weight: &mut [u8],
    height: &mut [u32],
) -> u64
    ensures code { result ≡ read_code (answer (read_text text.now)) }
    ensures numbers { numbers.new ≡ put 0 (numbers_of (answer (read_text text.now))) numbers.old }
    ensures kinds { kind.new ≡ fitted (decoded kinds_of (read_text text.now)) kind.old }
    ensures stops { stop.new ≡ fitted (decoded stops_of (read_text text.now)) stop.old }
    ensures weights { weight.new ≡ fitted (decoded weights_of (read_text text.now)) weight.old }
    ensures heights { height.new ≡ fitted (decoded heights_of (read_text text.now)) height.old }
{
    abi::margin_read(text, numbers, kind, stop, weight, height)
}

#[unsafe(no_mangle)]
pub extern "C" fn margin_worth(text: &[u8], numbers: &mut [i64]) -> u64
    ensures code { result ≡ worth_code (exact_call (read_text text.now)) }
    ensures numbers { numbers.new ≡ put 0 (worth_numbers (exact_call (read_text text.now))) numbers.old }
{
    abi::margin_worth(text, numbers)
}

#[unsafe(no_mangle)]
pub extern "C" fn margin_judge(text: &[u8], number: i64, numbers: &mut [u64]) -> u64
    ensures code { result ≡ judge_code (judge_call (read_text text.now) number) }
    ensures numbers { numbers.new ≡ put 0 (judge_numbers (judge_call (read_text text.now) number)) numbers.old }
{
    abi::margin_judge(text, number, numbers)
}

#[unsafe(no_mangle)]
pub extern "C" fn margin_search(
    text: &[u8],
    margin: i64,
    leaves: &mut [u16],
    numbers: &mut [i64],
) -> u64
    ensures code { result ≡ search_code (search_call (read_text text.now) margin (length leaves.old)) }
    ensures numbers { numbers.new ≡ put 0 (search_numbers (search_call (read_text text.now) margin (length leaves.old))) numbers.old }
    ensures lists { leaves.new ≡ laid (search_reads (read_text text.now) margin (length leaves.old)) leaves.old }
{
    abi::margin_search(text, margin, leaves, numbers)
}

#[unsafe(no_mangle)]
pub extern "C" fn margin_search_within(
    text: &[u8],
    margin: i64,
    budget: i64,
    leaves: &mut [u16],
    numbers: &mut [i64],
) -> u64
    ensures code { result ≡ search_code (within_call (read_text text.now) margin budget (length leaves.old)) }
    ensures numbers { numbers.new ≡ put 0 (search_numbers (within_call (read_text text.now) margin budget (length leaves.old))) numbers.old }
    ensures lists { leaves.new ≡ laid (within_reads (read_text text.now) margin budget (length leaves.old)) leaves.old }
{
    abi::margin_search_within(text, margin, budget, leaves, numbers)
}

#[unsafe(no_mangle)]
pub extern "C" fn margin_index(text: &[u8], lows: &mut [i64], highs: &mut [i64]) -> u64
    ensures code { result ≡ index_code (index_call (read_text text.now) (room_in lows.old highs.old)) }
    ensures lows { lows.new ≡ written (index_lows (read_text text.now) (room_in lows.old highs.old)) lows.old }
    ensures highs { highs.new ≡ written (index_highs (read_text text.now) (room_in lows.old highs.old)) highs.old }
{
    abi::margin_index(text, lows, highs)
}

#[unsafe(no_mangle)]
pub extern "C" fn margin_search_indexed(
    text: &[u8],
    margin: i64,
    lows: &[i64],
    highs: &[i64],
    leaves: &mut [u16],
    numbers: &mut [i64],
) -> u64
    ensures code { result ≡ search_code (indexed_call (read_text text.now) margin lows.now highs.now (length leaves.old)) }
    ensures numbers { numbers.new ≡ put 0 (search_numbers (indexed_call (read_text text.now) margin lows.now highs.now (length leaves.old))) numbers.old }
    ensures lists { leaves.new ≡ laid (indexed_reads (read_text text.now) margin lows.now highs.now (length leaves.old)) leaves.old }
{
    abi::margin_search_indexed(text, margin, lows, highs, leaves, numbers)
}

#[unsafe(no_mangle)]
pub extern "C" fn margin_turn(text: &[u8], buffer: &mut [u8]) -> u64
    ensures code { result ≡ turned_code (turn_call (read_text text.now) (length buffer.old)) }
    ensures writes { buffer.new ≡ laid (turn_bytes (read_text text.now) (length buffer.old)) buffer.old }
{
    abi::margin_turn(text, buffer)
}

#[unsafe(no_mangle)]
pub extern "C" fn margin_recipe(
    seed: i64,
    branching: i64,
    depth: i64,
    dice: i64,
    buffer: &mut [u8],
    numbers: &mut [i64],
) -> u64
    ensures code { result ≡ recipe_code (recipe_call seed branching depth dice (length buffer.old)) }
    ensures writes { buffer.new ≡ laid (recipe_bytes seed branching depth dice (length buffer.old)) buffer.old }
    ensures numbers { numbers.new ≡ put 0 (recipe_numbers (recipe_call seed branching depth dice (length buffer.old))) numbers.old }
{
    abi::margin_recipe(seed, branching, depth, dice, buffer, numbers)
}

#[unsafe(no_mangle)]
pub extern "C" fn margin_rollout(
    text: &[u8],
    policy: &[u8],
    store: &mut [Record],
    leaves: &mut [u16],
    numbers: &mut [i64],
) -> u64
    ensures code { result ≡ roll_code (roll_call (read_text text.now) policy.now (length leaves.old) (length store.old)) }
    ensures numbers { numbers.new ≡ put 0 (roll_numbers (roll_call (read_text text.now) policy.now (length leaves.old) (length store.old))) numbers.old }
    ensures lists { leaves.new ≡ laid (roll_reads (read_text text.now) policy.now (length leaves.old) (length store.old)) leaves.old }
    ensures store { store.new ≡ recorded (roll_store (read_text text.now) policy.now (length leaves.old) (length store.old)) store.old }
{
    abi::margin_rollout(text, policy, store, leaves, numbers)
}

#[unsafe(no_mangle)]
pub extern "C" fn margin_report(
    file: &[u8],
    scale: i64,
    kinds: &mut [u8],
    losses: &mut [i64],
    marks: &mut [u8],
    numbers: &mut [i64],
) -> u64
    ensures code { result ≡ report_code (report_call file.now scale (files.room_in kinds.old losses.old marks.old)) }
    ensures numbers { numbers.new ≡ put 0 (report_numbers (report_call file.now scale (files.room_in kinds.old losses.old marks.old))) numbers.old }
    ensures kinds { kinds.new ≡ laid (report_kinds file.now scale (files.room_in kinds.old losses.old marks.old)) kinds.old }
    ensures losses { losses.new ≡ laid (report_losses file.now scale (files.room_in kinds.old losses.old marks.old)) losses.old }
    ensures marks { marks.new ≡ laid (report_marks file.now scale (files.room_in kinds.old losses.old marks.old)) marks.old }
{
    abi::margin_report(file, scale, kinds, losses, marks, numbers)
}
