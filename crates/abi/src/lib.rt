// The calls for programs in C and Rust, which the crate abi_c exports under the same names. Each writes its answer's numbers into a slice of the caller's,
// as many as it has room for (turning has none), and returns 0; where it refuses, it writes nothing and returns the refusal's line and number as one, so
// that 309 is refusal 9 at line 3. The report has the position before them: 2000309 is the same in position 2.
#![tactic(auto)]

ghost use Rattle.std.specs.Prelude.{◌≡◌, length};
ghost use Rattle.table.specs.Table.{read_text, answer};
ghost use Rattle.table.specs.Slices.{laid, fitted, kinds_of, stops_of, weights_of, heights_of, decoded};
ghost use Rattle.worth.specs.Call.{exact_call};
ghost use Rattle.judge.specs.Call.{judge_call};
ghost use Rattle.search_call.specs.Call.{search_call, search_reads, within_call, within_reads};
ghost use Rattle.index.specs.Index.{written};
ghost use Rattle.index_call.specs.Call.{room_in, index_call, index_lows, index_highs, indexed_call, indexed_reads};
ghost use Rattle.rolled.specs.Call.{roll_call, roll_reads, roll_store};
ghost use Rattle.rollout_call.specs.Records.{recorded};
ghost use Rattle.report_call.specs.Call as files;
ghost use Rattle.report_call.specs.Call.{report_call, report_kinds, report_losses, report_marks};
ghost use Rattle.turn_call.specs.Call.{turn_call, turn_bytes};
ghost use Rattle.recipe_call.specs.Call.{recipe_call, recipe_bytes};
ghost use Rattle.codes.specs.Numbers.{read_code, numbers_of, worth_code, worth_numbers, judge_code, judge_numbers, search_code, search_numbers, index_code, roll_code, roll_numbers, turned_code, recipe_code, recipe_numbers, report_code, report_numbers, put};

use rollout_call::Record;

// An accepted table: its numbers of nodes, T, the lowest and the highest end, K, G, its number of leaves and its second total (0 for none) go to
// `numbers`, and its nodes to the four slices, as `reading::read` has them. A refused one: nothing is written.
pub fn margin_read(
    text: &[u8],
    numbers: &mut [i64],
    kind: &mut [u8],
    stop: &mut [u16],
    weight: &mut [u8],
    height: &mut [u32],
) -> u64
    ensures code { result ≡ read_code (answer (read_text text.now)) }
    ensures numbers { numbers.new ≡ put 0 (numbers_of (answer (read_text text.now))) numbers.old }
    ensures kinds { kind.new ≡ fitted (decoded kinds_of (read_text text.now)) kind.old }
    ensures stops { stop.new ≡ fitted (decoded stops_of (read_text text.now)) stop.old }
    ensures weights { weight.new ≡ fitted (decoded weights_of (read_text text.now)) weight.old }
    ensures heights { height.new ≡ fitted (decoded heights_of (read_text text.now)) height.old }
{
    codes::put_reading(reading::read(text, kind, stop, weight, height), numbers)
}

// The exact worth in grains and G go to `numbers`. Where the table is refused, nothing is written.
pub fn margin_worth(text: &[u8], numbers: &mut [i64]) -> u64
    ensures code { result ≡ worth_code (exact_call (read_text text.now)) }
    ensures numbers { numbers.new ≡ put 0 (worth_numbers (exact_call (read_text text.now))) numbers.old }
{
    codes::put_exact(worth::exact_worth(text), numbers)
}

// Root child `number`, counted from 1, judged: 1, the loss in grains and the number of level children go to `numbers`, or 0 alone
// where there is no decision. Where the call is refused, nothing is written.
pub fn margin_judge(text: &[u8], number: i64, numbers: &mut [u64]) -> u64
    ensures code { result ≡ judge_code (judge_call (read_text text.now) number) }
    ensures numbers { numbers.new ≡ put 0 (judge_numbers (judge_call (read_text text.now) number)) numbers.old }
{
    codes::put_opinion(judge::judge_play(text, number), numbers)
}

// The search at a margin in grains: low, high, the play's node number (0 for none), the number of leaves read, G, high minus low and 0, as the budget
// is not spent, go to `numbers`, and the leaves read to `leaves`, in reading sequence. Where the call is refused, nothing is written.
pub fn margin_search(text: &[u8], margin: i64, leaves: &mut [u16], numbers: &mut [i64]) -> u64
    ensures code { result ≡ search_code (search_call (read_text text.now) margin (length leaves.old)) }
    ensures numbers { numbers.new ≡ put 0 (search_numbers (search_call (read_text text.now) margin (length leaves.old))) numbers.old }
    ensures lists { leaves.new ≡ laid (search_reads (read_text text.now) margin (length leaves.old)) leaves.old }
{
    margin_search_within(text, margin, 1024, leaves, numbers)
}

// The same within a budget of leaf reads, 0 to 1,024; the last number is 1 where it was spent.
pub fn margin_search_within(
    text: &[u8],
    margin: i64,
    budget: i64,
    leaves: &mut [u16],
    numbers: &mut [i64],
) -> u64
    ensures code { result ≡ search_code (within_call (read_text text.now) margin budget (length leaves.old)) }
    ensures numbers { numbers.new ≡ put 0 (search_numbers (within_call (read_text text.now) margin budget (length leaves.old))) numbers.old }
    ensures lists { leaves.new ≡ laid (within_reads (read_text text.now) margin budget (length leaves.old)) leaves.old }
{
    codes::put_bounded(
        search_call::search_within(text, margin, budget, leaves),
        numbers,
    )
}

// The index of a table: the lowest and the highest utility under each M, N and C go to `lows` and `highs`, by node number; the entries of leaves stay. Where
// the call is refused, nothing is written.
pub fn margin_index(text: &[u8], lows: &mut [i64], highs: &mut [i64]) -> u64
    ensures code { result ≡ index_code (index_call (read_text text.now) (room_in lows.old highs.old)) }
    ensures lows { lows.new ≡ written (index_lows (read_text text.now) (room_in lows.old highs.old)) lows.old }
    ensures highs { highs.new ≡ written (index_highs (read_text text.now) (room_in lows.old highs.old)) highs.old }
{
    codes::index_code(index_call::build_index(text, lows, highs))
}

// The search at a margin in grains with a lent index: numbers and leaves as in `margin_search`. Where the call is refused, nothing is written.
pub fn margin_search_indexed(
    text: &[u8],
    margin: i64,
    lows: &[i64],
    highs: &[i64],
    leaves: &mut [u16],
    numbers: &mut [i64],
) -> u64
    ensures code { result ≡ search_code (indexed_call (read_text text.now) margin lows.now highs.now (length leaves.old)) }
    ensures numbers { numbers.new ≡ put 0 (search_numbers (indexed_call (read_text text.now) margin lows.now highs.now (length leaves.old))) numbers.old }
    ensures lists { leaves.new ≡ laid (indexed_reads (read_text text.now) margin lows.now highs.now (length leaves.old)) leaves.old }
{
    codes::put_bounded(
        index_call::search_indexed(text, margin, lows, highs, leaves),
        numbers,
    )
}

// The turned table's text, as long as the text, goes to the start of `buffer`. Where the call is refused, nothing is written.
pub fn margin_turn(text: &[u8], buffer: &mut [u8]) -> u64
    ensures code { result ≡ turned_code (turn_call (read_text text.now) (length buffer.old)) }
    ensures writes { buffer.new ≡ laid (turn_bytes (read_text text.now) (length buffer.old)) buffer.old }
{
    codes::turned_code(turn_call::turn_table(text, buffer))
}

// The table of a recipe: its text goes to the start of `buffer`, and the number of its bytes to `numbers`. Where the call is refused, nothing is written.
pub fn margin_recipe(
    seed: i64,
    branching: i64,
    depth: i64,
    dice: i64,
    buffer: &mut [u8],
    numbers: &mut [i64],
) -> u64
    ensures code { result ≡ recipe_code (recipe_call seed branching depth dice (length buffer.old)) }
    ensures writes { buffer.new ≡ laid (recipe_bytes seed branching depth dice (length buffer.old)) buffer.old }
    ensures numbers { numbers.new ≡ put 0 (recipe_numbers (recipe_call seed branching depth dice (length buffer.old))) numbers.old }
{
    codes::put_made(
        recipe_call::write_recipe(seed, branching, depth, dice, buffer),
        numbers,
    )
}

// Rollouts under a policy list: the worth in grains and the number of leaves read go to `numbers`, the leaves read to `leaves`, in reading
// sequence, and the bounds of the nodes as last updated to `store`, by node number. Where the call is refused, nothing is written.
pub fn margin_rollout(
    text: &[u8],
    policy: &[u8],
    store: &mut [Record],
    leaves: &mut [u16],
    numbers: &mut [i64],
) -> u64
    ensures code { result ≡ roll_code (roll_call (read_text text.now) policy.now (length leaves.old) (length store.old)) }
    ensures numbers { numbers.new ≡ put 0 (roll_numbers (roll_call (read_text text.now) policy.now (length leaves.old) (length store.old))) numbers.old }
    ensures lists { leaves.new ≡ laid (roll_reads (read_text text.now) policy.now (length leaves.old) (length store.old)) leaves.old }
    ensures store { store.new ≡ recorded (roll_store (read_text text.now) policy.now (length leaves.old) (length store.old)) store.old }
{
    codes::put_rolled(rollout_call::rollouts(text, policy, store, leaves), numbers)
}

// The report of a match file by a scale: the number of positions, and of M and of N the number of decisions and the sum of their listed losses go
// to `numbers`; each position's kind of root to `kinds`, to `losses` its loss in thousandths of a point, -1 for no decision, and to `marks` the
// mark of its loss, 0 for no decision. Where the report is refused, nothing is written.
pub fn margin_report(
    file: &[u8],
    scale: i64,
    kinds: &mut [u8],
    losses: &mut [i64],
    marks: &mut [u8],
    numbers: &mut [i64],
) -> u64
    ensures code { result ≡ report_code (report_call file.now scale (files.room_in kinds.old losses.old marks.old)) }
    ensures numbers { numbers.new ≡ put 0 (report_numbers (report_call file.now scale (files.room_in kinds.old losses.old marks.old))) numbers.old }
    ensures kinds { kinds.new ≡ laid (report_kinds file.now scale (files.room_in kinds.old losses.old marks.old)) kinds.old }
    ensures losses { losses.new ≡ laid (report_losses file.now scale (files.room_in kinds.old losses.old marks.old)) losses.old }
    ensures marks { marks.new ≡ laid (report_marks file.now scale (files.room_in kinds.old losses.old marks.old)) marks.old }
{
    codes::put_reported(
        report_call::report(file, scale, kinds, losses, marks),
        numbers,
    )
}
