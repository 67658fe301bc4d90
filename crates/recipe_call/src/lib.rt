// The public call of test positions by recipe. It takes any numbers, and ends with a table or a refusal.
#![tactic(auto)]

ghost use Rattle.std.specs.Prelude.{◌≡◌, length};
ghost use Rattle.table.specs.Slices.{laid};
ghost use Rattle.recipe_call.specs.Call.{out_of_range, recipe_call, recipe_bytes};

use line::Refusal;
use recipe::Recipe;

fn is_out_of_range(seed: i64, branching: i64, depth: i64, dice: i64) -> bool
    ensures { result ≡ out_of_range seed branching depth dice }
{
    !matches!(
        (seed, branching, depth, dice),
        (0..=2147483647, 2..=5, 0..=9, 0..=1)
    )
}

// The table of a recipe: for any numbers and any buffer. Its text goes to the start of the buffer, whose other bytes stay; a refused call writes
// nothing. The seed is from 0 to 2,147,483,647, the branching number from 2 to 5, the depth in plays from 0 to 9, and dice is 1 with dice, 0 without.
pub fn write_recipe(
    seed: i64,
    branching: i64,
    depth: i64,
    dice: i64,
    buffer: &mut [u8],
) -> Result<usize, Refusal>
    ensures answers { result ≡ recipe_call seed branching depth dice (length buffer.old) }
    ensures writes { buffer.new ≡ laid (recipe_bytes seed branching depth dice (length buffer.old)) buffer.old }
{
    if is_out_of_range(seed, branching, depth, dice) {
        return Err(Refusal::BadRecipe);
    }
    let recipe = Recipe {
        b: branching.unsigned_abs(),
        dice: dice == 1,
    };
    let plays = depth.unsigned_abs();
    let count = recipe.table_nodes(plays);
    if 1024 < count {
        return Err(Refusal::BadRecipe);
    }
    let n = count as usize;
    let long = 25 * n + 25;
    if buffer.len() < long {
        return Err(Refusal::NoRoom);
    }
    recipe.write_table(seed.unsigned_abs(), plays, n, buffer);
    Ok(long)
}
