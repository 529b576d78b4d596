// The mark alone: the marking call with a list inside that has a place for each row of the table, so that no list is too short.
#![tactic(auto)]

ghost use Rattle.std.specs.Prelude.{◌≡◌, ◌≢◌, ◌<◌, ◌≤◌};
ghost use Rattle.history.specs.Table.{largest_count, row_count};
ghost use Rattle.history.specs.Answer.{number};
ghost use Rattle.history.specs.declared.Code.TheVariants.{ShortList};
ghost use Rattle.marks.specs.Marks.{answer_to, Ample, Said};

use history::{Answer, Row};

// The trials that are enough for LBT on every register: W (W + 1) / 2 with 1,024 writes.
pub const MOST_TRIALS: u64 = 524800;

// The answer of the marking call, whose order goes to a list of N places: as many as the largest table needs, or a shorter one that this table fits into.
fn answer_sized<const N: usize>(
    table: &[u64],
    register: u64,
    question: u64,
    allowance: u64,
) -> Answer
    requires size { N ≤ largest_count }
    requires room { N < largest_count → row_count table.now ≤ N }
    ensures { result ≡ answer_to table.now register question allowance }
{
    marker::mark(table, register, question, allowance, &mut [0u64; N])
}

// The answer of the marking call alone; its order is dropped.
pub fn answer(table: &[u64], register: u64, question: u64, allowance: u64) -> Answer
    ensures answer { result ≡ answer_to table.now register question allowance }
    ensures said { Ample question allowance → Said table.now register question result.code }
    ensures room { result.code ≢ number ShortList }
{
    if table.len() / Row::COLUMNS <= Row::FEW {
        answer_sized::<{ Row::FEW }>(table, register, question, allowance)
    } else {
        answer_sized::<{ Row::LARGEST_COUNT }>(table, register, question, allowance)
    }
}
