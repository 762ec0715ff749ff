// A list of records in one go: a book is opened in lent words, the records are called on it one after another, and their answers written.
// Demand 3, as the promise of a function: the answers are the list machine's.
#![tactic(auto)]

ghost use Rattle.std.specs.Prelude.{◌≡◌, ◌++◌, ◌*◌, ◌≤◌, length, drop};
ghost use Rattle.book_rules.specs.Book.{book_answers, book_run};
ghost use Rattle.cells.specs.Meaning.{answer_of};
ghost use Rattle.listed.specs.ListAnswered.{numbers_of, flat, ListAnswered};

use book::call;
use cells::Answer;
use layout::{Refusal, answer, fields, head};
use opening::open;
use std::array;

// An answer's numbers: its number, 24 words, its sum.
const NUMBERS: usize = 1 + answer::WORDS + 1;

fn widened(words: &[i32; answer::WORDS]) -> [i64; answer::WORDS]
    ensures { result ≡ words.now }
{
    // By places: `words.map(i64::from)` was tried, and isn't proved.
    array::from_fn(|i| i64::from(words[i]))
}

fn numbers(answer: Answer) -> [i64; NUMBERS]
    ensures { result ≡ numbers_of (answer_of answer) }
{
    let mut numbers = [0; NUMBERS];
    numbers[0] = i64::from(answer.number);
    numbers[1..NUMBERS - 1].copy_from_slice(&widened(&answer.words));
    numbers[NUMBERS - 1] = answer.sum;
    numbers
}

// Each record is called on the words that the one before left.
fn answer_records(words: &mut [i32], records: &[[u8; fields::BYTES]], answers: &mut [i64])
    requires { 26 * length records.now ≤ length answers.old }
    ensures { (answers.new ≡ flat (book_answers words.old records.now) ++ drop (26 * length records.now) answers.old) × (words.new ≡ book_run words.old records.now) }
{
    // By place: tried through `as_chunks_mut` and `split_first_chunk_mut`, and what `answers` then ends as isn't known.
    for (i, record) in records.iter().enumerate() {
        let at = NUMBERS * i;
        answers[at..at + NUMBERS].copy_from_slice(&numbers(call(words, record)));
    }
}

// Opens the words and answers the records, each of 112 bytes, as many as are whole and have room for their 26 numbers: how many these are.
// Where the opening draws 20, nothing is answered or written.
pub fn answer_list(
    words: &mut [i32],
    facilities: i32,
    services: i32,
    limits: [i32; head::LIMIT_COUNT],
    records: &[u8],
    answers: &mut [i64],
) -> Result<usize, Refusal>
    ensures { ListAnswered words.old facilities services limits records.now answers.old result words.new answers.new }
{
    open(words, facilities, services, limits)?;
    let records = records.as_chunks::<{ fields::BYTES }>().0;
    let count = records.len().min(answers.len() / NUMBERS);
    answer_records(words, &records[..count], answers);
    Ok(count)
}
