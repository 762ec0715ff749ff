// What a call answers.
ghost use Rattle.std.specs.Prelude.{◌≡◌};
ghost use Rattle.book_rules.specs.Force.{plain};
ghost use Rattle.layout.specs.Refusal.{number, drawn};
ghost use Rattle.cells.specs.Meaning.{answer_of, answered};

use layout::{Refusal, answer, drawn};

// "Each call returns a number, 24 words and a sum (signed 64-bit)." Laid out for C, so no Result.
#[repr(C)]
#[derive(Clone, Copy, Debug, PartialEq, Eq)]
pub struct Answer {
    pub number: u32,
    pub words: [i32; answer::WORDS],
    pub sum: i64,
}

// "Otherwise words and sum are zero." Of any number: what is drawn becomes an answer by From, below.
#[tactic(auto, unfolding(book_rules::specs::Force::plain))]
pub fn plain(number: u32) -> Answer
    ensures { answer_of result ≡ plain number }
{
    Answer {
        number,
        words: [0; answer::WORDS],
        sum: 0,
    }
}

impl From<Refusal> for Answer {
    ghost from_gives = { λ refusal reply. answer_of reply ≡ plain (number refusal) };

    fn from(refusal: Refusal) -> Answer {
        plain(u32::from(refusal))
    }
}

// Of a call that files: the number alone, 0 where it isn't refused.
impl From<Result<(), Refusal>> for Answer {
    ghost from_gives = { λ outcome reply. answer_of reply ≡ plain (drawn outcome) };

    fn from(outcome: Result<(), Refusal>) -> Answer {
        plain(drawn(outcome))
    }
}

// Of a call that reads: its answer, or the number alone.
impl From<Result<Answer, Refusal>> for Answer {
    ghost from_gives = { λ outcome reply. answer_of reply ≡ answered outcome };

    fn from(outcome: Result<Answer, Refusal>) -> Answer {
        match outcome {
            Ok(answer) => answer,
            Err(refusal) => Answer::from(refusal),
        }
    }
}
