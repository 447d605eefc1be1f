// The results of reading, writing, gathering and searching.
ghost use Rattle.std.specs.Prelude.{◌≡◌};
ghost use Rattle.records.specs.Answers.{answer_of, outcome_of};
ghost use Rattle.cutting.specs.Search.{found_of};
ghost use Rattle.cutting.specs.Gather.{gathered_of};
ghost use Rattle.in656.specs.Results.Telegrams.{read_result, write_result, cut_result, span_result};

use crate::results::result::{In656Result, done, refuse, say};
use cutting::gather::Gathered;
use cutting::search::Span;
use records::answers::{Numbered, Reading};
use records::refusals::Refusal;

// Outcome of a gathered item and of a search: there is a telegram. Its number is the C interface's (include/in656.h).
pub const TELEGRAM: u32 = 1;

// A reading.
impl From<Reading> for In656Result {
    ghost from_gives = { λ reading r. r ≡ read_result (answer_of reading) };

    fn from(reading: Reading) -> In656Result {
        match reading {
            Ok(Numbered { number, .. }) => done().with_number(number).with_record(),
            Err(refusal) => refuse(refusal),
        }
    }
}

// A writing: how many bytes were written.
impl From<Result<usize, Refusal>> for In656Result {
    ghost from_gives = { λ writing r. r ≡ write_result (outcome_of writing) };

    fn from(writing: Result<usize, Refusal>) -> In656Result {
        match writing {
            Ok(n) => done().with_written(n),
            Err(refusal) => refuse(refusal),
        }
    }
}

// A gathered item.
impl From<Gathered> for In656Result {
    ghost from_gives = { λ gathered r. r ≡ cut_result (gathered_of gathered) };

    fn from(gathered: Gathered) -> In656Result {
        match gathered {
            Ok(None) => done(),
            Ok(Some(n)) => say(TELEGRAM, 0).with_written(n),
            Err(refusal) => refuse(refusal),
        }
    }
}

// A search.
impl From<Option<Span>> for In656Result {
    ghost from_gives = { λ span r. r ≡ span_result (found_of span) };

    fn from(span: Option<Span>) -> In656Result {
        match span {
            Some(Span { start, end }) => say(TELEGRAM, 0)
                .with_written(end.saturating_sub(start))
                .with_place(start),
            None => done(),
        }
    }
}
