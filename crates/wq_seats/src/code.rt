//! Answers as numbers.
ghost use Rattle.std.specs.Prelude.{◌≡◌, Ok};
ghost use Rattle.wq_seats.specs.Words.{error_code, answer_code, truth_code, success_code, word_of_number};

use crate::error::SeatError;
use wq_live::Answer;
use wq_words::LayoutError;

fn error_code(error: SeatError) -> u64
    ensures { result ≡ error_code error }
{
    match error {
        SeatError::NotSender => 64,
        SeatError::NotOwner => 65,
        SeatError::NoItem => 66,
        SeatError::NoBarrier => 67,
        SeatError::NoTries => 68,
        SeatError::Closed => 69,
        SeatError::Draining => 70,
        SeatError::NotDraining => 71,
        SeatError::Open => 72,
        SeatError::SomeWait => 73,
        SeatError::NoneWaits => 74,
        SeatError::Running => 75,
        SeatError::NoneRuns => 76,
        SeatError::InUse => 77,
        SeatError::NoSender => 78,
        SeatError::NotDone => 79,
        SeatError::Memory => 80,
        SeatError::Layout(LayoutError::Items) => 81,
        SeatError::Layout(LayoutError::Barriers) => 82,
        SeatError::Layout(LayoutError::Senders) => 83,
    }
}

fn code_of_answer(answer: Answer) -> u64
    ensures { result ≡ answer_code (Ok answer) }
{
    match answer {
        Answer::Queued {
            first: false,
            wakes: false,
        } => 1,
        Answer::Queued {
            first: true,
            wakes: false,
        } => 3,
        Answer::Queued {
            first: false,
            wakes: true,
        } => 5,
        Answer::Queued {
            first: true,
            wakes: true,
        } => 7,
        Answer::Pending => 8,
        Answer::Closed => 9,
        Answer::Draining => 10,
        Answer::Contended => 11,
    }
}

pub(crate) fn answer_code(said: Result<Answer, SeatError>) -> u64
    ensures { result ≡ answer_code said }
{
    match said {
        Ok(answer) => code_of_answer(answer),
        Err(error) => error_code(error),
    }
}

pub(crate) fn truth_code(said: Result<bool, SeatError>) -> u64
    ensures { result ≡ truth_code said }
{
    match said {
        Ok(false) => 12,
        Ok(true) => 13,
        Err(error) => error_code(error),
    }
}

pub(crate) fn success_code(said: Result<(), SeatError>) -> u64
    ensures { result ≡ success_code said }
{
    match said {
        Ok(()) => 0,
        Err(error) => error_code(error),
    }
}

// The number stands above the code, which is 0.
pub(crate) fn word_of_number(said: Result<u32, SeatError>) -> u64
    ensures { result ≡ word_of_number said }
{
    match said {
        Ok(number) => u64::from(number) << 32,
        Err(error) => error_code(error),
    }
}
