// Answers as one number.
#![tactic(auto)]

ghost use Rattle.std.specs.Prelude.{◌≡◌};
ghost use Rattle.ultra_crossing.specs.Crossing.{number_and_value, answer_crossed, step_crossed, reading_crossed, part_crossed};

use lent_buffers::Part;
use refusals::Refusal;
use ultra_reading::{Accepted, Cursor, Header};

// Every refusal crosses here.
fn of_refusal(refusal: Refusal) -> u64
    ensures { result ≡ number_and_value refusal.number refusal.offset }
{
    refusal.number as u64 * 4294967296 + refusal.offset as u64
}

pub fn of_answer(answer: Result<u32, Refusal>) -> u64
    ensures { result ≡ answer_crossed answer }
{
    match answer {
        Ok(value) => value as u64,
        Err(refusal) => of_refusal(refusal),
    }
}

pub fn of_reading(reading: Result<Accepted, Refusal>) -> u64
    ensures { result ≡ reading_crossed reading }
{
    match reading {
        Ok(accepted) => accepted.used as u64,
        Err(refusal) => of_refusal(refusal),
    }
}

pub fn of_step(step: Result<Option<(Header, Cursor)>, Refusal>) -> u64
    ensures { result ≡ step_crossed step }
{
    match step {
        Ok(Some((_, next))) => next.offset as u64,
        Ok(None) => 0,
        Err(refusal) => of_refusal(refusal),
    }
}

pub fn of_part(part: Part) -> u64
    ensures { result ≡ part_crossed part }
{
    part.start as u64 * 4294967296 + part.length as u64
}
