// Answers that have more than the four numbers; C reads them as they stand.
ghost use Rattle.std.specs.Prelude.{◌≡◌};
ghost use Rattle.numbers.specs.Values.{link_measure_of, range_of, share_in};

use crate::ToAnswer;
use common::Answer;
use links::questions::MeasureError;
use links::{Measure, Rule, exceeds};
use tree::attributes::Span;
use tree::questions::QuestionError;

// An attribute's range in the pool: present is 1 where there is one, and its length is the answer's.
#[repr(C)]
#[derive(Clone, Copy)]
pub struct Range {
    pub answer: Answer,
    pub present: usize,
    pub at: usize,
}

// The link measure of a row: exceeds is 1 where the share exceeds the rule's ratio, and share is 0 where there is none.
#[repr(C)]
#[derive(Clone, Copy)]
pub struct LinkMeasure {
    pub answer: Answer,
    pub exceeds: usize,
    pub share: f64,
}

impl From<Result<Option<Span>, QuestionError>> for Range {
    ghost from_gives = { λ found range. range ≡ range_of found };

    fn from(found: Result<Option<Span>, QuestionError>) -> Range {
        let answer = found.to_answer();
        match found {
            Ok(Some(value)) => Range {
                answer,
                present: 1,
                at: value.at,
            },
            _ => Range {
                answer,
                present: 0,
                at: 0,
            },
        }
    }
}

fn share_in(m: Measure) -> f64
    ensures { result ≡ share_in m }
{
    match m {
        Measure::Share(share) => share,
        _ => 0.0,
    }
}

pub fn link_measure_of(rule: Rule, found: Result<Measure, MeasureError>) -> LinkMeasure
    ensures { result ≡ link_measure_of rule found }
{
    let answer = found.to_answer();
    match found {
        Ok(m) => LinkMeasure {
            answer,
            exceeds: usize::from(exceeds(rule, m)),
            share: share_in(m),
        },
        Err(_) => LinkMeasure {
            answer,
            exceeds: 0,
            share: 0.0,
        },
    }
}
