// The link measure asked of a byte string: the sheet's refusals come first, then 35 where the row is not there or no element.
ghost use Rattle.std.specs.Prelude.{◌≡◌};
ghost use Rattle.links.specs.Questions.{measure_answer_of, measure_error, measure_numbers, measure_values, numbers, values};

use crate::cluster::measure_row;
use crate::{Measure, Rule};
use sheet::verdict::SheetError;
use tree::questions::{QuestionError, ask};

// Why the measure has no answer.
#[derive(Clone, Copy, Debug, PartialEq, Eq)]
pub enum MeasureError {
    Refused(SheetError),
    NoElement(usize),
}

impl From<QuestionError> for MeasureError {
    ghost from_gives = { λ e r. r ≡ measure_error e };

    fn from(e: QuestionError) -> MeasureError {
        match e {
            QuestionError::Refused(e) => MeasureError::Refused(e),
            QuestionError::NoRow(i) => MeasureError::NoElement(i),
        }
    }
}

pub fn measure_of(s: &[u8], row: usize, rule: Rule) -> Result<Measure, MeasureError>
    ensures { (result ≡ measure_answer_of s.now row rule) × (numbers result ≡ measure_numbers s.now row rule) × (values result ≡ measure_values s.now row rule) }
{
    let (l, r) = ask(s, row)?;
    if r.kind != 1 {
        return Err(MeasureError::NoElement(row));
    }
    Ok(measure_row(s, l, row, rule))
}
