// Each answer in numbers, as C reads it and the program prints it.
#![tactic(auto)]

pub mod values;

ghost use Rattle.std.specs.Prelude.{◌≡◌};
ghost use Rattle.common.specs.Answer as written;
ghost use Rattle.common.specs.declared.Answer.{Answer};
ghost use Rattle.html2text.specs.Extract as extractions;
ghost use Rattle.links.specs.Questions as measures;
ghost use Rattle.marking.specs.Answers as marks;
ghost use Rattle.options.specs.Line as lines;
ghost use Rattle.patterns.specs.Answers as matches;
ghost use Rattle.sheet.specs.Verdict as verdict;
ghost use Rattle.tree.specs.Attributes as attributes;
ghost use Rattle.tree.specs.Questions as questions;
ghost use Rattle.tree.specs.TextLength as lengths;
ghost use Rattle.unescape.specs.Answers as unescaped;
ghost use Rattle.visible_text.specs.Answers as visible_texts;

use common::{Answer, TooShort};
use html2text::{ExtractError, Extracted};
use links::Measure;
use links::questions::MeasureError;
use options::ExtractOptions;
use patterns::NoPattern;
use sheet::line::Layout;
use sheet::verdict::SheetError;
use tree::attributes::Span;
use tree::questions::QuestionError;
use unescape::UnescapeError;
use visible_text::VisibleTextError;

// What has numbers: `numbers` says which.
pub trait ToAnswer {
    ghost numbers: { Self → Answer };

    fn to_answer(self) -> Answer
        ensures { result ≡ numbers self };
}

// A text that `collapse` or `escape` writes.
impl ToAnswer for Result<usize, TooShort> {
    ghost numbers = { written.numbers };

    fn to_answer(self) -> Answer {
        match self {
            Ok(n) => Answer::accepted(0, 0, n),
            Err(e) => Answer::refused(Answer::OUT_TOO_SHORT, e.need),
        }
    }
}

impl ToAnswer for Result<usize, UnescapeError> {
    ghost numbers = { unescaped.numbers };

    fn to_answer(self) -> Answer {
        match self {
            Ok(n) => Answer::accepted(0, 0, n),
            Err(UnescapeError::NoEntity(at)) => Answer::refused(Answer::NO_ENTITY, at),
            Err(UnescapeError::TooShort(need)) => Answer::refused(
                Answer::UNESCAPE_OUT_TOO_SHORT,
                need,
            ),
        }
    }
}

impl ToAnswer for SheetError {
    ghost numbers = { verdict.refusal };

    fn to_answer(self) -> Answer {
        match self {
            SheetError::Length(n) => Answer::refused(Answer::WRONG_LENGTH, n),
            SheetError::Format(line) => Answer::refused(Answer::WRONG_FORMAT, line),
            SheetError::Counts => Answer::refused(Answer::WRONG_COUNTS, 0),
            SheetError::Tree(line) => Answer::refused(Answer::WRONG_TREE, line),
            SheetError::Kind(line) => Answer::refused(Answer::WRONG_KIND, line),
            SheetError::Range(line) => Answer::refused(Answer::WRONG_RANGE, line),
            SheetError::Encoding(line) => Answer::refused(Answer::NOT_UTF8, line),
        }
    }
}

impl ToAnswer for Result<Layout, SheetError> {
    ghost numbers = { verdict.numbers };

    fn to_answer(self) -> Answer {
        match self {
            Ok(_) => Answer::accepted(0, 0, 0),
            Err(e) => e.to_answer(),
        }
    }
}

impl ToAnswer for QuestionError {
    ghost numbers = { questions.refusal };

    fn to_answer(self) -> Answer {
        match self {
            QuestionError::Refused(e) => e.to_answer(),
            QuestionError::NoRow(i) => Answer::refused(Answer::NO_ROW, i),
        }
    }
}

impl ToAnswer for Result<Option<usize>, QuestionError> {
    ghost numbers = { questions.numbers };

    fn to_answer(self) -> Answer {
        match self {
            Ok(Some(row)) => Answer::accepted(row, 0, 1),
            Ok(None) => Answer::accepted(0, 0, 0),
            Err(e) => e.to_answer(),
        }
    }
}

impl ToAnswer for Result<Option<Span>, QuestionError> {
    ghost numbers = { attributes.numbers };

    fn to_answer(self) -> Answer {
        match self {
            Ok(Some(value)) => Answer::accepted(0, 0, value.len),
            Ok(None) => Answer::accepted(0, 0, 0),
            Err(e) => e.to_answer(),
        }
    }
}

impl ToAnswer for Result<usize, QuestionError> {
    ghost numbers = { lengths.numbers };

    fn to_answer(self) -> Answer {
        match self {
            Ok(n) => Answer::accepted(0, 0, n),
            Err(e) => e.to_answer(),
        }
    }
}

impl ToAnswer for Result<usize, VisibleTextError> {
    ghost numbers = { visible_texts.numbers };

    fn to_answer(self) -> Answer {
        match self {
            Ok(n) => Answer::accepted(0, 0, n),
            Err(VisibleTextError::Refused(e)) => e.to_answer(),
            Err(VisibleTextError::NoRow(i)) => Answer::refused(Answer::NO_ROW, i),
            Err(VisibleTextError::TooShort(need)) => Answer::refused(
                Answer::VISIBLE_TEXT_OUT_TOO_SHORT,
                need,
            ),
        }
    }
}

fn outcome(m: Measure) -> usize
    ensures { result ≡ measures.outcome m }
{
    match m {
        Measure::NoText => 0,
        Measure::TooLong => 1,
        Measure::NoLinks => 2,
        Measure::Share(_) => 3,
    }
}

impl ToAnswer for Result<Measure, MeasureError> {
    ghost numbers = { measures.numbers };

    fn to_answer(self) -> Answer {
        match self {
            Ok(m) => Answer::accepted(outcome(m), 0, 0),
            Err(MeasureError::Refused(e)) => e.to_answer(),
            Err(MeasureError::NoElement(i)) => Answer::refused(Answer::NO_ROW, i),
        }
    }
}

impl ToAnswer for Result<bool, NoPattern> {
    ghost numbers = { matches.numbers };

    fn to_answer(self) -> Answer {
        match self {
            Ok(true) => Answer::accepted(1, 0, 0),
            Ok(false) => Answer::accepted(0, 0, 0),
            Err(NoPattern(p)) => Answer::refused(Answer::NO_PATTERN, p),
        }
    }
}

// How many marks were set.
impl ToAnswer for Result<usize, SheetError> {
    ghost numbers = { marks.numbers };

    fn to_answer(self) -> Answer {
        match self {
            Ok(n) => Answer::accepted(0, 0, n),
            Err(e) => e.to_answer(),
        }
    }
}

// The option line, whether it is right.
impl ToAnswer for Option<ExtractOptions> {
    ghost numbers = { lines.numbers };

    fn to_answer(self) -> Answer {
        match self {
            Some(_) => Answer::accepted(0, 0, 0),
            None => Answer::refused(Answer::WRONG_OPTIONS, 0),
        }
    }
}

impl ToAnswer for Result<Extracted, ExtractError> {
    ghost numbers = { extractions.numbers };

    fn to_answer(self) -> Answer {
        match self {
            Ok(text) => Answer::accepted(0, text.visits, text.len),
            Err(ExtractError::Refused(e)) => e.to_answer(),
            Err(ExtractError::ListLevels(line)) => Answer::refused(
                Answer::TOO_MANY_LIST_LEVELS,
                line,
            ),
            Err(ExtractError::OpenRows(line)) => Answer::refused(Answer::TOO_MANY_OPEN_ROWS, line),
            Err(ExtractError::WorkTooShort(need)) => Answer::refused(Answer::WORK_TOO_SHORT, need),
            Err(ExtractError::OutTooShort(need)) => Answer::refused(Answer::OUT_TOO_SHORT, need),
        }
    }
}
