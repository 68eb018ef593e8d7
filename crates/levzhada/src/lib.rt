// The entry points for other languages, as a library: each answer in the numbers of docs/SHEET.md. `levzhada_c` exports them to C.
#![tactic(auto)]

ghost use Rattle.std.specs.Prelude.{◌≡◌, length};
ghost use Rattle.common.specs.Answer.{out_after, refused, written_in};
ghost use Rattle.common.specs.Refusals.{wrong_options};
ghost use Rattle.links.specs.Questions.{measure_answer_of};
ghost use Rattle.numbers.specs.Values.{link_measure_of, range_of, rule_of};
ghost use Rattle.patterns.specs.Answers.{answer_of};
ghost use Rattle.sheet.specs.Column.{parent_of};
ghost use Rattle.sheet.specs.Verdict.{numbers, verdict};
ghost use Rattle.text.specs.Text as texts;
ghost use Rattle.tree.specs.Attributes.{attribute_of};
ghost use Rattle.tree.specs.Questions.{relative_numbers};
ghost use Rattle.tree.specs.Rows.{first_child_of, next_sibling_of};
ghost use Rattle.tree.specs.TextLength.{length_numbers};
ghost use Rattle.unescape.specs.Answers as unescapes;
ghost use Rattle.visible_text.specs.Answers as visible_texts;
ghost use Rattle.levzhada.specs.Answers.{extract_numbers, extract_out, extract_work, mark_numbers, mark_sheet};

use common::Answer;
use links::Rule;
use numbers::ToAnswer;
use numbers::values::{LinkMeasure, Range, link_measure_of};
use options::line::read_line;
use reader::{
    attribute_of, check, collapse, escape, extract, first_child_of, mark, matches, measure_of,
    next_sibling_of, parent_of, text_length_of, unescape, visible_text,
};

// The answer to a wrong option line, before the sheet is looked at.
fn wrong_options() -> Answer
    ensures { result ≡ refused wrong_options 0 }
{
    Answer::refused(Answer::WRONG_OPTIONS, 0)
}

pub fn levzhada_check(sheet: &[u8]) -> Answer
    ensures { result ≡ numbers (verdict sheet.now) }
{
    check(sheet).to_answer()
}

// options: the option line, eleven digits and LF; what follows it is not looked at.
pub fn levzhada_extract(sheet: &[u8], options: &[u8], out: &mut [u8], work: &mut [u8]) -> Answer
    ensures answer { result ≡ extract_numbers sheet.now options.now (length out.old) (length work.old) }
    ensures text { out.new ≡ extract_out sheet.now options.now out.old work.old }
    ensures cleared { work.new ≡ extract_work sheet.now options.now work.old }
{
    let Some(o) = read_line(options) else {
        return wrong_options();
    };
    extract(sheet, o, out, work).to_answer()
}

// noscript: 0 is off, any other number on.
pub fn levzhada_mark(sheet: &mut [u8], options: &[u8], noscript: usize) -> Answer
    ensures answer { result ≡ mark_numbers sheet.old options.now noscript }
    ensures sheet { sheet.new ≡ mark_sheet sheet.old options.now noscript }
{
    let Some(o) = read_line(options) else {
        return wrong_options();
    };
    mark(sheet, o, noscript != 0).to_answer()
}

pub fn levzhada_parent(sheet: &[u8], row: usize) -> Answer
    ensures { result ≡ relative_numbers parent_of sheet.now row }
{
    parent_of(sheet, row).to_answer()
}

pub fn levzhada_first_child(sheet: &[u8], row: usize) -> Answer
    ensures { result ≡ relative_numbers first_child_of sheet.now row }
{
    first_child_of(sheet, row).to_answer()
}

pub fn levzhada_next_sibling(sheet: &[u8], row: usize) -> Answer
    ensures { result ≡ relative_numbers next_sibling_of sheet.now row }
{
    next_sibling_of(sheet, row).to_answer()
}

pub fn levzhada_attribute(sheet: &[u8], row: usize, name: &[u8]) -> Range
    ensures { result ≡ range_of (attribute_of sheet.now row name.now) }
{
    Range::from(attribute_of(sheet, row, name))
}

pub fn levzhada_text_length(sheet: &[u8], row: usize) -> Answer
    ensures { result ≡ length_numbers sheet.now row }
{
    text_length_of(sheet, row).to_answer()
}

pub fn levzhada_measure(sheet: &[u8], row: usize, ratio: f64, limit: usize) -> LinkMeasure
    ensures { result ≡ link_measure_of (rule_of ratio limit) (measure_answer_of sheet.now row (rule_of ratio limit)) }
{
    let rule = Rule { ratio, limit };
    link_measure_of(rule, measure_of(sheet, row, rule))
}

pub fn levzhada_matches(pattern: usize, text: &[u8]) -> Answer
    ensures { result ≡ answer_of pattern text.now }
{
    matches(pattern, text).to_answer()
}

pub fn levzhada_collapse(text: &[u8], out: &mut [u8]) -> Answer
    ensures answer { result ≡ written_in (texts.collapse text.now) (length out.old) }
    ensures buffer { out.new ≡ out_after (texts.collapse text.now) out.old }
{
    collapse(text, out).to_answer()
}

pub fn levzhada_escape(text: &[u8], out: &mut [u8]) -> Answer
    ensures answer { result ≡ written_in (texts.escape text.now) (length out.old) }
    ensures buffer { out.new ≡ out_after (texts.escape text.now) out.old }
{
    escape(text, out).to_answer()
}

pub fn levzhada_unescape(text: &[u8], out: &mut [u8]) -> Answer
    ensures answer { result ≡ unescapes.numbers (unescapes.unescaped_in text.now (length out.old)) }
    ensures buffer { out.new ≡ unescapes.unescaped_out text.now out.old }
{
    unescape(text, out).to_answer()
}

pub fn levzhada_visible_text(sheet: &[u8], row: usize, out: &mut [u8]) -> Answer
    ensures answer { result ≡ visible_texts.numbers (visible_texts.visible_text_in sheet.now row (length out.old)) }
    ensures buffer { out.new ≡ visible_texts.visible_text_out sheet.now row out.old }
{
    visible_text(sheet, row, out).to_answer()
}
