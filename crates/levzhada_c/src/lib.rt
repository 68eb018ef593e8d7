// The entry points for C: each calls the function of `levzhada` of the same name, under the same clauses. A slice is a pointer and a length.
#![tactic(auto)]

ghost use Rattle.std.specs.Prelude.{◌≡◌, length};
ghost use Rattle.common.specs.Answer.{out_after, written_in};
ghost use Rattle.links.specs.Questions.{measure_answer_of};
ghost use Rattle.numbers.specs.Values.{link_measure_of, range_of, rule_of};
ghost use Rattle.patterns.specs.Answers.{answer_of};
ghost use Rattle.sheet.specs.Column.{parent_of};
ghost use Rattle.sheet.specs.Verdict.{numbers, verdict};
ghost use Rattle.text.specs.Text as texts;
ghost use Rattle.tree.specs.Attributes.{attribute_of};
ghost use Rattle.tree.specs.Questions.{relative_numbers};
ghost use Rattle.tree.specs.Rows.{first_child_of, next_sibling_of};
ghost use Rattle.tree.specs.TextLength.{length_numbers};
ghost use Rattle.unescape.specs.Answers as unescapes;
ghost use Rattle.visible_text.specs.Answers as visible_texts;
ghost use Rattle.levzhada.specs.Answers.{extract_numbers, extract_out, extract_work, mark_numbers, mark_sheet};

use common::Answer;
use numbers::values::{LinkMeasure, Range};

#[unsafe(no_mangle)]
pub extern "C" fn levzhada_check(sheet: &[u8]) -> Answer
    ensures { result ≡ numbers (verdict sheet.now) }
{
    levzhada::levzhada_check(sheet)
}

// options: the option line, eleven digits and LF; what follows it is not looked at.
#[unsafe(no_mangle)]
pub extern "C" fn levzhada_extract(
    sheet: &[u8],
    options: &[u8],
    out: &mut [u8],
    work: &mut [u8],
) -> Answer
    ensures answer { result ≡ extract_numbers sheet.now options.now (length out.old) (length work.old) }
    ensures text { out.new ≡ extract_out sheet.now options.now out.old work.old }
    ensures cleared { work.new ≡ extract_work sheet.now options.now work.old }
{
    levzhada::levzhada_extract(sheet, options, out, work)
}

// noscript: 0 is off, any other number on.
#[unsafe(no_mangle)]
pub extern "C" fn levzhada_mark(sheet: &mut [u8], options: &[u8], noscript: usize) -> Answer
    ensures answer { result ≡ mark_numbers sheet.old options.now noscript }
    ensures sheet { sheet.new ≡ mark_sheet sheet.old options.now noscript }
{
    levzhada::levzhada_mark(sheet, options, noscript)
}

#[unsafe(no_mangle)]
pub extern "C" fn levzhada_parent(sheet: &[u8], row: usize) -> Answer
    ensures { result ≡ relative_numbers parent_of sheet.now row }
{
    levzhada::levzhada_parent(sheet, row)
}

#[unsafe(no_mangle)]
pub extern "C" fn levzhada_first_child(sheet: &[u8], row: usize) -> Answer
    ensures { result ≡ relative_numbers first_child_of sheet.now row }
{
    levzhada::levzhada_first_child(sheet, row)
}

#[unsafe(no_mangle)]
pub extern "C" fn levzhada_next_sibling(sheet: &[u8], row: usize) -> Answer
    ensures { result ≡ relative_numbers next_sibling_of sheet.now row }
{
    levzhada::levzhada_next_sibling(sheet, row)
}

#[unsafe(no_mangle)]
pub extern "C" fn levzhada_attribute(sheet: &[u8], row: usize, name: &[u8]) -> Range
    ensures { result ≡ range_of (attribute_of sheet.now row name.now) }
{
    levzhada::levzhada_attribute(sheet, row, name)
}

#[unsafe(no_mangle)]
pub extern "C" fn levzhada_text_length(sheet: &[u8], row: usize) -> Answer
    ensures { result ≡ length_numbers sheet.now row }
{
    levzhada::levzhada_text_length(sheet, row)
}

#[unsafe(no_mangle)]
pub extern "C" fn levzhada_measure(
    sheet: &[u8],
    row: usize,
    ratio: f64,
    limit: usize,
) -> LinkMeasure
    ensures { result ≡ link_measure_of (rule_of ratio limit) (measure_answer_of sheet.now row (rule_of ratio limit)) }
{
    levzhada::levzhada_measure(sheet, row, ratio, limit)
}

#[unsafe(no_mangle)]
pub extern "C" fn levzhada_matches(pattern: usize, text: &[u8]) -> Answer
    ensures { result ≡ answer_of pattern text.now }
{
    levzhada::levzhada_matches(pattern, text)
}

#[unsafe(no_mangle)]
pub extern "C" fn levzhada_collapse(text: &[u8], out: &mut [u8]) -> Answer
    ensures answer { result ≡ written_in (texts.collapse text.now) (length out.old) }
    ensures buffer { out.new ≡ out_after (texts.collapse text.now) out.old }
{
    levzhada::levzhada_collapse(text, out)
}

#[unsafe(no_mangle)]
pub extern "C" fn levzhada_escape(text: &[u8], out: &mut [u8]) -> Answer
    ensures answer { result ≡ written_in (texts.escape text.now) (length out.old) }
    ensures buffer { out.new ≡ out_after (texts.escape text.now) out.old }
{
    levzhada::levzhada_escape(text, out)
}

#[unsafe(no_mangle)]
pub extern "C" fn levzhada_unescape(text: &[u8], out: &mut [u8]) -> Answer
    ensures answer { result ≡ unescapes.numbers (unescapes.unescaped_in text.now (length out.old)) }
    ensures buffer { out.new ≡ unescapes.unescaped_out text.now out.old }
{
    levzhada::levzhada_unescape(text, out)
}

#[unsafe(no_mangle)]
pub extern "C" fn levzhada_visible_text(sheet: &[u8], row: usize, out: &mut [u8]) -> Answer
    ensures answer { result ≡ visible_texts.numbers (visible_texts.visible_text_in sheet.now row (length out.old)) }
    ensures buffer { out.new ≡ visible_texts.visible_text_out sheet.now row out.old }
{
    levzhada::levzhada_visible_text(sheet, row, out)
}
