// What the program prints for an input: a line of numbers, and a text behind it.
#![tactic(auto)]

pub mod theorems;

ghost use Rattle.std.specs.Prelude.{[], ◌∷◌, ◌++◌, ◌≡◌, ◌+◌, ◌≤◌, length};
ghost use Rattle.common.specs.Bytes.{padded};
ghost use Rattle.common.specs.Puts.{Puts};
ghost use Rattle.printing.specs.Printed.{answered, answer_line, printed, room, shown, TextFits, zeros};

use common::Answer;
use html2text::{ExtractError, Extracted};
use numbers::ToAnswer;
use options::ExtractOptions;
use options::line::{LENGTH, read_line};
use reader::extract;
use sheet::line::Quad;
use sheet::write::put_short_line;

// No longer input is taken; out and work have as many bytes.
pub const ROOM: usize = 16384;

// The most that is printed: the line of numbers, a text that fills out, LF.
pub const LONGEST: usize = 16418;

fn put_answer(to: &mut [u8], a: Answer) -> usize
    requires { 33 ≤ length to.old }
    ensures { Puts to.old 0 (answer_line a) to.new result }
{
    put_short_line(
        to,
        0,
        8,
        Quad {
            first: a.number,
            second: a.second,
            third: a.visits,
            fourth: a.length,
        },
    )
}

// A text and LF.
fn put_text(to: &mut [u8], at: usize, text: &[u8]) -> usize
    requires { at + length text.now + 1 ≤ length to.old }
    ensures { Puts to.old at (text.now ++ 10 ∷ []) to.new result }
{
    let end = common::put(to, at, text);
    to[end] = 10;
    end + 1
}

// The numbers of an extraction, and its text.
fn put_extraction(to: &mut [u8], e: Result<Extracted, ExtractError>, out: &[u8]) -> usize
    requires { TextFits e out.now × (33 + length out.now + 1 ≤ length to.old) }
    ensures { Puts to.old 0 (shown e out.now) to.new result }
{
    let at = put_answer(to, e.to_answer());
    match e {
        Ok(text) => put_text(to, at, &out[..text.len]),
        Err(_) => at,
    }
}

// The answer to a sheet, by buffers of zeros.
fn put_sheet(
    to: &mut [u8],
    sheet: &[u8],
    o: ExtractOptions,
    out: &mut [u8],
    work: &mut [u8],
) -> usize
    requires { (out.old ≡ zeros) × (work.old ≡ zeros) × (33 + room + 1 ≤ length to.old) }
    ensures stored { Puts to.old 0 (answered sheet.now o) to.new result }
    ensures within { result ≤ length to.new }
{
    let e = extract(sheet, o, out, work);
    put_extraction(to, e, out)
}

// The same, by buffers of its own.
fn put_answered(to: &mut [u8], sheet: &[u8], o: ExtractOptions) -> usize
    requires { 33 + room + 1 ≤ length to.old }
    ensures stored { Puts to.old 0 (answered sheet.now o) to.new result }
    ensures within { result ≤ length to.new }
{
    let mut out = [0; ROOM];
    let mut work = [0; ROOM];
    put_sheet(to, sheet, o, &mut out, &mut work)
}

fn put_printed(to: &mut [u8], input: &[u8]) -> usize
    requires { 33 + room + 1 ≤ length to.old }
    ensures stored { Puts to.old 0 (printed input.now) to.new result }
    ensures within { result ≤ length to.new }
{
    if input.len() > ROOM {
        return put_answer(to, Answer::refused(Answer::INPUT_TOO_LONG, 0));
    }
    let line = read_line(input);
    let Some(o) = line else {
        return put_answer(to, line.to_answer());
    };
    put_answered(to, &input[LENGTH..], o)
}

// What the program prints for an input, stored from the start of the lent array on, and zeros behind it; the place behind what is printed.
pub fn print(input: &[u8], to: &mut [u8; LONGEST]) -> usize
    ensures stored { to.new ≡ padded (printed input.now) (length to.old) }
    ensures place { result ≡ length (printed input.now) }
    ensures within { result ≤ length to.new }
{
    let past = put_printed(to, input);
    common::clear(to, past);
    past
}
