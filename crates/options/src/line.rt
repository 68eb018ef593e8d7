// The option line of the program.
ghost use Rattle.std.specs.Prelude.{◌≡◌, ◌≤◌, length};
ghost use Rattle.options.specs.Line.{flags_right, formatting_of, is_flag, is_formatting, line_length, line_of, line_right, options_in};

use crate::{ExtractOptions, Formatting};

// The digits and LF.
pub const LENGTH: usize = 12;

const LINE_FEED: u8 = b'\n';

fn is_flag(b: u8) -> bool
    ensures { result ≡ is_flag b }
{
    matches!(b, b'0'..=b'1')
}

fn is_formatting(b: u8) -> bool
    ensures { result ≡ is_formatting b }
{
    matches!(b, b'0'..=b'2')
}

fn formatting_of(b: u8) -> Formatting
    ensures { result ≡ formatting_of b }
{
    match b {
        b'0' => Formatting::Off,
        b'1' => Formatting::Basic,
        _ => Formatting::MinimalHtml,
    }
}

// Whether each byte is 0 or 1.
fn flags_right(s: &[u8]) -> bool
    ensures { result ≡ flags_right s.now }
{
    s.iter().all(|&b| is_flag(b))
}

fn line_right(input: &[u8]) -> bool
    ensures { result ≡ line_right input.now }
{
    input.len() >= LENGTH
        && input[LENGTH - 1] == LINE_FEED
        && is_formatting(input[0])
        && flags_right(&input[1..LENGTH - 1])
}

// The options of a line that is right.
fn options_in(line: &[u8]) -> ExtractOptions
    requires { line_length ≤ length line.now }
    ensures { result ≡ options_in line.now }
{
    ExtractOptions {
        formatting: formatting_of(line[0]),
        main_content: line[1] == b'1',
        list_bullets: line[2] == b'1',
        alt_texts: line[3] == b'1',
        links: line[4] == b'1',
        form_fields: line[5] == b'1',
        comments: line[6] == b'1',
        post_meta: line[7] == b'1',
        hidden_elements: line[8] == b'1',
        icons: line[9] == b'1',
        missing_alt: line[10] == b'1',
    }
}

// The option line that the input begins with; what follows it is not looked at.
pub fn read_line(input: &[u8]) -> Option<ExtractOptions>
    ensures { result ≡ line_of input.now }
{
    if !line_right(input) {
        return None;
    }
    Some(options_in(input))
}
