// Marks by name: skip is set on the rows below the root whose names `extract_plain_text` of html2text.rs takes out.
#![tactic(auto)]

ghost use Rattle.std.specs.Prelude.{Ok, cond, ◌≡◌, ◌<◌};
ghost use Rattle.sheet.specs.Notes.{Lined};
ghost use Rattle.sheet.specs.Verdict.{verdict};
ghost use Rattle.sheet_form.specs.Encoding.{decode, encode};
ghost use Rattle.marking.specs.Answers.{marked_of, numbers, sheet_after};
ghost use Rattle.marking.specs.Inner.{NameInside, is_new_at, marked_at};
ghost use Rattle.marking.specs.Marks.{marked, marks};

use names::is_skip_name;
use options::ExtractOptions;
use sheet::line::Layout;
use sheet::read::{depth_at, part};
use sheet::verdict::{SheetError, check};
use sheet_form::in_place::{KIND, NAME_AT, NAME_LEN, SKIP, number_at, set_skip};

pub mod names;
pub mod theorems;

// Whether row i, wherever it stands, gets a mark: an element of a listed name that has none.
fn is_new(s: &[u8], l: Layout, i: usize, options: ExtractOptions, noscript: bool) -> bool
    requires { Lined s.now l × (i < l.nodes) × NameInside s.now l i }
    ensures { result ≡ is_new_at options noscript s.now l i }
{
    number_at(s, l, i, KIND) == 1
        && number_at(s, l, i, SKIP) == 0
        && is_skip_name(
            part(
                s,
                l,
                number_at(s, l, i, NAME_AT),
                number_at(s, l, i, NAME_LEN),
            ),
            options,
            noscript,
        )
}

// Marks row i if it gets a mark; how many marks were set.
fn mark_row(s: &mut [u8], l: Layout, i: usize, options: ExtractOptions, noscript: bool) -> usize
    requires { Lined s.old l × (i < l.nodes) × NameInside s.old l i }
    ensures count { result ≡ cond (is_new_at options noscript s.old l i) 1 0 }
    ensures sheet { s.new ≡ marked_at options noscript s.old l i }
{
    if is_new(s, l, i, options, noscript) {
        set_skip(s, l, i, 1);
        return 1;
    }
    0
}

// Marks the rows below the root; how many marks were set.
fn mark_rows(s: &mut [u8], l: Layout, options: ExtractOptions, noscript: bool) -> usize
    requires { verdict s.old ≡ Ok l }
    ensures count { result ≡ marks options noscript (decode l s.old) }
    ensures sheet { s.new ≡ encode l.width (marked options noscript (decode l s.old)) }
{
    let d = depth_at(s, l, l.root);
    let mut n = 0;
    for i in l.root + 1..l.nodes {
        if depth_at(s, l, i) <= d {
            return n;
        }
        n += mark_row(s, l, i, options, noscript);
    }
    n
}

// Marks a sheet in place; how many marks were set.
pub fn mark(sheet: &mut [u8], options: ExtractOptions, noscript: bool) -> Result<usize, SheetError>
    ensures answer { result ≡ marked_of sheet.old options noscript }
    ensures sheet { sheet.new ≡ sheet_after sheet.old options noscript }
    ensures said { numbers result ≡ numbers (marked_of sheet.old options noscript) }
{
    let l = check(sheet)?;
    Ok(mark_rows(sheet, l, options, noscript))
}
