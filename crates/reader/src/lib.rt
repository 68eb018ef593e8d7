// The entry points. Each comes back for every input with what its statement says; nothing is demanded of the caller.
#![tactic(auto)]

ghost use Rattle.std.specs.Prelude.{◌≡◌, length};
ghost use Rattle.extract.specs.Concluding.{extraction_in, read_counted};
ghost use Rattle.html2text.specs.Escapes.{read_in};
ghost use Rattle.html2text.specs.Extract.{numbers};
ghost use Rattle.reader.specs.Demands.{Demand1, Demand2, Demand3};
ghost use Rattle.reader.specs.Extraction.{escaped_length_of, extraction_of, out_after_of, work_after_of};
ghost use Rattle.reader.specs.Pages.{PagesRight};

use extract::Counted;
use extract::sized::extract_sized;
use html2text::{ExtractError, Extracted};
pub use links::questions::measure_of;
pub use marking::mark;
use options::ExtractOptions;
pub use patterns::matches;
pub use sheet::verdict::check;
use sheet::verdict::header_in;
pub use text::{collapse, escape};
pub use tree::attributes::attribute_of;
pub use tree::content::text_length_of;
pub use tree::questions::{first_child_of, next_sibling_of, parent_of};
pub use unescape::unescape;
pub use visible_text::visible_text;

pub mod theorems;

// The extraction, and how many bytes its writing read of the texts that are escaped, each once.
fn extract_counted(
    sheet: &[u8],
    options: ExtractOptions,
    out: &mut [u8],
    work: &mut [u8],
) -> Result<Counted, ExtractError>
    ensures answer { extraction_in result ≡ extraction_of sheet.now options (length out.old) (length work.old) }
    ensures text { out.new ≡ out_after_of sheet.now options out.old work.old }
    ensures cleared { work.new ≡ work_after_of sheet.now options work.old }
    ensures said { numbers (extraction_in result) ≡ numbers (extraction_of sheet.now options (length out.old) (length work.old)) }
    ensures counted { read_counted result ≡ read_in (extraction_in result) (escaped_length_of sheet.now options) }
{
    let l = header_in(sheet, 8)?;
    extract_sized(sheet, l, options, out, work)
}

// The text of a page, or why there is none.
pub fn extract(
    sheet: &[u8],
    options: ExtractOptions,
    out: &mut [u8],
    work: &mut [u8],
) -> Result<Extracted, ExtractError>
    ensures answer { result ≡ extraction_of sheet.now options (length out.old) (length work.old) }
    ensures text { out.new ≡ out_after_of sheet.now options out.old work.old }
    ensures cleared { work.new ≡ work_after_of sheet.now options work.old }
    ensures said { numbers result ≡ numbers (extraction_of sheet.now options (length out.old) (length work.old)) }
{
    let r = extract_counted(sheet, options, out, work)?;
    Ok(r.extracted)
}

// The three demands, and the worked pages. It has no work to do: its promise is what is proved of every extraction.
pub fn demands()
    ensures every_call { Demand1 }
    ensures as_the_rust { Demand2 }
    ensures blanks_and_pieces { Demand3 }
    ensures pages { PagesRight }
{}
