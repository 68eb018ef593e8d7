// The extraction of a sheet whose header is right: its rows are judged and read once into columns, the rows that are left out are decided, and
// the passes follow.
ghost use Rattle.std.specs.Prelude.{◌≡◌, ◌≤◌, ◌<◌, length};
ghost use Rattle.filters.specs.Filters.{filtered};
ghost use Rattle.html2text.specs.Escapes.{escaped_length, read_in};
ghost use Rattle.html2text.specs.Extract.{most_levels, most_open_rows};
ghost use Rattle.sheet.specs.Accepted.{Accepted};
ghost use Rattle.sheet.specs.Layout.{most_depth, most_rows};
ghost use Rattle.sheet.specs.Notes.{Sized, Whole};
ghost use Rattle.tree.specs.Page.{node_at, page_of};
ghost use Rattle.walk.specs.Rows.{Columns, RowsRead};
ghost use Rattle.extract.specs.Concluding.{Answers, Extracts, extraction_in, few_rows, names_need, read_counted};

use crate::Counted;
use crate::passes::extract_rows;
use html2text::{ExtractError, MOST_LEVELS, MOST_OPEN_ROWS};
use left_out::decide;
use options::ExtractOptions;
use sheet::limits::{MOST_DEPTH, MOST_ROWS};
use sheet::line::Layout;
use sheet::verdict::{is_whole, judge};
use walk::names::longest_names;
use walk::rows::take_rows;

// The most rows for which the short columns are taken.
const FEW_ROWS: usize = 256;

// What work must hold beside the entries' texts.
fn names_need(s: &[u8], l: Layout, o: ExtractOptions) -> usize
    requires { Accepted s.now l }
    ensures { result ≡ names_need (page_of s.now l) o }
{
    if o.main_content {
        longest_names(s, l)
    } else {
        0
    }
}

// The extraction of an accepted sheet whose rows stand in the columns.
fn extract_columns(
    s: &[u8],
    l: Layout,
    o: ExtractOptions,
    depths: &[u16],
    tags: &[u8],
    attributes: &[u32],
    values: &[u32],
    lengths: &[u32],
    left: &mut [bool],
    stack: &mut [usize],
    numbering: &mut [usize],
    cells: &mut [bool],
    out: &mut [u8],
    work: &mut [u8],
) -> Result<Counted, ExtractError>
    requires accepted { Accepted s.now l × Columns l.nodes depths.now tags.now attributes.now values.now lengths.now left.old }
    requires rows_read { RowsRead s.now l l.nodes depths.now tags.now attributes.now values.now lengths.now left.old }
    requires most_depth_in_bounds { (most_depth < length stack.old) × (length numbering.old ≡ most_levels) × (length cells.old ≡ most_open_rows) }
    ensures extracts { Extracts (filtered (page_of s.now l) o) (page_of s.now l) o out.old work.old (extraction_in result) out.new work.new }
    ensures counted { read_counted result ≡ read_in (extraction_in result) (escaped_length (filtered (page_of s.now l) o) (page_of s.now l) o) }
{
    let nodes = l.nodes;
    let column = &depths[..nodes];
    decide(s, l, o, column, tags, attributes, left, stack);
    let names = names_need(s, l, o);
    extract_rows(
        o, s, l, column, tags, attributes, values, lengths, left, stack, numbering, cells, names,
        out, work,
    )
}

// A page of up to N rows; of few, so that long columns need not be cleared. The stack has a place for each depth from 0 on.
fn extract_within<const N: usize>(
    s: &[u8],
    l: Layout,
    whole: bool,
    o: ExtractOptions,
    out: &mut [u8],
    work: &mut [u8],
) -> Result<Counted, ExtractError>
    requires { Sized s.now l × Whole s.now l whole × (l.nodes ≤ N) × (N ≤ most_rows) }
    ensures answers { Answers s.now l o out.old work.old (extraction_in result) out.new work.new }
    ensures counted { read_counted result ≡ read_in (extraction_in result) (escaped_length (filtered (page_of s.now l) o) (page_of s.now l) o) }
{
    let mut depths = [0u16; N];
    let mut tags = [0u8; N];
    let mut attributes = [0u32; N];
    let mut values = [0u32; N];
    let mut lengths = [0u32; N];
    let mut left = [false; N];
    let mut stack = [0usize; MOST_DEPTH + 1];
    let mut numbering = [0usize; MOST_LEVELS];
    let mut cells = [false; MOST_OPEN_ROWS];
    if !take_rows(
        s,
        l,
        whole,
        &mut depths,
        &mut tags,
        &mut attributes,
        &mut values,
        &mut lengths,
        &mut left,
    ) {
        judge(s, l, whole)?;
    }
    extract_columns(
        s,
        l,
        o,
        &depths,
        &tags,
        &attributes,
        &values,
        &lengths,
        &mut left,
        &mut stack,
        &mut numbering,
        &mut cells,
        out,
        work,
    )
}

// A sheet whose header is right. Two calls for the long columns, so that their frame is not that of a small page too.
pub fn extract_sized(
    s: &[u8],
    l: Layout,
    o: ExtractOptions,
    out: &mut [u8],
    work: &mut [u8],
) -> Result<Counted, ExtractError>
    requires { Sized s.now l }
    ensures answers { Answers s.now l o out.old work.old (extraction_in result) out.new work.new }
    ensures counted { read_counted result ≡ read_in (extraction_in result) (escaped_length (filtered (page_of s.now l) o) (page_of s.now l) o) }
{
    let whole = is_whole(s, l);
    if l.nodes <= FEW_ROWS {
        return extract_within::<FEW_ROWS>(s, l, whole, o, out, work);
    }
    if whole {
        return extract_within::<MOST_ROWS>(s, l, true, o, out, work);
    }
    extract_within::<MOST_ROWS>(s, l, false, o, out, work)
}
