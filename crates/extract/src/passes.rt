// Two passes over the rows: the first writes to no buffer and gives all lengths and the limits; the second writes the text.
ghost use Rattle.std.specs.Prelude.{[], ◌≡◌, ◌<◌, length};
ghost use Rattle.html2text.specs.Escapes.{bytes_escaped, read_in};
ghost use Rattle.html2text.specs.Extract.{most_levels, most_open_rows};
ghost use Rattle.html2text.specs.Fused.{closed};
ghost use Rattle.sheet.specs.Layout.{most_depth};
ghost use Rattle.visits.specs.Visiting.{Noted, Walked, events_in, passes_of, run_of};
ghost use Rattle.writer.specs.Out.{greater};
ghost use Rattle.extract.specs.Concluding.{Concludes, GoesOn, extraction_in, read_counted};

use crate::Counted;
use html2text::{ExtractError, Extracted};
use options::ExtractOptions;
use sheet::line::Layout;
use writing::pass;

// The second pass, where no limit is passed; peak: the greatest length of the text.
fn fill(
    o: ExtractOptions,
    s: &[u8],
    l: Layout,
    depths: &[u16],
    tags: &[u8],
    attributes: &[u32],
    values: &[u32],
    lengths: &[u32],
    left: &[bool],
    stack: &mut [usize],
    numbering: &mut [usize],
    cells: &mut [bool],
    need: usize,
    visits: usize,
    peak: usize,
    out: &mut [u8],
    work: &mut [u8],
) -> Result<Counted, ExtractError>
    requires noted { Noted s.now l depths.now tags.now attributes.now values.now lengths.now }
    requires walked { Walked s.now l o left.now × (most_depth < length stack.old) × (length numbering.old ≡ most_levels) × (length cells.old ≡ most_open_rows) }
    requires goes_on { GoesOn (closed o (run_of s.now l o left.now)) peak }
    ensures concludes { Concludes need visits (closed o (run_of s.now l o left.now)) out.old work.old (extraction_in result) out.new work.new }
    ensures counted { read_counted result ≡ read_in (extraction_in result) (bytes_escaped o [] (events_in s.now l (passes_of s.now l left.now))) }
{
    if work.len() < need {
        return Err(ExtractError::WorkTooShort(need));
    }
    if out.len() < peak {
        common::clear(work, 0);
        return Err(ExtractError::OutTooShort(peak));
    }
    let p = pass(
        o, s, l, depths, tags, attributes, values, lengths, left, stack, numbering, cells, out,
        true,
    )?;
    let len = p.writer.kept;
    common::clear(work, 0);
    common::clear(out, len);
    Ok(Counted {
        extracted: Extracted { visits, len },
        read: p.read,
    })
}

// names: what work must hold beside the entries' texts.
pub fn extract_rows(
    o: ExtractOptions,
    s: &[u8],
    l: Layout,
    depths: &[u16],
    tags: &[u8],
    attributes: &[u32],
    values: &[u32],
    lengths: &[u32],
    left: &[bool],
    stack: &mut [usize],
    numbering: &mut [usize],
    cells: &mut [bool],
    names: usize,
    out: &mut [u8],
    work: &mut [u8],
) -> Result<Counted, ExtractError>
    requires noted { Noted s.now l depths.now tags.now attributes.now values.now lengths.now }
    requires walked { Walked s.now l o left.now × (most_depth < length stack.old) × (length numbering.old ≡ most_levels) × (length cells.old ≡ most_open_rows) }
    ensures concludes { Concludes (greater (run_of s.now l o left.now).note.peak names) (length (passes_of s.now l left.now)) (closed o (run_of s.now l o left.now)) out.old work.old (extraction_in result) out.new work.new }
    ensures counted { read_counted result ≡ read_in (extraction_in result) (bytes_escaped o [] (events_in s.now l (passes_of s.now l left.now))) }
{
    let p = pass(
        o, s, l, depths, tags, attributes, values, lengths, left, stack, numbering, cells, out,
        false,
    )?;
    let need = p.need.max(names);
    fill(
        o,
        s,
        l,
        depths,
        tags,
        attributes,
        values,
        lengths,
        left,
        stack,
        numbering,
        cells,
        need,
        p.visits,
        p.writer.peak,
        out,
        work,
    )
}
