// A pass over the rows: `collect` and `serialize` as one, each piece of text shown as it is met, written or only measured.
#![tactic(auto)]

ghost use Rattle.std.specs.Prelude.{true, ◌≡◌, ◌<◌, length};
ghost use Rattle.collect.specs.Entries.{opens_on};
ghost use Rattle.html2text.specs.Extract.{most_levels, most_open_rows};
ghost use Rattle.serializer.specs.Serializing.{lent};
ghost use Rattle.sheet.specs.Layout.{most_depth};
ghost use Rattle.visits.specs.Visiting.{Noted, Walked};
ghost use Rattle.writing.specs.Passing.{OpenReady, Opens, PassesAll, WriteReady, depth_passes_at, limit, no_pass, rows_pass_at};

use collect::Visit;
use collect::added::add;
use collect::entry::{node_of, opens};
use html2text::{ExtractError, MOST_LEVELS, MOST_OPEN_ROWS, Showing};
use options::{ExtractOptions, Formatting};
use serializer::step::begin;
use serializer::{Progress, Serializer, changes_level};
use sheet::line::Layout;
use visits::see;
use walk::cursor::Walk;
use writer::Writer;

// Along a pass: the open entry's progress, and of its node what later visits look at. any: whether one is open.
#[derive(Clone, Copy)]
pub struct OpenEntry {
    pub progress: Progress,
    pub depth: usize,
    pub pre_depth: usize,
    pub tag: u8,
    pub any: bool,
}

// Of a whole pass: the longest text of an entry, where nothing is written, the visits, the bytes of escaped texts that were read and the
// text's lengths.
#[derive(Clone, Copy)]
pub struct Passed {
    pub need: usize,
    pub visits: usize,
    pub read: usize,
    pub writer: Writer,
}

// The line of the first entry that would pass a limit.
#[derive(Clone, Copy, Debug, PartialEq, Eq)]
pub enum LimitError {
    ListLevels(usize),
    OpenRows(usize),
}

impl From<LimitError> for ExtractError {
    ghost from_gives = { λ e r. r ≡ limit e };

    fn from(e: LimitError) -> ExtractError {
        match e {
            LimitError::ListLevels(line) => ExtractError::ListLevels(line),
            LimitError::OpenRows(line) => ExtractError::OpenRows(line),
        }
    }
}

// Before the first visit.
fn start() -> OpenEntry
    ensures { result ≡ no_pass }
{
    let serializer = Serializer::new();
    let showing = Showing {
        dropped: true,
        squeeze: false,
        escapes: false,
        empty: true,
        space: false,
    };
    let progress = Progress {
        serializer,
        len: 0,
        need: 0,
        read: 0,
        showing,
    };
    OpenEntry {
        progress,
        depth: 0,
        pre_depth: 0,
        tag: tags::OTHER,
        any: false,
    }
}

// "21: list depth would pass 1,024. Formatting Off never counts it."
fn passes_levels(f: Formatting, v: Visit, depth: usize) -> bool
    ensures { result ≡ depth_passes_at f v depth }
{
    !f.is_off() && !v.end && changes_level(v.tag, depth) && MOST_LEVELS <= depth
}

// "22: open table rows would pass 1,024."
fn passes_rows(v: Visit, rows: usize) -> bool
    ensures { result ≡ rows_pass_at v rows }
{
    v.tag == tags::TR && !v.end && MOST_OPEN_ROWS <= rows
}

// The entry that a visit opens.
fn open(
    o: ExtractOptions,
    v: Visit,
    p: OpenEntry,
    numbering: &mut [usize],
    cells: &mut [bool],
    out: &mut [u8],
    write: bool,
) -> OpenEntry
    requires { OpenReady o write v p (lent numbering.old cells.old out.old) × (opens_on o p.any p.depth v ≡ true) }
    ensures { Opens o write v p (lent numbering.old cells.old out.old) result (lent numbering.new cells.new out.new) }
{
    let f = o.formatting;
    let n = node_of(o, p.pre_depth, v);
    let b = begin(
        f,
        p.progress.serializer,
        n,
        o.list_bullets,
        numbering,
        cells,
        out,
        write,
    );
    let serializer = b.serializer;
    let showing = b.showing;
    let progress = Progress {
        serializer,
        len: 0,
        need: p.progress.need,
        read: p.progress.read,
        showing,
    };
    OpenEntry {
        progress,
        depth: n.depth,
        pre_depth: n.pre_depth,
        tag: n.tag,
        any: true,
    }
}

// The whole pass: a visit opens an entry or not, and adds to the open one. `left` says which rows are left out.
pub fn pass(
    o: ExtractOptions,
    s: &[u8],
    l: Layout,
    depths: &[u16],
    tags: &[u8],
    attributes: &[u32],
    values: &[u32],
    lengths: &[u32],
    left: &[bool],
    stack: &mut [usize],
    numbering: &mut [usize],
    cells: &mut [bool],
    out: &mut [u8],
    write: bool,
) -> Result<Passed, LimitError>
    requires noted { Noted s.now l depths.now tags.now attributes.now values.now lengths.now }
    requires walked { Walked s.now l o left.now × (most_depth < length stack.old) × (length numbering.old ≡ most_levels) × (length cells.old ≡ most_open_rows) }
    requires write_ready { WriteReady o s.now l left.now write out.old }
    ensures { PassesAll o s.now l left.now write out.old result out.new }
{
    let f = o.formatting;
    let mut w = Walk::Root(l.root);
    let mut visits = 0;
    let mut p = start();
    while let Some((seen, after)) = see(
        s, l, depths, tags, attributes, values, lengths, left, stack, w,
    ) {
        w = after;
        visits += 1;
        let Some(v) = seen else {
            continue;
        };
        if opens(o, p.any, p.depth, v) {
            if passes_levels(f, v, p.progress.serializer.depth) {
                return Err(LimitError::ListLevels(v.row + 1));
            }
            if passes_rows(v, p.progress.serializer.rows) {
                return Err(LimitError::OpenRows(v.row + 1));
            }
            p = open(o, v, p, numbering, cells, out, write);
        }
        let progress = add(o, s, l, v, p.tag, p.progress, out, write);
        p.progress = progress;
    }
    let writer = p.progress.serializer.writer;
    Ok(Passed {
        need: p.progress.need,
        visits,
        read: p.progress.read,
        writer,
    })
}
