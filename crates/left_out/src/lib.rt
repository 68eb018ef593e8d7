// Which rows the walk leaves out, decided once a row. What stands below a row that is left out is passed over. The last row at each depth
// is kept in `stack`, so that a row's parents are at hand when it is decided.
#![tactic(auto)]

ghost use Rattle.std.specs.Prelude.{true, not, ◌||◌, ◌≡◌, ◌<◌, get_or, length, set};
ghost use Rattle.filters.specs.Filters.{is_main_content};
ghost use Rattle.filters.specs.Footer.{Above};
ghost use Rattle.filters.specs.Sheet.{tag_number};
ghost use Rattle.sheet.specs.Accepted.{Accepted};
ghost use Rattle.sheet.specs.Layout.{depths, most_depth};
ghost use Rattle.sheet.specs.Verdict.{counts_from};
ghost use Rattle.tree.specs.Page.{node_at};
ghost use Rattle.tree.specs.Rows.{WellFormed};
ghost use Rattle.left_out.specs.LeftOut.{Fits, LeftOutRows, MarksNoted, Noted, Undecided, body_depth, left_out_at, next_row};

use filters::footer::body_above;
use filters::main_content::is_main_content;
use options::ExtractOptions;
use sheet::line::Layout;
use walk::cursor::skip;

// Whether row k is left out, with the number of its tag, its first attribute line and its depth below body. `left`: it is a comment or marked.
fn leaves_out(
    s: &[u8],
    l: Layout,
    o: ExtractOptions,
    k: usize,
    tag: u8,
    first: usize,
    depth: usize,
    stack: &[usize],
    left: bool,
) -> bool
    requires { Accepted s.now l × (k < l.nodes) × (tag ≡ tag_number s.now l k) × (first ≡ counts_from s.now l 0 k) × Above (depths s.now l) k stack.now }
    ensures { result ≡ (left || not (is_main_content (node_at s.now l) (depths s.now l) o k depth)) }
{
    left || !is_main_content(s, l, o, k, tag, first, depth, stack)
}

// Row k is decided and entered; the row that is decided next.
fn decide_row(
    s: &[u8],
    l: Layout,
    o: ExtractOptions,
    base: usize,
    depths: &[u16],
    tags: &[u8],
    attributes: &[u32],
    left: &mut [bool],
    stack: &mut [usize],
    k: usize,
) -> usize
    requires { Undecided s.now l o base depths.now tags.now attributes.now left.old stack.old k }
    ensures { (left.new ≡ set left.old k (left_out_at s.now l o k)) × (result ≡ next_row depths.now (left_out_at s.now l o k) k) × (stack.new ≡ set stack.old (get_or depths.now k 0) k) }
{
    let depth = depths[k] as usize;
    let out = leaves_out(
        s,
        l,
        o,
        k,
        tags[k],
        attributes[k] as usize,
        depth - base,
        stack,
        left[k],
    );
    left[k] = out;
    stack[depth] = k;
    if out {
        skip(depths, depth, k + 1)
    } else {
        k + 1
    }
}

// The rows before the root are entered.
fn enter(depths: &[u16], root: usize, stack: &mut [usize])
    requires { WellFormed depths.now × (root < length depths.now) × Fits depths.now stack.old }
    ensures { Above depths.now root stack.new }
{
    for k in 0..root {
        stack[usize::from(depths[k])] = k;
    }
}

// The root and the rows below it; base is the depth of the nearest body above it.
fn decide_tree(
    s: &[u8],
    l: Layout,
    o: ExtractOptions,
    base: usize,
    depths: &[u16],
    tags: &[u8],
    attributes: &[u32],
    left: &mut [bool],
    stack: &mut [usize],
)
    requires noted { Noted s.now l depths.now tags.now attributes.now × MarksNoted s.now l left.old × (most_depth < length stack.old) }
    requires main_content_value { (o.main_content ≡ true) × (base ≡ body_depth s.now l) }
    ensures { LeftOutRows s.now l o left.new }
{
    let root = l.root;
    let top = depths[root] as usize;
    enter(depths, root, stack);
    let mut k = decide_row(s, l, o, base, depths, tags, attributes, left, stack, root);
    while k < depths.len() {
        if depths[k] as usize <= top {
            return;
        }
        k = decide_row(s, l, o, base, depths, tags, attributes, left, stack, k);
    }
}

// By what is noted of the rows; `left` says at first which are comments or marked. What stands in `stack` does not matter.
pub fn decide(
    s: &[u8],
    l: Layout,
    o: ExtractOptions,
    depths: &[u16],
    tags: &[u8],
    attributes: &[u32],
    left: &mut [bool],
    stack: &mut [usize],
)
    requires { Noted s.now l depths.now tags.now attributes.now × MarksNoted s.now l left.old × (most_depth < length stack.old) }
    ensures { LeftOutRows s.now l o left.new × (length left.new ≡ length left.old) }
{
    if o.main_content {
        let body = body_above(s, l, l.root);
        decide_tree(
            s,
            l,
            o,
            depths[body] as usize,
            depths,
            tags,
            attributes,
            left,
            stack,
        );
        return;
    }
}
