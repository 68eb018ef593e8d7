// The walk as `collect` sees it: the visit that a pass of the walk's loop makes, with its row's numbers from the columns.
#![tactic(auto)]

ghost use Rattle.std.specs.Prelude.{◌≡◌, ◌≤◌, ◌<◌, length};
ghost use Rattle.visits.specs.Visiting.{Noted, Sees, WalkStands, passes_left, visit_of};

use collect::Visit;
use sheet::line::Layout;
use walk::cursor::{Turn, Walk, advance};

// A visit to a row, with its numbers from the columns.
fn visit_at(
    tags: &[u8],
    attributes: &[u32],
    values: &[u32],
    lengths: &[u32],
    row: usize,
    depth: usize,
    children: bool,
    end: bool,
) -> Visit
    requires { (row < length tags.now) × (row < length attributes.now) × (row < length values.now) × (row < length lengths.now) }
    ensures { result ≡ visit_of tags.now attributes.now values.now lengths.now row depth children end }
{
    Visit {
        row,
        tag: tags[row],
        first: attributes[row] as usize,
        value_at: values[row] as usize,
        value_len: lengths[row] as usize,
        children,
        depth,
        end,
    }
}

// The next pass of the walk: the visit that it makes, or none at a row that is left out, and where the walk then stands. The sheet is
// named for the contract.
pub fn see(
    s: &[u8],
    l: Layout,
    depths: &[u16],
    tags: &[u8],
    attributes: &[u32],
    values: &[u32],
    lengths: &[u32],
    left: &[bool],
    stack: &mut [usize],
    w: Walk,
) -> Option<(Option<Visit>, Walk)>
    requires noted { Noted s.now l depths.now tags.now attributes.now values.now lengths.now }
    requires nodes_in_bounds { (l.nodes ≤ length left.now) × WalkStands s.now l left.now w stack.old }
    ensures { Sees s.now l left.now (passes_left s.now l left.now w stack.old) result stack.new }
{
    let (t, after) = advance(depths, left, stack, w)?;
    match t {
        Turn::Begin {
            row,
            depth,
            children,
        } => {
            let v = visit_at(
                tags, attributes, values, lengths, row, depth, children, false,
            );
            Some((Some(v), after))
        }
        Turn::End { row, depth } => {
            let v = visit_at(tags, attributes, values, lengths, row, depth, true, true);
            Some((Some(v), after))
        }
        Turn::LeftOut => Some((None, after)),
    }
}
