// The walk as a cursor over the column of depths: rows are in document order, so that the next row's depth tells whether it stands below
// the innermost open row, below a row that is left out, or behind the end of the open row.
ghost use Rattle.std.specs.Prelude.{◌≡◌, ◌++◌, suc, ◌+◌, ◌≤◌, ◌<◌, drop, get_or, length, Some};
ghost use Rattle.tree.specs.Rows.{open_rows, past_from, stands_at};
ghost use Rattle.walk.specs.Turns.{Advances, ColumnRight, Fits, flagged, remaining, tree_at, turns, turns_left};

// A pass of the walk's loop: a row begins, a row that has children ends, or a row is left out. Depths count from the root.
#[derive(Clone, Copy, Debug, PartialEq, Eq)]
pub enum Turn {
    Begin {
        row: usize,
        depth: usize,
        children: bool,
    },
    End {
        row: usize,
        depth: usize,
    },
    LeftOut,
}

// Before the root, or below it: the root's depth, the next row, and how many rows are open.
#[derive(Clone, Copy, Debug, PartialEq, Eq)]
pub enum Walk {
    Root(usize),
    Below {
        base: usize,
        next: usize,
        above: usize,
    },
}

// The first row from row from on that is not deeper than d, or the number of rows.
pub fn skip(depths: &[u16], d: usize, from: usize) -> usize
    ensures { result ≡ past_from d from (drop from depths.now) }
{
    for k in from..depths.len() {
        if usize::from(depths[k]) <= d {
            return k;
        }
    }
    from.max(depths.len())
}

// Whether there is a row k and it stands at depth d.
fn stands_at(depths: &[u16], k: usize, d: usize) -> bool
    ensures { result ≡ stands_at depths.now k d }
{
    k < depths.len() && usize::from(depths[k]) == d
}

// Row k is reached, below so many open rows: its pass, and where the walk then stands. It is opened where it has children.
fn reach(
    depths: &[u16],
    left: &[bool],
    stack: &mut [usize],
    base: usize,
    above: usize,
    k: usize,
) -> (Turn, Walk)
    requires column_right { ColumnRight depths.now (length stack.old) × (length depths.now ≤ length left.now) }
    requires k_in_bounds { (k < length depths.now) × (get_or depths.now k 0 ≡ base + above) }
    ensures { Advances depths.now left.now
        (turns (flagged left.now) above (tree_at depths.now k)
        ++ remaining depths.now (flagged left.now) base (suc k) (open_rows stack.old above))
        (Some result) stack.new }
{
    let next = k + 1;
    if left[k] {
        return (Turn::LeftOut, Walk::Below { base, next, above });
    }
    let children = stands_at(depths, next, base + above + 1);
    let t = Turn::Begin {
        row: k,
        depth: above,
        children,
    };
    if children {
        stack[above] = k;
        let above = above + 1;
        return (t, Walk::Below { base, next, above });
    }
    (t, Walk::Below { base, next, above })
}

// The next pass below the root.
fn go_on(
    depths: &[u16],
    left: &[bool],
    stack: &mut [usize],
    base: usize,
    next: usize,
    above: usize,
) -> Option<(Turn, Walk)>
    requires { ColumnRight depths.now (length stack.old) × (length depths.now ≤ length left.now) × (base + above ≤ length stack.old) }
    ensures { Advances depths.now left.now
        (remaining depths.now (flagged left.now) base next (open_rows stack.old above))
        result stack.new }
{
    if above == 0 {
        return None;
    }
    let next = skip(depths, base + above, next);
    if stands_at(depths, next, base + above) {
        return Some(reach(depths, left, stack, base, above, next));
    }
    let above = above - 1;
    let t = Turn::End {
        row: stack[above],
        depth: above,
    };
    Some((t, Walk::Below { base, next, above }))
}

// The next pass of the walk, and where it then stands.
pub fn advance(depths: &[u16], left: &[bool], stack: &mut [usize], w: Walk) -> Option<(Turn, Walk)>
    requires { ColumnRight depths.now (length stack.old) × (length depths.now ≤ length left.now) × Fits depths.now (length stack.old) w }
    ensures { Advances depths.now left.now
        (turns_left depths.now (flagged left.now) w stack.old)
        result stack.new }
{
    match w {
        Walk::Root(row) => {
            let base = usize::from(depths[row]);
            Some(reach(depths, left, stack, base, 0, row))
        }
        Walk::Below { base, next, above } => go_on(depths, left, stack, base, next, above),
    }
}
