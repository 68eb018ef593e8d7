// The link measure of an element of an accepted sheet, and `link_cluster`.
ghost use Rattle.std.specs.Prelude.{◌≡◌, ◌<◌};
ghost use Rattle.sheet.specs.Accepted.{Accepted};
ghost use Rattle.sheet.specs.Layout.{depths, row_at};
ghost use Rattle.tree.specs.Page.{node_at};
ghost use Rattle.links.specs.Counting.{most_of};
ghost use Rattle.links.specs.Links.{link_cluster};
ghost use Rattle.links.specs.Questions.{measure_at};

use crate::counts::count_up_to;
use crate::{Measure, Rule, exceeds, measured};
use sheet::line::Layout;
use sheet::read::row_at;

// The text bytes beyond which nothing more is counted.
fn most_of(rule: Rule) -> usize
    ensures { result ≡ most_of rule }
{
    if rule.limit > 0 {
        rule.limit
    } else {
        usize::MAX
    }
}

pub fn measure_row(s: &[u8], l: Layout, i: usize, rule: Rule) -> Measure
    requires { Accepted s.now l × (i < l.nodes) × ((row_at s.now l i).kind ≡ 1) }
    ensures { result ≡ measure_at s.now l rule i }
{
    let c = count_up_to(s, l, i, most_of(rule));
    measured(rule, c.text, c.links)
}

pub fn link_cluster(s: &[u8], l: Layout, i: usize, rule: Rule) -> bool
    requires { Accepted s.now l × (i < l.nodes) }
    ensures { result ≡ link_cluster (node_at s.now l) (depths s.now l) rule i }
{
    let r = row_at(s, l, i);
    r.kind == 1 && exceeds(rule, measure_row(s, l, i, rule))
}
