// Tests on a row's share of links, what costs little first.
ghost use Rattle.std.specs.Prelude.{◌&&◌, ◌||◌, cond, false, not, ◌≡◌, ◌<◌, leb, ltb};
ghost use Rattle.links.specs.Links.{fifth_of500, fifth_of_any, three_fifths_of1500, three_fifths_of800};
ghost use Rattle.sheet.specs.Accepted.{Accepted};
ghost use Rattle.sheet.specs.Layout.{depths};
ghost use Rattle.tags.specs.Tags.{is_article, is_div, is_ul};
ghost use Rattle.tree.specs.Page.{node_at};
ghost use Rattle.filters.specs.Footer.{Above, followed};
ghost use Rattle.filters.specs.Sheet.{cluster_at};

use crate::footer::followed;
use links::Rule;
use links::cluster::link_cluster;
use sheet::line::Layout;

fn near_or_cluster(s: &[u8], l: Layout, i: usize, depth: usize, bound: usize) -> bool
    requires { Accepted s.now l × (i < l.nodes) }
    ensures { result ≡ (ltb depth bound || cluster_at s.now l i fifth_of_any) }
{
    depth < bound || link_cluster(s, l, i, Rule::fifth_of_any())
}

// A footer's answer.
pub fn footer(s: &[u8], l: Layout, i: usize, depth: usize, stack: &[usize]) -> bool
    requires { Accepted s.now l × (i < l.nodes) × Above (depths s.now l) i stack.now }
    ensures { result ≡ cond (ltb depth 3 || cluster_at s.now l i fifth_of_any) false (followed (node_at s.now l) (depths s.now l) i) }
{
    !near_or_cluster(s, l, i, depth, 3) && followed(s, l, i, stack)
}

pub fn ul_cluster(s: &[u8], l: Layout, i: usize, tag: u8, depth: usize) -> bool
    requires { Accepted s.now l × (i < l.nodes) }
    ensures { result ≡ (is_ul tag && (ltb depth 4 || cluster_at s.now l i fifth_of_any)) }
{
    tag == tags::UL && near_or_cluster(s, l, i, depth, 4)
}

fn deep_cluster(s: &[u8], l: Layout, i: usize, depth: usize, rule: Rule) -> bool
    requires { Accepted s.now l × (i < l.nodes) }
    ensures { result ≡ (ltb 2 depth && cluster_at s.now l i rule) }
{
    depth > 2 && link_cluster(s, l, i, rule)
}

pub fn article_cluster(s: &[u8], l: Layout, i: usize, tag: u8, depth: usize) -> bool
    requires { Accepted s.now l × (i < l.nodes) }
    ensures { result ≡ (is_article tag && (ltb 2 depth && cluster_at s.now l i fifth_of500)) }
{
    tag == tags::ARTICLE && deep_cluster(s, l, i, depth, Rule::fifth_of_500())
}

// The answer for an element without class and id.
pub fn unnamed(s: &[u8], l: Layout, i: usize, tag: u8, depth: usize) -> bool
    requires { Accepted s.now l × (i < l.nodes) }
    ensures { result ≡ (not (is_div tag) || (leb depth 5 || not (cluster_at s.now l i three_fifths_of800))) }
{
    tag != tags::DIV || depth <= 5 || !link_cluster(s, l, i, Rule::three_fifths_of_800())
}

pub fn div_cluster(s: &[u8], l: Layout, i: usize, tag: u8, depth: usize) -> bool
    requires { Accepted s.now l × (i < l.nodes) }
    ensures { result ≡ (ltb 2 depth && (is_div tag && cluster_at s.now l i three_fifths_of1500)) }
{
    tag == tags::DIV && deep_cluster(s, l, i, depth, Rule::three_fifths_of_1500())
}
