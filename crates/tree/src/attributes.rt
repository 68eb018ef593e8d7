// One attribute of a row, by name. An absent one is told from an empty one; `or_empty` is for callers that do not ask.
ghost use Rattle.std.specs.Prelude.{◌≡◌, ◌+◌, ◌≤◌};
ghost use Rattle.sheet.specs.Accepted.{Accepted};
ghost use Rattle.sheet.specs.Verdict.{counts_from};
ghost use Rattle.tree.specs.Attributes.{attribute_numbers, attribute_of, attribute_values, find_of, numbers, RangeInside, value_in, values};
ghost use Rattle.tree.specs.Node.{or_empty};

use crate::questions::{QuestionError, ask};
use sheet::line::Layout;
use sheet::read::{attribute_at, part, row_at};

// Where the value of an attribute lies in the pool.
#[derive(Clone, Copy, Debug, PartialEq, Eq)]
pub struct Span {
    pub at: usize,
    pub len: usize,
}

// Of count attribute lines from line from on the first with that name.
pub fn find(s: &[u8], l: Layout, from: usize, count: usize, name: &[u8]) -> Option<Span>
    requires { Accepted s.now l × (from + count ≤ l.attributes) }
    ensures { result ≡ find_of s.now l name.now from count }
{
    for j in 0..count {
        let a = attribute_at(s, l, from + j);
        if common::same(part(s, l, a.name_at, a.name_len), name) {
            return Some(Span {
                at: a.value_at,
                len: a.value_len,
            });
        }
    }
    None
}

// "An absent attribute reads as empty."
pub fn or_empty(s: &[u8], l: Layout, a: Option<Span>) -> &[u8]
    requires { Accepted s.now l × RangeInside l a }
    ensures { result.now ≡ or_empty (value_in s.now l a) }
{
    match a {
        Some(v) => part(s, l, v.at, v.len),
        None => part(s, l, 0, 0),
    }
}

// The first attribute line of row i.
pub fn attributes_from(s: &[u8], l: Layout, i: usize) -> usize
    requires { Accepted s.now l × (i ≤ l.nodes) }
    ensures { result ≡ counts_from s.now l 0 i }
{
    let mut n = 0;
    for j in 0..i {
        let r = row_at(s, l, j);
        n += r.attributes;
    }
    n
}

pub fn attribute_of(s: &[u8], row: usize, name: &[u8]) -> Result<Option<Span>, QuestionError>
    ensures { (result ≡ attribute_of s.now row name.now) × (numbers result ≡ attribute_numbers s.now row name.now) × (values result ≡ attribute_values s.now row name.now) }
{
    let (l, r) = ask(s, row)?;
    let from = attributes_from(s, l, row);
    Ok(find(s, l, from, r.attributes, name))
}
