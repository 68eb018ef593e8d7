// The longest class and id of a row as one text: what `work` must hold with main_content.
ghost use Rattle.std.specs.Prelude.{cond, ◌≡◌, ℕ, ◌+◌, ◌≤◌};
ghost use Rattle.common.specs.Bytes.{same};
ghost use Rattle.sheet.specs.Accepted.{Accepted};
ghost use Rattle.sheet.specs.Layout.{row_at};
ghost use Rattle.sheet.specs.Verdict.{counts_from};
ghost use Rattle.tree.specs.Attributes.{attributes_from};
ghost use Rattle.tree.specs.Page.{node_at};
ghost use Rattle.html2text.specs.Extract.{longest_names, names_length};
ghost use Rattle.walk.specs.Names.{class_and_id};

use sheet::line::{Layout, Row};
use sheet::read::{attribute_at, part, row_at};

// The length of an attribute's value where it has that name.
fn length_if(name: &[u8], word: &[u8], len: usize, other: usize) -> usize
    ensures { result ≡ cond (same name.now word.now) len other }
{
    if common::same(name, word) { len } else { other }
}

// Of count attribute lines from line from on, class length + 1 + id length; an absent one reads as empty. From the last line to the first,
// so that the first of a name counts.
fn class_and_id(s: &[u8], l: Layout, from: usize, count: usize) -> usize
    requires { Accepted s.now l × (from + count ≤ l.attributes) }
    ensures { result ≡ class_and_id (attributes_from s.now l from count) }
{
    let mut class = 0;
    let mut id = 0;
    for n in (0..count).rev() {
        let a = attribute_at(s, l, from + n);
        let name = part(s, l, a.name_at, a.name_len);
        class = length_if(name, b"class", a.value_len, class);
        id = length_if(name, b"id", a.value_len, id);
    }
    class + 1 + id
}

// The same of the row whose numbers are r, where it is an element.
fn names_len(s: &[u8], l: Layout, first: usize, r: Row) -> usize
    requires { Accepted s.now l × (first + r.attributes ≤ l.attributes) }
    ensures { (i : ℕ) → r ≡ row_at s.now l i → first ≡ counts_from s.now l 0 i → result ≡ names_length (node_at s.now l i) }
{
    if r.kind == 1 {
        class_and_id(s, l, first, r.attributes)
    } else {
        0
    }
}

// "the longest class length + 1 + id length of any element row"
pub fn longest_names(s: &[u8], l: Layout) -> usize
    requires { Accepted s.now l }
    ensures { result ≡ longest_names (node_at s.now l) l.nodes }
{
    let mut longest: usize = 0;
    let mut first = 0;
    for i in 0..l.nodes {
        let r = row_at(s, l, i);
        longest = longest.max(names_len(s, l, first, r));
        first += r.attributes;
    }
    longest
}
