// The attributes that the filters ask for, found in one pass.
ghost use Rattle.std.specs.Prelude.{None, cond, ◌≡◌, ◌+◌, ◌≤◌, ◌<◌, get_or, length, replicate};
ghost use Rattle.common.specs.Bytes.{same};
ghost use Rattle.sheet.specs.Accepted.{Accepted};
ghost use Rattle.sheet.specs.Layout.{pool_limit};
ghost use Rattle.filters.specs.Gathered.{attribute_number, Readable, slot_count, slot_is_there, slot_value, SlotsOf};

use sheet::line::Layout;
use sheet::read::{attribute_at, part};
use tree::attributes::{Span, or_empty};

// The numbers of the names, their slots; slot 0 is for all others. They stay numbers: each is an index into the slots, and an enum would be
// cast to one at every use.
pub const HIDDEN: usize = 1;

pub const REL: usize = 2;

pub const ITEMPROP: usize = 3;

pub const ARIA_HIDDEN: usize = 4;

pub const ARIA_EXPANDED: usize = 5;

pub const CLASS: usize = 6;

pub const ID: usize = 7;

pub const STYLE: usize = 8;

pub const ROLE: usize = 9;

pub const DATA_AD: usize = 10;

pub const DATA_ADVERTISEMENT: usize = 11;

pub const DATA_TEXT_AD: usize = 12;

pub const SLOTS: usize = 13;

// The number of a word that a name may be.
fn number_if(name: &[u8], word: &[u8], number: usize) -> usize
    ensures { result ≡ cond (same name.now word.now) number 0 }
{
    if common::same(name, word) { number } else { 0 }
}

fn class_or_style(name: &[u8]) -> usize
    requires { length name.now ≡ 5 }
    ensures { result ≡ attribute_number name.now }
{
    if common::same(name, b"class") {
        return CLASS;
    }
    number_if(name, b"style", STYLE)
}

// The number of a name: at most one word, or two of 5 bytes, have its length.
fn attribute_number(name: &[u8]) -> usize
    ensures { result ≡ attribute_number name.now }
{
    match name.len() {
        2 => number_if(name, b"id", ID),
        3 => number_if(name, b"rel", REL),
        4 => number_if(name, b"role", ROLE),
        5 => class_or_style(name),
        6 => number_if(name, b"hidden", HIDDEN),
        7 => number_if(name, b"data-ad", DATA_AD),
        8 => number_if(name, b"itemprop", ITEMPROP),
        11 => number_if(name, b"aria-hidden", ARIA_HIDDEN),
        12 => number_if(name, b"data-text-ad", DATA_TEXT_AD),
        13 => number_if(name, b"aria-expanded", ARIA_EXPANDED),
        18 => number_if(name, b"data-advertisement", DATA_ADVERTISEMENT),
        _ => 0,
    }
}

// Where the values of a row's attributes lie, by the numbers of their names.
#[derive(Clone, Copy, Debug, PartialEq, Eq)]
pub struct Slots {
    pub spans: [Option<Span>; SLOTS],
}

impl Slots {
    // Fills empty slots from count attribute lines from line from on, from the last to the first, so that the first of a name counts. They
    // are filled in place, since to hand them out whole takes longer.
    pub fn gather(&mut self, s: &[u8], l: Layout, from: usize, count: usize)
        requires { Accepted s.now l × (from + count ≤ l.attributes) × (self.old.spans ≡ replicate slot_count None) }
        ensures { SlotsOf s.now l from count self.new.spans }
    {
        for n in (0..count).rev() {
            let a = attribute_at(s, l, from + n);
            let k = attribute_number(part(s, l, a.name_at, a.name_len));
            self.spans[k] = Some(Span {
                at: a.value_at,
                len: a.value_len,
            });
        }
    }

    // `has_attr(node, name)`: whether slot k has an attribute, perhaps an empty one.
    pub fn is_there(&self, k: usize) -> bool
        requires { k < slot_count }
        ensures { result ≡ slot_is_there (get_or self.now.spans k None) }
    {
        self.spans[k].is_some()
    }

    // `attr(node, name)`: the value in slot k; an absent one reads as empty.
    pub fn value<'a, 'b>(&'b self, s: &'a [u8], l: Layout, k: usize) -> &'a [u8]
        requires { Accepted s.now l × Readable l self.now.spans × (k < slot_count) }
        ensures { (result.now ≡ slot_value s.now l (get_or self.now.spans k None)) × (length result.now ≤ pool_limit l.width) }
    {
        or_empty(s, l, self.spans[k])
    }
}
