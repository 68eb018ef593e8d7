// Tests on the values of attributes.
ghost use Rattle.std.specs.Prelude.{None, false, List, [], ◌≡◌, ℕ, ◌<◌, get_or};
ghost use Rattle.sheet.specs.Accepted.{Accepted};
ghost use Rattle.sheet.specs.declared.line.Layout.{Layout};
ghost use Rattle.tags.specs.Words.{one_of, words_of};
ghost use Rattle.text.specs.Text.{trim};
ghost use Rattle.tree.specs.Node.{Attribute};
ghost use Rattle.filters.specs.Filters.{ad_attribute, hidden_by_attribute, rel_main, role_outside};
ghost use Rattle.filters.specs.Gathered.{Gathered, Readable, slot_count, slot_value};

use crate::attributes;
use crate::attributes::Slots;
use sheet::line::Layout;

// Whether the trimmed value in slot k is one of the words; an absent one is not.
fn among(s: &[u8], l: Layout, slots: &Slots, k: usize, words: &[u8]) -> bool
    requires { Accepted s.now l × Readable l slots.now.spans × (k < slot_count) × (one_of [] (words_of words.now) ≡ false) }
    ensures { result ≡ one_of (trim (slot_value s.now l (get_or slots.now.spans k None))) (words_of words.now) }
{
    slots.is_there(k) && tags::one_of(text::trim(slots.value(s, l, k)), words)
}

pub fn hidden_by_attribute(s: &[u8], l: Layout, slots: &Slots) -> bool
    requires { Accepted s.now l × Readable l slots.now.spans }
    ensures { (attributes : List Attribute) → Gathered s.now l attributes slots.now.spans → result ≡ hidden_by_attribute attributes }
{
    slots.is_there(attributes::HIDDEN)
        || among(
            s,
            l,
            slots,
            attributes::REL,
            b"author icon search prev next tag",
        )
        || among(
            s,
            l,
            slots,
            attributes::ITEMPROP,
            b"datePublished author url",
        )
        || among(s, l, slots, attributes::ARIA_HIDDEN, b"true")
        || among(s, l, slots, attributes::ARIA_EXPANDED, b"false")
}

pub fn ad_attribute(slots: &Slots) -> bool
    ensures { (s : List ℕ) (l : Layout) (attributes : List Attribute) → Gathered s l attributes slots.now.spans → result ≡ ad_attribute attributes }
{
    slots.is_there(attributes::DATA_AD)
        || slots.is_there(attributes::DATA_ADVERTISEMENT)
        || slots.is_there(attributes::DATA_TEXT_AD)
}

pub fn rel_main(s: &[u8], l: Layout, slots: &Slots) -> bool
    requires { Accepted s.now l × Readable l slots.now.spans }
    ensures { (attributes : List Attribute) → Gathered s.now l attributes slots.now.spans → result ≡ rel_main attributes }
{
    among(s, l, slots, attributes::REL, b"main")
}

pub fn role_outside(s: &[u8], l: Layout, slots: &Slots) -> bool
    requires { Accepted s.now l × Readable l slots.now.spans }
    ensures { (attributes : List Attribute) → Gathered s.now l attributes slots.now.spans → result ≡ role_outside attributes }
{
    among(
        s,
        l,
        slots,
        attributes::ROLE,
        b"alert banner checkbox comment complementary contentinfo dialog img menu menubar menuitem navigation presentation radio search searchbox separator tab toolbar tooltip",
    )
}
