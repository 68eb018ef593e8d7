// The link measure of a row, and the rules on it.
#![tactic(auto)]

pub mod cluster;
pub mod counts;
pub mod questions;
pub mod theorems;

ghost use Rattle.std.specs.Prelude.{◌≡◌};
ghost use Rattle.links.specs.Links.{exceeds, fifth_of500, fifth_of_any, is_too_long, measure_of, three_fifths_of1500, three_fifths_of800};
ghost use Rattle.quotient.specs.Quotient.{quotient};

// A ratio and a length limit; limit 0 is none. It stays a number: C hands it over as it is, and `is_too_long` and `most_of` are said of it.
#[derive(Clone, Copy, Debug, PartialEq)]
pub struct Rule {
    pub ratio: f64,
    pub limit: usize,
}

#[derive(Clone, Copy, Debug, PartialEq)]
pub enum Measure {
    NoText,
    TooLong,
    NoLinks,
    Share(f64),
}

// Each of the four is a function: its clause says which of the named rules it is, and a const would have no clause.
impl Rule {
    pub fn fifth_of_any() -> Rule
        ensures { result ≡ fifth_of_any }
    {
        Rule {
            ratio: 0.2,
            limit: 0,
        }
    }

    pub fn fifth_of_500() -> Rule
        ensures { result ≡ fifth_of500 }
    {
        Rule {
            ratio: 0.2,
            limit: 500,
        }
    }

    pub fn three_fifths_of_800() -> Rule
        ensures { result ≡ three_fifths_of800 }
    {
        Rule {
            ratio: 0.6,
            limit: 800,
        }
    }

    pub fn three_fifths_of_1500() -> Rule
        ensures { result ≡ three_fifths_of1500 }
    {
        Rule {
            ratio: 0.6,
            limit: 1500,
        }
    }
}

fn is_too_long(rule: Rule, text: usize) -> bool
    ensures { result ≡ is_too_long rule text }
{
    rule.limit > 0 && text > rule.limit
}

// One division; each count is the f64 nearest to it, as Rust's casts have it.
fn share(text: usize, links: usize) -> f64
    ensures { result ≡ quotient links text }
{
    std::num::nearest_u64_to_f64(links as u64) / std::num::nearest_u64_to_f64(text as u64)
}

pub fn measured(rule: Rule, text: usize, links: usize) -> Measure
    ensures { result ≡ measure_of rule text links }
{
    if is_too_long(rule, text) {
        return Measure::TooLong;
    }
    if text == 0 {
        return Measure::NoText;
    }
    if links == 0 {
        return Measure::NoLinks;
    }
    Measure::Share(share(text, links))
}

pub fn exceeds(rule: Rule, m: Measure) -> bool
    ensures { result ≡ exceeds rule m }
{
    matches!(m, Measure::Share(share) if share > rule.ratio)
}
