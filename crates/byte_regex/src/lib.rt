// Regular expressions as tables of steps: do the steps from one on hold at a place of a text?
#![tactic(auto)]

ghost use Rattle.std.specs.Prelude.{◌≡◌, ◌+◌, ◌≤◌, ◌<◌, get_or, length};
ghost use Rattle.common.specs.Bytes.{length_limit};
ghost use Rattle.byte_regex.specs.Regex.{in_class, is_dash, is_hex_digit};
ghost use Rattle.byte_regex.specs.Steps.{done};
ghost use Rattle.byte_regex.specs.Joined.{joined};
ghost use Rattle.byte_regex.specs.Meaning.{blocked_of, class_meant, class_of, holds, move_of, step_meant, step_of, steps_of, StepTable};

pub mod theorems;

// Where a step leads.
#[derive(Clone, Copy)]
enum Move {
    // the pattern fits
    Pass,
    // it does not
    Fail,
    // to a step and a place
    Go(usize, usize),
    // to the next step here, and if that does not hold, to a step and a place
    Try(usize, usize),
}

// A class of bytes.
#[derive(Clone, Copy)]
enum Class {
    // `\s`
    Blank,
    // `[_-]`
    Dash,
    // `[\s_-]`
    Separator,
    // `[a-f0-9]`, in either case
    HexDigit,
    // this byte
    Exactly(u16),
    // this small letter or its capital
    Letter(u16),
}

impl Class {
    // The class of a number of the table.
    fn of(number: u16) -> Class
        ensures { class_meant result ≡ class_of number }
    {
        match number {
            0 => Class::Blank,
            1 => Class::Dash,
            2 => Class::Separator,
            3 => Class::HexDigit,
            _ if number % 2 == 0 => Class::Exactly(number / 2 - 2),
            _ => Class::Letter(number / 2 - 2),
        }
    }

    // Whether a byte is in the class.
    #[tactic(auto, unfolding(crate::specs::Regex::in_class, crate::specs::Regex::is_hex_digit, crate::specs::Regex::lower))]
    fn has(self, x: u8) -> bool
        ensures { result ≡ in_class (class_meant self) x }
    {
        match self {
            Class::Blank => text::is_space(x),
            Class::Dash => is_dash(x),
            Class::Separator => text::is_space(x) || is_dash(x),
            Class::HexDigit => x.is_ascii_hexdigit(),
            Class::Exactly(byte) => u16::from(x) == byte,
            Class::Letter(byte) => u16::from(x.to_ascii_lowercase()) == byte,
        }
    }
}

// A step of a table.
#[derive(Clone, Copy)]
enum Step {
    // take a byte of the class
    Take(Class),
    // take as many as you like
    Repeat(Class),
    // go on here, or so many steps further
    Fork(u16),
    // go on so many steps further
    Skip(u16),
    // only at the text's start
    First,
    // only at its end
    Last,
    // the pattern fits
    Done,
}

impl Step {
    // The step of a number of the table.
    fn of(code: u16) -> Step
        ensures { step_meant result ≡ step_of code }
    {
        let rest = code / 8;
        match code % 8 {
            0 => Step::Take(Class::of(rest)),
            1 => Step::Repeat(Class::of(rest)),
            2 => Step::Fork(rest),
            3 => Step::Skip(rest),
            4 => Step::First,
            5 => Step::Last,
            _ => Step::Done,
        }
    }
}

// `[_-]`.
#[tactic(auto, unfolding(crate::specs::Regex::is_dash))]
fn is_dash(x: u8) -> bool
    ensures { result ≡ is_dash x }
{
    matches!(x, b'-' | b'_')
}

// How long class and id are as one text.
#[tactic(auto, using(crate::proofs::JoinedLaws::joined_laws))]
pub fn size(class: &[u8], id: &[u8]) -> usize
    requires { length class.now + length id.now < length_limit }
    ensures { result ≡ length (joined class.now id.now) }
{
    if class.is_empty() {
        return id.len();
    }
    class.len() + 1 + id.len()
}

// The byte at a place of that text.
#[tactic(auto, using(crate::proofs::JoinedLaws::joined_laws))]
pub fn byte(class: &[u8], id: &[u8], at: usize) -> u8
    requires { at < length (joined class.now id.now) }
    ensures { result ≡ get_or (joined class.now id.now) at 0 }
{
    if at < class.len() {
        return class[at];
    }
    if class.is_empty() {
        return id[at];
    }
    if at == class.len() {
        return b' ';
    }
    id[at - class.len() - 1]
}

// The step at a place of the table; past it `Done`.
fn step_at(steps: &[u16], i: usize) -> Step
    ensures { step_meant result ≡ get_or (steps_of steps.now) i done }
{
    match steps.get(i) {
        Some(&code) => Step::of(code),
        None => Step::Done,
    }
}

// Whether a step fails at a place by itself, whatever the steps behind it say.
#[tactic(auto, unfolding(crate::specs::Meaning::blocked_of))]
fn blocked(step: Step, class: &[u8], id: &[u8], n: usize, at: usize) -> bool
    requires { (at ≤ n) × (n ≡ length (joined class.now id.now)) }
    ensures { result ≡ blocked_of (step_meant step) (joined class.now id.now) at }
{
    match step {
        Step::Take(set) => at == n || !set.has(byte(class, id, at)),
        Step::First => at != 0,
        Step::Last => at != n,
        _ => false,
    }
}

// Where a step leads from a place.
#[tactic(auto, unfolding(crate::specs::Meaning::blocked_of, crate::specs::Meaning::free_move, crate::specs::Meaning::move_of))]
fn advance(steps: &[u16], i: usize, class: &[u8], id: &[u8], n: usize, at: usize) -> Move
    requires { (i < 65536) × (at ≤ n) × (n ≡ length (joined class.now id.now)) }
    ensures { result ≡ move_of (get_or (steps_of steps.now) i done) (get_or (steps_of steps.now) (i + 1) done) i (joined class.now id.now) at }
{
    let step = step_at(steps, i);
    if blocked(step, class, id, n, at) {
        return Move::Fail;
    }
    match step {
        Step::Take(_) => Move::Go(i + 1, at + 1),
        Step::Repeat(set) => {
            if at < n && set.has(byte(class, id, at)) {
                Move::Try(i, at + 1)
            } else {
                Move::Go(i + 1, at)
            }
        }
        Step::Fork(far) => {
            let next = step_at(steps, i + 1);
            if blocked(next, class, id, n, at) {
                Move::Go(i + 1 + usize::from(far), at)
            } else {
                Move::Try(i + 1 + usize::from(far), at)
            }
        }
        Step::Skip(far) => Move::Go(i + 1 + usize::from(far), at),
        Step::First | Step::Last => Move::Go(i + 1, at),
        Step::Done => Move::Pass,
    }
}

// Whether the steps from `first` on hold at the place `from`.
pub fn run(steps: &[u16], first: usize, class: &[u8], id: &[u8], n: usize, from: usize) -> bool
    requires { (first < length steps.now) × (from ≤ n) × (n ≡ length (joined class.now id.now)) × StepTable steps.now }
    ensures { result ≡ holds (steps_of steps.now) first (joined class.now id.now) from }
{
    let mut i = first;
    let mut at = from;
    loop {
        match advance(steps, i, class, id, n, at) {
            Move::Pass => return true,
            Move::Fail => return false,
            Move::Go(step, place) => {
                i = step;
                at = place;
            }
            Move::Try(step, place) => {
                if run(steps, i + 1, class, id, n, at) {
                    return true;
                }
                i = step;
                at = place;
            }
        }
    }
}
