// The tests of a row.
ghost use Rattle.std.specs.Prelude.{◌&&◌, ◌≡◌, eqb};
ghost use Rattle.sheet.specs.Notes.{WholePool, later_right, note_of, row_right, tree_right};
ghost use Rattle.sheet.specs.Verdict.{body_right, inside, kind_right, ranges_right, text_right, texts_right};

use crate::limits::MOST_DEPTH;
use crate::line::Row;

// The first line at fault so far.
pub fn note(found: Option<usize>, right: bool, i: usize) -> Option<usize>
    ensures { result ≡ note_of found right i }
{
    if right || found.is_some() {
        return found;
    }
    Some(i)
}

// A text or a comment has no name and no attributes.
fn leaf_right(r: Row) -> bool
    ensures { result ≡ (eqb r.name_len 0 && eqb r.attributes 0) }
{
    if r.name_len == 0 {
        return r.attributes == 0;
    }
    false
}

pub fn kind_right(r: Row) -> bool
    ensures { result ≡ kind_right r }
{
    if r.skip > 1 {
        return false;
    }
    if r.kind == 1 {
        return r.value_len == 0;
    }
    if r.kind == 3 {
        return leaf_right(r);
    }
    if r.kind == 8 {
        return leaf_right(r);
    }
    false
}

// Whether a range lies in the pool.
pub fn is_inside(pool: &[u8], at: usize, len: usize) -> bool
    ensures { result ≡ inside pool.now at len }
{
    if at > pool.len() {
        return false;
    }
    len <= pool.len() - at
}

// Whether a range of the pool is UTF-8. Where the pool is UTF-8 as a whole, its ends tell.
pub fn text_right(pool: &[u8], whole: bool, at: usize, len: usize) -> bool
    requires { WholePool pool.now whole }
    ensures { result ≡ text_right pool.now at len }
{
    if !is_inside(pool, at, len) {
        return false;
    }
    if whole {
        return utf8::valid_part(pool, at, len);
    }
    let end = at + len;
    utf8::valid(&pool[at..end])
}

// Whether a row is an element named body at depth 0.
pub fn body_right(pool: &[u8], r: Row) -> bool
    ensures { result ≡ body_right pool.now r }
{
    if r.kind != 1 {
        return false;
    }
    if r.depth != 0 {
        return false;
    }
    let at = r.name_at;
    let len = r.name_len;
    if !is_inside(pool, at, len) {
        return false;
    }
    let end = at + len;
    common::same(&pool[at..end], b"body")
}

// Whether a later row's depth and parent are right, where all rows before it are.
pub fn later_right(before: Row, r: Row) -> bool
    ensures { result ≡ later_right before r }
{
    if r.depth == 0 {
        return false;
    }
    if r.depth > MOST_DEPTH {
        return false;
    }
    let above = r.depth - 1;
    if above > before.depth {
        return false;
    }
    if above == before.depth {
        return before.kind == 1;
    }
    true
}

// Whether row i's place in the tree is right, where those of the rows before it are.
pub fn tree_right(pool: &[u8], i: usize, before: Row, r: Row) -> bool
    ensures { result ≡ tree_right pool.now i before r }
{
    if i == 0 {
        return body_right(pool, r);
    }
    later_right(before, r)
}

pub fn ranges_right(pool: &[u8], at: usize, len: usize, at2: usize, len2: usize) -> bool
    ensures { result ≡ ranges_right pool.now at len at2 len2 }
{
    if is_inside(pool, at, len) {
        return is_inside(pool, at2, len2);
    }
    false
}

pub fn texts_right(pool: &[u8], whole: bool, at: usize, len: usize, at2: usize, len2: usize) -> bool
    requires { WholePool pool.now whole }
    ensures { result ≡ texts_right pool.now at len at2 len2 }
{
    if text_right(pool, whole, at, len) {
        return text_right(pool, whole, at2, len2);
    }
    false
}

// The tests of row i together, where the rows before it are right.
pub fn row_right(pool: &[u8], whole: bool, i: usize, before: Row, r: Row) -> bool
    requires { WholePool pool.now whole }
    ensures { result ≡ row_right pool.now i before r }
{
    if !kind_right(r) {
        return false;
    }
    if !tree_right(pool, i, before, r) {
        return false;
    }
    texts_right(pool, whole, r.name_at, r.name_len, r.value_at, r.value_len)
}
