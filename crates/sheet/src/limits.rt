// The greatest numbers of a sheet.
pub const MOST_ROWS: usize = 20000;

pub const MOST_ATTRIBUTES: usize = 60000;

pub const MOST_POOL: usize = 4194304;

pub const MOST_DEPTH: usize = 500;
