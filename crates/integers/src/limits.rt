// The limits of the port, all in one place; specs/Limits.antt has the same numbers under the same names.

// Tasks of a record.
pub const TASKS: usize = 48;

// A tree over TASKS tasks: its nodes, those that are not leaves, and its words, four or two for each node.
pub const NODES: usize = 127;

pub const INNER: usize = 63;

pub const TREEWORDS: usize = 508;

pub const THETAWORDS: usize = 254;

// Words for the posts and the atoms of a run on TASKS tasks: four for each task, six for each pair.
pub const POSTWORDS: usize = 192;

pub const ATOMWORDS: usize = 13824;

// Variables of a state.
pub const VARIABLES: usize = 64;

// Starts are from -START to START, and durations sum to at most DURATIONS.
pub const START: i32 = 400_000_000;

pub const DURATIONS: u32 = 400_000_000;

// Due moments are from -DUE to DUE.
pub const DUE: i32 = 400_000_000;

// An atom's value is from -VALUE to VALUE.
pub const VALUE: i32 = 900_000_000;

// Premises of a check, and holes of a domain.
pub const PREMISES: usize = 512;

pub const HOLES: usize = 16;

// Barred starts of a range.
pub const BARS: usize = 16;

// A moment in a question is from -MOMENT to MOMENT, and a length of time from 1 to LENGTH.
pub const MOMENT: i32 = 400_000_000;

pub const LENGTH: i32 = 400_000_000;

// The moment of 0: `zero_at` of specs/Moments.antt.
pub const ZERO_AT: i64 = 2147483648;
