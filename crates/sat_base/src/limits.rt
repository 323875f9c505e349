//! How large a problem may be. Contracts name the same numbers by `specs/Limits.antt`, or write
//! their digits, which are equal to those names by computation.

/// The greatest variable.
pub const GREATEST_VARIABLE: u32 = 8_388_607;

/// The greatest number of clauses of a text, and of a board.
pub const MOST_CLAUSES: u32 = 16_777_216;

/// The greatest number of cubes of a text, and of jobs of a board.
pub const MOST_JOBS: u32 = 1_048_576;

/// The greatest number of literals of clauses and cubes together, each as often as it stands there.
pub const MOST_LITERALS: u32 = 33_554_432;

/// The greatest number of packets that are shared on a board.
pub const MOST_PACKETS: u32 = 4_194_304;
