//! The limits that code of several crates asks for, as constants: each has the name and the number of a definition of
//! `tube_spec/specs/Limits.antt`. Those that a crate of the store keeps by itself stand there: `MOST_TICKS` in `slice_gates`, `MOST_CELLS` and
//! `GREATEST_BOUND` in `tube_store`, `MOST_RUNS` in `tplane_paver`.
#![tactic(auto)]

ghost use Rattle.std.specs.Prelude.{◌≡◌, pos};
ghost use Rattle.tube_spec.specs.Limits.{greatest_radius, most_bytes, most_reads, most_records, most_signals, most_variables};

/// The greatest radius of a distance and of a query, in millimetres.
pub const GREATEST_RADIUS: i64 = 2_000_000_000;

/// How many cells the contractors of a network may read, those of each added up.
pub const MOST_READS: u32 = 20_000_000;

/// How many signals a mission may declare.
pub const MOST_SIGNALS: usize = 64;

/// How many variables the records of a mission may make.
pub const MOST_VARIABLES: u32 = 200_000;

/// How many records a log may have, notes among them.
pub const MOST_RECORDS: usize = 1_000_000;

/// How long a log may be, in bytes.
pub const MOST_BYTES: usize = 67_108_864;

/// Each constant is the limit of its name.
pub fn limits_law()
    ensures radius { GREATEST_RADIUS ≡ pos greatest_radius }
    ensures reads { MOST_READS ≡ most_reads }
    ensures signals { MOST_SIGNALS ≡ most_signals }
    ensures variables { MOST_VARIABLES ≡ most_variables }
    ensures records { MOST_RECORDS ≡ most_records }
    ensures bytes { MOST_BYTES ≡ most_bytes }
{}
