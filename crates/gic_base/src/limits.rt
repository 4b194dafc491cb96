//! The limits of lists, inputs, walks and fields, each once, with where it comes from.

/// The longest file that is read, in bytes: 16 MiB, whatever the file is.
pub const LIMIT: usize = 16777216;

/// The zones of a case, of whichever format.
pub const MOST_ZONES: usize = 256;

/// The substations of a case, of whichever format.
pub const MOST_SUBSTATIONS: usize = 4096;

/// The buses of a case, of whichever format: three times the most substations, however they are shared out.
pub const MOST_BUSES: usize = 12288;

/// The lines of a case, of whichever format.
pub const MOST_LINES: usize = 24576;

/// The transformers of a case, of whichever format.
pub const MOST_TRANSFORMERS: usize = 8192;

/// The substations of a case of format 1 or 2.
pub const MOST_SUBSTATIONS_BEFORE_FORMAT_3: usize = 1024;

/// The buses of a case of format 1 or 2.
pub const MOST_BUSES_BEFORE_FORMAT_3: usize = 3072;

/// The lines of a case of format 1 or 2.
pub const MOST_LINES_BEFORE_FORMAT_3: usize = 8192;

/// The transformers of a case of format 1 or 2.
pub const MOST_TRANSFORMERS_BEFORE_FORMAT_3: usize = 3584;

/// The parts of a line that leads through several zones.
pub const MOST_PARTS: usize = 16;

/// The nodes of a network: a substation, a bus and a transformer's neutral each make at most one.
pub const MOST_NODES: usize = MOST_SUBSTATIONS + MOST_BUSES + MOST_TRANSFORMERS;

/// The elements of a network: a substation makes one earthing, a line one element, a transformer three windings and a
/// neutral resistor at most.
pub const MOST_ELEMENTS: usize = MOST_SUBSTATIONS
    + MOST_LINES
    + 3 * MOST_TRANSFORMERS
    + MOST_TRANSFORMERS;

/// The elements of a network of format 1 or 2, where a transformer makes two windings at most.
pub const MOST_ELEMENTS_BEFORE_FORMAT_3: usize = MOST_SUBSTATIONS_BEFORE_FORMAT_3
    + MOST_LINES_BEFORE_FORMAT_3
    + 2 * MOST_TRANSFORMERS_BEFORE_FORMAT_3
    + MOST_TRANSFORMERS_BEFORE_FORMAT_3;

/// The elements that end at a node, in whichever format.
pub const MOST_AT_A_NODE: usize = 256;

/// The greatest entry of a bound vector over which a network is solved: how far a node may lie from earth.
pub const MOST_WALK: u16 = 4096;

/// The entry of a capped vector that says *further than [`MOST_WALK`]*: one more.
pub const FULL_WALK: u16 = MOST_WALK + 1;

/// The greatest part of a field to the north or to the east, either way, in mV/km.
pub const MOST_FIELD: u32 = 20000;

/// The rows of a storm, by the storm format.
pub const MOST_ROWS: usize = 20000;

/// The rows of a switching list, by the switching format.
pub const MOST_SWITCHINGS: usize = 4096;
