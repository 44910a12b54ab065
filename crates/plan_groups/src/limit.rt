// The group limit that the public calls take.

// The most instructions of a part that holds several blocks.
pub const PART_LIMIT: u64 = 8192;
