// Document 01, "Job bytes": the records of a job as they stand in its bytes. A two-byte mark, then 32-bit fields, low byte first; a record that is
// cut short or has an unknown mark is none, whatever the fields that are there. Runs are not copied: a split's record says where they lie. Nothing is
// checked here but that the bytes are there: the checks are in `node_records` and `split_records`. `call_records` reads the calls of a session with
// the same fields.
#![tactic(auto)]

pub mod fields; // fields.rt: a field of four bytes
pub mod marks; // marks.rt: the two bytes before a record
pub mod reading; // reading.rt: one record

// What two bytes mark.
#[derive(Clone, Copy, PartialEq, Eq)]
pub enum Mark {
    Slots,
    Leaf,
    Concat,
    Pack,
    Split,
    Unknown,
}

// A record. Of a split the runs stay in the bytes: as many as the third number says, from the position on.
#[derive(Clone, Copy)]
pub enum Record {
    Slots(u32),
    Leaf(u32, u32),
    Concat(u32),
    Pack(u32),
    Split(u32, u32, u32, usize),
}
