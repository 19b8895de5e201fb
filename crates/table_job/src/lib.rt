// The job in its tables: how many slots, nodes and splits, a whole node or split, or one field of it where it lies. Opening writes them once
// (`table_blank`) and no call changes them; they are read at every step, so that most readers ask for a single field.
#![tactic(auto)]

pub mod counts; // counts.rt: how many slots, nodes and splits
mod node; // node.rt: a node in its record
pub mod node_fields; // node_fields.rt: one field of a node
pub mod nodes; // nodes.rt: the table of nodes
mod split; // split.rt: a split in its record
pub mod split_fields; // split_fields.rt: one field of a split, one of its runs
pub mod split_table; // split_table.rt: the table of splits
pub mod width; // width.rt: how many columns a node has
pub mod quick; // quick.rt: fields read where they lie

pub use split::SplitRecord;
