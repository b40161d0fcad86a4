//! The tables of stations, fleets and costs, and the reader of all tables: the header and the records below it, which a
//! table reads one after another; fields that are text; and names and pairs of numbers, in the order in which they are
//! first seen.
#![tactic(auto)]

pub mod faults;
pub mod fields;
pub mod fleet_tables;
pub mod forms;
pub mod named;
pub mod names;
pub mod naturals;
pub mod number_pairs;
pub mod reading;
pub mod rows;
pub mod station_table;

pub use faults::{RecordError, at_record, without_header};
pub use fields::{five_fields, four_fields, is_text, three_fields, two_fields};
pub use forms::{Form, below_either};
pub use named::{Named, numbers_of};
pub use names::Names;
pub use naturals::natural;
pub use number_pairs::NumberPairs;
pub use reading::{RowReader, read_rows, read_table};
pub use rows::below_header;
