//! Instructions on tagged values: what each makes of its operands and of memory.
//!
//! To the layers above it promises that each answers exactly what its row in the table of tagged values
//! gives (`row_of` of `law_follow`): a value for its destination, an end or a break. An end and a break
//! leave the store as it was, and so does want of memory.
#![tactic(auto)]

mod accesses;
mod arithmetic;
mod atomics;
mod calls;
mod made;
mod registers;
mod rows;
mod setting;
mod store;
mod values;

pub use arithmetic::{is_taken, is_upper_half};
pub use calls::cells_of;
pub use made::Made;
pub use registers::Registers;
pub use rows::{AddressHalf, row};
pub use setting::Setting;
pub use store::Store;
pub use values::{Cell, Tag, Value};
