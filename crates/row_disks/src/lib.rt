//! What programs over rows of calls share: the words and the bytes of a line, the disks of a row before and after a call, and the check of a file.
#![tactic(auto)]

mod disks;
mod fault;
mod files;
mod plans;
mod words;

pub use disks::{are_left, are_untouched, disks_of};
pub use fault::{RowFault, both};
pub use files::{Rows, check_file, exit_of};
pub use plans::{DiskPlan, add_plans, plan_of, plans_on};
pub use words::{bytes_of, number, place, put_bytes, put_line, put_number, split};
