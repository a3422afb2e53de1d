//! Scripts of calls over several planners.
#![tactic(auto)]

mod running;
mod step;
mod tearing;

pub use running::run;
pub use step::{Action, Change, Reply, SLIP_ROWS, Step};
pub use tearing::{Unspent, run_out};
