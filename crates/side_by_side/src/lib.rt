//! Two runs side by side: a stimulus on a net, and on one that is masked.
#![tactic(auto)]

mod lines;
mod masked_run;
mod pairs;
mod plain_run;
mod sides;
mod values;
mod watched;

pub use lines::columns_text;
pub use pairs::Pair;
pub use sides::columns;
