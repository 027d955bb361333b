// What `sheetlist` prints, as bytes in a slice. Each function writes from where the output stands, and the output goes on behind it.
#![tactic(auto)]

pub mod headers;
pub mod lines;
pub mod output;
mod terms;
