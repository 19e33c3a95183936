// How calls and their answers are printed and compared. Below stands the making of calls; above,
// programs.
#![tactic(auto)]

pub mod same;
pub mod shown;
