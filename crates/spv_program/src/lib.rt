//! The program over what the system gives: the words of the command line, files, standard input and output, and the code that the
//! process ends with. Where it gives up, a line on standard error says why.
#![tactic(auto)]

pub mod complaints;
pub mod ending;
pub mod running;

pub use running::run;
