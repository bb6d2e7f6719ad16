// What the loading program prints.
#![tactic(auto)]

mod decimal;
mod printing;

pub use printing::report_line;
