//! A dual simplex for bounded variables, in fixed point. Nothing relies on its results: callers check them.
#![tactic(auto)]

mod basic;
mod column;
mod end;
mod enter;
mod equations;
mod fixed;
mod inverse;
mod light;
mod matrix;
mod mend;
mod number;
mod pivot;
mod read;
mod refresh;
mod solve;
mod steps;
mod tableau;
mod term;

pub use end::End;
pub use fixed::PARTS;
pub use steps::Steps;
pub use tableau::Tableau;
pub use term::Term;
