// JSON in comments: what stands last under the two names that count, `id` and `signature`.
#![tactic(auto)]

mod answer;

pub use answer::{Comment, Stands, is_residual, read_comment};
