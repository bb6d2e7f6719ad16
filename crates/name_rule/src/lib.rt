// Looking up names and lines: its rule, in specs/. This crate has no function.
#![tactic(auto)]
