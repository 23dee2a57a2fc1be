//! `plan`, from lines of demands to quantum blocks, and `audit`, which judges such blocks by the rule.
#![tactic(auto)]

mod audit;
mod audit_last;
mod line_fault;
mod plan;

pub use audit::{audit_told, run_audit};
pub use plan::{plan_told, run_plan};
