//! Laws of evaluation that speak of several databases. The functions do nothing; their clauses are the laws.
#![tactic(auto)]

mod laws;

pub use laws::agreement_answers_alike;
