//! Texts of `privctl`: words as scripts write them, and strings of JSON.
#![tactic(auto)]

mod json;
mod words;

pub use json::{put_json, put_json_field};
pub use words::{
    put, put_bucket, put_key, put_kind, put_number, put_outcome, put_result, put_scope,
    put_user_type,
};
