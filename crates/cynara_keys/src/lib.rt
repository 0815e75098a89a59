//! The vocabulary of the policy service: names, keys, filters, questions and results.
//!
//! Keys of client, user and privilege, buckets and the kinds of results are those of the Cynara wiki. The limits on
//! texts, the numbers of the kinds and the order of keys are this project's profile.
#![tactic(auto)]

mod borrowed_questions;
mod bucket_names;
mod bytes;
mod fields;
mod keys;
mod limits;
mod metadata_texts;
mod names;
mod questions;
mod results;
mod shared;
mod short_texts;

pub use borrowed_questions::BorrowedQuestion;
pub use bucket_names::{BucketName, BucketNameRefusal, is_bucket_name};
pub use fields::{Field, FilterField, field_fault};
pub use keys::{Filter, Key, Policy};
pub use limits::{
    Counted, MOST_BUCKET_NAME_BYTES, MOST_METADATA_BYTES, MOST_NAME_BYTES, MOST_SHORT_BYTES,
};
pub use metadata_texts::{Metadata, MetadataRefusal, is_metadata};
pub use names::{Name, NameRefusal, name_fault};
pub use questions::Question;
pub use results::{Kind, PolicyResult};
pub use short_texts::Short;
