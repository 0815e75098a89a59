//! A store for a set of files that a stop at any moment cannot break: it holds the old set or the new one.
#![tactic(auto)]

mod laws;
mod list_files;
mod list_reading;
mod mounted;
mod own_names;
mod prepared;
mod refusals;
mod save;
mod set_reading;
mod settling;
mod steps;
mod store_names;
mod survey;
mod surveying;
mod vault;

pub use laws::{agreement_keeps_recovery, list_reads_back};
pub use list_files::{backup_of, backups_of, has_name, list_bytes, names_without};
pub use list_reading::read_list;
pub use mounted::Mounted;
pub use own_names::{is_backup, is_guard, is_list, is_listable, is_own};
pub use prepared::Prepared;
pub use refusals::{VaultRefusal, refusal_of};
pub use save::save_set;
pub use set_reading::{read_files, read_placed, read_set};
pub use settling::settle;
pub use steps::{
    drop_backups, lower_guard, raise_guard, remove_files, save_backups, save_primaries,
    write_backups, write_primaries,
};
pub use store_names::{StoreNames, fixed_name};
pub use survey::Survey;
pub use surveying::look;
pub use vault::{StoreFault, Vault};
