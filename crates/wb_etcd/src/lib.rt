//! A keeper of rows over etcd, by its JSON gateway, in which one host writes at a time.
#![tactic(auto)]

mod above;
mod answers;
mod etcd_keeper;
mod exchange;
mod keys;
mod requests;
mod responses;
mod standing;
mod store;
mod taking;

pub use etcd_keeper::EtcdKeeper;
pub use exchange::MAX_ANSWER;
pub use keys::key_texts_are_in_order;
pub use requests::MAX_TXN_OPS;
pub use standing::Standing;
pub use store::Store;
pub use taking::PIECE_ROWS;
