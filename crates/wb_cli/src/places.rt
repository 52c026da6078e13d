//! Where rows are kept.

use wb_base::Text;
use wb_etcd::Store;

/// Where rows are kept, if not in memory.
#[derive(Drop)]
pub enum Place {
    /// In the file of this path.
    File(Text),
    /// In a store of etcd.
    Etcd(Store),
}
