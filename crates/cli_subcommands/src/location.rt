//! Where a store is.

/// Where a store is, and whether to wait for it.
#[derive(Clone, Copy)]
pub struct StoreLocation<'a> {
    /// The path of the database's file.
    pub path: &'a str,
    /// Whether to wait for the lock if another process has it.
    pub waits: bool,
}
