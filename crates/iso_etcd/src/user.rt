//! A user of the cluster.

/// A user of the cluster.
#[derive(Drop)]
pub struct User {
    /// Its name.
    pub name: String,
    /// Its password.
    pub password: String,
}
