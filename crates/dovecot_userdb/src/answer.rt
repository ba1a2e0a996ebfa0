//! What the server answers to a request.
use octets::Octets;

/// What the server answers to a request (`USER`, `NOTFOUND`, `FAIL`).
#[derive(Drop)]
pub enum UserdbAnswer {
    /// There is such a user.
    Found {
        /// The name by which the server has that user, which may be another than the one that was asked for.
        name: Octets,
    },
    /// There is no such user.
    NotFound,
    /// The server can't tell: its own database is away, for one.
    Failed,
}

/// An answer, and the request that it is to.
#[derive(Drop)]
pub struct UserdbReply {
    /// The number of the request, as `UserdbConnection::ask` returned it.
    pub id: u32,
    pub answer: UserdbAnswer,
}
