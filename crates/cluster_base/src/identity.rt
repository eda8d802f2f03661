//! Who speaks: nodes, sessions, statements and requests.

/// The number of a node of the cluster.
#[derive(Clone, Copy, Debug, PartialEq, Eq, PartialOrd, Ord, Hash)]
pub struct NodeId(pub u32);

/// Whose statement a write is (MongoDB manual, "Server Sessions").
#[derive(Clone, Copy, Debug, PartialEq, Eq, PartialOrd, Ord, Hash)]
pub enum Session {
    /// A client's session, by its identifier.
    Client([u8; 16]),
    /// A router's own session for one request that came without a session.
    Router {
        /// The router.
        node: NodeId,
        /// How often that router has been started, from 1 on.
        life: u64,
        /// The number of the request in that life, from 1 on.
        request: u64,
    },
}

/// The number of a write statement: under one number a write happens at most once.
#[derive(Clone, Copy, Debug, PartialEq, Eq, PartialOrd, Ord, Hash)]
pub struct Stmt {
    /// The session that the statement belongs to.
    pub session: Session,
    /// The number of the write command in its session, `txnNumber`, and 0 in a router's own session.
    pub txn: i64,
    /// The index of the statement in its command, from 0 on.
    pub index: u32,
}

/// The number of a request that a router took. It also names a move of a chunk.
#[derive(Clone, Copy, Debug, PartialEq, Eq, PartialOrd, Ord, Hash)]
pub struct RequestId {
    /// The router that took the request.
    pub router: NodeId,
    /// How often that router has been started, from 1 on.
    pub life: u64,
    /// The number of the request in that life, from 1 on.
    pub count: u64,
}
