/// Why a call gets no results (RFC 5531, section 9).
#[derive(Clone, Copy, Debug, PartialEq, Eq)]
pub enum RpcRefusal {
    /// A denial: the call isn't of an RPC version that is served.
    RpcMismatch,
    /// A denial: the credential or the verifier isn't taken.
    AuthError,
    /// The program isn't served here.
    ProgUnavail,
    /// The program is served, and not this version of it.
    ProgMismatch,
    /// The program has no such procedure.
    ProcUnavail,
    /// The procedure's arguments can't be read.
    GarbageArgs,
    /// The server failed.
    SystemErr,
}
