/// What the request of a client gets.
#[derive(Clone, Copy, Debug, PartialEq, Eq)]
pub enum Code {
    /// The time, where the server knows it.
    Pass,
    /// The kiss code `DENY`: this server does not serve the client (RFC 5905, section 7.4).
    Deny,
    /// The kiss code `RATE`: the client asks too often (RFC 5905, section 7.4).
    Rate,
}
