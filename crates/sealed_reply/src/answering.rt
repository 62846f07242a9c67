//! The reply to a request.
ghost use Rattle.std.specs.Prelude.{◌≡◌, ◌≤◌, ◌<◌, Ok, length, IfErr, IfOk, Err};
ghost use Rattle.packet_auth.specs.Digests.{authentic, sealed_like};
ghost use Rattle.packet_auth.specs.Keys.{keys_of};
ghost use Rattle.reply_core.specs.Reply.{request_of};
ghost use Rattle.sealed_reply.specs.Replies.{reply_to};

use crate::Reply;
use clock_page::Page;
use ntp_packet::{HEADER_LENGTH, Header};
use packet_auth::{KeyRing, SEALED_LENGTH};
use reply_core::{Code, Dropped, read_request};
use tick_units::Local;

/// A header sealed as a datagram is: by the key by which the datagram is authentic, or not at all where it is not.
pub fn sealed_like(keys: &KeyRing, datagram: &[u8], header: [u8; HEADER_LENGTH]) -> Reply
    ensures bytes { result ≡ sealed_like (keys_of keys.now) datagram.now header }
    ensures authentic { authentic (keys_of keys.now) result ≡ authentic (keys_of keys.now) datagram.now }
{
    match keys.authentic(datagram) {
        Some(id) => {
            let mut bytes = [0; SEALED_LENGTH];
            keys.seal(id, &header, &mut bytes);
            Reply::sealed(bytes)
        }
        None => Reply::plain(header),
    }
}

// Seals a header as a datagram is. It stands apart, so that the way of the many datagrams that carry no digest is short.
#[cold]
#[inline(never)]
fn seal(keys: &KeyRing, datagram: &[u8], out: &mut Reply)
    requires { length out.old ≡ 48 }
    ensures bytes { out.new ≡ sealed_like (keys_of keys.now) datagram.now out.old }
    ensures authentic { authentic (keys_of keys.now) out.new ≡ authentic (keys_of keys.now) datagram.now }
{
    let header = out.header();
    *out = sealed_like(keys, datagram, header);
}

/// A request of a client, as it stands in a datagram.
#[derive(Clone, Copy, Debug)]
pub struct Request<'a> {
    datagram: &'a [u8],
    header: Header,
    ghost read: { request_of datagram.now ≡ Ok header },
    ghost version: { header.version < 8 },
}

impl<'a> Request<'a> {
    /// The request in a datagram.
    ///
    /// # Errors
    /// A datagram that is no request of a client.
    pub fn read(datagram: &'a [u8]) -> Result<Request<'a>, Dropped>
        ensures read { IfOk result (λ request. request.datagram.now ≡ datagram.now) }
        ensures dropped { IfErr result (λ why. request_of datagram.now ≡ Err why) }
    {
        let header = read_request(datagram)?;
        Ok(Request { datagram, header })
    }

    /// The reply to the request by the client's code. It depends on a page, the moment when the request arrived and the moment
    /// when the reply is sent. It is authentic exactly where the request is, and by the same key.
    pub fn reply(
        &self,
        keys: &KeyRing,
        code: Code,
        page: &Page,
        arrived: Local,
        sent: Local,
    ) -> Reply
        requires { arrived ≤ sent }
        ensures replied { reply_to (keys_of keys.now) code page.now self.now.datagram.now arrived sent ≡ Ok result }
        ensures authentic { authentic (keys_of keys.now) result ≡ authentic (keys_of keys.now) self.now.datagram.now }
    {
        let mut reply = Reply::blank();
        self.reply_in(keys, code, page, arrived, sent, &mut reply);
        reply
    }

    /// Writes what `reply` returns in the place of an earlier reply.
    #[inline(always)]
    pub fn reply_in(
        &self,
        keys: &KeyRing,
        code: Code,
        page: &Page,
        arrived: Local,
        sent: Local,
        out: &mut Reply,
    )
        requires { arrived ≤ sent }
        ensures replied { reply_to (keys_of keys.now) code page.now self.now.datagram.now arrived sent ≡ Ok out.new }
        ensures authentic { authentic (keys_of keys.now) out.new ≡ authentic (keys_of keys.now) self.now.datagram.now }
    {
        out.write(code, page, &self.header, arrived, sent);
        if self.datagram.len() == SEALED_LENGTH {
            seal(keys, self.datagram, out);
        }
    }
}
