//! A client that may be read only when all of its complete lines are answered.
ghost use Rattle.std.specs.Prelude.{Some};
ghost use Rattle.escrow_serve.specs.Answered.{AllAnswered};

use super::free::databases;
use escrow_server::{Client, serve_script};
use std::io;

/// Sends a script, a few bytes at a time. It may be read only when all of its complete lines are
/// answered, as lines of one database and 64 sessions. Each read has to be proved to come then.
#[derive(Drop)]
struct Strict<'a> {
    rest: &'a [u8],
    given: Vec<u8>,
    replies: Vec<u8>,
}

impl Client for Strict<'_> {
    ghost remaining = { λ c. Some c.rest.now };

    ghost received = { λ c. Some c.given.items };

    ghost sent = { λ c. Some c.replies.items };

    ghost may_read = { λ c. AllAnswered 1 64 (Some c.given.items) (Some c.replies.items) };

    fn read(&mut self, buf: &mut [u8]) -> io::Result<usize> {
        let count = self.rest.len().min(buf.len()).min(5);
        self.given.extend_from_slice(&self.rest[..count])?;
        buf[..count].copy_from_slice(&self.rest[..count]);
        self.rest = &self.rest[count..];
        Ok(count)
    }

    fn write(&mut self, bytes: &[u8]) -> io::Result<usize> {
        self.replies.extend_from_slice(bytes)?;
        Ok(bytes.len())
    }
}

/// Such a client is served.
#[test]
fn strict_client(rt: HostRuntime) {
    let mut databases = databases(&rt, 1);
    let mut client = Strict {
        rest: b"bank.1: COMMIT\n-- nothing\nbank.2: ROLLBACK",
        given: Vec::new(rt.alloc()),
        replies: Vec::new(rt.alloc()),
    };
    assert!(rt; databases.len() == 1);
    let served = serve_script(rt.alloc(), &mut databases, &mut client);
    assert!(rt; served.is_ok());
    let replies = b"bank.1> OK committed 0\nbank.2> OK rolled back 0\n";
    assert_eq!(rt; client.replies.as_slice(), replies.as_slice());
}
