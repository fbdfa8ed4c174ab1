ghost use Rattle.std.specs.Prelude.{◌≡◌, ℕ, List, None, Option, take, MatchResult, ⊤};
ghost use Rattle.std.specs.Io.{ReadsAtMost, WritesAtMost};
ghost use Rattle.std.specs.Io.KnownBytes.{ReadConsumes, WriteAppends};
ghost use Rattle.escrow_script.specs.Client.{Receives};

use std::io::{self, Read, Write};

/// Who sends lines, and is sent the replies to them.
///
/// A client may let itself be read only at certain times: `may_read` says when, and each read
/// requires it. A client that waits for its replies before it sends on is one that may be read
/// only when they are written.
pub trait Client {
    // The bytes that reads will return from here on, where they are known.
    ghost remaining: { Self → Option (List ℕ) } = { λ _. None };

    // The bytes that were read from the client so far, where they are known.
    ghost received: { Self → Option (List ℕ) } = { λ _. None };

    // The bytes that were written to the client so far, where they are known.
    ghost sent: { Self → Option (List ℕ) } = { λ _. None };

    // Whether the client may be read now.
    ghost may_read: { Self → Type 0 } = { λ _. ⊤ };

    /// Reads bytes of the client into a buffer, from its beginning on, and returns how many. There
    /// are none only at the end of what the client sends, or if the buffer has no room.
    ///
    /// # Errors
    ///
    /// Fails as the stream does. Then no byte was read.
    fn read(&mut self, buf: &mut [u8]) -> io::Result<usize>
        requires { may_read self.old }
        ensures bound { ReadsAtMost result buf.new }
        ensures bytes { ReadConsumes (remaining self.old) (remaining self.new) result buf.new }
        ensures came { MatchResult result (λ n. Receives (received self.old) (received self.new) (take n buf.new))
            (λ _. received self.new ≡ received self.old) }
        ensures unwritten { sent self.new ≡ sent self.old };

    /// Writes bytes to the client, from the first on, and returns how many it accepted.
    ///
    /// # Errors
    ///
    /// Fails as the stream does. Then no byte was written.
    fn write(&mut self, bytes: &[u8]) -> io::Result<usize>
        ensures bound { WritesAtMost result bytes.now }
        ensures appended { WriteAppends (sent self.old) (sent self.new) result bytes.now }
        ensures unread { remaining self.new ≡ remaining self.old }
        ensures heard { received self.new ≡ received self.old };
}

/// A client over a reader and a writer: its lines come from the one, and its replies go to the
/// other. It may always be read.
#[derive(Drop)]
pub struct Duplex<R, W> {
    /// What the client sends.
    pub reader: R,
    /// What the client is sent.
    pub writer: W,
}

impl<R: Read, W: Write> Client for Duplex<R, W> {
    ghost remaining = { λ d. R.remaining d.reader };

    ghost sent = { λ d. W.contents d.writer };

    fn read(&mut self, buf: &mut [u8]) -> io::Result<usize> {
        self.reader.read(buf)
    }

    fn write(&mut self, bytes: &[u8]) -> io::Result<usize> {
        self.writer.write(bytes)
    }
}
