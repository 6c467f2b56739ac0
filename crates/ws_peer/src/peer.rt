//! What a tester may say to the end that it tests: pieces of a stream, and that there are no more.

ghost use Rattle.std.specs.Prelude.{◌≡◌, List, Bool, true, IfOk, OnOk, OnErr, IsErr};
ghost use Rattle.std.specs.Io.{StartsWith};
ghost use Rattle.ws_peer.specs.Talks.{Entry, Fed, Finished, PeerEnd, Says};

use ws_base::NoMemory;

/// Whether a peer goes on after a piece.
#[derive(Clone, Copy, PartialEq, Eq)]
pub enum Going {
    /// It may take another piece.
    More,
    /// It has ended the connection.
    Ended,
}

/// The tested end of a connection, a server or a client, as a tester meets it.
pub trait Peer {
    /// As this end of the connection the peer may have had this talk.
    ghost agrees: { Self → PeerEnd → List Entry → Type 0 };

    /// A growth was refused, and the peer says nothing more.
    ghost is_spent: { Self → Bool };

    /// Takes the next piece of what the tester sends, and puts what the peer sends for it at the end of `out`.
    /// After `NoMemory` the peer is spent.
    fn feed(&mut self, piece: &[u8], out: &mut Vec<u8>) -> Result<Going, NoMemory>
        ensures said { IfOk result (λ going. Says agrees self.old self.new
            (λ appended. Fed piece.now appended going) out.old.items out.new.items) }
        ensures grown { StartsWith out.new.items out.old.items }
        ensures memory { OnErr result (is_spent self.new ≡ true) }
        ensures spent { is_spent self.old ≡ true → IsErr result };

    /// The tester sends nothing more: puts what the peer sends for that at the end of `out`.
    fn finish(&mut self, out: &mut Vec<u8>) -> Result<(), NoMemory>
        ensures said { OnOk result (Says agrees self.old self.new Finished out.old.items out.new.items) }
        ensures grown { StartsWith out.new.items out.old.items }
        ensures memory { OnErr result (is_spent self.new ≡ true) }
        ensures spent { is_spent self.old ≡ true → IsErr result };
}
