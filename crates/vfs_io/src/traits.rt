//! What a source and a sink promise.

ghost use Rattle.std.specs.Prelude.{◌<◌, length, IfOk};
ghost use Rattle.std.specs.Io.{ReadsAtMost};
ghost use Rattle.std.specs.Io.KnownBytes.{ReadConsumes};
ghost use Rattle.vfs_model.specs.Faults.{HasCause};
ghost use Rattle.vfs_io.specs.Told.{SourceTold, SinkTold, IsListed};
ghost use Rattle.vfs_io.specs.Pieces.{IsZeroAtEnd, Puts};

/// The call failed, and the object has counted it as a fault. Nothing more is told of why.
#[derive(Clone, Copy, Debug, PartialEq, Eq)]
pub struct Failed;

/// Where bytes come from.
pub trait Source {
    /// The bytes that are left, where the source tells them; the length of the buffer of each call
    /// that did not fail, where it lists them; and how many calls failed.
    ghost told: { Self → SourceTold };

    /// Takes the first n bytes that are left into the front of the buffer, and answers n, which is
    /// at most the buffer's length.
    ///
    /// 0 is the end of the input: where the bytes left are told, it comes exactly where none is
    /// left. `Failed` comes only where the count of faults rose, and leaves the bytes left, where
    /// they are told, as they were.
    fn take(&mut self, buf: &mut [u8]) -> Result<usize, Failed>
        requires { 0 < length buf.old }
        ensures bound { ReadsAtMost result buf.new }
        ensures bytes { ReadConsumes (told self.old).left (told self.new).left result buf.new }
        ensures end { IfOk result (IsZeroAtEnd (told self.old).left) }
        ensures listed { IsListed (told self.old).takes (told self.new).takes result (length buf.old) }
        ensures cause { HasCause (told self.old).faults (told self.new).faults result };
}

/// Where bytes go.
pub trait Sink {
    /// The bytes that were written, where the sink tells them; the piece of each call that did not
    /// fail, where it lists them; and how many calls failed.
    ghost told: { Self → SinkTold };

    /// Appends the piece to what was written: all of it at `Ok`, and a prefix of it at `Failed`,
    /// which comes only where the count of faults rose.
    fn put(&mut self, piece: &[u8]) -> Result<(), Failed>
        ensures bytes { Puts (told self.old).written (told self.new).written result piece.now }
        ensures listed { IsListed (told self.old).puts (told self.new).puts result piece.now }
        ensures cause { HasCause (told self.old).faults (told self.new).faults result };
}
