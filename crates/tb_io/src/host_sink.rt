//! A sink over a writer of the host: the trusted edge for what is written.
ghost use Rattle.std.specs.Prelude.{◌≡◌, [], is_err, OnOk, OnErr};
ghost use Rattle.tb_io.specs.Causes.{HasCause, faults_after};
ghost use Rattle.tb_io.specs.Puts.{Takes, TakesPart};

use crate::sink::{PutErr, Sink};
use std::io::Write;

/// A sink over one of std's writers. It tells the bytes that the writer tells, which a writer to
/// the outside does not.
#[derive(Drop)]
pub struct HostSink<W: Write + Drop> {
    to: W,
    faults: u64,
}

impl<W: Write + Drop> HostSink<W> {
    /// A sink over this writer, without faults so far.
    pub fn new(to: W) -> HostSink<W>
        ensures { ⟦<HostSink<W> as Sink>⟧.faults result ≡ 0 }
    {
        HostSink { to, faults: 0 }
    }

    /// Lets the writer hand on what it holds back. A failure is a fault, as one of `put` is.
    pub fn flush(&mut self) -> Result<(), PutErr>
        ensures cause { HasCause (⟦<HostSink<W> as Sink>⟧.faults self.old) (⟦<HostSink<W> as Sink>⟧.faults self.new) result }
        ensures taken { Takes (⟦<HostSink<W> as Sink>⟧.taken self.old) (⟦<HostSink<W> as Sink>⟧.taken self.new) [] }
        ensures faults { ⟦<HostSink<W> as Sink>⟧.faults self.new ≡ faults_after (⟦<HostSink<W> as Sink>⟧.faults self.old) (is_err result) }
    {
        if self.to.flush().is_ok() {
            return Ok(());
        }
        self.faults = self.faults.saturating_add(1);
        Err(PutErr::Failed)
    }
}

/// Writes a piece to its end. Each turn writes at least one byte of it, or it is the last.
fn write_piece<W: Write>(to: &mut W, piece: &[u8]) -> Result<(), PutErr>
    ensures ok { OnOk result (Takes (W.contents to.old) (W.contents to.new) piece.now) }
    ensures failed { OnErr result (TakesPart (W.contents to.old) (W.contents to.new) piece.now) }
{
    let mut rest = piece;
    while !rest.is_empty() {
        match to.write(rest) {
            Ok(0) => return Err(PutErr::Failed),
            Ok(count) => rest = &rest[count..],
            Err(_) => return Err(PutErr::Failed),
        }
    }
    Ok(())
}

impl<W: Write + Drop> Sink for HostSink<W> {
    ghost taken = { λ sink. W.contents sink.to };

    ghost faults = { λ sink. sink.faults };

    /// The bytes may stay in the writer until `flush`.
    fn put(&mut self, piece: &[u8]) -> Result<(), PutErr> {
        if write_piece(&mut self.to, piece).is_ok() {
            return Ok(());
        }
        self.faults = self.faults.saturating_add(1);
        Err(PutErr::Failed)
    }
}
