ghost use Rattle.std.specs.Prelude.{◌≡◌, ◌<◌, ℕ, List, [], length, OnOk, OnErr};
ghost use Rattle.fx_edges.specs.Writing.{Wrote};
ghost use Rattle.fx_edges.specs.Gathered.{Gathered};

use crate::sink::{Sink, SinkFault, write_all};
use fx_amounts::Memory;
use std::alloc::Global;
use std::marker::Model;

/// The bytes that are gathered before a sink gets them.
const PIECE: usize = 65536;

/// The bytes that were written for a sink and not yet handed to it. They lie in one buffer, which is used again for each
/// piece. Contracts see them as a list.
#[derive(Drop)]
pub struct Pieces {
    held: Vec<u8>,
}

impl Model for Pieces {
    ghost Value = { List ℕ };

    ghost view = { λ p. p.held.items };
}

impl Pieces {
    /// No bytes. It takes no memory.
    pub fn new(alloc: Global) -> Pieces
        ensures { result ≡ [] }
    {
        Pieces {
            held: Vec::new(alloc),
        }
    }

    /// Writes a text behind what is held. The sink gets all of that once it is 64 KiB or more; a text that is so much by itself
    /// goes to the sink as it lies there. After a fault what is held is as it was, though the sink got a prefix of that and the
    /// text, so the rest is not to be written any more: the fault is `Failed` only where the sink's count of faults rose.
    pub fn put<K: Sink>(&mut self, text: &[u8], out: &mut K) -> Result<(), SinkFault>
        ensures gathered { Gathered K.written K.faults self.old out.old self.new out.new text.now result }
        ensures few { OnOk result (length self.new < 65536) }
        ensures unchanged { OnErr result (self.new ≡ self.old) }
    {
        if text.len() < PIECE {
            return self.hold(text, out);
        }
        if let Err(fault) = write_all(out, &self.held) {
            return Err(fault);
        }
        let wrote = write_all(out, text);
        if wrote.is_ok() {
            self.held.clear();
        }
        wrote
    }

    /// Holds a text behind what is held, and hands all of it to the sink where that is a piece.
    fn hold<K: Sink>(&mut self, text: &[u8], out: &mut K) -> Result<(), SinkFault>
        ensures gathered { Gathered K.written K.faults self.old out.old self.new out.new text.now result }
        ensures few { OnOk result (length self.new < 65536) }
        ensures unchanged { OnErr result (self.new ≡ self.old) }
    {
        let before = self.held.len();
        self.held.extend_from_slice(text).map_err(Memory::from)?;
        if self.held.len() < PIECE {
            return Ok(());
        }
        let handed = self.hand_on(out);
        if handed.is_err() {
            self.held.truncate(before);
        }
        handed
    }

    /// Hands the sink what is held. Faults are as those of `write_all`; after one what is held is as it was.
    pub fn hand_on<K: Sink>(&mut self, out: &mut K) -> Result<(), SinkFault>
        ensures wrote { Wrote K.written K.faults out.old out.new self.old result }
        ensures none { OnOk result (self.new ≡ []) }
        ensures memory { OnErr result (self.new ≡ self.old) }
    {
        match write_all(out, &self.held) {
            Ok(()) => {
                self.held.clear();
                Ok(())
            }
            Err(fault) => Err(fault),
        }
    }
}
