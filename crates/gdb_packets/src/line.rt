//! A line to a debugger: what it sends is read and acknowledged, and answers are framed.
ghost use Rattle.std.specs.Prelude.{◌≡◌, ◌∷◌, ◌++◌, [], IfOk, OnOk, false, true, if◌then◌else◌};

use crate::frames::frame;
use crate::reader::{Reader, Told};
use rtr_types::Items;
use std::alloc::{AllocError, Global};

/// A line to a debugger. After want of memory it isn't to be used again.
#[derive(Drop)]
pub struct Line {
    reader: Reader,
    acks: bool,
    last: Items<u8>,
}

impl Line {
    ghost use Rattle.gdb_packets.specs.Frames.{Between, follow, framed, tells};
    ghost use Rattle.gdb_packets.specs.Readers.{event_of};
    ghost use Rattle.gdb_packets.specs.Lines.{Shows, Wire, acknowledged, payload_in};

    /// A line on which nothing has been sent. Frames are acknowledged. It is refused for want of memory alone.
    pub fn new(alloc: Global) -> Result<Line, AllocError>
        ensures { IfOk result (λ line. Shows (record { at = Between; acks = true; last = [] }) line) }
    {
        Ok(Line {
            reader: Reader::new(alloc)?,
            acks: true,
            last: Items::new(alloc),
        })
    }

    /// The payload of the packet that was told by the last byte.
    pub fn payload(&self) -> &[u8]
        ensures { result.now ≡ payload_in self.now }
    {
        self.reader.payload()
    }

    /// Takes the next byte, and tells what it comes to. Behind `out` is written what has to be said at once: whether
    /// a frame was good, or the last frame once more. It is refused for want of memory alone.
    pub fn hear(&mut self, byte: u8, out: &mut Vec<u8>) -> Result<Told, AllocError>
        ensures told { (wire : Wire) → Shows wire self.old →
            IfOk result (λ told. event_of told (payload_in self.new) ≡ tells wire.at byte) }
        ensures written { (wire : Wire) → Shows wire self.old →
            OnOk result (out.new.items ≡ out.old.items ++ acknowledged wire (tells wire.at byte)) }
        ensures follows { (wire : Wire) → Shows wire self.old →
            Shows (record wire { at = follow wire.at byte }) self.new }
    {
        let told = self.reader.feed(byte);
        match told {
            Told::Packet => self.acknowledge(out, b'+')?,
            Told::Broken => self.acknowledge(out, b'-')?,
            Told::Again => out.extend_from_slice(self.last.as_slice())?,
            Told::Nothing | Told::Interrupt => {}
        }
        Ok(told)
    }

    /// Writes the byte, where frames are acknowledged.
    fn acknowledge(&self, out: &mut Vec<u8>, byte: u8) -> Result<(), AllocError>
        ensures { OnOk result (out.new.items ≡ out.old.items ++ (if self.now.acks then byte ∷ [] else [])) }
    {
        if self.acks {
            out.push(byte)?;
        }
        Ok(())
    }

    /// Writes an answer in its frame behind `out`. It is refused for want of memory alone.
    pub fn answer(
        &mut self,
        alloc: Global,
        payload: &[u8],
        out: &mut Vec<u8>,
    ) -> Result<(), AllocError>
        ensures written { OnOk result (out.new.items ≡ out.old.items ++ framed payload.now) }
        ensures last { (wire : Wire) → Shows wire self.old →
            OnOk result (Shows (record wire { last = framed payload.now }) self.new) }
    {
        let bytes = frame(alloc, payload)?;
        out.extend_from_slice(bytes.as_slice())?;
        self.last = bytes;
        Ok(())
    }

    /// From here on nothing is acknowledged.
    pub fn stop_acks(&mut self)
        ensures { (wire : Wire) → Shows wire self.old → Shows (record wire { acks = false }) self.new }
    {
        self.acks = false;
    }
}
