//! What a record tells.
ghost use Rattle.std.specs.Prelude.{◌≡◌, IfOk};

use std::alloc::Global;
use tb_base::{Frame, NoMemory, Why};

/// Something that happened in a tick of a guest.
#[derive(Drop)]
pub enum What {
    /// An instruction retired: its address and its word.
    Instr {
        pc: u32,
        word: u32,
    },
    /// A trap was taken: its cause, with bit 31 set for an interrupt, and the address where.
    Trap {
        cause: u32,
        pc: u32,
    },
    /// A disk request completed: the disk's number on its guest, the request's type, its sector,
    /// its data in bytes, and its status (virtio 1.2, section 5.2.6).
    DiskDone {
        disk: u32,
        kind: u32,
        sector: u64,
        bytes: u32,
        status: u8,
    },
    /// A frame that was taken by the pipe of a nic.
    Sent {
        nic: u32,
        frame: Frame,
    },
    /// A frame of so many bytes that the pipe of a nic had no room for.
    Dropped {
        nic: u32,
        len: u32,
    },
    /// A transmitted frame of a length that no frame has.
    BadFrame {
        nic: u32,
        len: u32,
    },
    /// A frame that was put into a receive buffer.
    Received {
        nic: u32,
        frame: Frame,
    },
    /// A frame of so many bytes that was lost, since the backlog of its nic was full.
    Backlogged {
        nic: u32,
        len: u32,
    },
    /// A byte sent by the UART.
    Uart {
        byte: u8,
    },
    /// The device in this virtio slot broke.
    Broken {
        slot: u32,
        why: Why,
    },
    /// The machine halted.
    Halted,
}

impl What {
    /// The same a second time.
    pub fn copy(&self, alloc: Global) -> Result<What, NoMemory>
        ensures { IfOk result (λ what. what ≡ self.now) }
    {
        Ok(match self {
            What::Instr { pc, word } => What::Instr {
                pc: *pc,
                word: *word,
            },
            What::Trap { cause, pc } => What::Trap {
                cause: *cause,
                pc: *pc,
            },
            What::DiskDone {
                disk,
                kind,
                sector,
                bytes,
                status,
            } => What::DiskDone {
                disk: *disk,
                kind: *kind,
                sector: *sector,
                bytes: *bytes,
                status: *status,
            },
            What::Sent { nic, frame } => What::Sent {
                nic: *nic,
                frame: frame.copy(alloc)?,
            },
            What::Dropped { nic, len } => What::Dropped {
                nic: *nic,
                len: *len,
            },
            What::BadFrame { nic, len } => What::BadFrame {
                nic: *nic,
                len: *len,
            },
            What::Received { nic, frame } => What::Received {
                nic: *nic,
                frame: frame.copy(alloc)?,
            },
            What::Backlogged { nic, len } => What::Backlogged {
                nic: *nic,
                len: *len,
            },
            What::Uart { byte } => What::Uart { byte: *byte },
            What::Broken { slot, why } => What::Broken {
                slot: *slot,
                why: *why,
            },
            What::Halted => What::Halted,
        })
    }
}
