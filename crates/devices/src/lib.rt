// A mat and a pad by themselves, for a device that holds one of them: frames go in and out. Each call puts question 4 first. A
// refused call leaves the device and what was lent to it as they were.
#![tactic(auto)]

ghost use Rattle.std.specs.Prelude.{◌≡◌};
ghost use Rattle.devices.specs.Mats as mats;
ghost use Rattle.devices.specs.Pads as pads;

mod frame;
pub mod lentmat;
pub mod lentpad;

use limits::Limits;
use limits::answer::Refusal;
use mat::Mat;
use mat::lentmat::LentMat;
use pad::Pad;
use pad::lentpad::LentPad;

// A mat with the limits of its link.
#[derive(Clone, Copy)]
pub struct MatDevice {
    pub limits: Limits,
    pub mat: Mat,
}

// A pad with the limits of its link.
#[derive(Clone, Copy)]
pub struct PadDevice {
    pub limits: Limits,
    pub pad: Pad,
}

// `rows` rows were recorded, and a reply frame of `written` bytes was written.
#[derive(Clone, Copy)]
pub struct Recorded {
    pub rows: usize,
    pub written: usize,
}

// A device's mat or pad, its arrays lent where they are.
macro_rules! lend_mat {
    ($x:expr) => {
        LentMat {
            oldest: $x.mat.oldest,
            next: $x.mat.next,
            marks: &mut $x.mat.marks,
            timers: &mut $x.mat.timers,
            cells: &mut $x.mat.cells,
        }
    };
}

macro_rules! lend_pad {
    ($x:expr) => {
        LentPad {
            wanted: $x.pad.wanted,
            held: &mut $x.pad.held,
            timers: &mut $x.pad.timers,
            cells: &mut $x.pad.cells,
        }
    };
}

impl MatDevice {
    // A fresh mat with the limits asked for: 1, 2, 3.
    pub fn open(asked: Limits) -> Result<MatDevice, Refusal>
        ensures { mats.Opened asked result }
    {
        let limits = limits::accept(asked)?;
        Ok(MatDevice {
            limits,
            mat: Mat::fresh(),
        })
    }

    // The first row of the supply is sent: 4, 6, 10, 11, 12, 28. Writes its frame, and tells how many bytes that are.
    pub fn send(&mut self, supply: &[u16], frame: &mut [u8]) -> Result<usize, Refusal>
        ensures { mats.SendCall self.old supply.now frame.old self.new frame.new result }
    {
        let mut lent = lend_mat!(self);
        let sent = lentmat::send(self.limits, &mut lent, supply, frame);
        self.mat.next = lent.next;
        sent
    }

    // The kept row oldest + k is sent again: 4, 14, 15, 16, 28. Writes its frame.
    pub fn resend(&mut self, k: usize, frame: &mut [u8]) -> Result<usize, Refusal>
        ensures { mats.ResendCall self.old k frame.old self.new frame.new result }
    {
        let mut lent = lend_mat!(self);
        lentmat::resend(self.limits, &mut lent, k, frame)
    }

    // Any bytes arrive: 4, those of the frame, 19. Tells by how many rows oldest rose.
    pub fn receive(&mut self, bytes: &[u8]) -> Result<usize, Refusal>
        ensures { mats.ReceiveCall self.old bytes.now self.new result }
    {
        let mut lent = lend_mat!(self);
        let passed = lentmat::receive(self.limits, &mut lent, bytes);
        self.mat.oldest = lent.oldest;
        passed
    }

    // Every resend timer falls by d: 4, 9.
    pub fn tick(&mut self, d: u16) -> Result<(), Refusal>
        ensures { mats.TickCall self.old d self.new result }
    {
        lentmat::tick(self.limits, &mut lend_mat!(self), d)
    }
}

impl PadDevice {
    // A fresh pad with the limits asked for: 1, 2, 3.
    pub fn open(asked: Limits) -> Result<PadDevice, Refusal>
        ensures { pads.Opened asked result }
    {
        let limits = limits::accept(asked)?;
        Ok(PadDevice {
            limits,
            pad: Pad::fresh(),
        })
    }

    // Any bytes arrive: 4, those of the frame, and for an old row 28. The row is held, or the reply frame for an old one is written.
    // Tells how many bytes that are, 0 for a row that is held.
    pub fn receive(&mut self, bytes: &[u8], reply: &mut [u8]) -> Result<usize, Refusal>
        ensures { pads.ReceiveCall self.old bytes.now reply.old self.new reply.new result }
    {
        let mut lent = lend_pad!(self);
        lentpad::receive(self.limits, &mut lent, bytes, reply)
    }

    // The run of rows at wanted is written to the record's front, and the reply frame for it to the buffer's: 4, 20, 21, 28.
    pub fn reply(&mut self, record: &mut [u16], reply: &mut [u8]) -> Result<Recorded, Refusal>
        ensures { pads.ReplyCall self.old «record».old reply.old self.new «record».new reply.new result }
    {
        let mut lent = lend_pad!(self);
        let recorded = lentpad::reply(self.limits, &mut lent, record, reply);
        self.pad.wanted = lent.wanted;
        recorded
    }

    // Every reply timer falls by d: 4, 9.
    pub fn tick(&mut self, d: u16) -> Result<(), Refusal>
        ensures { pads.TickCall self.old d self.new result }
    {
        lentpad::tick(self.limits, &mut lend_pad!(self), d)
    }
}
