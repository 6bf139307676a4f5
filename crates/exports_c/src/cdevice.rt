// A mat and a pad for programs in C.
ghost use Rattle.clinks.specs.Asked.{asked};
ghost use Rattle.cdevices.specs.Devices.{cdevice};
ghost use Rattle.cdevices.specs.Calls.{MatOpen, MatSend, MatResend, MatReceive, MatTick, PadOpen, PadReceive, PadReply, PadTick};

use cdevices::cmat::{self, LentCMat};
use cdevices::cpad::{self, LentCPad};

// Stays (C interface): a program in C hands the parts of its struct over one by one, here and below.
#[unsafe(no_mangle)]
pub extern "C" fn matlink_lent_mat_open(
    limits: &mut [u16; 5],
    numbers: &mut [u16; 2],
    mark: &mut [u16; 32],
    timer: &mut [u16; 32],
    cell: &mut [u16; 512],
    window: u32,
    datalife: u32,
    replylife: u32,
    replywait: u32,
    resendwait: u32,
) -> u8
    ensures { MatOpen (asked window datalife replylife replywait resendwait)
        (cdevice limits.new numbers.new mark.new timer.new cell.new) result }
{
    let asked = clinks::asked_limits(window, datalife, replylife, replywait, resendwait);
    cmat::open(limits, numbers, mark, timer, cell, asked)
}

#[unsafe(no_mangle)]
pub extern "C" fn matlink_lent_mat_send(
    limits: &[u16; 5],
    numbers: &mut [u16; 2],
    mark: &mut [u16; 32],
    timer: &mut [u16; 32],
    cell: &mut [u16; 512],
    supply: &[u16],
    frame: &mut [u8],
    written: &mut usize,
) -> u8
    ensures { MatSend supply.now frame.old frame.new written.new
        (cdevice limits.now numbers.old mark.old timer.old cell.old)
        (cdevice limits.now numbers.new mark.new timer.new cell.new) result }
{
    let mut mat = LentCMat {
        limits,
        numbers,
        mark,
        timer,
        cell,
    };
    cmat::send(&mut mat, supply, frame, written)
}

#[unsafe(no_mangle)]
pub extern "C" fn matlink_lent_mat_resend(
    limits: &[u16; 5],
    numbers: &mut [u16; 2],
    mark: &mut [u16; 32],
    timer: &mut [u16; 32],
    cell: &mut [u16; 512],
    k: u32,
    frame: &mut [u8],
    written: &mut usize,
) -> u8
    ensures { MatResend k frame.old frame.new written.new
        (cdevice limits.now numbers.old mark.old timer.old cell.old)
        (cdevice limits.now numbers.new mark.new timer.new cell.new) result }
{
    let mut mat = LentCMat {
        limits,
        numbers,
        mark,
        timer,
        cell,
    };
    cmat::resend(&mut mat, k, frame, written)
}

#[unsafe(no_mangle)]
pub extern "C" fn matlink_lent_mat_receive(
    limits: &[u16; 5],
    numbers: &mut [u16; 2],
    mark: &mut [u16; 32],
    timer: &mut [u16; 32],
    cell: &mut [u16; 512],
    frame: &[u8],
    acknowledged: &mut usize,
) -> u8
    ensures { MatReceive frame.now acknowledged.new
        (cdevice limits.now numbers.old mark.old timer.old cell.old)
        (cdevice limits.now numbers.new mark.new timer.new cell.new) result }
{
    let mut mat = LentCMat {
        limits,
        numbers,
        mark,
        timer,
        cell,
    };
    cmat::receive(&mut mat, frame, acknowledged)
}

#[unsafe(no_mangle)]
pub extern "C" fn matlink_lent_mat_tick(
    limits: &[u16; 5],
    numbers: &mut [u16; 2],
    mark: &mut [u16; 32],
    timer: &mut [u16; 32],
    cell: &mut [u16; 512],
    d: u32,
) -> u8
    ensures { MatTick d
        (cdevice limits.now numbers.old mark.old timer.old cell.old)
        (cdevice limits.now numbers.new mark.new timer.new cell.new) result }
{
    let mut mat = LentCMat {
        limits,
        numbers,
        mark,
        timer,
        cell,
    };
    cmat::tick(&mut mat, d)
}

#[unsafe(no_mangle)]
pub extern "C" fn matlink_lent_pad_open(
    limits: &mut [u16; 5],
    numbers: &mut [u16; 1],
    mark: &mut [u16; 32],
    timer: &mut [u16; 32],
    cell: &mut [u16; 512],
    window: u32,
    datalife: u32,
    replylife: u32,
    replywait: u32,
    resendwait: u32,
) -> u8
    ensures { PadOpen (asked window datalife replylife replywait resendwait)
        (cdevice limits.new numbers.new mark.new timer.new cell.new) result }
{
    let asked = clinks::asked_limits(window, datalife, replylife, replywait, resendwait);
    cpad::open(limits, numbers, mark, timer, cell, asked)
}

#[unsafe(no_mangle)]
pub extern "C" fn matlink_lent_pad_receive(
    limits: &[u16; 5],
    numbers: &mut [u16; 1],
    mark: &mut [u16; 32],
    timer: &mut [u16; 32],
    cell: &mut [u16; 512],
    frame: &[u8],
    reply: &mut [u8],
    written: &mut usize,
) -> u8
    ensures { PadReceive frame.now reply.old reply.new written.new
        (cdevice limits.now numbers.old mark.old timer.old cell.old)
        (cdevice limits.now numbers.new mark.new timer.new cell.new) result }
{
    let mut pad = LentCPad {
        limits,
        numbers,
        mark,
        timer,
        cell,
    };
    cpad::receive(&mut pad, frame, reply, written)
}

#[unsafe(no_mangle)]
pub extern "C" fn matlink_lent_pad_reply(
    limits: &[u16; 5],
    numbers: &mut [u16; 1],
    mark: &mut [u16; 32],
    timer: &mut [u16; 32],
    cell: &mut [u16; 512],
    record: &mut [u16],
    reply: &mut [u8],
    rows: &mut usize,
    written: &mut usize,
) -> u8
    ensures { PadReply «record».old «record».new reply.old reply.new rows.new written.new
        (cdevice limits.now numbers.old mark.old timer.old cell.old)
        (cdevice limits.now numbers.new mark.new timer.new cell.new) result }
{
    let mut pad = LentCPad {
        limits,
        numbers,
        mark,
        timer,
        cell,
    };
    cpad::reply(&mut pad, record, reply, rows, written)
}

#[unsafe(no_mangle)]
pub extern "C" fn matlink_lent_pad_tick(
    limits: &[u16; 5],
    numbers: &mut [u16; 1],
    mark: &mut [u16; 32],
    timer: &mut [u16; 32],
    cell: &mut [u16; 512],
    d: u32,
) -> u8
    ensures { PadTick d
        (cdevice limits.now numbers.old mark.old timer.old cell.old)
        (cdevice limits.now numbers.new mark.new timer.new cell.new) result }
{
    let mut pad = LentCPad {
        limits,
        numbers,
        mark,
        timer,
        cell,
    };
    cpad::tick(&mut pad, d)
}
