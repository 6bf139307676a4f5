// The static library for C: each call of `exports`, `cdevices`, `cframes` and `cfiles` under its name, with its contract.
#![tactic(auto)]

ghost use Rattle.clinks.specs.Links.{clink};
ghost use Rattle.clinks.specs.Asked.{asked};
ghost use Rattle.exports.specs.Calls.{OpenCall, StepCall, RunCall, RideCall};

pub mod cdevice;
pub mod cfile;
pub mod cframe;
pub mod cpage;

use clinks::LentCLink;
use exports::CCounts;

// Stays (C interface): a program in C hands the parts of its struct over one by one.
#[unsafe(no_mangle)]
pub extern "C" fn matlink_lent_open(
    head: &mut [u16; 10],
    matmark: &mut [u16; 32],
    mattimer: &mut [u16; 32],
    matcell: &mut [u16; 512],
    padmark: &mut [u16; 32],
    padtimer: &mut [u16; 32],
    padcell: &mut [u16; 512],
    datas: &mut [u16; 576],
    replies: &mut [u16; 96],
    window: u32,
    datalife: u32,
    replylife: u32,
    replywait: u32,
    resendwait: u32,
) -> u8
    ensures { OpenCall (asked window datalife replylife replywait resendwait)
        (clink head.new matmark.new mattimer.new matcell.new
        padmark.new padtimer.new padcell.new datas.new replies.new) result }
{
    let asked = clinks::asked_limits(window, datalife, replylife, replywait, resendwait);
    let mut link = LentCLink {
        head,
        matmark,
        mattimer,
        matcell,
        padmark,
        padtimer,
        padcell,
        datas,
        replies,
    };
    exports::open(&mut link, asked)
}

// Stays (C interface): as in `matlink_lent_open`.
#[unsafe(no_mangle)]
pub extern "C" fn matlink_lent_step(
    head: &mut [u16; 10],
    matmark: &mut [u16; 32],
    mattimer: &mut [u16; 32],
    matcell: &mut [u16; 512],
    padmark: &mut [u16; 32],
    padtimer: &mut [u16; 32],
    padcell: &mut [u16; 512],
    datas: &mut [u16; 576],
    replies: &mut [u16; 96],
    kind: u32,
    argument: u32,
    supply: &[u16],
    record: &mut [u16],
    counts: &mut CCounts,
) -> u8
    ensures { StepCall kind argument supply.now «record».old «record».new
        (clink head.old matmark.old mattimer.old matcell.old
        padmark.old padtimer.old padcell.old datas.old replies.old)
        (clink head.new matmark.new mattimer.new matcell.new
        padmark.new padtimer.new padcell.new datas.new replies.new) counts.new result }
{
    let mut link = LentCLink {
        head,
        matmark,
        mattimer,
        matcell,
        padmark,
        padtimer,
        padcell,
        datas,
        replies,
    };
    exports::step(&mut link, kind, argument, supply, record, counts)
}

// Stays (C interface): as in `matlink_lent_open`.
#[unsafe(no_mangle)]
pub extern "C" fn matlink_lent_run(
    head: &mut [u16; 10],
    matmark: &mut [u16; 32],
    mattimer: &mut [u16; 32],
    matcell: &mut [u16; 512],
    padmark: &mut [u16; 32],
    padtimer: &mut [u16; 32],
    padcell: &mut [u16; 512],
    datas: &mut [u16; 576],
    replies: &mut [u16; 96],
    events: &[u8],
    supply: &[u16],
    record: &mut [u16],
    answers: &mut [u8],
    counts: &mut CCounts,
) -> u8
    ensures { RunCall events.now supply.now «record».old «record».new answers.old answers.new
        (clink head.old matmark.old mattimer.old matcell.old
        padmark.old padtimer.old padcell.old datas.old replies.old)
        (clink head.new matmark.new mattimer.new matcell.new
        padmark.new padtimer.new padcell.new datas.new replies.new) counts.new result }
{
    let mut link = LentCLink {
        head,
        matmark,
        mattimer,
        matcell,
        padmark,
        padtimer,
        padcell,
        datas,
        replies,
    };
    exports::run(&mut link, events, supply, record, answers, counts)
}

// Stays (C interface): the limits are numbers of 32 bits, one by one.
#[unsafe(no_mangle)]
pub extern "C" fn matlink_lent_ride(
    window: u32,
    datalife: u32,
    replylife: u32,
    replywait: u32,
    resendwait: u32,
    events: &[u8],
    supply: &[u16],
    record: &mut [u16],
    answers: &mut [u8],
    counts: &mut CCounts,
) -> u8
    ensures { RideCall (asked window datalife replylife replywait resendwait) events.now supply.now
        «record».old «record».new answers.old answers.new counts.new result }
{
    exports::ride(
        clinks::asked_limits(window, datalife, replylife, replywait, resendwait),
        events,
        supply,
        record,
        answers,
        counts,
    )
}
