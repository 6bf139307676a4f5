// The events of a link: what each asks and does, on a link whose arrays are lent and change in place.
#![tactic(auto)]

// The parts of a lent link, each with its arrays lent on. Whoever changes a part writes its numbers back.
// Stays (no plainer): each part has fields of its own.
macro_rules! lend_mat {
    ($link:expr) => {
        LentMat {
            oldest: $link.numbers.oldest,
            next: $link.numbers.next,
            marks: &mut *$link.marks,
            timers: &mut *$link.mattimers,
            cells: &mut *$link.matcells,
        }
    };
}

macro_rules! lend_pad {
    ($link:expr) => {
        LentPad {
            wanted: $link.numbers.wanted,
            held: &mut *$link.held,
            timers: &mut *$link.padtimers,
            cells: &mut *$link.padcells,
        }
    };
}

macro_rules! lend_datas {
    ($link:expr) => {
        LentTable {
            count: $link.numbers.datas,
            words: &mut *$link.datas,
            carries: PhantomData::<Data>,
        }
    };
}

macro_rules! lend_replies {
    ($link:expr) => {
        LentTable {
            count: $link.numbers.replies,
            words: &mut *$link.replies,
            carries: PhantomData::<Reply>,
        }
    };
}

pub mod airevents;
pub mod event;
pub mod matevents;
pub mod padevents;

use air::table::{DataTable, ReplyTable};
use limits::Limits;
use mat::Mat;
use pad::Pad;

// The mat, the pad and the messages in the air between them.
#[derive(Clone, Copy)]
pub struct Link {
    pub limits: Limits,
    pub mat: Mat,
    pub pad: Pad,
    pub datas: DataTable,
    pub replies: ReplyTable,
}

// The mat's two numbers, the pad's one, and how many messages each table has.
#[derive(Clone, Copy, Default)]
pub struct Numbers {
    pub oldest: usize,
    pub next: usize,
    pub wanted: usize,
    pub datas: usize,
    pub replies: usize,
}

// A link whose arrays are lent: those of the mat, those of the pad, and the words of the two tables. It holds the references itself:
// of those in a struct inside it, whoever lends would not learn what was written.
// Stays (no plainer): that it is sound is a premise of what each event promises and no invariant, since it is lent before question 4 is
// put of it; the same holds of a mat, a pad and a table that are lent.
#[derive(Drop)]
pub struct LentLink<'a> {
    pub limits: Limits,
    pub numbers: Numbers,
    pub marks: &'a mut [bool; 32],
    pub mattimers: &'a mut [u16; 32],
    pub matcells: &'a mut [u16; 512],
    pub held: &'a mut [bool; 32],
    pub padtimers: &'a mut [u16; 32],
    pub padcells: &'a mut [u16; 512],
    pub datas: &'a mut [u16; 576],
    pub replies: &'a mut [u16; 96],
}

// How many messages were put in a table, arrived, were lost, and were dropped as their life was over.
#[derive(Clone, Copy, Default)]
pub struct Account {
    pub put: usize,
    pub arrived: usize,
    pub lost: usize,
    pub dropped: usize,
}

// By how many rows sent, acknowledged and recorded rose, and the accounts of the two tables.
#[derive(Clone, Copy, Default)]
pub struct Counts {
    pub sent: usize,
    pub acknowledged: usize,
    pub recorded: usize,
    pub datas: Account,
    pub replies: Account,
}
