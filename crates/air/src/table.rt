// The two tables. Each call puts question 4 first: to the limits, the table and the message handed to it.
ghost use Rattle.std.specs.Prelude.{◌≡◌, ◌&&◌, ◌∷◌, replicate};
ghost use Rattle.limits.specs.Questions.{ask, time_questions};
ghost use Rattle.limits.specs.Limits.{sound_limits};
ghost use Rattle.limits.specs.Tables.{put, remove, age};
ghost use Rattle.air.specs.Rules.{room_questions, place_questions};
ghost use Rattle.air.specs.Forms.{sound_of};
ghost use Rattle.air.specs.Tables.{table_of, table_messages, sound_in, TableCall, TableReading};

use crate::lent;
use crate::messages::Roomy;
use limits::Limits;
use limits::answer::Refusal;
use limits::messages::{Data, Message, Reply};
use std::marker::PhantomData;

// A table's count and its words, lent where they are, one by one, as `mat_parts` of the mat.
#[macro_export]
macro_rules! table_parts {
    ($table:expr) => {
        ($table.count, &mut $table.words)
    };
}

// Message p stands at p times the words of a message, its life first.
// Stays (fixed memory): a count beside an array of words, here and in what lends them; programs in C have both apart.
#[derive(Clone, Copy)]
pub struct Table<M, const N: usize> {
    pub count: usize,
    pub words: [u16; N],
    carries: PhantomData<M>,
}

pub type DataTable = Table<Data, 576>;

pub type ReplyTable = Table<Reply, 96>;

impl<M: Roomy<N>, const N: usize> Table<M, N> {
    // The table hands out and takes back its insides itself.
    pub fn count_of(&self) -> usize
        ensures { result ≡ self.now.count }
    {
        self.count
    }

    pub fn words_of(&self) -> [u16; N]
        ensures { result ≡ self.now.words }
    {
        self.words
    }

    pub fn assembled(count: usize, words: [u16; N]) -> Self
        ensures { result ≡ table_of count words.entry }
    {
        Table {
            count,
            words,
            carries: PhantomData,
        }
    }

    // The count that a call on the parts left.
    pub fn recount(&mut self, count: usize)
        ensures { self.new ≡ table_of count self.old.words }
    {
        self.count = count;
    }

    pub fn empty() -> Self
        ensures { result ≡ table_of 0 (replicate N 0) }
    {
        Table::assembled(0, [0; N])
    }

    // Question 4 of limits and a table.
    pub fn is_sound(&self, l: Limits) -> bool
        ensures { result ≡ (sound_limits l && sound_in M.form l self.now) }
    {
        lent::is_sound::<M>(l, self.count, &self.words)
    }

    // A message is put at the table's end: 4, then 13 or 18.
    pub fn put(&mut self, l: Limits, message: Message<M>) -> Result<(), Refusal>
        ensures { TableCall M.form l
            (ask 4 (sound_limits l && (sound_in M.form l self.old && sound_of M.form l message)) ∷ room_questions M.form.full (table_messages M.form self.old))
            (put message (table_messages M.form self.old)) result self.old self.new }
    {
        lent::put(l, &mut self.count, &mut self.words, message)
    }

    // Message p: 4, 17.
    pub fn read(&self, l: Limits, p: usize) -> Result<Message<M>, Refusal>
        ensures { TableReading M.form self.now p
            (ask 4 (sound_limits l && sound_in M.form l self.now) ∷ place_questions p (table_messages M.form self.now)) result }
    {
        lent::found::<M>(l, self.count, &self.words, p)?;
        Ok(lent::message_at::<M>(&self.words, p))
    }

    // Message p leaves, and the gap is closed. It is asked for as it is to be read: 4, 17.
    pub fn remove(&mut self, l: Limits, p: usize) -> Result<(), Refusal>
        ensures { TableCall M.form l
            (ask 4 (sound_limits l && sound_in M.form l self.old) ∷ place_questions p (table_messages M.form self.old))
            (remove p (table_messages M.form self.old)) result self.old self.new }
    {
        lent::remove::<M>(l, &mut self.count, &mut self.words, p)
    }

    // Lives fall by d, and messages with no life left go: 4, 9.
    pub fn tick(&mut self, l: Limits, d: u16) -> Result<(), Refusal>
        ensures { TableCall M.form l
            (ask 4 (sound_limits l && sound_in M.form l self.old) ∷ time_questions d)
            (age d (table_messages M.form self.old)) result self.old self.new }
    {
        lent::tick::<M>(l, &mut self.count, &mut self.words, d)
    }
}
