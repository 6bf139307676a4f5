// The answers of the whole product: a value where every question was answered yes, or why the call was refused.
ghost use Rattle.std.specs.Prelude.{◌≡◌};
ghost use Rattle.limits.specs.Answer.{refusal_number, number_of};

// Why a call is refused: the first question that was answered no. Their numbers are fixed by `refusal_number`.
#[derive(Clone, Copy, Debug, PartialEq, Eq)]
pub enum Refusal {
    BadWindow,
    BadTimes,
    BadWait,
    Unsound,
    OddEvents,
    PartialRow,
    ShortAnswers,
    UnknownKind,
    BadArgument,
    WindowFull,
    NoRowLeft,
    IllegalCell,
    DataTableFull,
    NotOutstanding,
    AlreadyAcknowledged,
    TimerRunning,
    NoMessage,
    ReplyTableFull,
    SpanNotOutstanding,
    NothingReady,
    RecordFull,
    UnknownFrame,
    BadFrameLength,
    BadFrameWindow,
    BadFrameNumber,
    BadFrameLife,
    BadFrameSpan,
    ShortBuffer,
    BadInputLength,
    BadRecordLength,
    NoSuchPage,
    ShortPageBuffer,
    BadFile,
    SavedTwice,
    NoSuchLeg,
}

impl From<Refusal> for u8 {
    ghost from_gives = { λ refusal n. n ≡ refusal_number refusal };

    fn from(refusal: Refusal) -> u8 {
        match refusal {
            Refusal::BadWindow => 1,
            Refusal::BadTimes => 2,
            Refusal::BadWait => 3,
            Refusal::Unsound => 4,
            Refusal::OddEvents => 5,
            Refusal::PartialRow => 6,
            Refusal::ShortAnswers => 7,
            Refusal::UnknownKind => 8,
            Refusal::BadArgument => 9,
            Refusal::WindowFull => 10,
            Refusal::NoRowLeft => 11,
            Refusal::IllegalCell => 12,
            Refusal::DataTableFull => 13,
            Refusal::NotOutstanding => 14,
            Refusal::AlreadyAcknowledged => 15,
            Refusal::TimerRunning => 16,
            Refusal::NoMessage => 17,
            Refusal::ReplyTableFull => 18,
            Refusal::SpanNotOutstanding => 19,
            Refusal::NothingReady => 20,
            Refusal::RecordFull => 21,
            Refusal::UnknownFrame => 22,
            Refusal::BadFrameLength => 23,
            Refusal::BadFrameWindow => 24,
            Refusal::BadFrameNumber => 25,
            Refusal::BadFrameLife => 26,
            Refusal::BadFrameSpan => 27,
            Refusal::ShortBuffer => 28,
            Refusal::BadInputLength => 29,
            Refusal::BadRecordLength => 30,
            Refusal::NoSuchPage => 31,
            Refusal::ShortPageBuffer => 32,
            Refusal::BadFile => 33,
            Refusal::SavedTwice => 34,
            Refusal::NoSuchLeg => 35,
        }
    }
}

// The number of an answer, as it is written to an answer buffer or printed: 0 is done.
pub fn number<T>(answer: &Result<T, Refusal>) -> u8
    ensures { result ≡ number_of answer.now }
{
    match answer {
        Ok(_) => 0,
        Err(refusal) => u8::from(*refusal),
    }
}
