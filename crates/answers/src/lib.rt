// What a call answers: four numbers, and how they pack into one for C.
#![tactic(auto)]

ghost use Rattle.std.specs.Prelude.{◌≡◌, ◌<◌};
ghost use Rattle.answers.specs.Answers.{InFields, packed, packed_part};
ghost use Rattle.answers.specs.Answers.{number_of, answer_of, done_of, answered, refused, done};

// The refusals of document 01's table, by their numbers there.
#[derive(Clone, Copy, Debug, PartialEq, Eq)]
pub enum Refusal {
    CommandShort = 1,
    SentShort = 2,
    ReceivedShort = 3,
    RecordFault = 4,
    AlreadyLoaded = 5,
    UnsoundImage = 6,
    WrongLength = 7,
}

impl From<Refusal> for u8 {
    ghost from_gives = { λ refusal number. number ≡ number_of refusal };

    fn from(refusal: Refusal) -> u8 {
        refusal as u8
    }
}

// The SCSI status CHECK CONDITION.
pub const CHECK_CONDITION: u8 = 0x02;

// Refusal (0 for none), SCSI status, bytes carried, objects crossed.
#[derive(Clone, Copy, Debug, PartialEq, Eq)]
pub struct Answer {
    pub refusal: u8,
    pub status: u8,
    pub carried: u32,
    pub crossed: u32,
}

// What a command that is not refused reports: its SCSI status, the bytes carried, and the objects crossed.
#[derive(Clone, Copy, Debug, PartialEq, Eq)]
pub struct Reply {
    pub status: u8,
    pub carried: u32,
    pub crossed: u32,
}

// The four numbers of a command's end.
impl From<Result<Reply, Refusal>> for Answer {
    ghost from_gives = { λ end answer. answer ≡ answer_of end };

    fn from(end: Result<Reply, Refusal>) -> Answer {
        match end {
            Ok(reply) => answered(reply.status, reply.carried, reply.crossed),
            Err(refusal) => refused(refusal.into()),
        }
    }
}

// The four numbers of a house service's end.
impl From<Result<(), Refusal>> for Answer {
    ghost from_gives = { λ end answer. answer ≡ done_of end };

    fn from(end: Result<(), Refusal>) -> Answer {
        match end {
            Ok(()) => done(),
            Err(refusal) => refused(refusal.into()),
        }
    }
}

pub fn refused(number: u8) -> Answer
    ensures { result ≡ refused number }
{
    Answer {
        refusal: number,
        status: 0,
        carried: 0,
        crossed: 0,
    }
}

// Not refused: its SCSI status, the bytes carried, and the objects crossed.
pub fn answered(status: u8, carried: u32, crossed: u32) -> Answer
    ensures { result ≡ answered status carried crossed }
{
    Answer {
        refusal: 0,
        status,
        carried,
        crossed,
    }
}

pub fn done() -> Answer
    ensures { result ≡ done }
{
    answered(0, 0, 0)
}

pub fn pack(a: Answer) -> u64
    requires { InFields a }
    ensures { result ≡ packed a }
{
    let low = (a.carried as u64) + (a.refusal as u64) * 0x1_0000_0000;
    let bits = low + (a.crossed as u64) * 0x10_0000_0000;
    if a.status == CHECK_CONDITION {
        return bits + 0x8_0000_0000;
    }
    bits
}

// A part of a partition: where it starts, and its length.
pub fn pack_part(start: u32, len: u32) -> u64
    ensures { result ≡ packed_part start len }
{
    (start as u64) << 32 | len as u64
}
