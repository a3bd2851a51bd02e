// The eighteen sense bytes: made from their parts, taken apart again, and what a command tells by them; the same parts in descriptor form.
#![tactic(auto)]

mod descriptors;

ghost use Rattle.std.specs.Prelude.{◌≡◌, true, ◌&&◌, ℤ};
ghost use Rattle.std.proofs.Math.IntN.{sub_ℕ};
ghost use Rattle.words.specs.Signed.{fits32};
ghost use Rattle.sense.specs.Sense.{byte0, flag_bits, byte2, sense_bytes, parts_of, Shows, empty_sense, attention_sense};
ghost use Rattle.sense.specs.Sense.{reports, told, plainly};

pub use descriptors::{BOTH_LENGTH, STREAM_LENGTH, stream_alone, with_information};

// How many bytes a sense has.
pub const SENSE_LENGTH: usize = 18;

// The sense keys.
pub const NO_SENSE: u8 = 0x0;

pub const NOT_READY: u8 = 0x2;

pub const ILLEGAL_REQUEST: u8 = 0x5;

pub const UNIT_ATTENTION: u8 = 0x6;

pub const DATA_PROTECT: u8 = 0x7;

pub const BLANK_CHECK: u8 = 0x8;

pub const VOLUME_OVERFLOW: u8 = 0xd;

// The additional sense codes and their qualifiers: ASC 00h, and what goes with it.
pub const NO_ADDITIONAL: u8 = 0x00;

pub const UNQUALIFIED: u8 = 0x00;

pub const FILEMARK_DETECTED: u8 = 0x01;

pub const END_OF_PARTITION: u8 = 0x02;

pub const BEGINNING_OF_PARTITION: u8 = 0x04;

pub const END_OF_DATA_DETECTED: u8 = 0x05;

// Those that go unqualified.
pub const LIST_LENGTH_ERROR: u8 = 0x1a;

pub const INVALID_OPERATION_CODE: u8 = 0x20;

pub const INVALID_FIELD: u8 = 0x24;

pub const INVALID_LIST_FIELD: u8 = 0x26;

pub const WRITE_PROTECTED: u8 = 0x27;

pub const MEDIUM_NOT_PRESENT: u8 = 0x3a;

// The bits of byte 2, and how many bytes follow byte 7.
const FILEMARK: u8 = 0x80;

const EOM: u8 = 0x40;

const ILI: u8 = 0x20;

const ADDITIONAL_LENGTH: u8 = 0x0a;

// FILEMARK, EOM and ILI.
#[derive(Clone, Copy, Debug, PartialEq, Eq)]
pub struct Flags {
    pub filemark: bool,
    pub eom: bool,
    pub ili: bool,
}

impl Flags {
    pub const NONE: Flags = Flags {
        filemark: false,
        eom: false,
        ili: false,
    };

    pub const FILEMARK: Flags = Flags {
        filemark: true,
        ..Flags::NONE
    };

    pub const EOM: Flags = Flags {
        eom: true,
        ..Flags::NONE
    };

    pub const ILI: Flags = Flags {
        ili: true,
        ..Flags::NONE
    };
}

// A sense key, ASC and ASCQ. They stay numbers, and no enum: a sense is told with any three, and eighteen bytes taken apart hold any.
#[derive(Clone, Copy, Debug, PartialEq, Eq)]
pub struct Code {
    pub key: u8,
    pub asc: u8,
    pub ascq: u8,
}

// What the drive tells, condition by condition.
impl Code {
    pub const NO_ADDITIONAL: Code = Code {
        key: NO_SENSE,
        asc: NO_ADDITIONAL,
        ascq: UNQUALIFIED,
    };

    pub const FILEMARK_DETECTED: Code = Code {
        ascq: FILEMARK_DETECTED,
        ..Code::NO_ADDITIONAL
    };

    pub const END_OF_PARTITION: Code = Code {
        ascq: END_OF_PARTITION,
        ..Code::NO_ADDITIONAL
    };

    pub const BEGINNING_OF_PARTITION: Code = Code {
        ascq: BEGINNING_OF_PARTITION,
        ..Code::NO_ADDITIONAL
    };

    pub const END_OF_DATA: Code = Code {
        key: BLANK_CHECK,
        asc: NO_ADDITIONAL,
        ascq: END_OF_DATA_DETECTED,
    };

    pub const VOLUME_OVERFLOW: Code = Code {
        key: VOLUME_OVERFLOW,
        ..Code::END_OF_PARTITION
    };

    pub const MEDIUM_NOT_PRESENT: Code = Code {
        key: NOT_READY,
        asc: MEDIUM_NOT_PRESENT,
        ascq: UNQUALIFIED,
    };

    pub const INVALID_FIELD: Code = Code {
        key: ILLEGAL_REQUEST,
        asc: INVALID_FIELD,
        ascq: UNQUALIFIED,
    };

    pub const INVALID_LIST_FIELD: Code = Code {
        asc: INVALID_LIST_FIELD,
        ..Code::INVALID_FIELD
    };

    pub const INVALID_OPERATION_CODE: Code = Code {
        asc: INVALID_OPERATION_CODE,
        ..Code::INVALID_FIELD
    };

    pub const LIST_LENGTH_ERROR: Code = Code {
        asc: LIST_LENGTH_ERROR,
        ..Code::INVALID_FIELD
    };

    pub const WRITE_PROTECTED: Code = Code {
        key: DATA_PROTECT,
        asc: WRITE_PROTECTED,
        ascq: UNQUALIFIED,
    };
}

// The parts of a sense. The information stands beside VALID, and not in an `Option`: eighteen bytes have it also where VALID is 0.
#[derive(Clone, Copy, Debug, PartialEq, Eq)]
pub struct Sense {
    pub valid: bool,
    pub filemark: bool,
    pub eom: bool,
    pub ili: bool,
    pub key: u8,
    pub information: u32,
    pub asc: u8,
    pub ascq: u8,
}

impl Sense {
    // Byte 0: F0h with VALID, else 70h.
    fn byte0(self) -> u8
        ensures { result ≡ byte0 self }
    {
        ((self.valid as u8) << 7) | 0x70
    }

    // FILEMARK 80h, EOM 40h, ILI 20h.
    fn flag_bits(self) -> u8
        ensures { result ≡ flag_bits self }
    {
        let f = (self.filemark as u8) << 7;
        let e = (self.eom as u8) << 6;
        let i = (self.ili as u8) << 5;
        f | e | i
    }

    // Byte 2: the flags, key below.
    #[tactic(auto, using(crate::proofs::Packing::with_key))]
    fn byte2(self) -> u8
        ensures { result ≡ byte2 self }
    {
        self.flag_bits() | (self.key & 0x0f)
    }
}

// The eighteen bytes of s.
impl From<Sense> for [u8; SENSE_LENGTH] {
    ghost from_gives = { λ s b. b ≡ sense_bytes s };

    #[tactic(auto, using(crate::proofs::Packing::sense_written))]
    fn from(s: Sense) -> [u8; SENSE_LENGTH] {
        let [b3, b4, b5, b6] = s.information.to_be_bytes();
        [
            s.byte0(),
            0,
            s.byte2(),
            b3,
            b4,
            b5,
            b6,
            ADDITIONAL_LENGTH,
            0,
            0,
            0,
            0,
            s.asc,
            s.ascq,
            0,
            0,
            0,
            0,
        ]
    }
}

// Eighteen bytes taken apart.
impl From<&[u8; SENSE_LENGTH]> for Sense {
    ghost from_gives = { λ b s. s ≡ parts_of b.now };

    #[tactic(auto, using(crate::proofs::Packing::parts_by_masks))]
    fn from(b: &[u8; SENSE_LENGTH]) -> Sense {
        let third = b[2];
        Sense {
            valid: b[0] >> 7 == 1,
            filemark: third & FILEMARK != 0,
            eom: third & EOM != 0,
            ili: third & ILI != 0,
            key: third & 0x0f,
            information: words::be32_at(b, 3),
            asc: b[12],
            ascq: b[13],
        }
    }
}

// The first number that 32 signed bits do not hold; its opposite is the least that they do.
pub const PAST_32_BITS: u32 = 0x8000_0000;

// Whether request - actual fits 32 signed bits.
#[tactic(auto, using(crate::proofs::Packing::fits_above, crate::proofs::Packing::fits_below))]
fn fits_32(request: u32, actual: u32) -> bool
    ensures { result ≡ fits32 (sub_ℕ request actual) }
{
    if actual <= request {
        request - actual < PAST_32_BITS
    } else {
        actual - request <= PAST_32_BITS
    }
}

// A residue in 32 bits: `Ok` where 32 signed bits hold it, else `Err`.
pub type Residue = Result<u32, u32>;

// The residue of a request and an actual that are not below zero: their difference.
pub fn residue_of(request: u32, actual: u32) -> Residue
    ensures { Shows result (sub_ℕ request actual) }
{
    let bits = words::difference(request, actual);
    if fits_32(request, actual) {
        Ok(bits)
    } else {
        Err(bits)
    }
}

// Whether a command that counts, with this key, reports a residue that fits.
#[tactic(auto, unfolding(crate::specs::Sense::reports))]
fn reports(key: u8) -> bool
    ensures { (z : ℤ) → result && fits32 z ≡ reports true key z }
{
    matches!(key, NO_SENSE | BLANK_CHECK | VOLUME_OVERFLOW)
}

// What a command tells: VALID and the residue where it reports one. `counts` says that it is READ, WRITE, WRITE FILEMARKS or SPACE: the
// residue of another command is not looked at.
#[tactic(auto, unfolding(crate::specs::Sense::told, crate::specs::Sense::reports))]
pub fn told(counts: bool, flags: Flags, code: Code, residue: Residue) -> Sense
    ensures { (z : ℤ) → (counts ≡ true → Shows residue z) → result ≡ told counts flags.filemark flags.eom flags.ili code.key code.asc code.ascq z }
{
    let reported = if counts && reports(code.key) {
        residue.ok()
    } else {
        None
    };
    Sense {
        valid: reported.is_some(),
        filemark: flags.filemark,
        eom: flags.eom,
        ili: flags.ili,
        key: code.key,
        information: reported.unwrap_or(0),
        asc: code.asc,
        ascq: code.ascq,
    }
}

// The sense with key, ASC and ASCQ alone.
pub fn plainly(code: Code) -> [u8; SENSE_LENGTH]
    ensures { result ≡ sense_bytes (plainly code.key code.asc code.ascq) }
{
    told(false, Flags::NONE, code, Ok(0)).into()
}

// The empty sense.
#[tactic(auto, unfolding(crate::specs::Sense::empty_sense))]
pub fn empty() -> [u8; SENSE_LENGTH]
    ensures { result ≡ empty_sense }
{
    plainly(Code::NO_ADDITIONAL)
}

// The sense of a waiting attention.
#[tactic(auto, unfolding(crate::specs::Sense::attention_sense))]
pub fn of_attention(attention: u8) -> [u8; SENSE_LENGTH]
    ensures { result ≡ attention_sense attention }
{
    plainly(Code {
        key: UNIT_ATTENTION,
        asc: attention,
        ascq: UNQUALIFIED,
    })
}
