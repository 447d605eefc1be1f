// The records (rules L6 to L19, V18): a case for each telegram form, and a number for each value that it carries.
// A number is wide enough that a wrong one can be written down.
ghost use Rattle.std.specs.Prelude.{◌≡◌, length};
ghost use Rattle.records.specs.Records.{type_of, letter_of, fields_of, values_of, record_of};

// The packets F D C M V P, which K, O and 1 share. The watch, V, is its two characters as one number, the left times 256 plus the right.
#[derive(Clone, Copy)]
pub struct Radio {
    pub fc: u32,
    pub d: u32,
    pub c: u32,
    pub mode: u32,
    pub watch: u32,
    pub position: u32,
}

// Each case says the type letter of its telegram.
#[derive(Clone, Copy)]
pub enum Record {
    // A
    Approved(u32),
    // N
    Rejected(u32),
    // r
    Request(u32),
    // t
    Idling(u32),
    // c
    Test(u32),
    // 5
    Stop(u32),
    // o
    RadioFault(u32),
    // G
    Fault(u32),
    // F
    Position(u32),
    // n
    Train(u32),
    // B
    TrainData {
        length: u32,
        braking: u32,
        speed: u32,
        direction: u32,
    },
    // K
    RadioData(Radio),
    // O
    RadioUpdate(Radio, u32),
    // 1
    Transponder {
        radio: Radio,
        ceffect: u32,
        deffect: u32,
        sign: u32,
        country: u32,
    },
}

// The type letter of a record's telegram.
// Letters are u8, as a telegram has them. type_of to values_of are a match and no From each: docs/PROMISES.md names each with its definition.
pub fn type_of(rec: Record) -> u8
    ensures { result ≡ type_of rec }
{
    match rec {
        Record::Approved(_) => b'A',
        Record::Rejected(_) => b'N',
        Record::Request(_) => b'r',
        Record::Idling(_) => b't',
        Record::Test(_) => b'c',
        Record::Stop(_) => b'5',
        Record::RadioFault(_) => b'o',
        Record::Fault(_) => b'G',
        Record::Position(_) => b'F',
        Record::Train(_) => b'n',
        Record::TrainData { .. } => b'B',
        Record::RadioData(_) => b'K',
        Record::RadioUpdate(_, _) => b'O',
        Record::Transponder { .. } => b'1',
    }
}

// The letter of a record's first packet.
pub fn letter_of(rec: Record) -> u8
    ensures { result ≡ letter_of rec }
{
    match rec {
        Record::Approved(_) => b'A',
        Record::Rejected(_) => b'N',
        Record::Request(_) | Record::Idling(_) => b'B',
        Record::Test(_) => b'm',
        Record::Stop(_) => b'U',
        Record::RadioFault(_) => b'S',
        Record::Fault(_) => b'E',
        Record::Position(_) => b'P',
        Record::Train(_) => b'T',
        Record::TrainData { .. } => b'L',
        Record::RadioData(_) | Record::RadioUpdate(_, _) | Record::Transponder { .. } => b'F',
    }
}

// How many values a record has.
pub fn count_of(rec: Record) -> usize
    ensures { result ≡ length (fields_of rec) }
{
    match rec {
        Record::TrainData { .. } => 4,
        Record::RadioData(_) => 6,
        Record::RadioUpdate(_, _) => 7,
        Record::Transponder { .. } => 10,
        _ => 1,
    }
}

// The values of a record's packets, in their order, with 0 in the places behind them.
pub fn values_of(rec: Record) -> [u32; 10]
    ensures { result ≡ values_of rec }
{
    match rec {
        Record::Approved(n)
        | Record::Rejected(n)
        | Record::Request(n)
        | Record::Idling(n)
        | Record::Test(n)
        | Record::Stop(n)
        | Record::RadioFault(n)
        | Record::Fault(n)
        | Record::Position(n)
        | Record::Train(n) => [n, 0, 0, 0, 0, 0, 0, 0, 0, 0],
        Record::TrainData {
            length,
            braking,
            speed,
            direction,
        } => [length, braking, speed, direction, 0, 0, 0, 0, 0, 0],
        Record::RadioData(k) => [k.fc, k.d, k.c, k.mode, k.watch, k.position, 0, 0, 0, 0],
        Record::RadioUpdate(k, t) => [k.fc, k.d, k.c, k.mode, k.watch, k.position, t, 0, 0, 0],
        Record::Transponder {
            radio,
            ceffect,
            deffect,
            sign,
            country,
        } => [
            radio.fc,
            radio.d,
            radio.c,
            radio.mode,
            radio.watch,
            radio.position,
            ceffect,
            deffect,
            sign,
            country,
        ],
    }
}

// The six values that K, O and 1 begin with.
// No From: only the first six of the ten values are its own.
fn radio_of(v: [u32; 10]) -> Radio
    ensures { result ≡ Rattle.records.specs.Records.radio_of v }
{
    Radio {
        fc: v[0],
        d: v[1],
        c: v[2],
        mode: v[3],
        watch: v[4],
        position: v[5],
    }
}

// The record of a type letter and its values; a letter that no form has gives the record of A.
// So it is no TryFrom: any byte may ask, as a telegram has it.
#[tactic(auto, unfolding(crate::specs::Records::record_of))]
pub fn record_of(kind: u8, v: [u32; 10]) -> Record
    ensures { result ≡ record_of kind v }
{
    let first = v[0];
    match kind {
        b'N' => Record::Rejected(first),
        b'r' => Record::Request(first),
        b't' => Record::Idling(first),
        b'c' => Record::Test(first),
        b'5' => Record::Stop(first),
        b'o' => Record::RadioFault(first),
        b'G' => Record::Fault(first),
        b'F' => Record::Position(first),
        b'n' => Record::Train(first),
        b'B' => Record::TrainData {
            length: first,
            braking: v[1],
            speed: v[2],
            direction: v[3],
        },
        b'K' => Record::RadioData(radio_of(v)),
        b'O' => Record::RadioUpdate(radio_of(v), v[6]),
        b'1' => Record::Transponder {
            radio: radio_of(v),
            ceffect: v[6],
            deffect: v[7],
            sign: v[8],
            country: v[9],
        },
        _ => Record::Approved(first),
    }
}
