// The refusals of section 8 of the specification: one variant for each row of its table, in the same order.
#![tactic(auto)]

ghost use Rattle.std.specs.Prelude.{◌≡◌};
ghost use Rattle.refusals.specs.RefusedCalls.{number_of, value_of};

// Why a call was refused, with the number that is given beside it.
#[derive(Clone, Copy, Debug, PartialEq, Eq)]
pub enum Refusal {
    // 1: the track is above 83 or the side above 1.
    TrackOrSide,
    // 2: the number of cells, below 20,000 or above 131,072.
    CellCount(usize),
    // 3: the bytes that the cells need, where fewer are there.
    TooFewBytes(usize),
    // 4: the sectors on the track, above 64.
    TooManySectors(usize),
    // 5: the findings, more than the list holds.
    ListTooShort(usize),
    // 6: there are no timings.
    NoTimings,
    // 7: the timings, above 65,536.
    TooManyTimings(usize),
    // 8: the index of the first timing outside its range.
    TimingOutOfRange(usize),
    // 9: the cells in all, above 131,072.
    TooManyCells(usize),
    // 10: what there is too little room for: the bytes that the cells need, or the timings.
    NoRoom(usize),
    // 11: the sectors, none of which has the index asked for.
    NoSuchSector(usize),
    // 12: the sector has no data.
    NoData,
    // 13: the bytes needed, where there is too little room.
    NoRoomForBytes(usize),
    // 14: the bytes given, above 8,192 to code or 16,384 to decode.
    TooManyBytes(usize),
    // 15: not a track file.
    NotATrackFile,
    // 16: not a track block.
    NotATrackBlock,
    // 17: the block lacks the revolution.
    NoSuchRevolution,
    // 18: two reads of one sector differ in length.
    LengthsDiffer,
    // 19: the length of the reads is that of no sector.
    NotASectorLength,
    // 20: the cells of the list come to more than 131,072.
    TooLongATrack,
    // 21: a track and side is given twice.
    TrackGivenTwice,
    // 22: more than 168 tracks.
    TooManyTracks,
    // 23: a track file has a flux section.
    FluxSection,
    // 24: the track has no plain image: the first number from 1 to 9 that stands in the way, or 0.
    NoPlainImage(usize),
    // 25: what is given is no list of the tracks' findings.
    NotTheirFindings,
    // 26: not a SuperCard Pro image.
    NotAnImage,
    // 27: the place of the first byte of an image's header that is not taken.
    ImageHeader(usize),
    // 28: the first entry of an image whose block is not where it can stand.
    ImageEntry(usize),
    // 29: the sum of an image's bytes, where its header says another one.
    ImageCheckSum(usize),
}

impl Refusal {
    // The refusal's number, the K of rule 8.K.
    pub fn number(self) -> u32
        ensures { result ≡ number_of self }
    {
        match self {
            Refusal::TrackOrSide => 1,
            Refusal::CellCount(_) => 2,
            Refusal::TooFewBytes(_) => 3,
            Refusal::TooManySectors(_) => 4,
            Refusal::ListTooShort(_) => 5,
            Refusal::NoTimings => 6,
            Refusal::TooManyTimings(_) => 7,
            Refusal::TimingOutOfRange(_) => 8,
            Refusal::TooManyCells(_) => 9,
            Refusal::NoRoom(_) => 10,
            Refusal::NoSuchSector(_) => 11,
            Refusal::NoData => 12,
            Refusal::NoRoomForBytes(_) => 13,
            Refusal::TooManyBytes(_) => 14,
            Refusal::NotATrackFile => 15,
            Refusal::NotATrackBlock => 16,
            Refusal::NoSuchRevolution => 17,
            Refusal::LengthsDiffer => 18,
            Refusal::NotASectorLength => 19,
            Refusal::TooLongATrack => 20,
            Refusal::TrackGivenTwice => 21,
            Refusal::TooManyTracks => 22,
            Refusal::FluxSection => 23,
            Refusal::NoPlainImage(_) => 24,
            Refusal::NotTheirFindings => 25,
            Refusal::NotAnImage => 26,
            Refusal::ImageHeader(_) => 27,
            Refusal::ImageEntry(_) => 28,
            Refusal::ImageCheckSum(_) => 29,
        }
    }

    // What is given beside the refusal.
    pub fn value(self) -> usize
        ensures { result ≡ value_of self }
    {
        match self {
            Refusal::TrackOrSide => 0,
            Refusal::CellCount(cells) => cells,
            Refusal::TooFewBytes(needed) => needed,
            Refusal::TooManySectors(sectors) => sectors,
            Refusal::ListTooShort(findings) => findings,
            Refusal::NoTimings => 0,
            Refusal::TooManyTimings(timings) => timings,
            Refusal::TimingOutOfRange(index) => index,
            Refusal::TooManyCells(cells) => cells,
            Refusal::NoRoom(needed) => needed,
            Refusal::NoSuchSector(sectors) => sectors,
            Refusal::NoData => 0,
            Refusal::NoRoomForBytes(needed) => needed,
            Refusal::TooManyBytes(given) => given,
            Refusal::NotATrackFile => 0,
            Refusal::NotATrackBlock => 0,
            Refusal::NoSuchRevolution => 0,
            Refusal::LengthsDiffer => 0,
            Refusal::NotASectorLength => 0,
            Refusal::TooLongATrack => 0,
            Refusal::TrackGivenTwice => 0,
            Refusal::TooManyTracks => 0,
            Refusal::FluxSection => 0,
            Refusal::NoPlainImage(number) => number,
            Refusal::NotTheirFindings => 0,
            Refusal::NotAnImage => 0,
            Refusal::ImageHeader(place) => place,
            Refusal::ImageEntry(entry) => entry,
            Refusal::ImageCheckSum(sum) => sum,
        }
    }
}
