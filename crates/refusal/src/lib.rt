// The refusals of the calls, and the number and the place that each is reported with.
#![tactic(auto)]

ghost use Rattle.std.specs.Prelude.{◌≡◌};
ghost use Rattle.refusal.specs.Numbers.{number_of, place_of};

#[derive(Clone, Copy, Debug, PartialEq, Eq)]
pub enum Refusal {
    // The recording's length is not a multiple of 16 bytes.
    PartialRecord,
    // The recording has over 4,096 records.
    TooManyRecords,
    // The record with this index is the first out of its rules.
    BadRecord(usize),
    // The recording has no record.
    NoRecord,
    // The text is empty or over 256 bytes long.
    TextLength,
    // The text has no reading.
    NoReading,
    // The text has over 32 nodes, or over 16 brackets open at some byte.
    TextTooLarge,
    // Some node's set at some record has too many runs.
    TooManyRuns,
    // Differences are asked for of a curve with over 256 tops.
    TooManyTops,
    // The output is shorter than the result.
    ShortOutput,
    // The marks are not 4 bytes each, over 8, or too large.
    BadMarks,
    // The target is off the axis, or the curve number is not 0 or 1.
    BadTarget,
    // The order sheet has an odd length, over 32 lines, or a number that is not 1 to 16.
    BadSheet,
    // A laboratory may not ask this: the text names B, `cross`, `crossup` or `lag`, holds F, G, X, U or W, or has an after-time that is no mark; a pair of tops of B.
    NotForLaboratory,
    // No report is under way: the named count is 0 or over 1,000, or a recording is handed in after the named count or after a refusal.
    NoReport,
    // The band is not 0 to 1,000,000 units.
    BadBand,
    // The text is not one question that is answered within a band, alone.
    NotBandQuestion,
    // The name of a moment is not 1 to 8, or is not set when going back.
    BadMoment,
    // The run with the new reading would hold over 128 kept readings.
    TooManyKept,
    // The summary is not in entries of 32 bytes, or has over 2,048 of them.
    BadSummary,
}

impl Refusal {
    // Its number in the table.
    pub fn number(self) -> u32
        ensures { result ≡ number_of self }
    {
        match self {
            Refusal::PartialRecord => 1,
            Refusal::TooManyRecords => 2,
            Refusal::BadRecord(_) => 3,
            Refusal::NoRecord => 4,
            Refusal::TextLength => 5,
            Refusal::NoReading => 6,
            Refusal::TextTooLarge => 7,
            Refusal::TooManyRuns => 8,
            Refusal::TooManyTops => 9,
            Refusal::ShortOutput => 10,
            Refusal::BadMarks => 11,
            Refusal::BadTarget => 12,
            Refusal::BadSheet => 13,
            Refusal::NotForLaboratory => 14,
            Refusal::NoReport => 15,
            Refusal::BadBand => 16,
            Refusal::NotBandQuestion => 17,
            Refusal::BadMoment => 18,
            Refusal::TooManyKept => 19,
            Refusal::BadSummary => 20,
        }
    }

    // The record's index for a bad record, else 0.
    pub fn place(self) -> usize
        ensures { result ≡ place_of self }
    {
        match self {
            Refusal::BadRecord(i) => i,
            _ => 0,
        }
    }
}
