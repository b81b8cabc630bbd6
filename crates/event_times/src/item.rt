// The items that a format of times consists of.
/// A part of a time that is written in one or two digits.
#[derive(Clone, Copy)]
pub enum TimeField {
    Month,
    Day,
    Hour,
    Minute,
    Second,
}

/// An item of a format of times, by what it reads of a text.
#[derive(Clone, Copy)]
pub enum TimeItem {
    /// A year in exactly four digits.
    Year,
    /// A part in exactly two digits.
    Two(TimeField),
    /// A part in two digits or in one.
    OneOrTwo(TimeField),
    /// The first three letters of the English name of a month, in any case.
    ShortMonth,
    /// The English name of a month, in any case.
    LongMonth,
    /// The decimals of the second, in exactly so many digits; more than nine read nothing.
    Fraction(u8),
    /// `Z`, or an offset from UTC: a sign, two digits of hours, and two of minutes, with or without a `:` between.
    Zone,
    /// A byte that stands for itself.
    Plain(u8),
    /// `T` or a blank.
    Mark,
    /// A `:` with the second in two digits behind it, or nothing.
    MaybeSecond,
    /// A `.` or a `,` with one to nine decimals of the second behind it, or nothing.
    MaybeFraction,
    /// What `Zone` reads, or nothing.
    MaybeZone,
}
