/// Which parts a date or time has (EXI 1.0, section 7.1.8).
#[derive(Clone, Copy, Debug, PartialEq, Eq)]
pub enum MomentKind {
    /// A year.
    GYear,
    /// A month of a year.
    GYearMonth,
    /// A day of a month of a year.
    Date,
    /// A day and a time of day.
    DateTime,
    /// A month of any year.
    GMonth,
    /// A day of a month of any year.
    GMonthDay,
    /// A day of any month.
    GDay,
    /// A time of any day.
    Time,
}

/// A date or time by its fields (EXI 1.0, section 7.1.8). A field that the kind does not have is 0.
#[derive(Clone, Copy, Debug, PartialEq, Eq)]
pub struct Moment {
    /// Which fields count.
    pub kind: MomentKind,
    /// The year; 0 and below are years before the year 1.
    pub year: i64,
    /// The month, 1 to 12.
    pub month: u8,
    /// The day, 1 to 31.
    pub day: u8,
    /// The hour, 0 to 24.
    pub hour: u8,
    /// The minute, 0 to 59.
    pub minute: u8,
    /// The second, 0 to 60.
    pub second: u8,
    /// The fraction of a second, as the number that its digits give when read backwards.
    pub fraction: Option<u128>,
    /// The zone in minutes east of UTC.
    pub zone: Option<i16>,
}
