// A determinant file, and what is asked of it.

#[derive(Clone, Copy, Debug)]
pub struct DayFile<'a> {
    // The whole file.
    pub bytes: &'a [u8],
    // The Operating Day, from 0 to 65,535; posting and working refuse any other.
    pub day: u32,
    // Whether null counts as zero for VSSVARIOL, URLLAG and URLLEAD.
    pub fill: bool,
}
