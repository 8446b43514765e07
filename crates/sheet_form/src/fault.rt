// What is wrong with a sheet.

// A sheet that can't be read: the number of its fault.
// A number and no enum: it is the section's, and sheets differ in their sections.
#[derive(Clone, Copy, Debug, PartialEq, Eq)]
pub struct Fault {
    pub number: u32,
}
