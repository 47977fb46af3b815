// The record that a build hands back beside its element rows: width, level limit k, number of rows E,
// floor, and the strides (unused places 0; a variable build fills only the first, the root's).
use crate::limits::LEVELS;

#[derive(Clone, Copy, Debug, Default, PartialEq, Eq)]
#[repr(C)]
pub struct Record {
    pub width: u32,
    pub levels: u32,
    pub elements: u32,
    pub floor: u16,
    pub strides: [u8; LEVELS as usize],
}
