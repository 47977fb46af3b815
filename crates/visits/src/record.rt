// The record that a bitmap build hands back beside its rows: width, number of supernodes, number of hops.
#[derive(Clone, Copy, Debug, Default, PartialEq, Eq)]
#[repr(C)]
pub struct Bitmap {
    pub width: u32,
    pub supernodes: u32,
    pub hops: u32,
}
