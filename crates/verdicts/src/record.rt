// The record that a build of rules hands back: the destination trie's own, and the E of all tries.
use walk::Record;

#[derive(Clone, Copy, Default)]
#[repr(C)]
pub struct RuleRecord {
    pub dest: Record,
    pub elements: u32,
}
