// The builds for C (01, "The element rows").
ghost use Rattle.strides.specs.Cheapest.{fixed, variable};
ghost use Rattle.walk.specs.Rows.{lists};
ghost use Rattle.table.specs.Answers.{Told};
ghost use Rattle.gateway.specs.Numbers.{build_numbers};
ghost use Rattle.gateway.specs.Allowed.{ExactBuild, AllowedBuild};

use gateway::{BuiltNumbers, Kind};
use table::Entries;
use walk::RowsMut;

// Turns a table into a record and element rows, one stride a level, with the least number E of rows: tests 1 to 7. Accepted, all
// of scratch is 0 and rows 0 to E - 1 are written. Refused, the record is 0 and no element changes; scratch is 0 after 7, else kept.
#[unsafe(no_mangle)]
pub extern "C" fn hongsamuk_build_fixed(
    width: u32,
    levels: u32,
    links: u16,
    value: &[u32],
    length: &[u8],
    hop: &[u16],
    scratch: &mut [u64],
    rowhops: &mut [u16],
    rowlens: &mut [u8],
    rowlinks: &mut [u32],
    rowstrides: &mut [u8],
) -> BuiltNumbers
    ensures exact { Told
        (ExactBuild fixed width levels links value.now length.now hop.now scratch.old
        (lists rowhops.old rowlens.old rowlinks.old rowstrides.old) scratch.new
        (lists rowhops.new rowlens.new rowlinks.new rowstrides.new)) build_numbers result }
    ensures meaning { Told
        (AllowedBuild fixed width levels links value.now length.now hop.now scratch.old
        (lists rowhops.old rowlens.old rowlinks.old rowstrides.old) scratch.new
        (lists rowhops.new rowlens.new rowlinks.new rowstrides.new)) build_numbers result }
{
    let entries = Entries { value, length, hop };
    let mut rows = RowsMut {
        hop: rowhops,
        length: rowlens,
        link: rowlinks,
        stride: rowstrides,
    };
    gateway::hongsamuk_build(
        Kind::Fixed,
        width,
        levels,
        links,
        entries,
        scratch,
        &mut rows,
    )
}

// The same with one stride a block: the record names the root's only.
#[unsafe(no_mangle)]
pub extern "C" fn hongsamuk_build_variable(
    width: u32,
    levels: u32,
    links: u16,
    value: &[u32],
    length: &[u8],
    hop: &[u16],
    scratch: &mut [u64],
    rowhops: &mut [u16],
    rowlens: &mut [u8],
    rowlinks: &mut [u32],
    rowstrides: &mut [u8],
) -> BuiltNumbers
    ensures exact { Told
        (ExactBuild variable width levels links value.now length.now hop.now scratch.old
        (lists rowhops.old rowlens.old rowlinks.old rowstrides.old) scratch.new
        (lists rowhops.new rowlens.new rowlinks.new rowstrides.new)) build_numbers result }
    ensures meaning { Told
        (AllowedBuild variable width levels links value.now length.now hop.now scratch.old
        (lists rowhops.old rowlens.old rowlinks.old rowstrides.old) scratch.new
        (lists rowhops.new rowlens.new rowlinks.new rowstrides.new)) build_numbers result }
{
    let entries = Entries { value, length, hop };
    let mut rows = RowsMut {
        hop: rowhops,
        length: rowlens,
        link: rowlinks,
        stride: rowstrides,
    };
    gateway::hongsamuk_build(
        Kind::Variable,
        width,
        levels,
        links,
        entries,
        scratch,
        &mut rows,
    )
}
