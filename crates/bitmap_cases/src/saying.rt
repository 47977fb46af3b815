// What is printed of a build and of its rows.
use printing::put_all;
use std::io;
use visits::{Bitmap, Supernodes};

pub(crate) fn say_record(out: &impl Print, record: Bitmap) -> io::Result<()> {
    let width = record.width;
    let supernodes = record.supernodes;
    let hops = record.hops;
    print!(out; " width {width} supernodes {supernodes} hops {hops}")
}

// The marks past the record's counts, as the build should keep them.
pub(crate) fn say_kept(out: &impl Print, record: Bitmap, rows: Supernodes) -> io::Result<()> {
    let from = record.supernodes as usize;
    let internal = cases::count(rows.internal, from, &9);
    let external = cases::count(rows.external, from, &9);
    let child = cases::count(rows.child, from, &9);
    let first = cases::count(rows.first, from, &9);
    let hops = cases::count(rows.hops, record.hops as usize, &9);
    print!(out; " nines {internal} {external} {child} {first} {hops}")
}

// The rows within the record's counts, as far as the shortest list goes, then the hops.
pub(crate) fn print(out: &impl Print, record: Bitmap, rows: Supernodes) -> io::Result<()> {
    print!(out; "rows")?;
    let maps = rows.internal.iter().zip(rows.external);
    let numbers = rows.child.iter().zip(rows.first);
    let all = maps.zip(numbers).take(record.supernodes as usize);
    for ((internal, external), (child, first)) in all {
        print!(out; " {internal}/{external}/{child}/{first}")?;
    }
    print!(out; " hops")?;
    put_all(out, cases::front(rows.hops, record.hops as usize))
}
