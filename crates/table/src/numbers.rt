// How lent memory is cleared.
ghost use Rattle.std.specs.Prelude.{◌≡◌, length, replicate};

// Sets all of a list to 0, a part row at its end included. It is the library's `fill`, whose clause is of any element's type: here once the
// equation that each build rests on.
pub fn zero(rows: &mut [u64])
    ensures { rows.new ≡ replicate (length rows.old) 0 }
{
    rows.fill(0);
}
