// What a case lends of its room: the first n places of a list, or all of it.
ghost use Rattle.std.specs.Prelude.{◌≡◌, take};

pub fn front<T>(list: &[T], n: usize) -> &[T]
    ensures { result.now ≡ take n list.now }
{
    list.get(..n).unwrap_or(list)
}

pub fn front_mut<T>(list: &mut [T], n: usize) -> &mut [T]
    ensures { result.now ≡ take n list.old }
{
    let n = n.min(list.len());
    &mut list[..n]
}
