// A list is filled with one number, a mark, before a call: how often it stands there after, from a place on, shows what the call kept.
ghost use Rattle.std.specs.Prelude.{◌≡◌, count_by, drop};

pub fn count<T: PartialEq>(list: &[T], from: usize, mark: &T) -> usize
    ensures { result ≡ count_by (λ y. T.eq y mark.now) (drop from list.now) }
{
    let mut n = 0;
    for y in list.get(from..).unwrap_or(&[]) {
        n += usize::from(y == mark);
    }
    n
}
