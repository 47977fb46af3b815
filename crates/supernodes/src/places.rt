// One supernode's places: the links of its own 15 nodes and of the 16 where its children begin, in level order, 0 where none stands.
// Place i + 1 stands on side i % 2 of place i / 2.
ghost use Rattle.supernodes.specs.Spots.{all_places, PlaceAsk, PlacesFound};

use crate::limits::PLACES;
use crate::nodes::asked;

// The places of the supernode whose first node has the link k.
pub(crate) fn places(rows: &[u64], k: usize) -> [usize; PLACES]
    requires { PlaceAsk rows.now k }
    ensures { PlacesFound rows.now k all_places result }
{
    let mut p = [0usize; PLACES];
    p[0] = k;
    for i in 0..PLACES - 1 {
        let v = asked(rows, p[i / 2], i % 2);
        p[i + 1] = v;
    }
    p
}
