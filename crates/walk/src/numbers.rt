// What a lookup finds. It ends with this and not with an `Answer`: whether there is a route, and whether it discards, is hard to
// foresee, and so there is no jump on it. And the same in numbers, as C is told it.
ghost use Rattle.std.specs.Prelude.{◌≡◌};
ghost use Rattle.walk.specs.Answers.{answer, answer_numbers};
ghost use Rattle.walk.specs.Cases.{Refused};
ghost use Rattle.walk.specs.Told.{found_numbers, lookup_refusal_number, numbers_of};
ghost use Rattle.walk.specs.Packed.{unpacked, IsPacked};

use crate::limits::HOPS;

// Why a lookup refuses: 1, 2, 8 and 9. (Not table's `Refusal`: with a field in the error a lookup takes 30 to 60 in a hundred longer.)
#[derive(Clone, Copy, Debug, PartialEq, Eq)]
pub enum LookupRefusal {
    Width,
    Levels,
    Address,
    Damage,
}

impl LookupRefusal {
    pub fn number(self) -> u32
        ensures { result ≡ lookup_refusal_number self }
    {
        match self {
            LookupRefusal::Width => 1,
            LookupRefusal::Levels => 2,
            LookupRefusal::Address => 8,
            LookupRefusal::Damage => 9,
        }
    }
}

// The hop of the longest match, 0 where there is none, its length and the rows read.
#[derive(Clone, Copy, Debug, PartialEq, Eq)]
pub struct Found {
    pub hop: u16,
    pub length: u8,
    pub reads: u32,
}

impl Found {
    // Of a best that is kept in one number: with two a lookup took up to 1.2 times as long.
    pub(crate) fn unpacked(best: u32, reads: u32) -> Found
        requires { IsPacked best }
        ensures { found_numbers result ≡ answer_numbers (answer (unpacked best).hop (unpacked best).len reads) }
    {
        Found {
            hop: (best % HOPS) as u16,
            length: (best / HOPS) as u8,
            reads,
        }
    }
}

#[derive(Clone, Copy, Debug, PartialEq, Eq)]
#[repr(C)]
pub struct AnswerNumbers {
    pub number: u32,
    pub hop: u16,
    pub length: u8,
    pub reads: u32,
}

impl From<Result<Found, LookupRefusal>> for AnswerNumbers {
    ghost from_gives = { λ found numbers. numbers ≡ numbers_of found };

    fn from(found: Result<Found, LookupRefusal>) -> AnswerNumbers {
        match found {
            Ok(Found { hop, length, reads }) => AnswerNumbers {
                number: 0,
                hop,
                length,
                reads,
            },
            Err(refusal) => AnswerNumbers {
                number: refusal.number(),
                hop: 0,
                length: 0,
                reads: 0,
            },
        }
    }
}

// The numbers of a lookup that came to its end, over rows of any layout: any hop, and any length beside it, which no route has not.
pub fn hop_numbers(hop: u16, length: u8, reads: u32) -> AnswerNumbers
    ensures { result ≡ answer_numbers (answer hop length reads) }
{
    AnswerNumbers {
        number: 0,
        hop,
        length: if hop == 0 { 0 } else { length },
        reads,
    }
}

// Those of a refused lookup: any number, no hop, no length and 0 reads.
pub fn refusal_numbers(number: u32) -> AnswerNumbers
    ensures { result ≡ answer_numbers (Refused number) }
{
    AnswerNumbers {
        number,
        hop: 0,
        length: 0,
        reads: 0,
    }
}
